//! The instances of components and the machines that they stand on.
//!
//! Instances are found by name, and a global by its component and machine, in tables that no contract mentions.
#![tactic(auto)]

mod laws;
mod places;
mod state;
mod tables;

pub use laws::{first_global_stays, state_is_of_one};
pub use places::Places;
pub use state::State;
