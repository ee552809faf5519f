//! The pending invocations of a world, in the order in which they arrived.
#![tactic(auto)]

mod class;
mod dividing;
mod index;
mod laws;
mod pending;
mod queue;

pub use class::{Class, class_of};
pub use laws::{arrival_adds_one, departure_takes_one};
pub use pending::Pending;
pub use queue::{MOST_PENDING, Queue};
