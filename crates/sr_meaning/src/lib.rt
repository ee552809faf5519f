//! What a process of an SR program asks: the definition, and laws that follow from it.
#![tactic(auto)]

mod ending;
pub mod laws;

pub use ending::Ending;
