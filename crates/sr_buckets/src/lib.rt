//! In which of 32 parts of a world a thing stands, by its number.
#![tactic(auto)]

mod laws;
mod number;

pub use laws::parts_are_a_map;
pub use number::{PARTS, home};
