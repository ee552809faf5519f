//! What the literals of a source text stand for.
#![tactic(auto)]

mod number;
mod string;

pub use number::number_of;
pub use string::string_of;
