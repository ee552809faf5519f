//! What the code of a program asks, for the cases.
#![tactic(auto)]

mod running;

pub use running::code_asks;
