//! A program with code that asks what its core asks.
#![tactic(auto)]

mod compiled;

pub use compiled::Compiled;
