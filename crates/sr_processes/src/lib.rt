//! The processes of a world that haven't ended, each with what it was started with.
#![tactic(auto)]

mod processes;

pub use processes::Processes;
