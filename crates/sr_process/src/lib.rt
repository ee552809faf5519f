//! A process: it runs flat code to its next request.
#![tactic(auto)]

mod actor;
mod copies;
mod entry;
mod operands;
mod process;
mod together;

pub use process::Process;
