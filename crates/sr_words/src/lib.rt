//! The words of the command line, and the command that they give.
#![tactic(auto)]

mod arguments;
mod command;
mod number;
mod options;
mod read;
mod verb;

pub use command::{Command, WordsFail};
pub use read::read_words;
