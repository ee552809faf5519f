//! What the parts of the compiler say of cases: of edited texts whether they spell a file, of programs what their names
//! mean, and of processes what they ask.
#![tactic(auto)]

mod answers;
mod asks;
mod edits;
mod names;
mod processes;

pub use edits::tell_edit;
pub use names::tell_names;
pub use processes::tell_process;
