//! The text of a run: what a journal holds, how it is written, and how it is read.
#![tactic(auto)]

mod fail;
mod header;
mod name;
mod number;
mod reading;
mod writing;

pub use fail::JournalFail;
pub use header::Header;
pub use reading::read_journal;
pub use writing::write_journal;
