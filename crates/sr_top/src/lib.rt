//! What the program `sr` does, from its words to its status.
#![tactic(auto)]

mod compiling;
mod diag;
mod host;
mod input;
mod journal;
mod laying_out;
mod listing;
mod obeying;
mod outcome;
mod placing;
mod preparing;
mod program;
mod putting;
mod question;
mod racing;
mod reading;
mod recorded;
mod replaying;
mod report;
mod told_files;
mod top;
mod tracing;

pub use host::run_host;
pub use report::{Ending, LimitKind, Report, Side};
pub use sr_run::Stretch;
pub use top::sr_top;
