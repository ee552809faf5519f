//! Files of cases: their texts, what is wanted of them, and how many differ from that.
#![tactic(auto)]

mod case_file;
mod escape;
mod refusals;
mod tally;

pub use case_file::{Case, CaseFile, cases_in, push_line};
pub use escape::{push_byte, push_bytes, unescaped};
pub use refusals::{lexed, tell_fail, tell_refusal};
pub use tally::Tally;
