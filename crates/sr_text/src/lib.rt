//! Where a source text is refused and why, and the lines of its bytes.
#![tactic(auto)]

mod refusal;
mod source_map;

pub use refusal::{FrontFail, Kind, Refusal};
pub use source_map::SourceMap;
