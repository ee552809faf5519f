//! A list in blocks, whose items leave anywhere at little cost.
#![tactic(auto)]

mod blocks;
mod line;
mod search;
mod taking;

pub use line::Line;
pub use search::HasNumber;
pub use taking::take_at;
