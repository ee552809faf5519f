//! Rows of counts of linked items, as they are computed: the last item that has a number, a column for each process, and a
//! row for each item.
#![tactic(auto)]

mod clocks;
mod columns;
mod lasts;
mod raising;

pub use clocks::Clocks;
pub use columns::Columns;
pub use lasts::Lasts;
