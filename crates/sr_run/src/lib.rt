//! A whole run: what the engine makes item by item, with input from a source and output into a sink; and with several
//! workers the stretches between its items.
#![tactic(auto)]

mod advance;
mod end;
mod in_rounds;
mod intake;
mod items;
mod laws;
mod stretch;
mod taking;
mod whole;

pub use end::{LimitKind, Run, RunEnd};
pub use in_rounds::run_in_rounds;
pub use laws::one_cause;
pub use stretch::Stretch;
pub use whole::run;
