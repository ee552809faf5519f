//! Races of a run: accesses of shared variables that conflict, and neither is before the other. And the rows of its trace.
#![tactic(auto)]

mod access;
mod before;
mod laws;
mod link;
mod marks;
mod origins;
mod race;
mod search;
mod spots;
mod tracing;
mod trail;
mod walk;
mod whole;

pub use access::{Access, accesses_by, conflict};
pub use laws::{before_comes_earlier, earlier_items_are_before_too};
pub use link::LinkKind;
pub use race::{Race, Raced};
pub use tracing::{Traces, trace};
pub use whole::{is_too_long, races};
