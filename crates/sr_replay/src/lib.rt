//! Replays the items of a run: the state after any of them, or the first that is no step.
#![tactic(auto)]

mod carrying;
mod crew;
mod lines;
mod names;
mod naming;
mod replayer;
mod shown;
mod snapshot;
mod texts;
mod waiting;
mod whole;

pub use replayer::Replayer;
pub use snapshot::{ShownInstance, ShownProcess, Snapshot};
pub use texts::snapshot_text;
pub use whole::{Replayed, replay};
