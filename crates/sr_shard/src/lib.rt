//! A step of the machine as acts, each on one of the 32 parts of a world.
#![tactic(auto)]

mod change;
mod divided;
mod laws;
mod portion;
mod present;
mod shard;
mod shard_laws;
mod splitting;

pub use change::Change;
pub use laws::{
    acts_are_local, entries_are_a_run, entries_are_items, entries_are_steps, entries_in_any_order,
    journals_are_a_history, steps_are_local, steps_have_entries, touched_parts_are_all,
};
pub use shard::{Opening, Shard};
pub use shard_laws::{joining_undoes_dividing, shards_have_a_history};
pub use splitting::{split, unsplit};
