//! The shared variables of a world, by block.
#![tactic(auto)]

mod block;
mod blocks;
mod bucket;
mod laws;
mod part;
mod variable;

pub use blocks::Blocks;
pub use bucket::Bucket;
pub use laws::{load_after_store, store_is_to_one_variable};
pub use variable::Variable;
