//! A process that runs by the reference interpreter: it keeps its answers, and asks what the interpreter asks after them.
#![tactic(auto)]

mod tree_actor;

pub use tree_actor::TreeActor;
