//! All hands of a round at work at once, each in a thread of its own.
#![tactic(auto)]

mod threads;

pub use threads::work_all;
