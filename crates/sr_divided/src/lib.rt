//! Runs on a world that is divided into shards and joined after every item. They are those of a world that stays whole,
//! and their steps change no other parts of it than those that they touch.
#![tactic(auto)]

mod again;
mod elsewhere;
mod follower;
mod watch;

pub use again::divide_and_join;
pub use follower::is_same_run;
