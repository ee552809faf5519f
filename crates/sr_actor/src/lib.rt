//! What the machine needs of a process that runs, however it runs, and the processes that have begun.
#![tactic(auto)]

mod actor;
mod crew;
mod member;

pub use actor::Actor;
pub use crew::begin_once;
pub use member::Member;
