//! The engine on one thread: it asks the processes in turn, and the machine carries out what they ask.
#![tactic(auto)]

mod aside;
mod carrying;
mod change;
mod crew;
mod crowd;
pub mod laws;
mod member;
mod pass;
mod plain;
mod plainly;
mod ready;
mod rounds;
mod tried;
mod variable;
mod waiters;
mod waking;

pub use plain::Plain;
pub use plainly::Plainly;
pub use rounds::{Passes, Rounds};
