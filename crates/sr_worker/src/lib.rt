//! What a worker does: it asks its processes in turn, a desk carries out what they ask, and each step is written down.
#![tactic(auto)]

mod desk;
mod hand;
mod job;
mod notes;
mod player;
mod weight;

pub use desk::{Desk, Desked};
pub use hand::Hand;
pub use job::{Job, work};
pub use notes::{Notes, Worker};
pub use player::Player;
