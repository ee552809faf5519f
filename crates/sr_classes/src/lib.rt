//! The classes of operations: which operations wait in one line.
#![tactic(auto)]

mod forest;
mod laws;
mod sites;

pub use laws::least_classes;
pub use sites::partition;
