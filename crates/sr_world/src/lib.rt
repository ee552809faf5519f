//! The machine of SR: a world, and what each request of a process does to it.
#![tactic(auto)]

mod act;
mod acted;
mod answering;
mod caller;
mod closing;
mod deciding;
mod duty;
mod ending;
mod ends;
mod input;
mod invoking;
pub mod laws;
mod lending;
mod making;
mod places;
mod quiet;
mod reading;
mod reads;
mod ready;
pub mod run_laws;
mod seeing;
mod selecting;
mod starting;
mod storing;
mod tokens;
mod used;
mod world;

pub use acted::Acted;
pub use ends::End;
pub use lending::Loan;
pub use starting::Running;
pub use world::World;
