//! The one style of a source file: its text with the same tokens and comments, laid out by their kinds.
#![tactic(auto)]

mod blank;
mod gap;
mod marks;
mod pen;
mod printer;
mod printing;
mod role;
mod starts;
mod told;

pub use printing::canonical;
