//! Pieces of a source read the same whatever follows them, unless its first byte goes on with them.
//!
//! There are only laws, which do nothing.
#![tactic(auto)]

mod laws;

pub use laws::read_alone;
