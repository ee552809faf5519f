//! A canonical text says the same as its source.
//!
//! There are only laws, which do nothing.
#![tactic(auto)]

mod laws;

pub use laws::keeps_its_source;
