//! A canonical text comes back: it has tokens that spell the tree of its source.
//!
//! There are only laws, which do nothing.
#![tactic(auto)]

mod laws;

pub use laws::comes_back;
