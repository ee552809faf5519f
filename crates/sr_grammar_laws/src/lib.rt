//! Laws of the grammar: tokens with other spans spell the same trees but for spans.
//!
//! There are only laws, which do nothing.
#![tactic(auto)]

mod laws;

pub use laws::spell_the_same;
