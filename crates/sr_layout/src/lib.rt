//! A source file in the one style: it is read as far as its tree, and laid out; or it is refused.
#![tactic(auto)]

mod laying;

pub use laying::laid_out;
