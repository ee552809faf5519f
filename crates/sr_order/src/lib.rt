//! Where statements, operations, components and names stand in a file: each at a place of its own.
//!
//! `specs/` lists their spans in the order of the text, and `proofs/` shows that these are spans of tokens, each of
//! another token. The only functions are laws, which do nothing.
#![tactic(auto)]

mod laws;

pub use laws::{names_are_picked, picked_in_order, spans_are_picked};
