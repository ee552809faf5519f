//! How declarations, statements and components are read from tokens, as a parser of them is stated and proved.
//!
//! `specs/` has a reader for each rule of the grammar, and `proofs/` ties the readers to the grammar. The only
//! functions are laws, which do nothing.
#![tactic(auto)]

mod laws;

pub use laws::{one_file, reads_file};
