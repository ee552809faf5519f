//! Reads source files from tokens.
//!
//! Each function is proved to answer what a reader of `sr_program_reader` does.
#![tactic(auto)]

mod after;
mod block;
mod by_value;
mod commas;
mod components;
mod declaration;
mod ends;
mod heads;
mod items;
mod lists;
mod parts;
mod program;
mod quantifier;
mod simple;
mod spec;
mod statement;
mod words;

pub use program::parse;
pub use sr_program_reader::one_file;
