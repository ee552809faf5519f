//! Reads expressions and types from tokens.
#![tactic(auto)]

pub mod declared;
pub mod expression;
mod operators;
mod parse;
pub mod pieces;
mod type_words;
pub mod types;

pub use parse::{parse_expr, parse_type, refused};
