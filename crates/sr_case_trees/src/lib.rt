//! What the lexer and the parsers say of the texts of cases.
#![tactic(auto)]

mod expr_printer;
mod fragments;
mod limits;
mod spelling;
mod tokens;
mod type_printer;

pub use fragments::{Fragment, on_lines, tell_fragment};
pub use limits::tell_limits;
pub use tokens::tell_tokens;
