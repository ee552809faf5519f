//! The lexer: the tokens of a source text, and the limits on their nesting.
#![tactic(auto)]

mod byte;
mod laws;
mod lexer;
mod limits;
mod literal;
mod piece;
mod reader;
mod role;
mod symbol;

pub use laws::{one_outcome, one_spelling, tokens_ascend};
pub use lexer::lex;
pub use limits::profile;
pub use piece::{close_in, len_of_line};
pub use sr_tree::{Sign, Token, TokenKind, Tokens, Word};
