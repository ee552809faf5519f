//! Looks at the next token, and reads single tokens, for the parsers of expressions and of files.
//!
//! Each function that reads is proved to answer what a reader of `sr_expr_reader` does.
#![tactic(auto)]

mod reading;

pub use reading::{
    ReadFail, arm_may_follow, name, next_is_name, next_is_separator, next_is_sign, next_is_word,
    separator, sign, sign_after, word,
};
