ghost use Rattle.std.specs.Prelude.{◌≡◌, ◌<◌, ◌≤◌, length, IfOk};
ghost use Rattle.sr_reader.specs.Reader.{next_is};
ghost use Rattle.sr_parse_expr.specs.Reads.{ReadsTypeUpTo};
ghost use Rattle.sr_program_reader.specs.ComponentReaders.{is_mode_by_place, more_value_formals_at, next_value_formal_at, optional_value_formals_at, value_formal_at, value_formals_at};

use crate::after::{let_go, pushed, row_of, separator_after};
use sr_parse_expr::types::formal;
use sr_parse_tokens::{ReadFail, next_is_separator, next_is_sign, next_is_word, sign, sign_after};
use sr_tree::{Formal, Sign, Token, Word};
use sr_value::Row;
use std::alloc::Global;

/// Whether the next token is a word that passes a formal otherwise than by value.
fn next_is_mode_by_place(tokens: &[Token]) -> bool
    ensures { result ≡ next_is (λ t. is_mode_by_place t.kind) tokens.now }
{
    next_is_word(tokens, Word::Var) || next_is_word(tokens, Word::Res)
}

/// Reads formals of one type that are passed by value.
#[tactic(auto, unfolding(sr_program_reader::specs::ComponentReaders::value_formal_at))]
fn value_formal(alloc: Global, tokens: &[Token]) -> Result<(Formal, &[Token]), ReadFail>
    ensures reads { ReadsTypeUpTo (λ x. (x.0, x.1.now)) tokens.now result (λ r. value_formal_at r) }
    ensures shorter { IfOk result (λ x. length x.1.now < length tokens.now) }
{
    if next_is_mode_by_place(tokens) {
        Err(ReadFail::Unexpected { left: tokens.len() })
    } else {
        formal(alloc, tokens)
    }
}

/// Reads further such formals, each after a separator.
#[tactic(auto, unfolding(sr_program_reader::specs::ComponentReaders::more_value_formals_at))]
fn more_value_formals(
    alloc: Global,
    first: Row<Formal>,
    tokens: &[Token],
) -> Result<(Row<Formal>, &[Token]), ReadFail>
    ensures reads { ReadsTypeUpTo (λ x. (x.0, x.1.now)) tokens.now result (λ r. more_value_formals_at r first) }
    ensures shorter { IfOk result (λ x. length x.1.now ≤ length tokens.now) }
{
    let mut formals = first;
    let mut rest = tokens;
    'more: while next_is_separator(rest) {
        let (more, after) = next_value_formal(alloc, formals, rest)?;
        formals = more;
        rest = after;
    }
    Ok((formals, rest))
}

/// Reads a separator and such formals, and appends them.
#[tactic(auto, unfolding(sr_program_reader::specs::ComponentReaders::next_value_formal_at))]
fn next_value_formal(
    alloc: Global,
    formals: Row<Formal>,
    tokens: &[Token],
) -> Result<(Row<Formal>, &[Token]), ReadFail>
    ensures reads { ReadsTypeUpTo (λ x. (x.0, x.1.now)) tokens.now result (λ r. next_value_formal_at r formals) }
    ensures shorter { IfOk result (λ x. length x.1.now < length tokens.now) }
{
    let (_, formals, rest) = separator_after(formals, tokens)?;
    match value_formal(alloc, rest) {
        Ok((next, rest)) => Ok((pushed(formals, next)?, rest)),
        Err(fail) => {
            let_go(formals);
            Err(fail)
        }
    }
}

/// Reads formals in parentheses that are passed by value.
#[tactic(auto, unfolding(sr_program_reader::specs::ComponentReaders::value_formals_at))]
pub fn value_formals(alloc: Global, tokens: &[Token]) -> Result<(Row<Formal>, &[Token]), ReadFail>
    ensures reads { ReadsTypeUpTo (λ x. (x.0, x.1.now)) tokens.now result (λ r. value_formals_at r) }
    ensures shorter { IfOk result (λ x. length x.1.now < length tokens.now) }
{
    let (_, rest) = sign(tokens, Sign::OpenParen)?;
    if next_is_sign(rest, Sign::CloseParen) {
        let (_, rest) = sign(rest, Sign::CloseParen)?;
        return Ok((Row::new(alloc), rest));
    }
    let (formal, rest) = value_formal(alloc, rest)?;
    let first = row_of(alloc, formal)?;
    let (formals, rest) = more_value_formals(alloc, first, rest)?;
    let (_, formals, rest) = sign_after(formals, rest, Sign::CloseParen)?;
    Ok((formals, rest))
}

/// Reads such formals, where they stand.
#[tactic(auto, unfolding(sr_program_reader::specs::ComponentReaders::optional_value_formals_at))]
fn optional_value_formals(
    alloc: Global,
    tokens: &[Token],
) -> Result<(Row<Formal>, &[Token]), ReadFail>
    ensures reads { ReadsTypeUpTo (λ x. (x.0, x.1.now)) tokens.now result (λ r. optional_value_formals_at r) }
    ensures shorter { IfOk result (λ x. length x.1.now ≤ length tokens.now) }
{
    if next_is_sign(tokens, Sign::OpenParen) {
        value_formals(alloc, tokens)
    } else {
        Ok((Row::new(alloc), tokens))
    }
}

/// Reads such formals after a tree, where they stand.
pub fn optional_value_formals_after<T: Drop>(
    alloc: Global,
    tree: T,
    tokens: &[Token],
) -> Result<(T, Row<Formal>, &[Token]), ReadFail>
    ensures reads { ReadsTypeUpTo (λ x. (x.1, x.2.now)) tokens.now result (λ r. optional_value_formals_at r) }
    ensures kept { IfOk result (λ x. x.0 ≡ tree) }
    ensures shorter { IfOk result (λ x. length x.2.now ≤ length tokens.now) }
{
    let (formals, rest) = optional_value_formals(alloc, tokens)?;
    Ok((tree, formals, rest))
}
