ghost use Rattle.std.specs.Prelude.{◌≡◌, ◌<◌, ◌≤◌, length, IfOk};
ghost use Rattle.sr_parse_expr.specs.Reads.{ReadsUpTo};
ghost use Rattle.sr_expr_reader.specs.TypeReaders.{decl_at, decls_at, dims_at, more_decls_at, more_names_at, names_at, next_decl_at, next_name_at, range_at, second_range_at, upper_bound_at};

use crate::expression::{LOOSEST, expression, operand};
use sr_parse_tokens::{ReadFail, name, next_is_sign, sign, sign_after};
use sr_tree::{Decl, DimsTree, Expr, Name, RangeTree, Sign, Token};
use sr_value::{Boxed, Row};
use std::alloc::Global;

/// Reads names with commas between.
#[tactic(auto, unfolding(sr_expr_reader::specs::TypeReaders::names_at))]
pub fn names(alloc: Global, tokens: &[Token]) -> Result<(Row<Name>, &[Token]), ReadFail>
    ensures reads { ReadsUpTo (λ x. (x.0, x.1.now)) tokens.now result (λ r. names_at r) }
    ensures shorter { IfOk result (λ x. length x.1.now < length tokens.now) }
{
    let (first, rest) = name(alloc, tokens)?;
    let mut names = Row::new(alloc);
    names.push(first)?;
    more_names(alloc, names, rest)
}

/// Reads further names, each after a comma.
#[tactic(auto, unfolding(sr_expr_reader::specs::TypeReaders::more_names_at))]
fn more_names(
    alloc: Global,
    first: Row<Name>,
    tokens: &[Token],
) -> Result<(Row<Name>, &[Token]), ReadFail>
    ensures reads { ReadsUpTo (λ x. (x.0, x.1.now)) tokens.now result (λ r. more_names_at r first) }
    ensures shorter { IfOk result (λ x. length x.1.now ≤ length tokens.now) }
{
    let mut names = first;
    let mut rest = tokens;
    'more: while next_is_sign(rest, Sign::Comma) {
        let (more, after) = next_name(alloc, names, rest)?;
        names = more;
        rest = after;
    }
    Ok((names, rest))
}

/// Reads a comma and a name, and appends it.
#[tactic(auto, unfolding(sr_expr_reader::specs::TypeReaders::next_name_at))]
fn next_name(
    alloc: Global,
    names: Row<Name>,
    tokens: &[Token],
) -> Result<(Row<Name>, &[Token]), ReadFail>
    ensures reads { ReadsUpTo (λ x. (x.0, x.1.now)) tokens.now result (λ r. next_name_at names) }
    ensures shorter { IfOk result (λ x. length x.1.now < length tokens.now) }
{
    let mut names = names;
    let (_, rest) = sign(tokens, Sign::Comma)?;
    let (next, rest) = name(alloc, rest)?;
    names.push(next)?;
    Ok((names, rest))
}

/// Reads `:` and an upper bound, or `*`, after a lower bound.
#[tactic(auto, unfolding(sr_expr_reader::specs::TypeReaders::upper_bound_at))]
fn upper_bound(
    alloc: Global,
    low: Expr,
    tokens: &[Token],
) -> Result<(RangeTree, &[Token]), ReadFail>
    ensures reads { ReadsUpTo (λ x. (x.0, x.1.now)) tokens.now result (λ r. upper_bound_at r low) }
    ensures shorter { IfOk result (λ x. length x.1.now < length tokens.now) }
{
    let span = low.span();
    let (_, low, rest) = sign_after(low, tokens, Sign::Colon)?;
    if next_is_sign(rest, Sign::Star) {
        let (_, low, rest) = sign_after(low, rest, Sign::Star)?;
        Ok((RangeTree::From { span, low }, rest))
    } else {
        let (high, rest) = expression(alloc, rest)?;
        Ok((RangeTree::Bounds { span, low, high }, rest))
    }
}

/// Reads the bounds of one dimension.
#[tactic(auto, unfolding(sr_expr_reader::specs::TypeReaders::range_at))]
fn range(alloc: Global, tokens: &[Token]) -> Result<(RangeTree, &[Token]), ReadFail>
    ensures reads { ReadsUpTo (λ x. (x.0, x.1.now)) tokens.now result (λ r. range_at r) }
    ensures shorter { IfOk result (λ x. length x.1.now < length tokens.now) }
{
    if next_is_sign(tokens, Sign::Star) {
        let (span, rest) = sign(tokens, Sign::Star)?;
        return Ok((RangeTree::Any { span }, rest));
    }
    let (low, rest) = operand(alloc, LOOSEST, tokens)?;
    if next_is_sign(rest, Sign::Colon) {
        upper_bound(alloc, low, rest)
    } else {
        let span = low.span();
        Ok((RangeTree::Length { span, length: low }, rest))
    }
}

/// Reads a comma and the bounds of a second dimension, where they stand, and hands the first ones back.
#[tactic(auto, unfolding(sr_expr_reader::specs::TypeReaders::second_range_at))]
fn second_range<T: Drop>(
    alloc: Global,
    first: T,
    tokens: &[Token],
) -> Result<(T, Option<RangeTree>, &[Token]), ReadFail>
    ensures reads { ReadsUpTo (λ x. (x.1, x.2.now)) tokens.now result (λ r. second_range_at r) }
    ensures kept { IfOk result (λ x. x.0 ≡ first) }
    ensures shorter { IfOk result (λ x. length x.2.now ≤ length tokens.now) }
{
    if next_is_sign(tokens, Sign::Comma) {
        let (_, rest) = sign(tokens, Sign::Comma)?;
        let (second, rest) = range(alloc, rest)?;
        Ok((first, Some(second), rest))
    } else {
        Ok((first, None, tokens))
    }
}

/// Reads the dimensions of an array.
#[tactic(auto, unfolding(sr_expr_reader::specs::TypeReaders::dims_at))]
pub fn dims(alloc: Global, tokens: &[Token]) -> Result<(DimsTree, &[Token]), ReadFail>
    ensures reads { ReadsUpTo (λ x. (x.0, x.1.now)) tokens.now result (λ r. dims_at r) }
    ensures shorter { IfOk result (λ x. length x.1.now < length tokens.now) }
{
    let (span, rest) = sign(tokens, Sign::OpenBracket)?;
    let (first, rest) = range(alloc, rest)?;
    let (first, second, rest) = second_range(alloc, first, rest)?;
    let (_, (first, second), rest) = sign_after((first, second), rest, Sign::CloseBracket)?;
    Ok((
        DimsTree {
            span,
            first,
            second,
        },
        rest,
    ))
}

/// Reads the dimensions of an array into a place of their own, where they may wait for what stands after them.
pub fn boxed_dims(alloc: Global, tokens: &[Token]) -> Result<(Boxed<DimsTree>, &[Token]), ReadFail>
    ensures reads { ReadsUpTo (λ x. (x.0, x.1.now)) tokens.now result (λ r. dims_at r) }
    ensures shorter { IfOk result (λ x. length x.1.now < length tokens.now) }
{
    let (dims, rest) = dims(alloc, tokens)?;
    Ok((Boxed::new(alloc, dims)?, rest))
}

/// Reads a name that is declared, with its dimensions where they stand.
#[tactic(auto, unfolding(sr_expr_reader::specs::TypeReaders::decl_at))]
pub fn decl(alloc: Global, tokens: &[Token]) -> Result<(Decl, &[Token]), ReadFail>
    ensures reads { ReadsUpTo (λ x. (x.0, x.1.now)) tokens.now result (λ r. decl_at r) }
    ensures shorter { IfOk result (λ x. length x.1.now < length tokens.now) }
{
    let (name, rest) = name(alloc, tokens)?;
    let span = name.span;
    if next_is_sign(rest, Sign::OpenBracket) {
        let (dims, rest) = dims(alloc, rest)?;
        let dims = Some(dims);
        Ok((Decl { span, name, dims }, rest))
    } else {
        let dims = None;
        Ok((Decl { span, name, dims }, rest))
    }
}

/// Reads a name that is declared into a place of its own, where it may wait for what stands after it.
pub fn boxed_decl(alloc: Global, tokens: &[Token]) -> Result<(Boxed<Decl>, &[Token]), ReadFail>
    ensures reads { ReadsUpTo (λ x. (x.0, x.1.now)) tokens.now result (λ r. decl_at r) }
    ensures shorter { IfOk result (λ x. length x.1.now < length tokens.now) }
{
    let (decl, rest) = decl(alloc, tokens)?;
    Ok((Boxed::new(alloc, decl)?, rest))
}

/// Reads declared names with commas between.
#[tactic(auto, unfolding(sr_expr_reader::specs::TypeReaders::decls_at))]
pub fn decls(alloc: Global, tokens: &[Token]) -> Result<(Row<Decl>, &[Token]), ReadFail>
    ensures reads { ReadsUpTo (λ x. (x.0, x.1.now)) tokens.now result (λ r. decls_at r) }
    ensures shorter { IfOk result (λ x. length x.1.now < length tokens.now) }
{
    let (first, rest) = decl(alloc, tokens)?;
    let mut decls = Row::new(alloc);
    decls.push(first)?;
    more_decls(alloc, decls, rest)
}

/// Reads further declared names, each after a comma.
#[tactic(auto, unfolding(sr_expr_reader::specs::TypeReaders::more_decls_at))]
fn more_decls(
    alloc: Global,
    first: Row<Decl>,
    tokens: &[Token],
) -> Result<(Row<Decl>, &[Token]), ReadFail>
    ensures reads { ReadsUpTo (λ x. (x.0, x.1.now)) tokens.now result (λ r. more_decls_at r first) }
    ensures shorter { IfOk result (λ x. length x.1.now ≤ length tokens.now) }
{
    let mut decls = first;
    let mut rest = tokens;
    'more: while next_is_sign(rest, Sign::Comma) {
        let (more, after) = next_decl(alloc, decls, rest)?;
        decls = more;
        rest = after;
    }
    Ok((decls, rest))
}

/// Reads a comma and a declared name, and appends it.
#[tactic(auto, unfolding(sr_expr_reader::specs::TypeReaders::next_decl_at))]
fn next_decl(
    alloc: Global,
    decls: Row<Decl>,
    tokens: &[Token],
) -> Result<(Row<Decl>, &[Token]), ReadFail>
    ensures reads { ReadsUpTo (λ x. (x.0, x.1.now)) tokens.now result (λ r. next_decl_at r decls) }
    ensures shorter { IfOk result (λ x. length x.1.now < length tokens.now) }
{
    let mut decls = decls;
    let (_, rest) = sign(tokens, Sign::Comma)?;
    let (next, rest) = decl(alloc, rest)?;
    decls.push(next)?;
    Ok((decls, rest))
}
