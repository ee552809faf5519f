ghost use Rattle.std.specs.Prelude.{◌≡◌, ◌<◌, ◌≤◌, length, IfOk};
ghost use Rattle.sr_parse_tokens.specs.Gives.{Gives};
ghost use Rattle.sr_parse_expr.specs.Reads.{ReadsUpTo};
ghost use Rattle.sr_program_reader.specs.StatementReaders.{by_at, condition_at, enclosed_names_at, invocation_at, invocation_of, invoked_at, named_at, optional_names_at, places_at, returned_name_at, status_at, such_that_at};

use crate::after::let_go;
use crate::commas::{Joined, list_from};
use crate::words::{next_is_condition, read_condition_word};
use sr_parse_expr::declared::names;
use sr_parse_expr::expression::{LOOSEST, operand, primary};
use sr_parse_tokens::{
    ReadFail, name, next_is_name, next_is_sign, next_is_word, sign, sign_after, word,
};
use sr_tree::{ArmCondition, Expr, Invocation, Name, Sign, Token, Word};
use sr_value::Row;
use std::alloc::Global;

/// Reads a primary that begins with a name.
#[tactic(auto, unfolding(sr_program_reader::specs::StatementReaders::named_at))]
pub fn named(alloc: Global, tokens: &[Token]) -> Result<(Expr, &[Token]), ReadFail>
    ensures reads { ReadsUpTo (λ x. (x.0, x.1.now)) tokens.now result (λ r. named_at r) }
    ensures shorter { IfOk result (λ x. length x.1.now < length tokens.now) }
{
    if next_is_name(tokens) {
        primary(alloc, tokens)
    } else {
        Err(ReadFail::Unexpected { left: tokens.len() })
    }
}

/// The invocation that a primary is; refused at what stands after it where it is none.
#[tactic(auto, unfolding(sr_program_reader::specs::StatementReaders::invoked_at))]
pub fn invoked(primary: Expr, tokens: &[Token]) -> Result<(Invocation, &[Token]), ReadFail>
    ensures reads { Gives (λ x. (x.0, x.1.now)) result (invoked_at (invocation_of primary) tokens.now) }
    ensures rest { IfOk result (λ x. x.1.now ≡ tokens.now) }
{
    match primary {
        Expr::Call(invocation) => Ok((invocation, tokens)),
        other => {
            let_go(other);
            Err(ReadFail::Unexpected { left: tokens.len() })
        }
    }
}

/// Reads an invocation: a primary that ends in arguments.
#[tactic(auto, unfolding(sr_program_reader::specs::StatementReaders::invocation_at))]
pub fn invocation(alloc: Global, tokens: &[Token]) -> Result<(Invocation, &[Token]), ReadFail>
    ensures reads { ReadsUpTo (λ x. (x.0, x.1.now)) tokens.now result (λ r. invocation_at r) }
    ensures shorter { IfOk result (λ x. length x.1.now < length tokens.now) }
{
    let (primary, rest) = primary(alloc, tokens)?;
    invoked(primary, rest)
}

/// Reads an expression in parentheses, where they stand.
#[tactic(auto, unfolding(sr_program_reader::specs::StatementReaders::status_at))]
pub fn status(alloc: Global, tokens: &[Token]) -> Result<(Option<Expr>, &[Token]), ReadFail>
    ensures reads { ReadsUpTo (λ x. (x.0, x.1.now)) tokens.now result (λ r. status_at r) }
    ensures shorter { IfOk result (λ x. length x.1.now ≤ length tokens.now) }
{
    if next_is_sign(tokens, Sign::OpenParen) {
        let (_, rest) = sign(tokens, Sign::OpenParen)?;
        let (status, rest) = operand(alloc, LOOSEST, rest)?;
        let (_, status, rest) = sign_after(status, rest, Sign::CloseParen)?;
        Ok((Some(status), rest))
    } else {
        Ok((None, tokens))
    }
}

/// Reads places in parentheses.
#[tactic(auto, unfolding(sr_program_reader::specs::StatementReaders::places_at, sr_program_reader::specs::StatementReaders::more_places_at, sr_program_reader::specs::StatementReaders::next_place_at, crate::specs::Commas::more_at, crate::specs::Commas::next_at))]
pub fn places(alloc: Global, tokens: &[Token]) -> Result<(Row<Expr>, &[Token]), ReadFail>
    ensures reads { ReadsUpTo (λ x. (x.0, x.1.now)) tokens.now result (λ r. places_at r) }
    ensures shorter { IfOk result (λ x. length x.1.now < length tokens.now) }
{
    let (_, rest) = sign(tokens, Sign::OpenParen)?;
    if next_is_sign(rest, Sign::CloseParen) {
        let (_, rest) = sign(rest, Sign::CloseParen)?;
        return Ok((Row::new(alloc), rest));
    }
    let (place, rest) = primary(alloc, rest)?;
    let (places, rest) = list_from::<Expr, PlaceList>(alloc, place, rest)?;
    let (_, places, rest) = sign_after(places, rest, Sign::CloseParen)?;
    Ok((places, rest))
}

/// Places with commas between.
struct PlaceList;

impl Joined<Expr> for PlaceList {
    ghost use Rattle.sr_expr_reader.proofs.Yields.{steps-readers};
    ghost use Rattle.sr_expr_reader.specs.Readers.{primary_at, readers};

    ghost reader = { λ k. primary_at (readers k) };

    ghost steps = { λ k. (readers k).steps };

    ghost bounded = { steps-readers };

    fn item(alloc: Global, tokens: &[Token]) -> Result<(Expr, &[Token]), ReadFail> {
        primary(alloc, tokens)
    }
}

/// Reads `by` and an expression after a tree, where they stand, and hands the tree back.
#[tactic(auto, unfolding(sr_program_reader::specs::StatementReaders::by_at))]
pub fn by<T: Drop>(
    alloc: Global,
    tree: T,
    tokens: &[Token],
) -> Result<(T, Option<Expr>, &[Token]), ReadFail>
    ensures reads { ReadsUpTo (λ x. (x.1, x.2.now)) tokens.now result (λ r. by_at r) }
    ensures kept { IfOk result (λ x. x.0 ≡ tree) }
    ensures shorter { IfOk result (λ x. length x.2.now ≤ length tokens.now) }
{
    if next_is_word(tokens, Word::By) {
        let (_, rest) = word(tokens, Word::By)?;
        let (step, rest) = operand(alloc, LOOSEST, rest)?;
        Ok((tree, Some(step), rest))
    } else {
        Ok((tree, None, tokens))
    }
}

/// Reads `st` and an expression after a tree, where they stand, and hands the tree back.
#[tactic(auto, unfolding(sr_program_reader::specs::StatementReaders::such_that_at))]
pub fn such_that<T: Drop>(
    alloc: Global,
    tree: T,
    tokens: &[Token],
) -> Result<(T, Option<Expr>, &[Token]), ReadFail>
    ensures reads { ReadsUpTo (λ x. (x.1, x.2.now)) tokens.now result (λ r. such_that_at r) }
    ensures kept { IfOk result (λ x. x.0 ≡ tree) }
    ensures shorter { IfOk result (λ x. length x.2.now ≤ length tokens.now) }
{
    if next_is_word(tokens, Word::St) {
        let (_, rest) = word(tokens, Word::St)?;
        let (condition, rest) = operand(alloc, LOOSEST, rest)?;
        Ok((tree, Some(condition), rest))
    } else {
        Ok((tree, None, tokens))
    }
}

/// Reads names, where they stand.
#[tactic(auto, unfolding(sr_program_reader::specs::StatementReaders::optional_names_at))]
fn optional_names(alloc: Global, tokens: &[Token]) -> Result<(Row<Name>, &[Token]), ReadFail>
    ensures reads { ReadsUpTo (λ x. (x.0, x.1.now)) tokens.now result (λ r. optional_names_at r) }
    ensures shorter { IfOk result (λ x. length x.1.now ≤ length tokens.now) }
{
    if next_is_name(tokens) {
        names(alloc, tokens)
    } else {
        Ok((Row::new(alloc), tokens))
    }
}

/// Reads names in parentheses.
#[tactic(auto, unfolding(sr_program_reader::specs::StatementReaders::enclosed_names_at))]
pub fn enclosed_names(alloc: Global, tokens: &[Token]) -> Result<(Row<Name>, &[Token]), ReadFail>
    ensures reads { ReadsUpTo (λ x. (x.0, x.1.now)) tokens.now result (λ r. enclosed_names_at r) }
    ensures shorter { IfOk result (λ x. length x.1.now < length tokens.now) }
{
    let (_, rest) = sign(tokens, Sign::OpenParen)?;
    let (names, rest) = optional_names(alloc, rest)?;
    let (_, rest) = sign(rest, Sign::CloseParen)?;
    Ok((names, rest))
}

/// Reads `returns` and a name, where they stand.
#[tactic(auto, unfolding(sr_program_reader::specs::StatementReaders::returned_name_at))]
pub fn returned_name(alloc: Global, tokens: &[Token]) -> Result<(Option<Name>, &[Token]), ReadFail>
    ensures reads { Gives (λ x. (x.0, x.1.now)) result (returned_name_at tokens.now) }
    ensures shorter { IfOk result (λ x. length x.1.now ≤ length tokens.now) }
{
    if next_is_word(tokens, Word::Returns) {
        let (_, rest) = word(tokens, Word::Returns)?;
        let (returned, rest) = name(alloc, rest)?;
        Ok((Some(returned), rest))
    } else {
        Ok((None, tokens))
    }
}

/// Reads the condition of an arm, where one stands.
#[tactic(auto, unfolding(sr_program_reader::specs::StatementReaders::condition_at))]
pub fn condition(
    alloc: Global,
    tokens: &[Token],
) -> Result<(Option<ArmCondition>, &[Token]), ReadFail>
    ensures reads { ReadsUpTo (λ x. (x.0, x.1.now)) tokens.now result (λ r. condition_at r) }
    ensures shorter { IfOk result (λ x. length x.1.now ≤ length tokens.now) }
{
    if next_is_condition(tokens) {
        let ((span, word), rest) = read_condition_word(tokens)?;
        let (condition, rest) = operand(alloc, LOOSEST, rest)?;
        Ok((
            Some(ArmCondition {
                span,
                word,
                condition,
            }),
            rest,
        ))
    } else {
        Ok((None, tokens))
    }
}
