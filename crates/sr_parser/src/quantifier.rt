ghost use Rattle.std.specs.Prelude.{◌<◌, ◌≤◌, length, IfOk};
ghost use Rattle.sr_parse_expr.specs.Reads.{ReadsUpTo};
ghost use Rattle.sr_program_reader.specs.StatementReaders.{enclosed_quantifiers_at, optional_quantifiers_at, quantifier_at, quantifiers_at};

use crate::after::expression_after;
use crate::commas::{Joined, list_from};
use crate::parts::{by, such_that};
use crate::words::read_direction;
use sr_parse_expr::expression::{LOOSEST, operand};
use sr_parse_tokens::{ReadFail, name, next_is_sign, sign, sign_after};
use sr_tree::{Quantifier, Sign, Token};
use sr_value::{Row, Span};
use std::alloc::Global;

/// Quantifiers with commas between.
struct QuantifierList;

impl Joined<Quantifier> for QuantifierList {
    ghost use Rattle.sr_expr_reader.proofs.Yields.{steps-readers};
    ghost use Rattle.sr_expr_reader.specs.Readers.{readers};

    ghost reader = { λ k. quantifier_at (readers k) };

    ghost steps = { λ k. (readers k).steps };

    ghost bounded = { steps-readers };

    #[tactic(auto, unfolding(sr_program_reader::specs::StatementReaders::quantifier_at))]
    fn item(alloc: Global, tokens: &[Token]) -> Result<(Quantifier, &[Token]), ReadFail> {
        let (name, rest) = name(alloc, tokens)?;
        let span = name.span;
        let (_, rest) = sign(rest, Sign::Assign)?;
        let (first, rest) = operand(alloc, LOOSEST, rest)?;
        let (before, direction, rest) = read_direction((name, first), rest)?;
        let (before, last, rest) = expression_after(alloc, before, rest)?;
        let (before, step, rest) = by(alloc, (before, last), rest)?;
        let ((before, step), such_that, rest) = such_that(alloc, (before, step), rest)?;
        let ((name, first), last) = before;
        Ok((
            Quantifier {
                span,
                name,
                first,
                direction,
                last,
                step,
                such_that,
            },
            rest,
        ))
    }
}

/// Reads quantifiers with commas between.
#[tactic(auto, unfolding(sr_program_reader::specs::StatementReaders::quantifiers_at, sr_program_reader::specs::StatementReaders::more_quantifiers_at, sr_program_reader::specs::StatementReaders::next_quantifier_at, crate::specs::Commas::more_at, crate::specs::Commas::next_at))]
pub fn quantifiers(alloc: Global, tokens: &[Token]) -> Result<(Row<Quantifier>, &[Token]), ReadFail>
    ensures reads { ReadsUpTo (λ x. (x.0, x.1.now)) tokens.now result (λ r. quantifiers_at r) }
    ensures shorter { IfOk result (λ x. length x.1.now < length tokens.now) }
{
    let (first, rest) = QuantifierList::item(alloc, tokens)?;
    list_from::<Quantifier, QuantifierList>(alloc, first, rest)
}

/// Reads quantifiers in parentheses, and gives the span of the opening one too.
#[tactic(auto, unfolding(sr_program_reader::specs::StatementReaders::enclosed_quantifiers_at))]
pub fn enclosed_quantifiers(
    alloc: Global,
    tokens: &[Token],
) -> Result<((Span, Row<Quantifier>), &[Token]), ReadFail>
    ensures reads { ReadsUpTo (λ x. (x.0, x.1.now)) tokens.now result (λ r. enclosed_quantifiers_at r) }
    ensures shorter { IfOk result (λ x. length x.1.now < length tokens.now) }
{
    let (span, rest) = sign(tokens, Sign::OpenParen)?;
    let (quantifiers, rest) = quantifiers(alloc, rest)?;
    let (_, quantifiers, rest) = sign_after(quantifiers, rest, Sign::CloseParen)?;
    Ok(((span, quantifiers), rest))
}

/// Reads quantifiers in parentheses, where they stand.
#[tactic(auto, unfolding(sr_program_reader::specs::StatementReaders::optional_quantifiers_at))]
pub fn optional_quantifiers(
    alloc: Global,
    tokens: &[Token],
) -> Result<(Row<Quantifier>, &[Token]), ReadFail>
    ensures reads { ReadsUpTo (λ x. (x.0, x.1.now)) tokens.now result (λ r. optional_quantifiers_at r) }
    ensures shorter { IfOk result (λ x. length x.1.now ≤ length tokens.now) }
{
    if next_is_sign(tokens, Sign::OpenParen) {
        let ((_, quantifiers), rest) = enclosed_quantifiers(alloc, tokens)?;
        Ok((quantifiers, rest))
    } else {
        Ok((Row::new(alloc), tokens))
    }
}
