ghost use Rattle.std.specs.Prelude.{◌≡◌, ◌<◌, ◌≤◌, length, None, IfOk};
ghost use Rattle.sr_parse_expr.specs.Reads.{ReadsUpTo};
ghost use Rattle.sr_parser.specs.ArmReaders.{arm_head_at, arm_head_after_at, called_head_at, co_head_at, primary_head_at, quantified_head_at, target_head_at};
ghost use Rattle.sr_program_reader.specs.StatementReaders.{co_start_at, first_of};

use crate::after::{invocation_after, let_go, word_after};
use crate::parts::{by, condition, enclosed_names, invoked, named, returned_name};
use crate::quantifier::enclosed_quantifiers;
use sr_parse_expr::expression::primary;
use sr_parse_tokens::{ReadFail, name, next_is_sign, next_is_word, sign_after};
use sr_tree::{ArmCondition, Expr, Invocation, Name, Quantifier, Sign, Token, Word};
use sr_value::{Row, Span};
use std::alloc::Global;

/// What stands before the block of an arm of `in`.
#[derive(Drop)]
pub struct ArmHead {
    pub operation: Name,
    pub formals: Row<Name>,
    pub returned: Option<Name>,
    pub condition: Option<ArmCondition>,
    pub order: Option<Expr>,
}

/// What stands before the block of an arm of `co`.
#[derive(Drop)]
pub struct CoHead {
    pub span: Span,
    pub quantifiers: Row<Quantifier>,
    pub target: Option<Expr>,
    pub with_call: bool,
    pub invocation: Invocation,
}

/// Reads an arm of `in` up to its block.
#[tactic(auto, unfolding(crate::specs::ArmReaders::arm_head_at, crate::specs::ArmReaders::arm_head_after_at))]
pub fn arm_head(alloc: Global, tokens: &[Token]) -> Result<(ArmHead, &[Token]), ReadFail>
    ensures reads { ReadsUpTo (λ x. (x.0, x.1.now)) tokens.now result (λ r. arm_head_at r) }
    ensures shorter { IfOk result (λ x. length x.1.now < length tokens.now) }
{
    let (operation, rest) = name(alloc, tokens)?;
    let (formals, rest) = enclosed_names(alloc, rest)?;
    arm_head_after(alloc, operation, formals, rest)
}

/// Reads an arm of `in` from after its formals up to its block.
#[tactic(auto, unfolding(crate::specs::ArmReaders::arm_head_after_at))]
fn arm_head_after(
    alloc: Global,
    operation: Name,
    formals: Row<Name>,
    tokens: &[Token],
) -> Result<(ArmHead, &[Token]), ReadFail>
    ensures reads { ReadsUpTo (λ x. (x.0, x.1.now)) tokens.now result (λ r. arm_head_after_at r operation formals) }
    ensures shorter { IfOk result (λ x. length x.1.now ≤ length tokens.now) }
{
    let (returned, rest) = returned_name(alloc, tokens)?;
    let (condition, rest) = condition(alloc, rest)?;
    let ((operation, formals, returned, condition), order, rest) = by(
        alloc,
        (operation, formals, returned, condition),
        rest,
    )?;
    Ok((
        ArmHead {
            operation,
            formals,
            returned,
            condition,
            order,
        },
        rest,
    ))
}

/// Reads an arm of `co` from the word `call` on, up to its block.
#[tactic(auto, unfolding(crate::specs::ArmReaders::called_head_at))]
fn called_head(
    alloc: Global,
    start: Option<Span>,
    quantifiers: Row<Quantifier>,
    target: Option<Expr>,
    tokens: &[Token],
) -> Result<(CoHead, &[Token]), ReadFail>
    ensures reads { ReadsUpTo (λ x. (x.0, x.1.now)) tokens.now result (λ r. called_head_at r start quantifiers target) }
    ensures shorter { IfOk result (λ x. length x.1.now < length tokens.now) }
{
    let (span, before, rest) = word_after((quantifiers, target), tokens, Word::Call)?;
    let ((quantifiers, target), invocation, rest) = invocation_after(alloc, before, rest)?;
    let span = first_of(start, span);
    let with_call = true;
    Ok((
        CoHead {
            span,
            quantifiers,
            target,
            with_call,
            invocation,
        },
        rest,
    ))
}

/// Reads an arm of `co` from after its target and `:=` up to its block.
#[tactic(auto, unfolding(crate::specs::ArmReaders::target_head_at))]
fn target_head(
    alloc: Global,
    span: Span,
    quantifiers: Row<Quantifier>,
    target: Expr,
    tokens: &[Token],
) -> Result<(CoHead, &[Token]), ReadFail>
    ensures reads { ReadsUpTo (λ x. (x.0, x.1.now)) tokens.now result (λ r. target_head_at r span quantifiers target) }
    ensures shorter { IfOk result (λ x. length x.1.now < length tokens.now) }
{
    if next_is_word(tokens, Word::Call) {
        called_head(alloc, Some(span), quantifiers, Some(target), tokens)
    } else {
        let ((quantifiers, target), invocation, rest) = invocation_after(
            alloc,
            (quantifiers, target),
            tokens,
        )?;
        let target = Some(target);
        let with_call = false;
        Ok((
            CoHead {
                span,
                quantifiers,
                target,
                with_call,
                invocation,
            },
            rest,
        ))
    }
}

/// Reads the first primary of an arm of `co`: any after what stands before, and else one that begins with a name.
#[tactic(auto, unfolding(sr_program_reader::specs::StatementReaders::co_start_at))]
fn first_primary(
    alloc: Global,
    before: Option<Span>,
    tokens: &[Token],
) -> Result<(Expr, &[Token]), ReadFail>
    ensures reads { ReadsUpTo (λ x. (x.0, x.1.now)) tokens.now result (λ r. co_start_at before r) }
    ensures shorter { IfOk result (λ x. length x.1.now < length tokens.now) }
{
    match before {
        None => named(alloc, tokens),
        Some(_) => primary(alloc, tokens),
    }
}

/// Reads an arm of `co` from its target or its invocation on, up to its block.
#[tactic(auto, unfolding(crate::specs::ArmReaders::primary_head_at))]
fn primary_head(
    alloc: Global,
    start: Option<Span>,
    quantifiers: Row<Quantifier>,
    tokens: &[Token],
) -> Result<(CoHead, &[Token]), ReadFail>
    ensures reads { ReadsUpTo (λ x. (x.0, x.1.now)) tokens.now result (λ r. primary_head_at r start quantifiers) }
    ensures shorter { IfOk result (λ x. length x.1.now < length tokens.now) }
{
    let (primary, rest) = first_primary(alloc, start, tokens)?;
    let span = first_of(start, primary.span());
    if next_is_sign(rest, Sign::Assign) {
        let (_, (quantifiers, target), rest) = sign_after(
            (quantifiers, primary),
            rest,
            Sign::Assign,
        )?;
        target_head(alloc, span, quantifiers, target, rest)
    } else {
        match invoked(primary, rest) {
            Ok((invocation, rest)) => {
                let target = None;
                let with_call = false;
                Ok((
                    CoHead {
                        span,
                        quantifiers,
                        target,
                        with_call,
                        invocation,
                    },
                    rest,
                ))
            }
            Err(fail) => {
                let_go(quantifiers);
                Err(fail)
            }
        }
    }
}

/// Reads an arm of `co` from after its quantifiers up to its block.
#[tactic(auto, unfolding(crate::specs::ArmReaders::quantified_head_at))]
fn quantified_head(
    alloc: Global,
    start: Option<Span>,
    quantifiers: Row<Quantifier>,
    tokens: &[Token],
) -> Result<(CoHead, &[Token]), ReadFail>
    ensures reads { ReadsUpTo (λ x. (x.0, x.1.now)) tokens.now result (λ r. quantified_head_at r start quantifiers) }
    ensures shorter { IfOk result (λ x. length x.1.now < length tokens.now) }
{
    if next_is_word(tokens, Word::Call) {
        called_head(alloc, start, quantifiers, None, tokens)
    } else {
        primary_head(alloc, start, quantifiers, tokens)
    }
}

/// Reads an arm of `co` up to its block.
#[tactic(auto, unfolding(crate::specs::ArmReaders::co_head_at))]
pub fn co_head(alloc: Global, tokens: &[Token]) -> Result<(CoHead, &[Token]), ReadFail>
    ensures reads { ReadsUpTo (λ x. (x.0, x.1.now)) tokens.now result (λ r. co_head_at r) }
    ensures shorter { IfOk result (λ x. length x.1.now < length tokens.now) }
{
    if next_is_sign(tokens, Sign::OpenParen) {
        let ((span, quantifiers), rest) = enclosed_quantifiers(alloc, tokens)?;
        quantified_head(alloc, Some(span), quantifiers, rest)
    } else {
        quantified_head(alloc, None, Row::new(alloc), tokens)
    }
}

/// The given span, or else the span here.
fn first_of(before: Option<Span>, here: Span) -> Span
    ensures { result ≡ first_of before here }
{
    match before {
        None => here,
        Some(before) => before,
    }
}
