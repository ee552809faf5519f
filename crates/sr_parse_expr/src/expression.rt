ghost use Rattle.std.specs.Prelude.{◌<◌, ◌≤◌, length, IfOk};
ghost use Rattle.sr_parse_expr.specs.Reads.{ReadsBelow, ReadsUpTo};
ghost use Rattle.sr_expr_reader.specs.Readers.{arguments_at, array_at, bracketed_at, call_at, converted_at, create_at, enclosed_at, factor_at, index_at, more_arguments_at, more_parts_at, next_argument_at, next_part_at, on_at, operand_at, operation_at, operators_at, part_at, primary_at, repeated_part_at, second_at, signed_at, start_at, suffix_at, suffixes_at};
ghost use Rattle.sr_tree.specs.Tables.{right_level};

use crate::operators::{
    level_to_the_right, next_is_conversion, next_is_operator, next_is_unary, read_binary,
    read_conversion, read_literal, read_unary,
};
use crate::pieces::{
    basic_word, field, next_is_call, next_is_suffix, pending, qualified_name, single_part,
};
use sr_parse_tokens::{
    ReadFail, name, next_is_name, next_is_sign, next_is_word, sign, sign_after, word,
};
use sr_tree::{BasicType, BinaryOperator, Create, Expr, Invocation, Part, Sign, Token, Word};
use sr_value::{Boxed, Row, Span};
use std::alloc::Global;

/// The level of the loosest expressions.
pub const LOOSEST: u8 = 5;

/// Reads an expression after a token.
#[cycle(expressions)]
pub fn expression(alloc: Global, tokens: &[Token]) -> Result<(Expr, &[Token]), ReadFail>
    ensures reads { ReadsBelow (λ x. (x.0, x.1.now)) tokens.now result (λ r. r.operand 5) }
    ensures shorter { IfOk result (λ x. length x.1.now < length tokens.now) }
{
    operand(alloc, LOOSEST, tokens)
}

/// Reads the operand to the right of an operator.
#[cycle(expressions)]
fn right_operand(
    alloc: Global,
    operator: BinaryOperator,
    tokens: &[Token],
) -> Result<(Expr, &[Token]), ReadFail>
    ensures reads { ReadsBelow (λ x. (x.0, x.1.now)) tokens.now result (λ r. r.operand (right_level operator)) }
    ensures shorter { IfOk result (λ x. length x.1.now < length tokens.now) }
{
    operand(alloc, level_to_the_right(operator), tokens)
}

/// Reads the factor after a sign.
#[cycle(expressions)]
fn signed_factor(alloc: Global, tokens: &[Token]) -> Result<(Expr, &[Token]), ReadFail>
    ensures reads { ReadsBelow (λ x. (x.0, x.1.now)) tokens.now result (λ r. r.factor) }
    ensures shorter { IfOk result (λ x. length x.1.now < length tokens.now) }
{
    factor(alloc, tokens)
}

/// Reads the machine that an instance is made on.
#[cycle(expressions)]
fn host(alloc: Global, tokens: &[Token]) -> Result<(Expr, &[Token]), ReadFail>
    ensures reads { ReadsBelow (λ x. (x.0, x.1.now)) tokens.now result (λ r. r.primary) }
    ensures shorter { IfOk result (λ x. length x.1.now < length tokens.now) }
{
    primary(alloc, tokens)
}

/// Reads an expression of a level.
#[cycle(expressions)]
#[tactic(auto, unfolding(sr_expr_reader::specs::Readers::operand_at))]
pub fn operand(alloc: Global, limit: u8, tokens: &[Token]) -> Result<(Expr, &[Token]), ReadFail>
    ensures reads { ReadsUpTo (λ x. (x.0, x.1.now)) tokens.now result (λ r. operand_at r limit) }
    ensures shorter { IfOk result (λ x. length x.1.now < length tokens.now) }
{
    let (first, rest) = factor(alloc, tokens)?;
    operators(alloc, limit, first, rest)
}

/// Reads operators within a level, each with its right operand, after an expression.
#[cycle(expressions)]
#[tactic(auto, unfolding(sr_expr_reader::specs::Readers::operators_at))]
fn operators(
    alloc: Global,
    limit: u8,
    first: Expr,
    tokens: &[Token],
) -> Result<(Expr, &[Token]), ReadFail>
    ensures reads { ReadsUpTo (λ x. (x.0, x.1.now)) tokens.now result (λ r. operators_at r limit first) }
    ensures shorter { IfOk result (λ x. length x.1.now ≤ length tokens.now) }
{
    let mut left = first;
    let mut rest = tokens;
    'more: while next_is_operator(limit, &left, rest) {
        let (whole, after) = operation(alloc, left, rest)?;
        left = whole;
        rest = after;
    }
    Ok((left, rest))
}

/// Reads an operator and its right operand after the left one.
#[cycle(expressions)]
#[tactic(auto, unfolding(sr_expr_reader::specs::Readers::operation_at))]
fn operation(alloc: Global, left: Expr, tokens: &[Token]) -> Result<(Expr, &[Token]), ReadFail>
    ensures reads { ReadsUpTo (λ x. (x.0, x.1.now)) tokens.now result (λ r. operation_at r left) }
    ensures shorter { IfOk result (λ x. length x.1.now < length tokens.now) }
{
    let span = left.span();
    let left = Boxed::new(alloc, left)?;
    let (operator, rest) = read_binary(tokens)?;
    let (right, rest) = right_operand(alloc, operator, rest)?;
    let right = Boxed::new(alloc, right)?;
    Ok((
        Expr::Binary {
            span,
            left,
            operator,
            right,
        },
        rest,
    ))
}

/// Reads a factor: what operators stand between.
#[cycle(expressions)]
#[tactic(auto, unfolding(sr_expr_reader::specs::Readers::factor_at))]
fn factor(alloc: Global, tokens: &[Token]) -> Result<(Expr, &[Token]), ReadFail>
    ensures reads { ReadsUpTo (λ x. (x.0, x.1.now)) tokens.now result (λ r. factor_at r) }
    ensures shorter { IfOk result (λ x. length x.1.now < length tokens.now) }
{
    if next_is_word(tokens, Word::Create) {
        let (create, rest) = create(alloc, tokens)?;
        Ok((Expr::Create(create), rest))
    } else if next_is_unary(tokens) {
        signed(alloc, tokens)
    } else if next_is_sign(tokens, Sign::Query) {
        pending(alloc, tokens)
    } else {
        primary(alloc, tokens)
    }
}

/// Reads `-`, `+` or `not` and its factor.
#[cycle(expressions)]
#[tactic(auto, unfolding(sr_expr_reader::specs::Readers::signed_at))]
fn signed(alloc: Global, tokens: &[Token]) -> Result<(Expr, &[Token]), ReadFail>
    ensures reads { ReadsUpTo (λ x. (x.0, x.1.now)) tokens.now result (λ r. signed_at r) }
    ensures shorter { IfOk result (λ x. length x.1.now < length tokens.now) }
{
    let ((span, operator), rest) = read_unary(tokens)?;
    let (operand, rest) = signed_factor(alloc, rest)?;
    let operand = Boxed::new(alloc, operand)?;
    Ok((
        Expr::Unary {
            span,
            operator,
            operand,
        },
        rest,
    ))
}

/// Reads the making of an instance or of a machine.
#[cycle(expressions)]
#[tactic(auto, unfolding(sr_expr_reader::specs::Readers::create_at))]
pub fn create(alloc: Global, tokens: &[Token]) -> Result<(Create, &[Token]), ReadFail>
    ensures reads { ReadsUpTo (λ x. (x.0, x.1.now)) tokens.now result (λ r. create_at r) }
    ensures shorter { IfOk result (λ x. length x.1.now < length tokens.now) }
{
    let (span, rest) = word(tokens, Word::Create)?;
    if next_is_word(rest, Word::Vm) {
        let (_, rest) = word(rest, Word::Vm)?;
        let (_, rest) = sign(rest, Sign::OpenParen)?;
        let (_, rest) = sign(rest, Sign::CloseParen)?;
        Ok((Create::Machine { span }, rest))
    } else {
        let (resource, rest) = qualified_name(alloc, rest)?;
        let (arguments, rest) = arguments(alloc, rest)?;
        let (machine, rest) = on_machine(alloc, rest)?;
        Ok((
            Create::Resource {
                span,
                resource,
                arguments,
                machine,
            },
            rest,
        ))
    }
}

/// Reads `on` and a machine, where they stand.
#[cycle(expressions)]
#[tactic(auto, unfolding(sr_expr_reader::specs::Readers::on_at))]
fn on_machine(alloc: Global, tokens: &[Token]) -> Result<(Option<Boxed<Expr>>, &[Token]), ReadFail>
    ensures reads { ReadsUpTo (λ x. (x.0, x.1.now)) tokens.now result (λ r. on_at r) }
    ensures shorter { IfOk result (λ x. length x.1.now ≤ length tokens.now) }
{
    if next_is_word(tokens, Word::On) {
        let (_, rest) = word(tokens, Word::On)?;
        let (machine, rest) = host(alloc, rest)?;
        Ok((Some(Boxed::new(alloc, machine)?), rest))
    } else {
        Ok((None, tokens))
    }
}

/// Reads a primary: a start and what continues it.
#[cycle(expressions)]
#[tactic(auto, unfolding(sr_expr_reader::specs::Readers::primary_at))]
pub fn primary(alloc: Global, tokens: &[Token]) -> Result<(Expr, &[Token]), ReadFail>
    ensures reads { ReadsUpTo (λ x. (x.0, x.1.now)) tokens.now result (λ r. primary_at r) }
    ensures shorter { IfOk result (λ x. length x.1.now < length tokens.now) }
{
    let (start, rest) = start(alloc, tokens)?;
    suffixes(alloc, start, rest)
}

/// Reads what a primary begins with.
#[cycle(expressions)]
#[tactic(auto, unfolding(sr_expr_reader::specs::Readers::start_at))]
fn start(alloc: Global, tokens: &[Token]) -> Result<(Expr, &[Token]), ReadFail>
    ensures reads { ReadsUpTo (λ x. (x.0, x.1.now)) tokens.now result (λ r. start_at r) }
    ensures shorter { IfOk result (λ x. length x.1.now < length tokens.now) }
{
    if next_is_conversion(tokens) {
        converted(alloc, tokens)
    } else if next_is_sign(tokens, Sign::OpenParen) {
        bracketed(alloc, tokens)
    } else if next_is_name(tokens) {
        let (name, rest) = name(alloc, tokens)?;
        Ok((Expr::Name(name), rest))
    } else if next_is_word(tokens, Word::Bool) {
        let (span, rest) = word(tokens, Word::Bool)?;
        Ok((
            Expr::BasicType {
                span,
                basic: BasicType::Bool,
            },
            rest,
        ))
    } else {
        let ((span, literal), rest) = read_literal(alloc, tokens)?;
        Ok((Expr::Literal { span, literal }, rest))
    }
}

/// Reads a conversion, or the word `int` or `char` alone.
#[cycle(expressions)]
#[tactic(auto, unfolding(sr_expr_reader::specs::Readers::converted_at))]
fn converted(alloc: Global, tokens: &[Token]) -> Result<(Expr, &[Token]), ReadFail>
    ensures reads { ReadsUpTo (λ x. (x.0, x.1.now)) tokens.now result (λ r. converted_at r) }
    ensures shorter { IfOk result (λ x. length x.1.now < length tokens.now) }
{
    let ((span, conversion), rest) = read_conversion(tokens)?;
    if next_is_sign(rest, Sign::OpenParen) {
        let ((_, value), rest) = enclosed(alloc, rest)?;
        let value = Boxed::new(alloc, value)?;
        Ok((
            Expr::Conversion {
                span,
                conversion,
                value,
            },
            rest,
        ))
    } else {
        basic_word(span, conversion, rest)
    }
}

/// Reads an expression in parentheses. It has the span of the opening parenthesis.
#[cycle(expressions)]
#[tactic(auto, unfolding(sr_expr_reader::specs::Readers::enclosed_at))]
pub fn enclosed(alloc: Global, tokens: &[Token]) -> Result<((Span, Expr), &[Token]), ReadFail>
    ensures reads { ReadsUpTo (λ x. (x.0, x.1.now)) tokens.now result (λ r. enclosed_at r) }
    ensures shorter { IfOk result (λ x. length x.1.now < length tokens.now) }
{
    let (span, rest) = sign(tokens, Sign::OpenParen)?;
    let (inner, rest) = expression(alloc, rest)?;
    let (_, inner, rest) = sign_after(inner, rest, Sign::CloseParen)?;
    Ok(((span, inner), rest))
}

/// Reads an expression in parentheses, or an array of parts.
#[cycle(expressions)]
#[tactic(auto, unfolding(sr_expr_reader::specs::Readers::bracketed_at))]
fn bracketed(alloc: Global, tokens: &[Token]) -> Result<(Expr, &[Token]), ReadFail>
    ensures reads { ReadsUpTo (λ x. (x.0, x.1.now)) tokens.now result (λ r. bracketed_at r) }
    ensures shorter { IfOk result (λ x. length x.1.now < length tokens.now) }
{
    let (span, rest) = sign(tokens, Sign::OpenParen)?;
    if next_is_sign(rest, Sign::OpenBracket) {
        let (first, rest) = repeated_part(alloc, rest)?;
        let mut parts = Row::new(alloc);
        parts.push(first)?;
        return array(alloc, span, parts, rest);
    }
    let (inner, rest) = expression(alloc, rest)?;
    if next_is_sign(rest, Sign::Comma) {
        let mut parts = Row::new(alloc);
        parts.push(single_part(alloc, inner)?)?;
        let (parts, rest) = next_part(alloc, parts, rest)?;
        return array(alloc, span, parts, rest);
    }
    let inner = Boxed::new(alloc, inner)?;
    let (_, rest) = sign(rest, Sign::CloseParen)?;
    Ok((Expr::Group { span, inner }, rest))
}

/// Reads the rest of an array after its first parts.
#[cycle(expressions)]
#[tactic(auto, unfolding(sr_expr_reader::specs::Readers::array_at))]
fn array(
    alloc: Global,
    span: Span,
    first: Row<Part>,
    tokens: &[Token],
) -> Result<(Expr, &[Token]), ReadFail>
    ensures reads { ReadsUpTo (λ x. (x.0, x.1.now)) tokens.now result (λ r. array_at r span first) }
    ensures shorter { IfOk result (λ x. length x.1.now < length tokens.now) }
{
    let (parts, rest) = more_parts(alloc, first, tokens)?;
    let (_, rest) = sign(rest, Sign::CloseParen)?;
    Ok((Expr::Parts { span, parts }, rest))
}

/// Reads a part of an array.
#[cycle(expressions)]
#[tactic(auto, unfolding(sr_expr_reader::specs::Readers::part_at))]
fn part(alloc: Global, tokens: &[Token]) -> Result<(Part, &[Token]), ReadFail>
    ensures reads { ReadsBelow (λ x. (x.0, x.1.now)) tokens.now result (λ r. part_at r) }
    ensures shorter { IfOk result (λ x. length x.1.now < length tokens.now) }
{
    if next_is_sign(tokens, Sign::OpenBracket) {
        repeated_part(alloc, tokens)
    } else {
        let (value, rest) = expression(alloc, tokens)?;
        Ok((single_part(alloc, value)?, rest))
    }
}

/// Reads a part of an array that is repeated.
#[cycle(expressions)]
#[tactic(auto, unfolding(sr_expr_reader::specs::Readers::repeated_part_at))]
fn repeated_part(alloc: Global, tokens: &[Token]) -> Result<(Part, &[Token]), ReadFail>
    ensures reads { ReadsUpTo (λ x. (x.0, x.1.now)) tokens.now result (λ r. repeated_part_at r) }
    ensures shorter { IfOk result (λ x. length x.1.now < length tokens.now) }
{
    let (span, rest) = sign(tokens, Sign::OpenBracket)?;
    let (count, rest) = expression(alloc, rest)?;
    let count = Boxed::new(alloc, count)?;
    let (_, rest) = sign(rest, Sign::CloseBracket)?;
    let (value, rest) = expression(alloc, rest)?;
    let value = Boxed::new(alloc, value)?;
    let count = Some(count);
    Ok((Part { span, count, value }, rest))
}

/// Reads further parts, each after a comma.
#[cycle(expressions)]
#[tactic(auto, unfolding(sr_expr_reader::specs::Readers::more_parts_at))]
fn more_parts(
    alloc: Global,
    first: Row<Part>,
    tokens: &[Token],
) -> Result<(Row<Part>, &[Token]), ReadFail>
    ensures reads { ReadsUpTo (λ x. (x.0, x.1.now)) tokens.now result (λ r. more_parts_at r first) }
    ensures shorter { IfOk result (λ x. length x.1.now ≤ length tokens.now) }
{
    let mut parts = first;
    let mut rest = tokens;
    'more: while next_is_sign(rest, Sign::Comma) {
        let (more, after) = next_part(alloc, parts, rest)?;
        parts = more;
        rest = after;
    }
    Ok((parts, rest))
}

/// Reads a comma and a part, and appends it.
#[cycle(expressions)]
#[tactic(auto, unfolding(sr_expr_reader::specs::Readers::next_part_at))]
fn next_part(
    alloc: Global,
    parts: Row<Part>,
    tokens: &[Token],
) -> Result<(Row<Part>, &[Token]), ReadFail>
    ensures reads { ReadsUpTo (λ x. (x.0, x.1.now)) tokens.now result (λ r. next_part_at r parts) }
    ensures shorter { IfOk result (λ x. length x.1.now < length tokens.now) }
{
    let mut parts = parts;
    let (_, rest) = sign(tokens, Sign::Comma)?;
    let (next, rest) = part(alloc, rest)?;
    parts.push(next)?;
    Ok((parts, rest))
}

/// Reads fields, indices and calls after a start.
#[cycle(expressions)]
#[tactic(auto, unfolding(sr_expr_reader::specs::Readers::suffixes_at))]
fn suffixes(alloc: Global, start: Expr, tokens: &[Token]) -> Result<(Expr, &[Token]), ReadFail>
    ensures reads { ReadsUpTo (λ x. (x.0, x.1.now)) tokens.now result (λ r. suffixes_at r start) }
    ensures shorter { IfOk result (λ x. length x.1.now ≤ length tokens.now) }
{
    let mut primary = start;
    let mut rest = tokens;
    'more: while next_is_suffix(&primary, rest) {
        let (whole, after) = suffix(alloc, primary, rest)?;
        primary = whole;
        rest = after;
    }
    Ok((primary, rest))
}

/// Reads a field, an index or a call after a primary.
#[cycle(expressions)]
#[tactic(auto, unfolding(sr_expr_reader::specs::Readers::suffix_at))]
fn suffix(alloc: Global, primary: Expr, tokens: &[Token]) -> Result<(Expr, &[Token]), ReadFail>
    ensures reads { ReadsUpTo (λ x. (x.0, x.1.now)) tokens.now result (λ r. suffix_at r primary) }
    ensures shorter { IfOk result (λ x. length x.1.now < length tokens.now) }
{
    let primary = Boxed::new(alloc, primary)?;
    if next_is_sign(tokens, Sign::Point) {
        field(alloc, primary, tokens)
    } else if next_is_sign(tokens, Sign::OpenBracket) {
        index(alloc, primary, tokens)
    } else if next_is_call(primary.get(), tokens) {
        call(alloc, primary, tokens)
    } else {
        Err(ReadFail::Unexpected { left: tokens.len() })
    }
}

/// Reads one or two indices in brackets after a primary.
#[cycle(expressions)]
#[tactic(auto, unfolding(sr_expr_reader::specs::Readers::index_at))]
fn index(alloc: Global, array: Boxed<Expr>, tokens: &[Token]) -> Result<(Expr, &[Token]), ReadFail>
    ensures reads { ReadsUpTo (λ x. (x.0, x.1.now)) tokens.now result (λ r. index_at r array) }
    ensures shorter { IfOk result (λ x. length x.1.now < length tokens.now) }
{
    let span = array.get().span();
    let (_, rest) = sign(tokens, Sign::OpenBracket)?;
    let (first, rest) = expression(alloc, rest)?;
    let first = Boxed::new(alloc, first)?;
    let (second, rest) = second_index(alloc, rest)?;
    let (_, second, rest) = sign_after(second, rest, Sign::CloseBracket)?;
    Ok((
        Expr::Index {
            span,
            array,
            first,
            second,
        },
        rest,
    ))
}

/// Reads a comma and an expression, where they stand.
#[cycle(expressions)]
#[tactic(auto, unfolding(sr_expr_reader::specs::Readers::second_at))]
fn second_index(
    alloc: Global,
    tokens: &[Token],
) -> Result<(Option<Boxed<Expr>>, &[Token]), ReadFail>
    ensures reads { ReadsUpTo (λ x. (x.0, x.1.now)) tokens.now result (λ r. second_at r) }
    ensures shorter { IfOk result (λ x. length x.1.now ≤ length tokens.now) }
{
    if next_is_sign(tokens, Sign::Comma) {
        let (_, rest) = sign(tokens, Sign::Comma)?;
        let (second, rest) = expression(alloc, rest)?;
        Ok((Some(Boxed::new(alloc, second)?), rest))
    } else {
        Ok((None, tokens))
    }
}

/// Reads arguments in parentheses after a primary.
#[cycle(expressions)]
#[tactic(auto, unfolding(sr_expr_reader::specs::Readers::call_at))]
fn call(alloc: Global, callee: Boxed<Expr>, tokens: &[Token]) -> Result<(Expr, &[Token]), ReadFail>
    ensures reads { ReadsUpTo (λ x. (x.0, x.1.now)) tokens.now result (λ r. call_at r callee) }
    ensures shorter { IfOk result (λ x. length x.1.now < length tokens.now) }
{
    let span = callee.get().span();
    let (arguments, rest) = arguments(alloc, tokens)?;
    Ok((
        Expr::Call(Invocation {
            span,
            callee,
            arguments,
        }),
        rest,
    ))
}

/// Reads arguments in parentheses.
#[cycle(expressions)]
#[tactic(auto, unfolding(sr_expr_reader::specs::Readers::arguments_at))]
pub fn arguments(alloc: Global, tokens: &[Token]) -> Result<(Row<Expr>, &[Token]), ReadFail>
    ensures reads { ReadsUpTo (λ x. (x.0, x.1.now)) tokens.now result (λ r. arguments_at r) }
    ensures shorter { IfOk result (λ x. length x.1.now < length tokens.now) }
{
    let (_, rest) = sign(tokens, Sign::OpenParen)?;
    if next_is_sign(rest, Sign::CloseParen) {
        let (_, rest) = sign(rest, Sign::CloseParen)?;
        return Ok((Row::new(alloc), rest));
    }
    let (argument, rest) = expression(alloc, rest)?;
    let mut first = Row::new(alloc);
    first.push(argument)?;
    let (arguments, rest) = more_arguments(alloc, first, rest)?;
    let (_, rest) = sign(rest, Sign::CloseParen)?;
    Ok((arguments, rest))
}

/// Reads further arguments, each after a comma.
#[cycle(expressions)]
#[tactic(auto, unfolding(sr_expr_reader::specs::Readers::more_arguments_at))]
pub fn more_arguments(
    alloc: Global,
    first: Row<Expr>,
    tokens: &[Token],
) -> Result<(Row<Expr>, &[Token]), ReadFail>
    ensures reads { ReadsUpTo (λ x. (x.0, x.1.now)) tokens.now result (λ r. more_arguments_at r first) }
    ensures shorter { IfOk result (λ x. length x.1.now ≤ length tokens.now) }
{
    let mut arguments = first;
    let mut rest = tokens;
    'more: while next_is_sign(rest, Sign::Comma) {
        let (more, after) = next_argument(alloc, arguments, rest)?;
        arguments = more;
        rest = after;
    }
    Ok((arguments, rest))
}

/// Reads a comma and an argument, and appends it.
#[cycle(expressions)]
#[tactic(auto, unfolding(sr_expr_reader::specs::Readers::next_argument_at))]
pub fn next_argument(
    alloc: Global,
    arguments: Row<Expr>,
    tokens: &[Token],
) -> Result<(Row<Expr>, &[Token]), ReadFail>
    ensures reads { ReadsUpTo (λ x. (x.0, x.1.now)) tokens.now result (λ r. next_argument_at r arguments) }
    ensures shorter { IfOk result (λ x. length x.1.now < length tokens.now) }
{
    let mut arguments = arguments;
    let (_, rest) = sign(tokens, Sign::Comma)?;
    let (next, rest) = expression(alloc, rest)?;
    arguments.push(next)?;
    Ok((arguments, rest))
}
