ghost use Rattle.std.specs.Prelude.{◌≡◌, ◌<◌, length, IfOk};
ghost use Rattle.sr_reader.specs.Reader.{next_is};
ghost use Rattle.sr_tree.specs.Expressions.{expr_span, is_conversion_word, part};
ghost use Rattle.sr_parse_tokens.specs.Gives.{Gives};
ghost use Rattle.sr_expr_reader.specs.Readers.{field_at, is_callable, is_suffix, pending_at, qualified_at, unconverted_at};

use sr_parse_tokens::{ReadFail, name, next_is_sign, sign};
use sr_tree::{BasicType, Conversion, Expr, Part, QualifiedName, Sign, Token};
use sr_value::{Boxed, NoMemory, Span};
use std::alloc::Global;

/// Reads a name, or two with a point between.
#[tactic(auto, unfolding(sr_expr_reader::specs::Readers::qualified_at))]
pub fn qualified_name(
    alloc: Global,
    tokens: &[Token],
) -> Result<(QualifiedName, &[Token]), ReadFail>
    ensures reads { Gives (λ x. (x.0, x.1.now)) result (qualified_at tokens.now) }
    ensures shorter { IfOk result (λ x. length x.1.now < length tokens.now) }
{
    let (first, rest) = name(alloc, tokens)?;
    let span = first.span;
    if next_is_sign(rest, Sign::Point) {
        let (_, rest) = sign(rest, Sign::Point)?;
        let (second, rest) = name(alloc, rest)?;
        let second = Some(second);
        Ok((
            QualifiedName {
                span,
                first,
                second,
            },
            rest,
        ))
    } else {
        let second = None;
        Ok((
            QualifiedName {
                span,
                first,
                second,
            },
            rest,
        ))
    }
}

/// Reads `?` and the name of an operation.
#[tactic(auto, unfolding(sr_expr_reader::specs::Readers::pending_at))]
pub fn pending(alloc: Global, tokens: &[Token]) -> Result<(Expr, &[Token]), ReadFail>
    ensures reads { Gives (λ x. (x.0, x.1.now)) result (pending_at tokens.now) }
    ensures shorter { IfOk result (λ x. length x.1.now < length tokens.now) }
{
    let (span, rest) = sign(tokens, Sign::Query)?;
    let (operation, rest) = name(alloc, rest)?;
    Ok((Expr::Pending { span, operation }, rest))
}

/// Reads a point and a name after a primary.
#[tactic(auto, unfolding(sr_expr_reader::specs::Readers::field_at))]
pub fn field(
    alloc: Global,
    primary: Boxed<Expr>,
    tokens: &[Token],
) -> Result<(Expr, &[Token]), ReadFail>
    ensures reads { Gives (λ x. (x.0, x.1.now)) result (field_at primary tokens.now) }
    ensures shorter { IfOk result (λ x. length x.1.now < length tokens.now) }
{
    let span = primary.get().span();
    let (_, rest) = sign(tokens, Sign::Point)?;
    let (field, rest) = name(alloc, rest)?;
    Ok((
        Expr::Field {
            span,
            record: primary,
            field,
        },
        rest,
    ))
}

/// The word `int` or `char` as an expression; `string` is none.
#[tactic(auto, unfolding(sr_expr_reader::specs::Readers::unconverted_at))]
pub fn basic_word(
    span: Span,
    conversion: Conversion,
    tokens: &[Token],
) -> Result<(Expr, &[Token]), ReadFail>
    ensures reads { Gives (λ x. (x.0, x.1.now)) result (unconverted_at span conversion tokens.now) }
    ensures rest { IfOk result (λ x. x.1.now ≡ tokens.now) }
{
    match conversion {
        Conversion::Int => Ok((
            Expr::BasicType {
                span,
                basic: BasicType::Int,
            },
            tokens,
        )),
        Conversion::Char => Ok((
            Expr::BasicType {
                span,
                basic: BasicType::Char,
            },
            tokens,
        )),
        Conversion::Str => Err(ReadFail::Unexpected { left: tokens.len() }),
    }
}

/// A part of an array that isn't repeated.
pub fn single_part(alloc: Global, value: Expr) -> Result<Part, NoMemory>
    ensures { IfOk result (λ p. p ≡ part (expr_span value) None value) }
{
    let span = value.span();
    let value = Boxed::new(alloc, value)?;
    Ok(Part {
        span,
        count: None,
        value,
    })
}

/// Whether a bracket after this expression is a conversion's: it is the word `int` or `char`.
fn is_conversion_word(primary: &Expr) -> bool
    ensures { result ≡ is_conversion_word primary.now }
{
    match primary {
        Expr::BasicType { basic, .. } => match basic {
            BasicType::Int => true,
            BasicType::Char => true,
            BasicType::Bool => false,
        },
        _ => false,
    }
}

/// Whether the next token opens the arguments of a call.
pub fn next_is_call(primary: &Expr, tokens: &[Token]) -> bool
    ensures { result ≡ next_is (is_callable primary.now) tokens.now }
{
    !is_conversion_word(primary) && next_is_sign(tokens, Sign::OpenParen)
}

/// Whether the next token continues a primary.
pub fn next_is_suffix(primary: &Expr, tokens: &[Token]) -> bool
    ensures { result ≡ next_is (is_suffix primary.now) tokens.now }
{
    next_is_sign(tokens, Sign::Point)
        || next_is_sign(tokens, Sign::OpenBracket)
        || next_is_call(primary, tokens)
}
