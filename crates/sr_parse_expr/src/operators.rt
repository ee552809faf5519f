ghost use Rattle.std.specs.Prelude.{◌≡◌, ◌<◌, length, is_some, IfOk};
ghost use Rattle.sr_reader.specs.Reader.{next_is};
ghost use Rattle.sr_tree.specs.Tables.{binary_of, conversion_of, left_level, literal_of, right_level, unary_of};
ghost use Rattle.sr_parse_tokens.specs.Gives.{Gives};
ghost use Rattle.sr_expr_reader.specs.Readers.{binary_at, conversion_at, is_operator, level_of, literal_at, unary_at};

use sr_parse_tokens::ReadFail;
use sr_tree::{
    BinaryOperator, Conversion, Expr, Literal, Sign, Token, TokenKind, UnaryOperator, Word,
};
use sr_value::{Duplicate, NoMemory, Span};
use std::alloc::Global;

/// The operator between two operands that a token is.
pub fn binary_operator(kind: TokenKind) -> Option<BinaryOperator>
    ensures { result ≡ binary_of kind }
{
    match kind {
        TokenKind::Sign(Sign::Equal) => Some(BinaryOperator::Equal),
        TokenKind::Sign(Sign::NotEqual) => Some(BinaryOperator::NotEqual),
        TokenKind::Sign(Sign::Less) => Some(BinaryOperator::Less),
        TokenKind::Sign(Sign::LessEqual) => Some(BinaryOperator::LessEqual),
        TokenKind::Sign(Sign::Greater) => Some(BinaryOperator::Greater),
        TokenKind::Sign(Sign::GreaterEqual) => Some(BinaryOperator::GreaterEqual),
        TokenKind::Sign(Sign::Plus) => Some(BinaryOperator::Plus),
        TokenKind::Sign(Sign::Minus) => Some(BinaryOperator::Minus),
        TokenKind::Sign(Sign::Join) => Some(BinaryOperator::Join),
        TokenKind::Sign(Sign::Star) => Some(BinaryOperator::Times),
        TokenKind::Sign(Sign::Slash) => Some(BinaryOperator::Divide),
        TokenKind::Sign(Sign::Percent) => Some(BinaryOperator::Remainder),
        TokenKind::Word(Word::Or) => Some(BinaryOperator::Or),
        TokenKind::Word(Word::Xor) => Some(BinaryOperator::Xor),
        TokenKind::Word(Word::And) => Some(BinaryOperator::And),
        TokenKind::Word(Word::Mod) => Some(BinaryOperator::Modulo),
        _ => None,
    }
}

/// The loosest level of an expression to the right of an operator; its own level is the next one.
pub fn level_to_the_right(operator: BinaryOperator) -> u8
    ensures { result ≡ right_level operator }
{
    match operator {
        BinaryOperator::Or | BinaryOperator::Xor => 4,
        BinaryOperator::And => 3,
        BinaryOperator::Equal
        | BinaryOperator::NotEqual
        | BinaryOperator::Less
        | BinaryOperator::LessEqual
        | BinaryOperator::Greater
        | BinaryOperator::GreaterEqual => 2,
        BinaryOperator::Plus | BinaryOperator::Minus | BinaryOperator::Join => 1,
        BinaryOperator::Times
        | BinaryOperator::Divide
        | BinaryOperator::Remainder
        | BinaryOperator::Modulo => 0,
    }
}

/// The loosest level of an expression to the left of an operator: its own, but comparisons don't group.
pub fn level_to_the_left(operator: BinaryOperator) -> u8
    ensures { result ≡ left_level operator }
{
    match operator {
        BinaryOperator::Or | BinaryOperator::Xor => 5,
        BinaryOperator::And => 4,
        BinaryOperator::Equal
        | BinaryOperator::NotEqual
        | BinaryOperator::Less
        | BinaryOperator::LessEqual
        | BinaryOperator::Greater
        | BinaryOperator::GreaterEqual
        | BinaryOperator::Plus
        | BinaryOperator::Minus
        | BinaryOperator::Join => 2,
        BinaryOperator::Times
        | BinaryOperator::Divide
        | BinaryOperator::Remainder
        | BinaryOperator::Modulo => 1,
    }
}

/// The operator before an operand that a token is.
pub fn unary_operator(kind: TokenKind) -> Option<UnaryOperator>
    ensures { result ≡ unary_of kind }
{
    match kind {
        TokenKind::Sign(Sign::Minus) => Some(UnaryOperator::Minus),
        TokenKind::Sign(Sign::Plus) => Some(UnaryOperator::Plus),
        TokenKind::Word(Word::Not) => Some(UnaryOperator::Not),
        _ => None,
    }
}

/// The conversion that a token is before an opening bracket.
pub fn conversion(kind: TokenKind) -> Option<Conversion>
    ensures { result ≡ conversion_of kind }
{
    match kind {
        TokenKind::Word(Word::Int) => Some(Conversion::Int),
        TokenKind::Word(Word::Char) => Some(Conversion::Char),
        TokenKind::Word(Word::String) => Some(Conversion::Str),
        _ => None,
    }
}

/// The literal that a token is.
fn literal(alloc: Global, token: &Token) -> Result<Option<Literal>, NoMemory>
    ensures { IfOk result (λ l. l ≡ literal_of token.now.kind token.now.text) }
{
    match token.kind {
        TokenKind::Number => Ok(Some(Literal::Number(token.text.copy(alloc)?))),
        TokenKind::Char => Ok(Some(Literal::Char(token.text.copy(alloc)?))),
        TokenKind::Str => Ok(Some(Literal::Str(token.text.copy(alloc)?))),
        TokenKind::Word(Word::True) => Ok(Some(Literal::True)),
        TokenKind::Word(Word::False) => Ok(Some(Literal::False)),
        TokenKind::Word(Word::Null) => Ok(Some(Literal::Null)),
        TokenKind::Word(Word::Noop) => Ok(Some(Literal::Noop)),
        _ => Ok(None),
    }
}

/// The tightest level that an expression is of.
fn level(expr: &Expr) -> u8
    ensures { result ≡ level_of expr.now }
{
    match expr {
        Expr::Binary { operator, .. } => level_to_the_right(*operator) + 1,
        _ => 0,
    }
}

/// Whether the next token is an operator that may follow an expression within a level.
pub fn next_is_operator(limit: u8, left: &Expr, tokens: &[Token]) -> bool
    ensures { result ≡ next_is (is_operator limit left.now) tokens.now }
{
    match tokens {
        [] => false,
        [first, ..] => match binary_operator(first.kind) {
            None => false,
            Some(operator) => {
                level_to_the_right(operator) < limit && level(left) <= level_to_the_left(operator)
            }
        },
    }
}

/// Whether the next token is an operator before an operand.
pub fn next_is_unary(tokens: &[Token]) -> bool
    ensures { result ≡ next_is (λ t. is_some (unary_of t.kind)) tokens.now }
{
    match tokens {
        [] => false,
        [first, ..] => unary_operator(first.kind).is_some(),
    }
}

/// Whether the next token is a word that converts.
pub fn next_is_conversion(tokens: &[Token]) -> bool
    ensures { result ≡ next_is (λ t. is_some (conversion_of t.kind)) tokens.now }
{
    match tokens {
        [] => false,
        [first, ..] => conversion(first.kind).is_some(),
    }
}

/// Reads an operator between two operands.
#[tactic(auto, unfolding(sr_expr_reader::specs::Readers::binary_at))]
pub fn read_binary(tokens: &[Token]) -> Result<(BinaryOperator, &[Token]), ReadFail>
    ensures reads { Gives (λ x. (x.0, x.1.now)) result (binary_at tokens.now) }
    ensures shorter { IfOk result (λ x. length x.1.now < length tokens.now) }
{
    match tokens {
        [] => Err(ReadFail::Unexpected { left: 0 }),
        [first, rest @ ..] => match binary_operator(first.kind) {
            Some(operator) => Ok((operator, rest)),
            None => Err(ReadFail::Unexpected { left: tokens.len() }),
        },
    }
}

/// Reads an operator before an operand, and gives its span too.
#[tactic(auto, unfolding(sr_expr_reader::specs::Readers::unary_at))]
pub fn read_unary(tokens: &[Token]) -> Result<((Span, UnaryOperator), &[Token]), ReadFail>
    ensures reads { Gives (λ x. (x.0, x.1.now)) result (unary_at tokens.now) }
    ensures shorter { IfOk result (λ x. length x.1.now < length tokens.now) }
{
    match tokens {
        [] => Err(ReadFail::Unexpected { left: 0 }),
        [first, rest @ ..] => match unary_operator(first.kind) {
            Some(operator) => Ok(((first.span, operator), rest)),
            None => Err(ReadFail::Unexpected { left: tokens.len() }),
        },
    }
}

/// Reads a word that converts, and gives its span too.
#[tactic(auto, unfolding(sr_expr_reader::specs::Readers::conversion_at))]
pub fn read_conversion(tokens: &[Token]) -> Result<((Span, Conversion), &[Token]), ReadFail>
    ensures reads { Gives (λ x. (x.0, x.1.now)) result (conversion_at tokens.now) }
    ensures shorter { IfOk result (λ x. length x.1.now < length tokens.now) }
{
    match tokens {
        [] => Err(ReadFail::Unexpected { left: 0 }),
        [first, rest @ ..] => match conversion(first.kind) {
            Some(conversion) => Ok(((first.span, conversion), rest)),
            None => Err(ReadFail::Unexpected { left: tokens.len() }),
        },
    }
}

/// Reads a literal, and gives its span too.
#[tactic(auto, unfolding(sr_expr_reader::specs::Readers::literal_at))]
pub fn read_literal(
    alloc: Global,
    tokens: &[Token],
) -> Result<((Span, Literal), &[Token]), ReadFail>
    ensures reads { Gives (λ x. (x.0, x.1.now)) result (literal_at tokens.now) }
    ensures shorter { IfOk result (λ x. length x.1.now < length tokens.now) }
{
    match tokens {
        [] => Err(ReadFail::Unexpected { left: 0 }),
        [first, rest @ ..] => match literal(alloc, first)? {
            Some(literal) => Ok(((first.span, literal), rest)),
            None => Err(ReadFail::Unexpected { left: tokens.len() }),
        },
    }
}
