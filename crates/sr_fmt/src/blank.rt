ghost use Rattle.std.specs.Prelude.{◌≡◌};
ghost use Rattle.sr_fmt.specs.Blanks.{joins_before, joins_after, takes_arguments, takes_index, opens_arguments, reads_otherwise, is_spaced};

use sr_tree::{Sign, TokenKind, Word};

/// Whether no blank stands before the token.
fn is_joined_before(kind: TokenKind) -> bool
    ensures { result ≡ joins_before kind }
{
    matches!(
        kind,
        TokenKind::Separator
            | TokenKind::Sign(
                Sign::Comma
                    | Sign::Colon
                    | Sign::CloseParen
                    | Sign::CloseBracket
                    | Sign::CloseBrace
                    | Sign::Point
                    | Sign::Increment
                    | Sign::Decrement
            )
    )
}

/// Whether no blank stands after the token.
fn is_joined_after(kind: TokenKind) -> bool
    ensures { result ≡ joins_after kind }
{
    matches!(
        kind,
        TokenKind::Sign(
            Sign::OpenParen | Sign::OpenBracket | Sign::OpenBrace | Sign::Point | Sign::Query
        )
    )
}

/// Whether a `(` touches the token before it.
fn is_before_arguments(kind: TokenKind) -> bool
    ensures { result ≡ takes_arguments kind }
{
    matches!(
        kind,
        TokenKind::Name
            | TokenKind::Word(
                Word::Int | Word::Bool | Word::Char | Word::String | Word::Vm | Word::Stop
            )
    )
}

/// Whether a `[` touches the token before it.
fn is_before_index(kind: TokenKind) -> bool
    ensures { result ≡ takes_index kind }
{
    matches!(
        kind,
        TokenKind::Name
            | TokenKind::Sign(Sign::CloseParen | Sign::CloseBracket)
            | TokenKind::Word(Word::String)
    )
}

/// Whether the second token is a bracket that touches the first.
fn is_opening_arguments(first: TokenKind, second: TokenKind) -> bool
    ensures { result ≡ opens_arguments first second }
{
    match second {
        TokenKind::Sign(Sign::OpenParen) => is_before_arguments(first),
        TokenKind::Sign(Sign::OpenBracket) => is_before_index(first),
        _ => false,
    }
}

/// Whether both would read as other tokens if they touched.
fn is_read_otherwise(first: TokenKind, second: TokenKind) -> bool
    ensures { result ≡ reads_otherwise first second }
{
    matches!(
        (first, second),
        (
            TokenKind::Sign(Sign::OpenBracket),
            TokenKind::Sign(Sign::CloseBracket)
        ) | (
            TokenKind::Sign(Sign::Plus),
            TokenKind::Sign(Sign::Increment)
        ) | (
            TokenKind::Sign(Sign::Minus),
            TokenKind::Sign(Sign::Decrement)
        ) | (TokenKind::Sign(Sign::Assign), TokenKind::Sign(Sign::Colon))
    )
}

/// Whether a blank stands between both tokens.
pub(crate) fn has_blank_between(first: TokenKind, second: TokenKind) -> bool
    ensures { result ≡ is_spaced first second }
{
    is_read_otherwise(first, second)
        || !(is_joined_before(second)
            || is_joined_after(first)
            || is_opening_arguments(first, second))
}
