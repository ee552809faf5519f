ghost use Rattle.std.specs.Prelude.{◌≡◌};
ghost use Rattle.sr_lexer.specs.Roles.{may_end_line, continues_line, opens_bracket, closes_bracket, opens_level, closes_level, breaks_run, counts_in_run, is_left_out};

use sr_tree::{Sign, TokenKind, Word};

/// Whether a line may end after the token.
pub(crate) fn can_end_line(kind: TokenKind) -> bool
    ensures { result ≡ may_end_line kind }
{
    matches!(
        kind,
        TokenKind::Name
            | TokenKind::Number
            | TokenKind::Char
            | TokenKind::Str
            | TokenKind::Sign(
                Sign::CloseParen
                    | Sign::CloseBracket
                    | Sign::CloseBrace
                    | Sign::Increment
                    | Sign::Decrement
            )
            | TokenKind::Word(
                Word::True
                    | Word::False
                    | Word::Null
                    | Word::Noop
                    | Word::Vm
                    | Word::Int
                    | Word::Bool
                    | Word::Char
                    | Word::End
                    | Word::Fi
                    | Word::Od
                    | Word::Af
                    | Word::Ni
                    | Word::Oc
                    | Word::Skip
                    | Word::Stop
                    | Word::Exit
                    | Word::Next
                    | Word::Return
                    | Word::Reply
            )
    )
}

/// Whether a line that begins with the token goes on with the line before it.
pub(crate) fn goes_on_with_line(kind: TokenKind) -> bool
    ensures { result ≡ continues_line kind }
{
    matches!(
        kind,
        TokenKind::Sign(
            Sign::Arrow
                | Sign::Alternative
                | Sign::Parallel
                | Sign::Comma
                | Sign::Assign
                | Sign::Exchange
                | Sign::CloseParen
                | Sign::CloseBracket
        ) | TokenKind::Word(
            Word::And
                | Word::Or
                | Word::Xor
                | Word::By
                | Word::Returns
                | Word::St
                | Word::To
                | Word::Downto
                | Word::Oc
        )
    )
}

/// Whether newlines after the token are no separators until a bracket closes.
pub(crate) fn is_opening(kind: TokenKind) -> bool
    ensures { result ≡ opens_bracket kind }
{
    matches!(kind, TokenKind::Sign(Sign::OpenParen | Sign::OpenBracket))
}

/// Whether the token closes such a bracket.
pub(crate) fn is_closing(kind: TokenKind) -> bool
    ensures { result ≡ closes_bracket kind }
{
    matches!(kind, TokenKind::Sign(Sign::CloseParen | Sign::CloseBracket))
}

/// Whether the token begins a level of nesting.
pub(crate) fn begins_level(kind: TokenKind) -> bool
    ensures { result ≡ opens_level kind }
{
    matches!(
        kind,
        TokenKind::Sign(Sign::OpenParen | Sign::OpenBracket | Sign::OpenBrace)
            | TokenKind::Word(Word::If | Word::Do | Word::Fa | Word::In | Word::Co)
    )
}

/// Whether the token ends a level of nesting.
pub(crate) fn ends_level(kind: TokenKind) -> bool
    ensures { result ≡ closes_level kind }
{
    matches!(
        kind,
        TokenKind::Sign(Sign::CloseParen | Sign::CloseBracket | Sign::CloseBrace)
            | TokenKind::Word(Word::Fi | Word::Od | Word::Af | Word::Ni | Word::Oc)
    )
}

/// Whether the token ends a run and belongs to none.
pub(crate) fn stands_between_runs(kind: TokenKind) -> bool
    ensures { result ≡ breaks_run kind }
{
    matches!(
        kind,
        TokenKind::Separator
            | TokenKind::Sign(
                Sign::Comma | Sign::Arrow | Sign::Alternative | Sign::Parallel | Sign::Assign
            )
    )
}

/// Whether the token counts towards the limit of a run.
pub(crate) fn is_counted(kind: TokenKind) -> bool
    ensures { result ≡ counts_in_run kind }
{
    matches!(
        kind,
        TokenKind::Sign(
            Sign::Plus
                | Sign::Minus
                | Sign::Star
                | Sign::Slash
                | Sign::Percent
                | Sign::Join
                | Sign::Equal
                | Sign::NotEqual
                | Sign::Less
                | Sign::LessEqual
                | Sign::Greater
                | Sign::GreaterEqual
                | Sign::Point
                | Sign::Query
                | Sign::OpenParen
                | Sign::OpenBracket
        ) | TokenKind::Word(Word::And | Word::Or | Word::Xor | Word::Not | Word::Mod)
    )
}

/// Whether the token is a word that this profile leaves out.
pub(crate) fn is_left_out_word(kind: TokenKind) -> bool
    ensures { result ≡ is_left_out kind }
{
    matches!(
        kind,
        TokenKind::Word(
            Word::Real
                | Word::Ptr
                | Word::Union
                | Word::File
                | Word::Ref
                | Word::External
                | Word::Separate
                | Word::Extend
        )
    )
}
