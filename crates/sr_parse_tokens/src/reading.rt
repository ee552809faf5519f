ghost use Rattle.std.specs.Prelude.{◌≡◌, ◌<◌, length, false, if◌then◌else◌, IfOk};
ghost use Rattle.sr_reader.specs.Reader.{next_is};
ghost use Rattle.sr_tree.specs.Tests.{is_name, is_sign, is_word};
ghost use Rattle.sr_tree.specs.declared.token.Sign.TheVariants as signs;
ghost use Rattle.sr_parse_tokens.specs.Gives.{Gives};
ghost use Rattle.sr_tree.specs.Tokens.{is_separator, sign_at, word_at, name_at, separator_at};
ghost use Rattle.sr_parse_tokens.specs.declared.reading.ReadFail.TheVariants.{NoMemory as out_of_memory};

use sr_tree::{Name, Sign, Token, TokenKind, Word};
use sr_value::{Duplicate, NoMemory, Span};
use std::alloc::Global;

/// Why nothing was read.
#[derive(Clone, Copy, PartialEq, Eq)]
pub enum ReadFail {
    /// A token doesn't fit, or the tokens end too early. This many tokens are left, counting that one.
    Unexpected { left: usize },
    NoMemory,
}

impl From<NoMemory> for ReadFail {
    ghost from_gives = { λ _ e. e ≡ out_of_memory };

    fn from(_: NoMemory) -> Self {
        ReadFail::NoMemory
    }
}

/// Whether the next token is this sign.
pub fn next_is_sign(tokens: &[Token], wanted: Sign) -> bool
    ensures { result ≡ next_is (λ t. is_sign wanted t.kind) tokens.now }
{
    match tokens {
        [] => false,
        [first, ..] => match first.kind {
            TokenKind::Sign(sign) => sign == wanted,
            _ => false,
        },
    }
}

/// Whether a further arm or branch may follow: `[]` stands next, and no `else` was read before it.
pub fn arm_may_follow(has_else: bool, tokens: &[Token]) -> bool
    ensures { result ≡ next_is (λ t. if has_else then false else is_sign signs.Alternative t.kind) tokens.now }
{
    !has_else && next_is_sign(tokens, Sign::Alternative)
}

/// Whether the next token is this word.
pub fn next_is_word(tokens: &[Token], wanted: Word) -> bool
    ensures { result ≡ next_is (λ t. is_word wanted t.kind) tokens.now }
{
    match tokens {
        [] => false,
        [first, ..] => match first.kind {
            TokenKind::Word(word) => word == wanted,
            _ => false,
        },
    }
}

/// Whether the next token is a name.
pub fn next_is_name(tokens: &[Token]) -> bool
    ensures { result ≡ next_is (λ t. is_name t.kind) tokens.now }
{
    match tokens {
        [] => false,
        [first, ..] => matches!(first.kind, TokenKind::Name),
    }
}

/// Reads this sign, and gives its span.
#[tactic(auto, unfolding(sr_tree::specs::Tokens::sign_at))]
pub fn sign(tokens: &[Token], wanted: Sign) -> Result<(Span, &[Token]), ReadFail>
    ensures reads { Gives (λ x. (x.0, x.1.now)) result (sign_at wanted tokens.now) }
    ensures shorter { IfOk result (λ x. length x.1.now < length tokens.now) }
{
    match tokens {
        [] => Err(ReadFail::Unexpected { left: 0 }),
        [first, rest @ ..] => match first.kind {
            TokenKind::Sign(sign) => {
                if sign == wanted {
                    Ok((first.span, rest))
                } else {
                    Err(ReadFail::Unexpected { left: tokens.len() })
                }
            }
            _ => Err(ReadFail::Unexpected { left: tokens.len() }),
        },
    }
}

/// Reads this sign after a tree, and hands the tree back; its type is left open, so that no failure looks into it.
pub fn sign_after<T: Drop>(
    tree: T,
    tokens: &[Token],
    wanted: Sign,
) -> Result<(Span, T, &[Token]), ReadFail>
    ensures reads { Gives (λ x. (x.0, x.2.now)) result (sign_at wanted tokens.now) }
    ensures kept { IfOk result (λ x. x.1 ≡ tree) }
    ensures shorter { IfOk result (λ x. length x.2.now < length tokens.now) }
{
    let (span, rest) = sign(tokens, wanted)?;
    Ok((span, tree, rest))
}

/// Reads this word, and gives its span.
#[tactic(auto, unfolding(sr_tree::specs::Tokens::word_at))]
pub fn word(tokens: &[Token], wanted: Word) -> Result<(Span, &[Token]), ReadFail>
    ensures reads { Gives (λ x. (x.0, x.1.now)) result (word_at wanted tokens.now) }
    ensures shorter { IfOk result (λ x. length x.1.now < length tokens.now) }
{
    match tokens {
        [] => Err(ReadFail::Unexpected { left: 0 }),
        [first, rest @ ..] => match first.kind {
            TokenKind::Word(word) => {
                if word == wanted {
                    Ok((first.span, rest))
                } else {
                    Err(ReadFail::Unexpected { left: tokens.len() })
                }
            }
            _ => Err(ReadFail::Unexpected { left: tokens.len() }),
        },
    }
}

/// Reads a name.
#[tactic(auto, unfolding(sr_tree::specs::Tokens::name_at))]
pub fn name(alloc: Global, tokens: &[Token]) -> Result<(Name, &[Token]), ReadFail>
    ensures reads { Gives (λ x. (x.0, x.1.now)) result (name_at tokens.now) }
    ensures shorter { IfOk result (λ x. length x.1.now < length tokens.now) }
{
    match tokens {
        [] => Err(ReadFail::Unexpected { left: 0 }),
        [first, rest @ ..] => match first.kind {
            TokenKind::Name => {
                let text = first.text.copy(alloc)?;
                let span = first.span;
                Ok((Name { text, span }, rest))
            }
            _ => Err(ReadFail::Unexpected { left: tokens.len() }),
        },
    }
}

/// Whether the next token is a separator.
pub fn next_is_separator(tokens: &[Token]) -> bool
    ensures { result ≡ next_is (λ t. is_separator t.kind) tokens.now }
{
    match tokens {
        [] => false,
        [first, ..] => matches!(first.kind, TokenKind::Separator),
    }
}

/// Reads a separator, and gives its span.
#[tactic(auto, unfolding(sr_tree::specs::Tokens::separator_at))]
pub fn separator(tokens: &[Token]) -> Result<(Span, &[Token]), ReadFail>
    ensures reads { Gives (λ x. (x.0, x.1.now)) result (separator_at tokens.now) }
    ensures shorter { IfOk result (λ x. length x.1.now < length tokens.now) }
{
    match tokens {
        [] => Err(ReadFail::Unexpected { left: 0 }),
        [first, rest @ ..] => match first.kind {
            TokenKind::Separator => Ok((first.span, rest)),
            _ => Err(ReadFail::Unexpected { left: tokens.len() }),
        },
    }
}
