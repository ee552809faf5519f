ghost use Rattle.std.specs.Prelude.{◌≡◌, ◌<◌, length, IfOk};
ghost use Rattle.sr_parse_tokens.specs.Gives.{Gives};
ghost use Rattle.sr_program_reader.specs.ComponentReaders.{end_at, end_of_tokens, is_this_name, this_name_at};

use sr_parse_tokens::{ReadFail, next_is_name, word};
use sr_tree::{Name, Token, TokenKind, Word};
use sr_value::Span;

/// Whether a token is a name of the same text.
fn is_this_name(token: &Token, wanted: &Name) -> bool
    ensures { result ≡ is_this_name wanted.now token.now }
{
    matches!(token.kind, TokenKind::Name) && token.text.as_bytes() == wanted.text.as_bytes()
}

/// Reads a name of the same text, and gives its span.
#[tactic(auto, unfolding(sr_program_reader::specs::ComponentReaders::this_name_at))]
pub fn this_name<'a>(wanted: &Name, tokens: &'a [Token]) -> Result<(Span, &'a [Token]), ReadFail>
    ensures reads { Gives (λ x. (x.0, x.1.now)) result (this_name_at wanted.now tokens.now) }
    ensures shorter { IfOk result (λ x. length x.1.now < length tokens.now) }
{
    match tokens {
        [] => Err(ReadFail::Unexpected { left: 0 }),
        [first, rest @ ..] => {
            if is_this_name(first, wanted) {
                Ok((first.span, rest))
            } else {
                Err(ReadFail::Unexpected { left: tokens.len() })
            }
        }
    }
}

/// Reads `end`, and the name after it where one is written.
#[tactic(auto, unfolding(sr_program_reader::specs::ComponentReaders::end_at))]
fn end<'a>(name: &Name, tokens: &'a [Token]) -> Result<(Span, &'a [Token]), ReadFail>
    ensures reads { Gives (λ x. (x.0, x.1.now)) result (end_at name.now tokens.now) }
    ensures shorter { IfOk result (λ x. length x.1.now < length tokens.now) }
{
    let (span, rest) = word(tokens, Word::End)?;
    if next_is_name(rest) {
        this_name(name, rest)
    } else {
        Ok((span, rest))
    }
}

/// Reads a name of the same text after a tree.
pub fn this_name_after<'a, T: Drop>(
    tree: T,
    wanted: &Name,
    tokens: &'a [Token],
) -> Result<(Span, T, &'a [Token]), ReadFail>
    ensures reads { Gives (λ x. (x.0, x.2.now)) result (this_name_at wanted.now tokens.now) }
    ensures kept { IfOk result (λ x. x.1 ≡ tree) }
    ensures shorter { IfOk result (λ x. length x.2.now < length tokens.now) }
{
    let (span, rest) = this_name(wanted, tokens)?;
    Ok((span, tree, rest))
}

/// Reads `end`, and the name after it where one is written, after a tree.
pub fn end_after<'a, T: Drop>(
    tree: T,
    name: &Name,
    tokens: &'a [Token],
) -> Result<(Span, T, &'a [Token]), ReadFail>
    ensures reads { Gives (λ x. (x.0, x.2.now)) result (end_at name.now tokens.now) }
    ensures kept { IfOk result (λ x. x.1 ≡ tree) }
    ensures shorter { IfOk result (λ x. length x.2.now < length tokens.now) }
{
    let (span, rest) = end(name, tokens)?;
    Ok((span, tree, rest))
}

/// Reads the end of the tokens.
#[tactic(auto, unfolding(sr_program_reader::specs::ComponentReaders::end_of_tokens))]
pub fn nothing_more(tokens: &[Token]) -> Result<((), &[Token]), ReadFail>
    ensures reads { Gives (λ x. (x.0, x.1.now)) result (end_of_tokens tokens.now) }
{
    match tokens {
        [] => Ok(((), tokens)),
        _ => Err(ReadFail::Unexpected { left: tokens.len() }),
    }
}
