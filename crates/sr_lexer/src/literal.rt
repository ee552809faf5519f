ghost use Rattle.std.specs.Prelude.{◌≡◌, ◌≤◌, length};
ghost use Rattle.sr_lexer.specs.Literals.{is_inside, escapes_next, quoted_len, has_wrong_escape, character_count};

use crate::byte::may_be_escaped;

/// Whether the byte escapes the one after it.
fn escapes(escaped: bool, byte: u8) -> bool
    ensures { result ≡ escapes_next escaped byte }
{
    !escaped && byte == b'\\'
}

/// Whether the byte stands inside a literal, and doesn't end it.
fn stands_inside(quote: u8, byte: u8, escaped: bool) -> bool
    ensures { result ≡ is_inside quote (record { byte = byte; escaped = escaped }) }
{
    !(byte == b'\n' || (byte == quote && !escaped))
}

/// How many bytes stand after an opening quote before the literal's end.
#[tactic(auto, using(crate::proofs::LiteralLemmas::quoted_more, crate::proofs::LiteralLemmas::quoted_stop, crate::proofs::LiteralLemmas::quoted_end), unfolding(crate::specs::Literals::quoted_len))]
pub(crate) fn len_of_quoted(quote: u8, rest: &[u8]) -> usize
    ensures value { result ≡ quoted_len quote rest.now }
    ensures within { result ≤ length rest.now }
{
    let mut escaped = false;
    for (at, byte) in rest.iter().enumerate() {
        if !stands_inside(quote, *byte, escaped) {
            return at;
        }
        escaped = escapes(escaped, *byte);
    }
    rest.len()
}

/// Whether a backslash escapes a byte that has no escape.
#[tactic(auto, using(crate::proofs::LiteralLemmas::wrong_here, crate::proofs::LiteralLemmas::wrong_end), unfolding(crate::specs::Literals::has_wrong_escape))]
pub(crate) fn any_wrong_escape(inner: &[u8]) -> bool
    ensures { result ≡ has_wrong_escape inner.now }
{
    let mut escaped = false;
    for byte in inner {
        if escaped && !may_be_escaped(*byte) {
            return true;
        }
        escaped = escapes(escaped, *byte);
    }
    false
}

/// How many characters the bytes between the quotes stand for.
#[tactic(auto, using(crate::proofs::LiteralLemmas::characters_end), unfolding(crate::specs::Literals::character_count))]
pub(crate) fn count_characters(inner: &[u8]) -> usize
    ensures { result ≡ character_count inner.now }
{
    let mut escaped = false;
    let mut count = 0;
    for byte in inner {
        if !escaped {
            count += 1;
        }
        escaped = escapes(escaped, *byte);
    }
    count
}
