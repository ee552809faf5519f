ghost use Rattle.std.specs.Prelude.{◌≡◌, IfOk, false};
ghost use Rattle.sr_literal.specs.Literals as literals;

use sr_value::{NoMemory, Text};
use std::alloc::Global;

/// The bytes that a string literal stands for, from its token with both quotes: each escape is the byte that it names.
pub fn string_of(alloc: Global, token: &[u8]) -> Result<Text, NoMemory>
    ensures { IfOk result (λ text. text ≡ literals.string_of token.now) }
{
    unescaped(alloc, inside(token))
}

/// What stands between the quotes.
fn inside(token: &[u8]) -> &[u8]
    ensures { result.now ≡ literals.inside token.now }
{
    match token {
        [_, inside @ .., _] => inside,
        _ => &[],
    }
}

/// The bytes with each escape replaced by what it names.
fn unescaped(alloc: Global, bytes: &[u8]) -> Result<Text, NoMemory>
    ensures { IfOk result (λ text. text ≡ literals.meant false bytes.now) }
{
    let mut text = Text::new(alloc);
    let mut escaped = false;
    for byte in bytes {
        if escaped {
            text.push(named(*byte))?;
            escaped = false;
        } else if *byte == b'\\' {
            escaped = true;
        } else {
            text.push(*byte)?;
        }
    }
    Ok(text)
}

/// The byte that an escape names.
fn named(byte: u8) -> u8
    ensures { result ≡ literals.named byte }
{
    match byte {
        b'n' => b'\n',
        b't' => b'\t',
        b'r' => b'\r',
        b'0' => 0,
        other => other,
    }
}
