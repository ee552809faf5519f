ghost use Rattle.std.specs.Prelude.{◌≡◌, IfOk};
ghost use Rattle.sr_fmt.specs.Told.{is_told, brief, all_told};

use sr_tree::{Token, TokenKind};
use std::alloc::{AllocError, Global};

/// A token that the source spells out.
#[derive(Clone, Copy)]
pub(crate) struct Told {
    pub kind: TokenKind,
    /// How many bytes it has.
    pub len: usize,
}

/// The tokens that the source spells out.
pub(crate) fn told_tokens(alloc: Global, tokens: &[Token]) -> Result<Vec<Told>, AllocError>
    ensures { IfOk result (λ told. told.items ≡ all_told tokens.now) }
{
    let mut told = Vec::new(alloc);
    for token in tokens {
        if is_spelled_out(token) {
            told.push(brief_of(token))?;
        }
    }
    Ok(told)
}

/// Whether it is no newline.
fn is_spelled_out(token: &Token) -> bool
    ensures { result ≡ is_told token.now }
{
    token.text.as_bytes() != b"\n".as_slice()
}

/// Its kind and length.
fn brief_of(token: &Token) -> Told
    ensures { result ≡ brief token.now }
{
    Told {
        kind: token.kind,
        len: token.text.len(),
    }
}
