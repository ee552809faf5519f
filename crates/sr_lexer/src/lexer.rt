ghost use Rattle.std.specs.Prelude.{◌≡◌, ◌+◌, ◌^◌, ◌<◌, ◌≤◌, length, take, IfOk, IfErr};
ghost use Rattle.sr_lexer.specs.Tokens.{newlines, Lexes, FailsToLex};

use crate::piece::{Fault, piece_in_front};
use crate::reader::Reader;
use sr_text::{FrontFail, Refusal};
use sr_tree::Tokens;
use sr_value::{Place, Span};
use std::alloc::Global;

/// The tokens and separators of the file of this number: the file is a chain of blanks, newlines, comments and
/// tokens, each the longest that can begin at its byte. Where there is no such chain the file is refused: S1 at a
/// byte that begins nothing or that no literal allows, S2 at the first byte of a literal, number or comment that is
/// none.
pub fn lex(alloc: Global, file: u32, bytes: &[u8]) -> Result<Tokens, FrontFail>
    requires small { length bytes.now ≤ 1048576 }
    ensures tokens { IfOk result (λ tokens. Lexes file bytes.now tokens.items) }
    ensures refused { IfErr result (FailsToLex file bytes.now) }
{
    let mut reader = Reader::new(alloc);
    let mut at: usize = 0;
    let mut line: u32 = 1;
    while at < bytes.len() {
        let rest = &bytes[at..];
        let piece = match piece_in_front(rest) {
            Ok(piece) => piece,
            Err(fault) => return Err(FrontFail::Refused(refusal_of(file, line, rest, fault))),
        };
        let text = &rest[..piece.len];
        let span = Span {
            file,
            from: at as u32,
            to: (at + piece.len) as u32,
            line,
        };
        reader.take(alloc, piece.kind, text, span)?;
        line += newlines_in(text);
        at += piece.len;
    }
    Ok(Tokens {
        items: reader.tokens,
    })
}

/// The refusal for a fault in what follows the beginning of a line.
fn refusal_of(file: u32, line: u32, rest: &[u8], fault: Fault) -> Refusal
    requires within { fault.at < length rest.now }
    requires small { line + length rest.now < 2 ^ 32 }
    ensures { result ≡ record {
      kind = fault.kind;
      place = record { file = file; line = line + newlines (take fault.at rest.now) };
    } }
{
    let line = line + newlines_in(&rest[..fault.at]);
    Refusal {
        kind: fault.kind,
        place: Place { file, line },
    }
}

/// How many newlines the bytes have.
fn newlines_in(bytes: &[u8]) -> u32
    requires { length bytes.now < 2 ^ 32 }
    ensures value { result ≡ newlines bytes.now }
    ensures within { result ≤ length bytes.now }
{
    bytes.iter().filter(|byte| **byte == b'\n').count() as u32
}
