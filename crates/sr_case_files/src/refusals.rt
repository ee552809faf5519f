//! Refusals as text, and the phases with the sizes that they take.

use sr_lexer::lex;
use sr_text::{FrontFail, Kind, Refusal};
use sr_tree::Tokens;
use sr_value::{NoMemory, Place};
use std::alloc::{AllocError, Global};

/// The most bytes of a text, and the most files of a program.
const MOST_BYTES: usize = 1_048_576;

/// The tokens of a text.
pub fn lexed(alloc: Global, file: u32, text: &[u8]) -> Result<Tokens, FrontFail> {
    if text.len() > MOST_BYTES {
        let place = Place { file, line: 1 };
        let kind = Kind::Large;
        return Err(FrontFail::Refused(Refusal { kind, place }));
    }
    lex(alloc, file, text)
}

/// `S4 Name 3`, with `file 1: ` in front where it isn't in the file `file`.
pub fn tell_refusal(alloc: Global, refusal: Refusal, file: u32) -> Result<String, AllocError> {
    let Refusal { kind, place } = refusal;
    let label = kind.label();
    let line = place.line;
    if place.file == file {
        format!(in alloc; "{label} {line}")
    } else {
        let other = place.file;
        format!(in alloc; "file {other}: {label} {line}")
    }
}

/// What is told of a phase that gives nothing.
pub fn tell_fail(alloc: Global, fail: FrontFail, file: u32) -> Result<String, NoMemory> {
    match fail {
        FrontFail::Refused(refusal) => Ok(tell_refusal(alloc, refusal, file)?),
        FrontFail::NoMemory => Err(NoMemory),
    }
}
