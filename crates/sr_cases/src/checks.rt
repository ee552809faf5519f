//! Whether programs, and pieces within one program, are accepted, or which rule is broken.

use crate::programs::program_of;
use sr_case_files::{Case, tell_fail, tell_refusal};
use sr_text::{FrontFail, Refusal};
use sr_value::{NoMemory, Place, Row, Text};
use std::alloc::{AllocError, Global};

/// The line of the head of a file of pieces in whose place the pieces stand.
const HERE: &str = "  ...\n";

/// Why a program is refused, where it is.
fn refusal_of(alloc: Global, files: &[(Text, Text)]) -> Result<Option<Refusal>, FrontFail> {
    match program_of(alloc, files) {
        Ok(_) => Ok(None),
        Err(FrontFail::Refused(refusal)) => Ok(Some(refusal)),
        Err(fail) => Err(fail),
    }
}

/// The refusal. Its line is counted from after the given number of lines.
fn counted_after(refusal: Refusal, lines: u32) -> Refusal {
    let Refusal { kind, place } = refusal;
    let Place { file, line } = place;
    let line = line.wrapping_sub(lines);
    Refusal {
        kind,
        place: Place { file, line },
    }
}

/// What is told of files. The lines of the first file are counted from after the given number of lines.
fn tell_files(alloc: Global, files: &[(Text, Text)], lines: u32) -> Result<String, NoMemory> {
    match refusal_of(alloc, files) {
        Ok(None) => Ok(String::from_str(alloc, "accepted")?),
        Ok(Some(refusal)) => Ok(tell_refusal(alloc, counted_after(refusal, lines), 0)?),
        Err(fail) => tell_fail(alloc, fail, 0),
    }
}

/// What is told of a program.
pub fn tell(alloc: Global, case: &Case) -> Result<String, NoMemory> {
    tell_files(alloc, case.files(alloc)?.as_slice(), 0)
}

/// A text of three parts.
fn joined(alloc: Global, parts: [&str; 3]) -> Result<Text, AllocError> {
    let mut text = Vec::new(alloc);
    for part in parts {
        text.extend_from_slice(part.as_bytes())?;
    }
    Ok(Text::from_vec(text))
}

/// The number of lines of a text.
fn line_count(text: &str) -> u32 {
    let mut count = 0u32;
    for _ in text.lines() {
        count = count.wrapping_add(1);
    }
    count
}

/// What is told of a piece in its place in a program, with lines counted from its first.
pub fn tell_piece(alloc: Global, program: &str, case: &Case) -> Result<String, NoMemory> {
    let Some((before, after)) = program.split_once(HERE) else {
        return Ok(String::from_str(alloc, "no place for a piece")?);
    };
    let text = joined(alloc, [before, case.text(), after])?;
    let mut files = Row::new(alloc);
    files.push((Text::new(alloc), text))?;
    tell_files(alloc, files.as_slice(), line_count(before))
}
