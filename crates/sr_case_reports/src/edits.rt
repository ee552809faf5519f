//! Programs with one line changed: the line of the token that is refused, and 0 where the tokens spell a file.

use sr_case_files::{Case, lexed, push_line};
use sr_case_trees::on_lines;
use sr_parser::parse;
use sr_text::FrontFail;
use sr_tree::Tokens;
use sr_value::{NoMemory, Row};
use std::alloc::{AllocError, Global};

/// Puts the lines of a text after another, with `new` in the place of one; up to there where it is cut.
fn push_edited(
    out: &mut String,
    text: &str,
    number: u32,
    new: &str,
    is_cut: bool,
) -> Result<(), AllocError> {
    let mut at = 0u32;
    for line in text.lines() {
        at = at.wrapping_add(1);
        if at != number {
            push_line(out, line)?;
        } else if is_cut {
            return out.push_str(new);
        } else {
            push_line(out, new)?;
        }
    }
    Ok(())
}

/// The line of the token that is refused, and 0 where the tokens spell a file.
fn refused_line(alloc: Global, tokens: &Tokens) -> Result<u32, NoMemory> {
    match parse(alloc, tokens) {
        Ok(_) => Ok(0),
        Err(FrontFail::Refused(refusal)) => Ok(refusal.place.line),
        Err(FrontFail::NoMemory) => Err(NoMemory),
    }
}

/// The tokens of a text that has some.
fn tokens_of(alloc: Global, text: &[u8]) -> Result<Tokens, NoMemory> {
    match lexed(alloc, 0, text) {
        Ok(tokens) => Ok(tokens),
        Err(FrontFail::Refused(_)) => Ok(Tokens {
            items: Row::new(alloc),
        }),
        Err(FrontFail::NoMemory) => Err(NoMemory),
    }
}

/// The line on which the text is refused.
fn refused_on(alloc: Global, text: &[u8]) -> Result<u32, NoMemory> {
    refused_line(alloc, &tokens_of(alloc, text)?)
}

/// The line on which the text of a case is refused with a line changed.
fn refused_with(alloc: Global, case: &Case, place: &str, new: &str) -> Result<u32, NoMemory> {
    let mut out = String::new(alloc);
    let (number, is_cut) = match place.strip_suffix(" cut") {
        Some(number) => (number, true),
        None => (place, false),
    };
    push_edited(
        &mut out,
        case.text(),
        number.parse().unwrap_or(0),
        new,
        is_cut,
    )?;
    let text = case.bytes_of(alloc, out.as_str())?;
    refused_on(alloc, &text)
}

/// How many beginnings of the tokens spell a file. Of all others the last token is to be refused: the number is
/// 4294967295 where it isn't.
fn file_count(alloc: Global, tokens: Tokens) -> Result<u32, NoMemory> {
    let mut beginning = Tokens {
        items: Row::new(alloc),
    };
    let mut found = 0u32;
    for token in tokens.items.into_vec() {
        let line = token.span.line;
        beginning.items.push(token)?;
        let refused = refused_line(alloc, &beginning)?;
        if refused == 0 {
            found = found.saturating_add(1);
        } else if refused != line {
            return Ok(u32::MAX);
        }
    }
    Ok(found)
}

/// How many beginnings of the tokens of a text spell a file.
fn beginnings(alloc: Global, text: &[u8]) -> Result<u32, NoMemory> {
    let tokens = tokens_of(alloc, text)?;
    file_count(alloc, on_lines(alloc, tokens)?)
}

/// What is found for a line without what is wanted: `whole`, `beginnings`, or `7: TEXT` or `7 cut: TEXT` for a change.
fn found(alloc: Global, case: &Case, edit: &str) -> Result<u32, NoMemory> {
    if let Some((place, new)) = edit.split_once(": ") {
        return refused_with(alloc, case, place, new);
    }
    let text = case.bytes_of(alloc, case.text())?;
    if edit == "beginnings" {
        beginnings(alloc, &text)
    } else {
        refused_on(alloc, &text)
    }
}

/// What is told of a line such as `7: TEXT => 9`.
pub fn tell_edit(alloc: Global, case: &Case, line: &str) -> Result<String, NoMemory> {
    let edit = match line.rsplit_once(" => ") {
        Some((edit, _)) => edit,
        None => line,
    };
    let number = found(alloc, case, edit)?;
    Ok(format!(in alloc; "{edit} => {number}")?)
}
