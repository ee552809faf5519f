//! What the limits on tokens say of a text that is written as parts, each with how often it stands there.

use sr_case_files::{Case, lexed, tell_fail, tell_refusal};
use sr_lexer::profile;
use sr_tree::Tokens;
use sr_value::NoMemory;
use std::alloc::{AllocError, Global};

/// Puts a part at the end of a text so often, with a space after each.
fn push_part(text: &mut Vec<u8>, count: u32, part: &[u8]) -> Result<(), AllocError> {
    for _ in 0..count {
        text.extend_from_slice(part)?;
        text.push(b' ')?;
    }
    Ok(())
}

/// The text that lines like `64 (` stand for.
fn repeated(alloc: Global, case: &Case) -> Result<Vec<u8>, AllocError> {
    let mut text = Vec::new(alloc);
    for line in case.text().lines() {
        if let Some((count, part)) = line.split_once(' ') {
            let part = case.bytes_of(alloc, part)?;
            push_part(&mut text, count.parse().unwrap_or(0), &part)?;
        }
    }
    Ok(text)
}

/// What is told of the limits.
fn tell_outcome(alloc: Global, tokens: &Tokens) -> Result<String, NoMemory> {
    match profile(tokens) {
        Ok(()) => Ok(String::from_str(alloc, "within the limits")?),
        Err(refusal) => Ok(tell_refusal(alloc, refusal, 0)?),
    }
}

/// What is told of the text that a case stands for.
pub fn tell_limits(alloc: Global, case: &Case) -> Result<String, NoMemory> {
    let text = repeated(alloc, case)?;
    match lexed(alloc, 0, &text) {
        Ok(tokens) => tell_outcome(alloc, &tokens),
        Err(fail) => tell_fail(alloc, fail, 0),
    }
}
