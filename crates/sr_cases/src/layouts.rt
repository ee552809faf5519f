//! What is told of a source: its text in the one style, or why it isn't laid out.

use crate::repeats::repeated;
use crate::telling::push_lines;
use sr_case_files::{Case, tell_fail};
use sr_layout::laid_out;
use sr_value::NoMemory;
use std::alloc::{AllocError, Global};

/// What is told of a text that is another one when it is laid out again.
const OTHERWISE: &str = "another text when it is laid out again";

/// Whether a source stands in the one style.
pub fn is_laid_out(alloc: Global, source: &[u8]) -> bool {
    match laid_out(alloc, source) {
        Ok(text) => text.as_bytes() == source,
        Err(_) => false,
    }
}

/// What is told of a text that came.
fn tell_text(alloc: Global, text: &[u8]) -> Result<String, AllocError> {
    if !is_laid_out(alloc, text) {
        return String::from_str(alloc, OTHERWISE);
    }
    let mut told = String::new(alloc);
    push_lines(&mut told, "", text)?;
    Ok(told)
}

fn tell_source(alloc: Global, source: &[u8]) -> Result<String, NoMemory> {
    match laid_out(alloc, source) {
        Ok(text) => Ok(tell_text(alloc, text.as_bytes())?),
        Err(fail) => tell_fail(alloc, fail, 0),
    }
}

/// What is told of the source of a case.
pub fn tell_layout(alloc: Global, case: &Case) -> Result<String, NoMemory> {
    let text = repeated(alloc, case.text())?;
    let source = text.as_str();
    let source = source.strip_suffix('\n').unwrap_or(source);
    tell_source(alloc, source.as_bytes())
}
