//! Long texts, written short: `<<3|a@, >>` stands for `a1, a2, a3, `.

use std::alloc::{AllocError, Global};

/// Puts a part at the end of a text, with a number in place of each `@`.
fn push_numbered(out: &mut String, part: &str, number: u32) -> Result<(), AllocError> {
    for (index, piece) in part.split('@').enumerate() {
        if index > 0 {
            write!(out, "{number}")?;
        }
        out.push_str(piece)?;
    }
    Ok(())
}

/// Puts a part at the end of a text so often.
fn push_often(out: &mut String, count: u32, part: &str) -> Result<(), AllocError> {
    for number in 1..=count {
        push_numbered(out, part, number)?;
    }
    Ok(())
}

/// How often which part is to be put, and what follows, where a text after `<<` says so.
fn read_repeat(opened: &str) -> Option<(u32, &str, &str)> {
    let (written, rest) = opened.split_once(">>")?;
    let (count, part) = written.split_once('|')?;
    Some((count.parse().ok()?, part, rest))
}

/// Puts what follows `<<` at the end of a text.
fn push_opened(out: &mut String, opened: &str) -> Result<(), AllocError> {
    match read_repeat(opened) {
        Some((count, part, rest)) => {
            push_often(out, count, part)?;
            out.push_str(rest)
        }
        None => {
            out.push_str("<<")?;
            out.push_str(opened)
        }
    }
}

/// The text that a short one stands for.
pub fn repeated(alloc: Global, text: &str) -> Result<String, AllocError> {
    let mut out = String::new(alloc);
    for (index, piece) in text.split("<<").enumerate() {
        if index == 0 {
            out.push_str(piece)?;
        } else {
            push_opened(&mut out, piece)?;
        }
    }
    Ok(out)
}
