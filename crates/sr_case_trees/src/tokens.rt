//! The tokens of a text, each with its line, or the refusal of the text.

use crate::spelling::{spelling_of_sign, spelling_of_word};
use sr_case_files::{Case, lexed, push_bytes, tell_fail};
use sr_tree::{Token, TokenKind};
use sr_value::NoMemory;
use std::alloc::{AllocError, Global};

/// The number that the file is given.
const FILE: u32 = 3;

/// What a token is, in one word.
fn label(kind: TokenKind) -> &'static str {
    match kind {
        TokenKind::Name => "name",
        TokenKind::Number => "number",
        TokenKind::Char => "char",
        TokenKind::Str => "string",
        TokenKind::Sign(_) => "sign",
        TokenKind::Word(_) => "word",
        TokenKind::Separator => "separator",
    }
}

/// Whether a sign or word is the one that its bytes spell.
fn is_spelled(token: &Token) -> bool {
    let text = token.text.as_bytes();
    match token.kind {
        TokenKind::Sign(sign) => spelling_of_sign(sign) == text || text == b"~=".as_slice(),
        TokenKind::Word(word) => spelling_of_word(word) == text,
        _ => true,
    }
}

/// Whether the token stands where its span says.
fn is_in_place(text: &[u8], token: &Token) -> bool {
    let at = token.span.from as usize..token.span.to as usize;
    token.span.file == FILE && text.get(at) == Some(token.text.as_bytes()) && is_spelled(token)
}

/// `name a 1`
fn tell_token(out: &mut String, text: &[u8], token: &Token) -> Result<(), AllocError> {
    let line = token.span.line;
    out.push_str(label(token.kind))?;
    out.push(' ')?;
    push_bytes(out, token.text.as_bytes())?;
    write!(out, " {line}")?;
    if is_in_place(text, token) {
        Ok(())
    } else {
        out.push_str(" out of place")
    }
}

/// `name a 1, sign := 1`
fn tell_all(out: &mut String, text: &[u8], tokens: &[Token]) -> Result<(), AllocError> {
    for token in tokens {
        if !out.is_empty() {
            out.push_str(", ")?;
        }
        tell_token(out, text, token)?;
    }
    Ok(())
}

/// What is told of the tokens of a text.
pub fn tell_tokens(alloc: Global, case: &Case) -> Result<String, NoMemory> {
    let text = case.fragment(alloc)?;
    let mut out = String::new(alloc);
    match lexed(alloc, FILE, &text) {
        Ok(tokens) => tell_all(&mut out, &text, tokens.items.as_slice())?,
        Err(fail) => return tell_fail(alloc, fail, FILE),
    }
    Ok(out)
}
