//! What the names of a program mean: for each use of a name, in order, the name, its line and the line of its
//! declaration (0 for a predefined name); or the rule that is broken.

use sr_case_files::{Case, lexed, push_bytes, tell_fail};
use sr_front::read;
use sr_names::{Meaning, Spot};
use sr_scope::{Names, resolve};
use sr_text::FrontFail;
use sr_tree::Token;
use sr_value::{NoMemory, Row, Text};
use std::alloc::{AllocError, Global};

/// The most files of a program.
const MOST_FILES: usize = 64;

/// What the names of a program mean.
fn names_of(alloc: Global, files: &[(Text, Text)]) -> Result<Names, FrontFail> {
    if files.len() > MOST_FILES {
        return Err(FrontFail::NoMemory);
    }
    let trees = read(alloc, files)?;
    if trees.len() > MOST_FILES {
        return Err(FrontFail::NoMemory);
    }
    resolve(alloc, &trees)
}

/// The tokens of all files.
fn tokens_of(alloc: Global, files: &[(Text, Text)]) -> Result<Row<Token>, FrontFail> {
    let mut all = Row::new(alloc);
    let mut number = 0u32;
    for (_, text) in files {
        all.push_all(lexed(alloc, number, text.as_bytes())?.items)?;
        number = number.wrapping_add(1);
    }
    Ok(all)
}

/// The line of the token at a spot.
fn line_at(tokens: &[Token], spot: Spot) -> u32 {
    for token in tokens {
        if Spot::of(token.span) == spot {
            return token.span.line;
        }
    }
    0
}

/// The line of the declaration that a token is a use of, where it is one.
fn declared_on(names: &Names, tokens: &[Token], token: &Token) -> Option<u32> {
    match names.meaning(Spot::of(token.span)) {
        None => None,
        Some(Meaning::Predefined(_)) => Some(0),
        Some(Meaning::Declared(decl)) => Some(line_at(tokens, decl.spot)),
    }
}

/// `x 4>2`
fn tell_use(out: &mut String, token: &Token, declared: u32) -> Result<(), AllocError> {
    let line = token.span.line;
    if !out.is_empty() {
        out.push_str(", ")?;
    }
    push_bytes(out, token.text.as_bytes())?;
    write!(out, " {line}>{declared}")
}

/// What is told of all uses of names.
fn tell_uses(alloc: Global, names: &Names, tokens: &[Token]) -> Result<String, AllocError> {
    let mut out = String::new(alloc);
    for token in tokens {
        if let Some(declared) = declared_on(names, tokens, token) {
            tell_use(&mut out, token, declared)?;
        }
    }
    Ok(out)
}

/// What is told of the names of a program that is read.
fn tell_resolved(alloc: Global, names: &Names, files: &[(Text, Text)]) -> Result<String, NoMemory> {
    match tokens_of(alloc, files) {
        Ok(tokens) => Ok(tell_uses(alloc, names, tokens.as_slice())?),
        Err(fail) => tell_fail(alloc, fail, 0),
    }
}

/// What is told of the names of a program.
pub fn tell_names(alloc: Global, case: &Case) -> Result<String, NoMemory> {
    let files = case.files(alloc)?;
    match names_of(alloc, files.as_slice()) {
        Ok(names) => tell_resolved(alloc, &names, files.as_slice()),
        Err(fail) => tell_fail(alloc, fail, 0),
    }
}
