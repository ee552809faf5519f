//! Expressions and types that are read from the tokens of a text, and from each beginning of these.

use crate::expr_printer::print_expr;
use crate::type_printer::print_type;
use sr_case_files::{Case, lexed, push_line, tell_fail};
use sr_parse_expr::{parse_expr, parse_type};
use sr_text::FrontFail;
use sr_tree::{Expr, Token, Tokens, TypeTree};
use sr_value::{NoMemory, Row, Span};
use std::alloc::Global;

/// What is to be read.
#[derive(Clone, Copy)]
pub enum Fragment {
    Expr,
    Type,
}

/// What is read from tokens: a tree as text or the rule that is broken, and the number of tokens read or of the one
/// refused.
#[derive(Drop)]
struct Outcome {
    told: String,
    number: u32,
    is_read: bool,
}

/// The token, on the line of this number.
fn on_line(token: Token, line: u32) -> Token {
    let Token { kind, text, span } = token;
    let span = Span { line, ..span };
    Token { kind, text, span }
}

/// What is refused, with the number of the token.
fn refused(alloc: Global, fail: FrontFail) -> Result<Outcome, NoMemory> {
    match fail {
        FrontFail::Refused(refusal) => Ok(Outcome {
            told: String::from_str(alloc, refusal.kind.label())?,
            number: refusal.place.line,
            is_read: false,
        }),
        FrontFail::NoMemory => Err(NoMemory),
    }
}

/// What is read as an expression.
fn expr_outcome(alloc: Global, read: Result<(Expr, u32), FrontFail>) -> Result<Outcome, NoMemory> {
    match read {
        Ok((expr, number)) => {
            let mut told = String::new(alloc);
            print_expr(&mut told, &expr)?;
            Ok(Outcome {
                told,
                number,
                is_read: true,
            })
        }
        Err(fail) => refused(alloc, fail),
    }
}

/// What is read as a type.
fn type_outcome(
    alloc: Global,
    read: Result<(TypeTree, u32), FrontFail>,
) -> Result<Outcome, NoMemory> {
    match read {
        Ok((tree, number)) => {
            let mut told = String::new(alloc);
            print_type(&mut told, &tree)?;
            Ok(Outcome {
                told,
                number,
                is_read: true,
            })
        }
        Err(fail) => refused(alloc, fail),
    }
}

/// Nothing, where there are no tokens to read from.
fn nothing(alloc: Global) -> Outcome {
    Outcome {
        told: String::new(alloc),
        number: 0,
        is_read: true,
    }
}

/// What is read from the first of some tokens on.
fn read_first(alloc: Global, fragment: Fragment, tokens: &Tokens) -> Result<Outcome, NoMemory> {
    let count = tokens.items.len();
    if count == 0 || count > 1000 {
        return Ok(nothing(alloc));
    }
    match fragment {
        Fragment::Expr => expr_outcome(alloc, parse_expr(alloc, tokens, 0)),
        Fragment::Type => type_outcome(alloc, parse_type(alloc, tokens, 0)),
    }
}

/// A beginning of the tokens: either this many are to be read, or the last of them is to be refused.
fn mark_of(outcome: &Outcome, number: u32) -> char {
    if outcome.number != number {
        '?'
    } else if outcome.is_read {
        '.'
    } else {
        'x'
    }
}

/// The marks of the beginnings of some tokens, from the shortest. All tokens of a beginning are to be read or its last
/// is to be refused, up to the one of this number.
fn marks_of(
    alloc: Global,
    fragment: Fragment,
    tokens: Tokens,
    number: u32,
) -> Result<String, NoMemory> {
    let mut beginning = Tokens {
        items: Row::new(alloc),
    };
    let mut marks = String::new(alloc);
    let mut line = 0u32;
    for token in tokens.items.into_vec() {
        line = line.wrapping_add(1);
        beginning.items.push(token)?;
        let outcome = read_first(alloc, fragment, &beginning)?;
        marks.push(mark_of(&outcome, line.min(number)))?;
    }
    Ok(marks)
}

/// The tokens, each on a line of its own.
pub fn on_lines(alloc: Global, tokens: Tokens) -> Result<Tokens, NoMemory> {
    let mut items = Row::new(alloc);
    let mut line = 0u32;
    for token in tokens.items.into_vec() {
        line = line.wrapping_add(1);
        items.push(on_line(token, line))?;
    }
    Ok(Tokens { items })
}

/// The tree or the rule that is broken, and on the next line the number of tokens and the marks of the beginnings.
fn tell_outcome(alloc: Global, fragment: Fragment, tokens: Tokens) -> Result<String, NoMemory> {
    let outcome = read_first(alloc, fragment, &tokens)?;
    let number = outcome.number;
    let marks = marks_of(alloc, fragment, tokens, number)?;
    let Outcome { mut told, .. } = outcome;
    push_line(&mut told, "")?;
    write!(told, "{number} {marks}")?;
    Ok(told)
}

/// What is told of the text of a case. A point marks a beginning that is read, and an `x` one that is refused.
pub fn tell_fragment(alloc: Global, fragment: Fragment, case: &Case) -> Result<String, NoMemory> {
    let text = case.fragment(alloc)?;
    match lexed(alloc, 0, &text) {
        Ok(tokens) => tell_outcome(alloc, fragment, on_lines(alloc, tokens)?),
        Err(fail) => tell_fail(alloc, fail, 0),
    }
}
