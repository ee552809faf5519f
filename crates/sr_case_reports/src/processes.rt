//! Processes of programs that are asked and answered: a line for what the process is made with, and for each step what
//! it asks and is answered, such as `3 take (3) -> took 3 (11)`. The last line has no answer. The tree of the process is
//! asked, and its code beside it.

use crate::answers::{Origin, answer_of, origin_of};
use crate::asks::print_ask;
use sr_ask::{Answer, Asks, Role};
use sr_case_code::code_asks;
use sr_case_files::push_line;
use sr_code::Program;
use sr_interpreter::tree_ask;
use sr_value::{NoMemory, Row};
use std::alloc::Global;

/// What is asked, as text.
fn tell_asks(alloc: Global, asks: &Asks, role: Role) -> Result<String, NoMemory> {
    let mut out = String::new(alloc);
    match asks {
        Asks::Asked(ask) => print_ask(&mut out, ask, role)?,
        Asks::OverTicks => out.push_str("over ticks")?,
    }
    Ok(out)
}

/// What the tree of a process asks after these answers, as text.
fn tell_tree(
    alloc: Global,
    program: &Program,
    origin: &Origin,
    answers: &Row<Answer>,
) -> Result<String, NoMemory> {
    let asks = tree_ask(alloc, &program.core, &origin.start, origin.ticks, answers)?;
    tell_asks(alloc, &asks, origin.start.role)
}

/// What the code of a process asks after these answers, as text.
fn tell_code(
    alloc: Global,
    program: &Program,
    origin: &Origin,
    answers: &Row<Answer>,
) -> Result<String, NoMemory> {
    let asks = code_asks(alloc, program, &origin.start, origin.ticks, answers)?;
    tell_asks(alloc, &asks, origin.start.role)
}

/// What a process asks after these answers, as text, and what its code asks where that is something else.
fn tell_ask(
    alloc: Global,
    program: &Program,
    origin: &Origin,
    answers: &Row<Answer>,
) -> Result<String, NoMemory> {
    let mut told = tell_tree(alloc, program, origin, answers)?;
    let code = tell_code(alloc, program, origin, answers)?;
    if told != code {
        told.push_str(", but the code: ")?;
        told.push_str(code.as_str())?;
    }
    Ok(told)
}

/// What is told of a step, whose answer is taken in.
fn tell_step(
    alloc: Global,
    program: &Program,
    origin: &Origin,
    answers: &mut Row<Answer>,
    step: &str,
) -> Result<String, NoMemory> {
    let mut told = tell_ask(alloc, program, origin, answers)?;
    if let Some((_, answer)) = step.split_once(" -> ") {
        told.push_str(" -> ")?;
        told.push_str(answer)?;
        answers.push(answer_of(alloc, answer)?)?;
    }
    Ok(told)
}

/// What is told of all steps.
fn tell_steps(
    alloc: Global,
    program: &Program,
    origin: &str,
    steps: &str,
) -> Result<String, NoMemory> {
    let mut told = String::new(alloc);
    push_line(&mut told, origin)?;
    let origin = origin_of(alloc, origin)?;
    let mut answers = Row::new(alloc);
    for step in steps.lines() {
        let line = tell_step(alloc, program, &origin, &mut answers, step)?;
        push_line(&mut told, line.as_str())?;
    }
    Ok(told)
}

/// What is told of a process of a program, of which this is wanted.
pub fn tell_process(alloc: Global, program: &Program, wanted: &str) -> Result<String, NoMemory> {
    match wanted.split_once('\n') {
        Some((origin, steps)) => tell_steps(alloc, program, origin, steps),
        None => Ok(String::new(alloc)),
    }
}
