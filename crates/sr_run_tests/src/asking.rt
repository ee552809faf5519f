use crate::coded::{program_of, start_of};
use sr_ask::{Answer, Asks, Request, Start};
use sr_case_code::code_asks;
use sr_code::Program;
use sr_interpreter::tree_ask;
use sr_value::{Compare, NoMemory, Row};
use std::alloc::Global;

/// How many statements a process may begin between two answers.
const TICKS: u32 = 60;

/// What a process asks.
#[derive(Clone, Copy, Debug, PartialEq, Eq)]
pub enum Told {
    Age,
    Write,
    /// To wait until this moment.
    Wake(u32),
    Fail,
    Finish,
    /// Something else, or its code asks something else than its tree.
    Other,
}

fn told_of(asks: &Asks) -> Told {
    match asks {
        Asks::Asked(ask) => match &ask.request {
            Request::Age => Told::Age,
            Request::Write { .. } => Told::Write,
            Request::Wake { until } => Told::Wake(*until),
            Request::Fail { .. } => Told::Fail,
            Request::Finish { .. } => Told::Finish,
            _ => Told::Other,
        },
        Asks::OverTicks => Told::Other,
    }
}

/// What its tree asks, where its code asks the same.
fn told_alike(
    alloc: Global,
    program: &Program,
    start: &Start,
    answers: &Row<Answer>,
    tree: &Asks,
) -> Result<Told, NoMemory> {
    let code = code_asks(alloc, program, start, TICKS, answers)?;
    if tree.same(&code) {
        Ok(told_of(tree))
    } else {
        Ok(Told::Other)
    }
}

fn told_after(
    alloc: Global,
    program: &Program,
    start: &Start,
    answers: &Row<Answer>,
) -> Result<Told, NoMemory> {
    let tree = tree_ask(alloc, &program.core, start, TICKS, answers)?;
    told_alike(alloc, program, start, answers, &tree)
}

/// So many answers: the moment and that it is done, by turns.
fn answers_of(alloc: Global, moment: i32, count: u32) -> Result<Row<Answer>, NoMemory> {
    let mut answers = Row::new(alloc);
    for index in 0..count {
        if index % 2 == 0 {
            answers.push(Answer::Number(moment))?;
        } else {
            answers.push(Answer::Done)?;
        }
    }
    Ok(answers)
}

fn found(alloc: Global, time: i32, moment: i32, count: u32) -> Result<Told, NoMemory> {
    let answers = answers_of(alloc, moment, count)?;
    let start = start_of(alloc);
    told_after(alloc, &program_of(alloc, time)?, &start, &answers)
}

/// What a process asks that writes the moment and then waits so long, after so many answers with this moment.
pub fn what_is_asked(alloc: Global, time: i32, moment: i32, count: u32) -> Told {
    found(alloc, time, moment, count).unwrap_or(Told::Other)
}
