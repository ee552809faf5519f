//! Whether the code of processes asks after each prefix of lists of answers what their trees ask.

use crate::answering::{Answerer, Manner};
use crate::starts::starts_of;
use sr_ask::{Answer, Asks, Role, Start};
use sr_code::Program;
use sr_interpreter::tree_ask;
use sr_process::Process;
use sr_value::{Compare, Duplicate, NoMemory, Row};
use std::alloc::Global;

/// How many lists of answers each process is given.
const LISTS: u32 = 12;

/// How many answers a list has.
const ANSWERS: u32 = 30;

/// How many statements a process may begin between two answers.
const TICKS: u32 = 60;

/// Where the code of a process asks something else than its tree: the process by its role and code, the number of the
/// list, and how many of its answers were given.
#[derive(Clone, Copy)]
pub struct Difference {
    pub role: Role,
    pub code: u32,
    pub list: u32,
    pub answers: u32,
}

/// How many processes of a program were compared, and where they first differ.
#[derive(Drop)]
pub struct Table {
    pub processes: usize,
    pub differences: Row<Difference>,
}

/// The next answer, to what is asked.
fn next_answer(
    answerer: &mut Answerer,
    program: &Program,
    asks: &Asks,
) -> Result<Answer, NoMemory> {
    match asks {
        Asks::Asked(ask) => answerer.answer(&program.core, &ask.request),
        Asks::OverTicks => Ok(Answer::Done),
    }
}

/// The next answer, where the code asks what the tree asks after these answers.
fn answer_if_same(
    alloc: Global,
    program: &Program,
    start: &Start,
    answerer: &mut Answerer,
    answers: &Row<Answer>,
    code_asks: &Asks,
) -> Result<Option<Answer>, NoMemory> {
    if tree_ask(alloc, &program.core, start, TICKS, answers)?.same(code_asks) {
        Ok(Some(next_answer(answerer, program, code_asks)?))
    } else {
        Ok(None)
    }
}

/// Runs the code of a process to its next request. The answer to it, where the tree asks the same.
fn next_alike(
    alloc: Global,
    program: &Program,
    start: &Start,
    answerer: &mut Answerer,
    answers: &Row<Answer>,
    process: &mut Process,
) -> Result<Option<Answer>, NoMemory> {
    let asks = process.next(program)?;
    answer_if_same(alloc, program, start, answerer, answers, &asks)
}

/// Puts a copy in the place of a process, which goes on from there.
fn go_on_as_copy(process: &mut Process) -> Result<(), NoMemory> {
    *process = process.copy()?;
    Ok(())
}

fn note(alloc: Global, answers: &mut Row<Answer>, answer: &Answer) -> Result<(), NoMemory> {
    answers.push(answer.copy(alloc)?)
}

/// Gives a process that has begun its answers, one after the other, and goes on with a copy of it after each. After how
/// many of them its code first asks something else than its tree, where it does.
fn difference_of(
    alloc: Global,
    program: &Program,
    start: &Start,
    answerer: &mut Answerer,
    process: &mut Process,
) -> Result<Option<u32>, NoMemory> {
    let mut answers = Row::new(alloc);
    for given in 0..=ANSWERS {
        match next_alike(alloc, program, start, answerer, &answers, process)? {
            None => return Ok(Some(given)),
            Some(answer) => {
                note(alloc, &mut answers, &answer)?;
                process.feed(answer);
                go_on_as_copy(process)?;
            }
        }
    }
    Ok(None)
}

/// After how many answers the code of a process first asks something else than its tree, where it does.
fn first_difference(
    alloc: Global,
    program: &Program,
    start: &Start,
    answerer: &mut Answerer,
) -> Result<Option<u32>, NoMemory> {
    let mut process = Process::start(alloc, start, TICKS)?;
    difference_of(alloc, program, start, answerer, &mut process)
}

/// Gives each of these processes a list of answers.
fn compare_each(
    alloc: Global,
    program: &Program,
    starts: &[Start],
    list: u32,
    answerer: &mut Answerer,
    differences: &mut Row<Difference>,
) -> Result<(), NoMemory> {
    for start in starts {
        if let Some(answers) = first_difference(alloc, program, start, answerer)? {
            let (role, code) = (start.role, start.code);
            differences.push(Difference {
                role,
                code,
                list,
                answers,
            })?;
        }
    }
    Ok(())
}

/// Gives each process one list of answers. All answers of the first list are right.
fn compare_list(
    alloc: Global,
    program: &Program,
    list: u32,
    table: &mut Table,
) -> Result<(), NoMemory> {
    let manner = if list == 0 {
        Manner::Right
    } else {
        Manner::Mixed
    };
    let starts = starts_of(alloc, &program.core, list)?;
    table.processes = starts.len();
    let mut answerer = Answerer::new(alloc, list, manner);
    let (each, differences) = (starts.as_slice(), &mut table.differences);
    compare_each(alloc, program, each, list, &mut answerer, differences)
}

fn compare_lists(alloc: Global, program: &Program, table: &mut Table) -> Result<(), NoMemory> {
    for list in 0..LISTS {
        compare_list(alloc, program, list, table)?;
    }
    Ok(())
}

/// Gives each process of a program twelve lists of thirty answers.
pub fn compared(alloc: Global, program: &Program) -> Result<Table, NoMemory> {
    let mut table = Table {
        processes: 0,
        differences: Row::new(alloc),
    };
    compare_lists(alloc, program, &mut table)?;
    Ok(table)
}
