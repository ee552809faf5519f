use sr_ask::{Answer, Asks, Start};
use sr_code::Program;
use sr_process::Process;
use sr_value::{Duplicate, NoMemory, Row};
use std::alloc::Global;

/// Runs a process to what it asks after these answers.
fn run(
    alloc: Global,
    process: &mut Process,
    program: &Program,
    answers: &[Answer],
) -> Result<Asks, NoMemory> {
    for answer in answers {
        let _ = process.next(program)?;
        process.feed(answer.copy(alloc)?);
    }
    process.next(program)
}

/// What the code of a process with this start asks after exactly these answers, where it may begin `ticks` statements
/// between two of them.
pub fn code_asks(
    alloc: Global,
    program: &Program,
    start: &Start,
    ticks: u32,
    answers: &Row<Answer>,
) -> Result<Asks, NoMemory> {
    let mut process = Process::start(alloc, start, ticks)?;
    run(alloc, &mut process, program, answers.as_slice())
}
