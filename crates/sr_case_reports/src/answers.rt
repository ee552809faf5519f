//! What processes are made with and are answered, from its text.

use sr_ask::{Answer, Role, Start};
use sr_case_values::{Words, next_value, nodes_of, values_of};
use sr_value::{NoMemory, Row};
use std::alloc::Global;

/// `picked 5 arm 0 (1) for 0`: an invocation, the arm that services it, its arguments, and its caller.
fn picked(alloc: Global, words: &mut Words<'_>) -> Result<Answer, NoMemory> {
    let id = words.number();
    let arm = words.named();
    let args = values_of(alloc, words.list())?;
    let back = words.named();
    Ok(Answer::Picked {
        id,
        arm,
        args,
        back,
    })
}

/// `took 3 (11)`, or `took 3 nothing`: the invocation, and the results.
fn took(alloc: Global, words: &mut Words<'_>, has_results: bool) -> Result<Answer, NoMemory> {
    let id = words.number();
    if has_results {
        let results = Some(values_of(alloc, words.list())?);
        Ok(Answer::Took { id, results })
    } else {
        Ok(Answer::Took { id, results: None })
    }
}

/// The answer that a text stands for.
pub fn answer_of(alloc: Global, text: &str) -> Result<Answer, NoMemory> {
    let nodes = nodes_of(alloc, text)?;
    let mut words = Words::new(&nodes);
    match words.word() {
        "got" => Ok(Answer::Got(next_value(alloc, &mut words)?)),
        "made" => Ok(Answer::Made(words.number())),
        "ready" => Ok(Answer::Ready),
        "picked" => picked(alloc, &mut words),
        "else" => Ok(Answer::Else),
        "took" => took(alloc, &mut words, !text.ends_with("nothing")),
        "number" => Ok(Answer::Number(words.word().parse().unwrap_or(0))),
        "bad" => Ok(Answer::Bad),
        "end" => Ok(Answer::End),
        _ => Ok(Answer::Done),
    }
}

/// The numbers of the list that comes next.
fn next_numbers(alloc: Global, words: &mut Words<'_>) -> Result<Row<u32>, NoMemory> {
    let mut numbers = Row::new(alloc);
    let mut items = Words::new(words.list());
    for _ in 0..items.len() {
        numbers.push(items.number())?;
    }
    Ok(numbers)
}

/// The role that a word stands for.
fn role_of(word: &str) -> Role {
    match word {
        "boot" => Role::Boot,
        "proc" => Role::Proc,
        "final" => Role::Final,
        _ => Role::Initial,
    }
}

/// What a process is made with, and how many statements it may begin between two answers.
#[derive(Drop)]
pub struct Origin {
    pub start: Start,
    pub ticks: u32,
}

/// What a line such as `initial 0 of 2 as 2 for 1 homes (3) args (4) ticks 5` stands for: the role and the number of
/// the code, the instance, the process, its caller, the homes, the arguments and the ticks. The machine is 1.
pub fn origin_of(alloc: Global, line: &str) -> Result<Origin, NoMemory> {
    let nodes = nodes_of(alloc, line)?;
    let mut words = Words::new(&nodes);
    let role = role_of(words.word());
    let code = words.number();
    let instance = words.named();
    let process = words.named();
    let back = words.named();
    let _ = words.word();
    let homes = next_numbers(alloc, &mut words)?;
    let _ = words.word();
    let args = values_of(alloc, words.list())?;
    let ticks = words.named();
    let start = Start {
        process,
        instance,
        vm: 1,
        homes,
        role,
        code,
        args,
        back,
    };
    Ok(Origin { start, ticks })
}
