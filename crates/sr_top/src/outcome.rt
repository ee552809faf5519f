ghost use Rattle.std.specs.Prelude.{◌≡◌, ◌≤◌, [], None, length};
ghost use Rattle.std.specs.List.{AllByRecursion};
ghost use Rattle.sr_run.specs.Causes.{HasCauseIn};
ghost use Rattle.sr_run.specs.Numbers.{IsNumbered};
ghost use Rattle.sr_top.specs.Causes.{EndsAs, IsAlone, arrangement_of};
ghost use Rattle.sr_top.specs.Causes as causes;

use crate::report::{Ending, LimitKind};
use sr_actor::Actor;
use sr_ask::Item;
use sr_core::Classes;
use sr_journal::Header;
use sr_plain::Passes;
use sr_ports::{Sink, Source};
use sr_run::{LimitKind as RunLimit, Run, RunEnd, Stretch, run, run_in_rounds};
use sr_value::Row;
use sr_world::End;
use std::alloc::Global;

/// How a command ended, and the items that it made, with the stretches of its workers; and what stands before them in its
/// journal, where one is kept.
#[derive(Debug, Drop)]
pub struct Outcome {
    pub ending: Ending,
    pub items: Row<Item>,
    pub rounds: Row<Stretch>,
    pub header: Option<Header>,
}

/// An ending before any item.
pub fn without_items(alloc: Global, ending: Ending) -> Outcome
    ensures ending { result.ending ≡ ending }
    ensures items { result.items ≡ [] }
    ensures rounds { result.rounds ≡ [] }
    ensures header { result.header ≡ None }
{
    Outcome {
        ending,
        items: Row::new(alloc),
        rounds: Row::new(alloc),
        header: None,
    }
}

/// Runs a program, each process of it as an `A`, by so many workers and with these limits.
pub fn run_program<A: Actor, I: Source, O: Sink>(
    alloc: Global,
    program: &A::Program,
    classes: &Classes,
    header: Option<Header>,
    workers: u32,
    steps: u32,
    ticks: u32,
    input: &mut I,
    output: &mut O,
) -> Outcome
    ensures ends { EndsAs workers classes.now result.rounds
        (record {
          core = A.core_of program.now;
          steps = steps;
          ticks = ticks;
          before = record { left = I.left input.old; read_faults = I.faults input.old; held = O.held output.old; write_faults = O.faults output.old };
          now = record { left = I.left input.new; read_faults = I.faults input.new; held = O.held output.new; write_faults = O.faults output.new };
          items = result.items;
        })
        result.ending }
    ensures header { result.header ≡ header }
{
    let Run { items, end, rounds } = made_by::<A, I, O>(
        alloc, program, classes, workers, steps, ticks, input, output,
    );
    let ending = ending_of(end);
    Outcome {
        ending,
        items,
        rounds,
        header,
    }
}

/// What so many workers make of a program.
fn made_by<A: Actor, I: Source, O: Sink>(
    alloc: Global,
    program: &A::Program,
    classes: &Classes,
    workers: u32,
    steps: u32,
    ticks: u32,
    input: &mut I,
    output: &mut O,
) -> Run
    ensures within { length result.items ≤ steps }
    ensures numbered { AllByRecursion IsNumbered result.items }
    ensures alone { IsAlone workers result.rounds }
    ensures cause { HasCauseIn (arrangement_of workers classes.now result.rounds)
        (record {
          core = A.core_of program.now;
          steps = steps;
          ticks = ticks;
          before = record { left = I.left input.old; read_faults = I.faults input.old; held = O.held output.old; write_faults = O.faults output.old };
          now = record { left = I.left input.new; read_faults = I.faults input.new; held = O.held output.new; write_faults = O.faults output.new };
          items = result.items;
        })
        result.end }
{
    if workers > 1 {
        let mut rounds = Passes;
        run_in_rounds::<A, _, I, O>(
            alloc,
            program,
            classes,
            steps,
            ticks,
            workers,
            &mut rounds,
            input,
            output,
        )
    } else {
        run::<A, I, O>(alloc, program, steps, ticks, input, output)
    }
}

/// The limit of a run.
fn limit_of(kind: RunLimit) -> LimitKind
    ensures { result ≡ causes.limit_of kind }
{
    match kind {
        RunLimit::Steps => LimitKind::Steps,
        RunLimit::Ticks(process) => LimitKind::Ticks(process),
        RunLimit::Input => LimitKind::Input,
    }
}

/// The ending of a call whose run ended so.
fn ending_of(end: RunEnd) -> Ending
    ensures { result ≡ causes.ending_of end }
{
    match end {
        RunEnd::Ended(End::Quiet) => Ending::Quiet,
        RunEnd::Ended(End::Stopped(status)) => Ending::Stopped(status),
        RunEnd::Ended(End::Failed { fault, place }) => Ending::Failed { fault, place },
        RunEnd::Limit(kind) => Ending::Limit(limit_of(kind)),
        RunEnd::ReadFault => Ending::ReadFault,
        RunEnd::WriteFault => Ending::WriteFault,
        RunEnd::NoMemory => Ending::NoMemory,
    }
}
