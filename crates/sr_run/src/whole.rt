ghost use Rattle.std.specs.Prelude.{◌≡◌, ◌≤◌, [], false, length};
ghost use Rattle.std.specs.List.{AllByRecursion};
ghost use Rattle.sr_run.specs.Arranged.{InTurn};
ghost use Rattle.sr_run.specs.Causes.{HasCause};
ghost use Rattle.sr_plain.specs.Passing.{FitsItem};
ghost use Rattle.sr_run.specs.Numbers.{IsNumbered};
ghost use Rattle.sr_run.specs.Runs.{Call};
ghost use Rattle.sr_run.specs.UnderWay.{IsUnderWay, Whole, as_of};

use crate::advance::advance;
use crate::end::{LimitKind, Run, RunEnd};
use crate::intake::Intake;
use sr_actor::Actor;
use sr_ask::Item;
use sr_plain::Plain;
use sr_ports::{Sink, Source};
use sr_value::Row;
use std::alloc::Global;

/// Carries a program out, until it ends or has made `steps` items. A process may begin `ticks` statements between two
/// answers. What a write wrote is put right after its item.
pub fn run<A: Actor, I: Source, O: Sink>(
    alloc: Global,
    program: &A::Program,
    steps: u32,
    ticks: u32,
    input: &mut I,
    output: &mut O,
) -> Run
    ensures within { length result.items ≤ steps }
    ensures numbered { AllByRecursion IsNumbered result.items }
    ensures no_rounds { result.rounds ≡ [] }
    ensures cause { HasCause
        (record {
          core = A.core_of program.now;
          steps = steps;
          ticks = ticks;
          before = record { left = I.left input.old; read_faults = I.faults input.old; held = O.held output.old; write_faults = O.faults output.old };
          now = record { left = I.left input.new; read_faults = I.faults input.new; held = O.held output.new; write_faults = O.faults output.new };
          items = result.items;
        })
        result.end }
{
    let mut items = Row::new(alloc);
    match Plain::<A>::begin(alloc, ticks) {
        Ok(mut plain) => {
            let end = run_on(&mut plain, program, steps, input, output, &mut items);
            Run {
                items,
                end,
                rounds: Row::new(alloc),
            }
        }
        Err(_) => Run {
            items,
            end: RunEnd::NoMemory,
            rounds: Row::new(alloc),
        },
    }
}

/// Carries a run out that has just begun.
fn run_on<A: Actor, I: Source, O: Sink>(
    plain: &mut Plain<A>,
    program: &A::Program,
    steps: u32,
    input: &mut I,
    output: &mut O,
    items: &mut Row<Item>,
) -> RunEnd
    requires { items.old ≡ [] }
    ensures within { length items.new ≤ steps }
    ensures fit { AllByRecursion FitsItem items.new }
    ensures cause { (call : Call) → call.steps ≡ steps
        → IsUnderWay (A.asks_after program.now) A.can_feed InTurn Whole
        (as_of call (A.core_of program.now) (record { left = I.left input.old; read_faults = I.faults input.old; held = O.held output.old; write_faults = O.faults output.old }) items.old)
        (record { taken = 0; ended = false }) plain.old
        → HasCause
        (as_of call (A.core_of program.now) (record { left = I.left input.new; read_faults = I.faults input.new; held = O.held output.new; write_faults = O.faults output.new }) items.new)
        result }
{
    let mut intake = Intake {
        taken: 0,
        ended: false,
    };
    while items.len() < steps as usize {
        match advance(plain, program, &mut intake, input, output, items) {
            None => {}
            Some(end) => return end,
        }
    }
    RunEnd::Limit(LimitKind::Steps)
}
