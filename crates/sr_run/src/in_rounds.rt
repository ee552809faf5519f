ghost use Rattle.std.specs.Prelude.{◌≡◌, ◌↔◌, ◌+◌, ◌++◌, ◌-◌, ◌<◌, ◌≤◌, ◌^◌, ◌∷◌, ℕ, [], IfOk, List, OnErr, OnOk, false, length};
ghost use Rattle.std.specs.List.{AllByRecursion};
ghost use Rattle.sr_classes.specs.Classes.{class_of};
ghost use Rattle.sr_plain.specs.Engine.{IsEngine};
ghost use Rattle.sr_plain.specs.Passing.{AddsItems, FitsItem, HasPassed};
ghost use Rattle.sr_run.specs.Arranged.{InRounds};
ghost use Rattle.sr_run.specs.Causes.{HasCauseIn};
ghost use Rattle.sr_run.specs.Numbers.{IsNumbered};
ghost use Rattle.sr_run.specs.Runs.{Call, Devices};
ghost use Rattle.sr_run.specs.UnderWay.{IsUnderWay, Open, Whole, as_of};
ghost use Rattle.sr_run.specs.declared.intake.Intake as intakes;
ghost use Rattle.sr_world.specs.Runs.{Event, State, first};

use crate::advance::advance;
use crate::end::{LimitKind, Run, RunEnd};
use crate::intake::Intake;
use crate::stretch::Stretch;
use sr_actor::Actor;
use sr_ask::Item;
use sr_core::Classes;
use sr_plain::{Plain, Rounds};
use sr_ports::{Sink, Source};
use sr_value::{NoMemory, Row};
use std::alloc::Global;

/// The most items of a stretch.
const STRETCH_MOST: u32 = 4_096;

/// Carries a program out as `run` does, but after each item of the engine `rounds` makes a stretch, where as many items are
/// left as there are workers.
pub fn run_in_rounds<A: Actor, T: Rounds<A>, I: Source, O: Sink>(
    alloc: Global,
    program: &A::Program,
    classes: &Classes,
    steps: u32,
    ticks: u32,
    workers: u32,
    rounds: &mut T,
    input: &mut I,
    output: &mut O,
) -> Run
    requires { 1 ≤ workers }
    ensures within { length result.items ≤ steps }
    ensures numbered { AllByRecursion IsNumbered result.items }
    ensures cause { HasCauseIn (InRounds (class_of classes.now.of) workers result.rounds)
        (record {
          core = A.core_of program.now;
          steps = steps;
          ticks = ticks;
          before = record { left = I.left input.old; read_faults = I.faults input.old; held = O.held output.old; write_faults = O.faults output.old };
          now = record { left = I.left input.new; read_faults = I.faults input.new; held = O.held output.new; write_faults = O.faults output.new };
          items = result.items;
        })
        result.end }
{
    let mut items = Row::new(alloc);
    let mut stretches = Row::new(alloc);
    match begin::<A>(alloc, ticks) {
        Ok(plain) => {
            let end = run_rounds_on(
                plain,
                program,
                classes,
                steps,
                workers,
                rounds,
                input,
                output,
                &mut items,
                &mut stretches,
            );
            Run {
                items,
                end,
                rounds: stretches,
            }
        }
        Err(_) => Run {
            items,
            end: RunEnd::NoMemory,
            rounds: stretches,
        },
    }
}

/// The beginning of a run. The engine stands in memory of its own, since it is handed from stretch to stretch.
fn begin<A: Actor>(alloc: Global, ticks: u32) -> Result<Box<Plain<A>>, NoMemory>
    ensures { IfOk result (λ plain. (program : A.Program) → IsEngine (A.asks_after program) A.can_feed (A.core_of program) ticks first [] plain.value) }
{
    let plain = Plain::<A>::begin(alloc, ticks)?;
    Ok(Box::new(alloc, plain)?)
}

/// Carries a run out that has just begun.
fn run_rounds_on<A: Actor, T: Rounds<A>, I: Source, O: Sink>(
    plain: Box<Plain<A>>,
    program: &A::Program,
    classes: &Classes,
    steps: u32,
    workers: u32,
    rounds: &mut T,
    input: &mut I,
    output: &mut O,
    items: &mut Row<Item>,
    stretches: &mut Row<Stretch>,
) -> RunEnd
    requires workers { 1 ≤ workers }
    requires no_items { items.old ≡ [] }
    ensures within { length items.new ≤ steps }
    ensures fit { AllByRecursion FitsItem items.new }
    ensures cause { (call : Call) → call.steps ≡ steps
        → IsUnderWay (A.asks_after program.now) A.can_feed (InRounds (class_of classes.now.of) workers stretches.old) Whole
        (as_of call (A.core_of program.now) (record { left = I.left input.old; read_faults = I.faults input.old; held = O.held output.old; write_faults = O.faults output.old }) items.old)
        (record { taken = 0; ended = false }) plain.value
        → HasCauseIn (InRounds (class_of classes.now.of) workers stretches.new)
        (as_of call (A.core_of program.now) (record { left = I.left input.new; read_faults = I.faults input.new; held = O.held output.new; write_faults = O.faults output.new }) items.new)
        result }
{
    let mut plain = plain;
    let mut intake = Intake {
        taken: 0,
        ended: false,
    };
    while items.len() < steps as usize {
        let made = items.len();
        match advance(&mut plain, program, &mut intake, input, output, items) {
            None => {}
            Some(end) => {
                let_go(plain);
                return end;
            }
        }
        if made < items.len() {
            match add_stretch(
                plain, program, classes, steps, workers, rounds, items, stretches,
            ) {
                Ok(later) => plain = later,
                Err(_) => return RunEnd::NoMemory,
            }
        }
    }
    let_go(plain);
    RunEnd::Limit(LimitKind::Steps)
}

/// Drops a value in one call.
fn let_go<T: Drop>(_value: T) {}

/// Adds the stretch after the last item, where there is room for one.
fn add_stretch<A: Actor, T: Rounds<A>>(
    plain: Box<Plain<A>>,
    program: &A::Program,
    classes: &Classes,
    steps: u32,
    workers: u32,
    rounds: &mut T,
    items: &mut Row<Item>,
    stretches: &mut Row<Stretch>,
) -> Result<Box<Plain<A>>, NoMemory>
    requires workers { 1 ≤ workers }
    requires within { length items.old ≤ steps }
    ensures within { OnOk result (length items.new ≤ steps) }
    ensures no_fewer { OnOk result (length items.old ≤ length items.new) }
    ensures fit { OnOk result (AllByRecursion FitsItem items.old → AllByRecursion FitsItem items.new) }
    ensures goes_on { IfOk result (λ later. (call : Call) (now : Devices) (intake : intakes.Intake) → call.steps ≡ steps
        → IsUnderWay (A.asks_after program.now) A.can_feed (InRounds (class_of classes.now.of) workers stretches.old) Open (as_of call (A.core_of program.now) now items.old) intake plain.value
        → IsUnderWay (A.asks_after program.now) A.can_feed (InRounds (class_of classes.now.of) workers stretches.new) Whole (as_of call (A.core_of program.now) now items.new) intake later.value) }
    ensures same_items { OnErr result (items.new ≡ items.old) }
    ensures same_stretches { OnErr result (stretches.new ≡ stretches.old) }
{
    let room = room_of(steps - items.len() as u32, workers);
    if room == 0 {
        return Ok(plain);
    }
    make_stretch(plain, program, classes, room, rounds, items, stretches)
}

/// How many items a stretch may have, where so many are left.
fn room_of(left: u32, workers: u32) -> u32
    requires { 1 ≤ workers }
    ensures within { result ≤ left }
    ensures none { result ≡ 0 ↔ left < workers }
{
    STRETCH_MOST.min(left / workers)
}

/// Adds a stretch of at most `room` items.
fn make_stretch<A: Actor, T: Rounds<A>>(
    plain: Box<Plain<A>>,
    program: &A::Program,
    classes: &Classes,
    room: u32,
    rounds: &mut T,
    items: &mut Row<Item>,
    stretches: &mut Row<Stretch>,
) -> Result<Box<Plain<A>>, NoMemory>
    requires { length items.old + room < 2 ^ 32 }
    ensures passed { IfOk result (λ later. (limit : ℕ) (state : State) (events : List Event) → IsEngine (A.asks_after program.now) A.can_feed (A.core_of program.now) limit state events plain.value
        → HasPassed (A.asks_after program.now) A.can_feed (A.core_of program.now) (class_of classes.now.of) limit state events room items.old items.new later.value) }
    ensures added { OnOk result (AddsItems room items.old items.new) }
    ensures stretches { OnOk result (stretches.new ≡ stretches.old ++ record { from = length items.old; count = length items.new - length items.old } ∷ []) }
    ensures same_items { OnErr result (items.new ≡ items.old) }
    ensures same_stretches { OnErr result (stretches.new ≡ stretches.old) }
{
    let from = items.len() as u32;
    let place = stretches.len();
    stretches.push(Stretch { from, count: 0 })?;
    match rounds.round(program, classes, plain, room, items) {
        Ok(later) => {
            let count = items.len() as u32 - from;
            stretches.replace(place, Stretch { from, count });
            Ok(later)
        }
        Err(out_of_memory) => {
            stretches.truncate(place);
            Err(out_of_memory)
        }
    }
}
