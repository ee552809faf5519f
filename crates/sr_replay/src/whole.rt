ghost use Rattle.std.specs.Prelude.{◌≡◌, ◌<◌, ◌≤◌, ℕ, IfOk, List, length};
ghost use Rattle.sr_replay.specs.Replaying.{IsAt};
ghost use Rattle.sr_replay.specs.Replays.{Reaches, Replays};
ghost use Rattle.sr_world.specs.Runs.{Goes, Next, begun};

use crate::replayer::Replayer;
use crate::snapshot::Snapshot;
use sr_actor::Actor;
use sr_ask::Item;
use sr_value::{NoMemory, Row, Text};
use std::alloc::Global;

/// What the replay of some items came to.
#[derive(Drop)]
pub enum Replayed {
    /// What is to be seen after them.
    Reached(Snapshot),
    /// The item of this number, from 1, is the first that is no step.
    Illegal { at: u32 },
}

/// Replays the first `upto` items of a run with this input. A run has at most `steps` items, and a process may begin
/// `ticks` statements between two answers.
pub fn replay<A: Actor>(
    alloc: Global,
    program: &A::Program,
    steps: u32,
    ticks: u32,
    input: &Text,
    items: &Row<Item>,
    upto: u32,
) -> Result<Replayed, NoMemory>
    requires { upto ≤ length items.now }
    ensures { IfOk result (λ replayed. Replays (A.core_of program.now) steps ticks input.now items.now upto replayed) }
{
    let mut replayer = Replayer::<A>::begin(alloc, ticks, input)?;
    replay_on(&mut replayer, program, steps, items.as_slice(), upto)
}

/// Replays items from the beginning of a run on.
fn replay_on<A: Actor>(
    replayer: &mut Replayer<A>,
    program: &A::Program,
    steps: u32,
    items: &[Item],
    upto: u32,
) -> Result<Replayed, NoMemory>
    requires { upto ≤ length items.now }
    ensures { (ticks : ℕ) (input : List ℕ) → IsAt (A.asks_after program.now) (A.core_of program.now) ticks (Goes (begun input)) replayer.old → IfOk result (λ replayed. Replays (A.core_of program.now) steps ticks input items.now upto replayed) }
{
    let count = fewer(upto, steps);
    let found = replayer.follow(program, items, count)?;
    match found {
        Some(place) => Ok(Replayed::Illegal { at: place + 1 }),
        None => reach(replayer, program, steps, upto),
    }
}

/// What comes after so many items that were made, or after as many as a run may have.
fn reach<A: Actor>(
    replayer: &mut Replayer<A>,
    program: &A::Program,
    steps: u32,
    upto: u32,
) -> Result<Replayed, NoMemory>
    ensures { (ticks : ℕ) (now : Next) → IsAt (A.asks_after program.now) (A.core_of program.now) ticks now replayer.old → IfOk result (Reaches (A.core_of program.now) steps ticks upto now) }
{
    if steps < upto {
        return Ok(Replayed::Illegal { at: steps + 1 });
    }
    let snapshot = replayer.snapshot(program, upto)?;
    Ok(Replayed::Reached(snapshot))
}

/// The less of two numbers.
fn fewer(one: u32, other: u32) -> u32
    ensures one { one ≤ other → result ≡ one }
    ensures other { other < one → result ≡ other }
    ensures most { result ≤ one }
    ensures least { result ≤ other }
{
    if one <= other { one } else { other }
}
