ghost use Rattle.std.specs.Prelude.{◌≡◌, ◌+◌, ◌<◌, ◌≤◌, IfOk, IsTrue, length};
ghost use Rattle.sr_races.specs.Items.{Run};
ghost use Rattle.sr_races.specs.Traces.{IsTrace};
ghost use Rattle.sr_races.specs.Trails.{IsTrailed, TrailsTo};

use crate::trail::Trail;
use sr_actor::Actor;
use sr_ask::Item;
use sr_trace::Traced;
use sr_value::{NoMemory, Row, Text};
use std::alloc::Global;

/// What tracing a run comes to.
#[derive(Drop)]
pub enum Traces {
    /// The rows of its items.
    Found(Row<Traced>),
    /// The first item, counted from 1, that is no step of the run, or is one more than a run may have.
    Illegal { at: u32 },
}

/// The rows of the first `upto` items of a run with this input. A run has at most `steps` items, and a process may begin
/// `ticks` statements between two answers.
pub fn trace<A: Actor>(
    alloc: Global,
    program: &A::Program,
    steps: u32,
    ticks: u32,
    input: &Text,
    items: &Row<Item>,
    upto: u32,
) -> Result<Traces, NoMemory>
    requires { upto ≤ length items.now }
    ensures { IfOk result (IsTrace steps upto (record { core = A.core_of program.now; limit = ticks; input = input.now; items = items.now })) }
{
    let mut trail = Trail::<A>::begin(alloc, ticks, input)?;
    rows_of(alloc, &mut trail, program, steps, items.as_slice(), upto)
}

/// The rows of a run from its beginning on.
fn rows_of<A: Actor>(
    alloc: Global,
    trail: &mut Trail<A>,
    program: &A::Program,
    steps: u32,
    items: &[Item],
    upto: u32,
) -> Result<Traces, NoMemory>
    requires { upto ≤ length items.now }
    ensures { (r : Run) → r.items ≡ items.now → r.core ≡ A.core_of program.now → IsTrailed (A.asks_after program.now) r 0 trail.old → IfOk result (IsTrace steps upto r) }
{
    for place in 0..upto {
        let legal = trail_within(trail, program, steps, items, place)?;
        if !legal {
            return Ok(Traces::Illegal { at: place + 1 });
        }
    }
    Ok(Traces::Found(trail.take_rows(alloc)))
}

/// Makes the item at a place, where a run may have so many items and there is such an item there, and says whether it is so.
fn trail_within<A: Actor>(
    trail: &mut Trail<A>,
    program: &A::Program,
    steps: u32,
    items: &[Item],
    place: u32,
) -> Result<bool, NoMemory>
    requires { place < length items.now }
    ensures most { IfOk result (λ legal. IsTrue legal → place < steps) }
    ensures trails { (r : Run) → r.items ≡ items.now → r.core ≡ A.core_of program.now → IsTrailed (A.asks_after program.now) r place trail.old → IfOk result (λ legal. TrailsTo (A.asks_after program.now) steps r (place + 1) legal trail.new) }
{
    if place >= steps {
        return Ok(false);
    }
    trail.follow(program, items, place)
}
