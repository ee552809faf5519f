ghost use Rattle.std.specs.Prelude.{◌≡◌, ◌+◌, ◌<◌, ◌≤◌, [], false, IfOk, IsTrue, OnOk, length, map};
ghost use Rattle.sr_ask.specs.Items.{actor_of as actor_of_item};
ghost use Rattle.sr_clock_rows.specs.Columns.{AreColumns};
ghost use Rattle.sr_races.specs.Items.{Run};
ghost use Rattle.sr_races.specs.Races.{HasColumns, Races, is_too_long as is_too_long_of};
ghost use Rattle.sr_races.specs.Walks.{CanWalk, IsWalked, WalksWithin};

use crate::race::Raced;
use crate::search::search;
use crate::walk::Walk;
use sr_actor::Actor;
use sr_ask::Item;
use sr_clock_rows::Columns;
use sr_value::{NoMemory, Row, Text};
use std::alloc::Global;

/// The greatest number of items that are searched, and of processes that make them.
const MOST_ITEMS: usize = 65_536;

const MOST_ACTORS: u32 = 1_024;

/// Whether there are too many items, or processes that make them, to be searched.
pub fn is_too_long(alloc: Global, items: &Row<Item>) -> Result<bool, NoMemory>
    ensures { IfOk result (λ long. long ≡ is_too_long_of items.now) }
{
    let columns = columns_of(alloc, items.as_slice())?;
    Ok(columns.is_none())
}

/// Finds the races of a run with this input. A run has at most `steps` items, and a process may begin `ticks` statements
/// between two answers.
pub fn races<A: Actor>(
    alloc: Global,
    program: &A::Program,
    steps: u32,
    ticks: u32,
    input: &Text,
    items: &Row<Item>,
) -> Result<Raced, NoMemory>
    ensures { IfOk result (Races steps (record { core = A.core_of program.now; limit = ticks; input = input.now; items = items.now })) }
{
    let columns = columns_of(alloc, items.as_slice())?;
    match columns {
        Some(columns) => {
            let mut walk = Walk::<A>::begin(alloc, columns, ticks, input)?;
            races_on(&mut walk, program, steps, items.as_slice())
        }
        None => Ok(Raced::TooLong),
    }
}

/// The races of a run from its beginning on.
fn races_on<A: Actor>(
    walk: &mut Walk<A>,
    program: &A::Program,
    steps: u32,
    items: &[Item],
) -> Result<Raced, NoMemory>
    requires most { length items.now ≤ 65536 }
    requires can { CanWalk items.now 0 walk.old }
    ensures { (r : Run) → r.items ≡ items.now → r.core ≡ A.core_of program.now → is_too_long_of r.items ≡ false → IsWalked (A.asks_after program.now) r 0 walk.old → IfOk result (Races steps r) }
{
    for place in 0..items.len() as u32 {
        let legal = follow_within(walk, program, steps, items, place)?;
        if !legal {
            return Ok(Raced::Illegal { at: place + 1 });
        }
    }
    search(walk.alloc, walk.entries.as_slice(), &walk.clocks)
}

/// Makes the item at a place, where a run may have so many items and there is such an item there, and says whether it is so.
fn follow_within<A: Actor>(
    walk: &mut Walk<A>,
    program: &A::Program,
    steps: u32,
    items: &[Item],
    place: u32,
) -> Result<bool, NoMemory>
    requires within { place < length items.now }
    requires room { place < 4294967295 }
    requires can { CanWalk items.now place walk.old }
    ensures can { IfOk result (λ legal. IsTrue legal → CanWalk items.now (place + 1) walk.new) }
    ensures most { IfOk result (λ legal. IsTrue legal → place < steps) }
    ensures walks { (r : Run) → r.items ≡ items.now → r.core ≡ A.core_of program.now → IsWalked (A.asks_after program.now) r place walk.old → IfOk result (λ legal. WalksWithin (A.asks_after program.now) steps r (place + 1) legal walk.new) }
{
    if place >= steps {
        return Ok(false);
    }
    walk.follow(program, items, place)
}

/// A column for each process that makes items; none where there are too many items or processes.
fn columns_of(alloc: Global, items: &[Item]) -> Result<Option<Columns>, NoMemory>
    ensures { IfOk result (HasColumns items.now) }
{
    if items.len() > MOST_ITEMS {
        return Ok(None);
    }
    let mut columns = Columns::new(alloc);
    add_all(&mut columns, items)?;
    if columns.width > MOST_ACTORS {
        return Ok(None);
    }
    Ok(Some(columns))
}

fn add_all(columns: &mut Columns, items: &[Item]) -> Result<(), NoMemory>
    requires most { length items.now ≤ 65536 }
    requires width { columns.old.width ≡ 0 }
    ensures { AreColumns [] columns.old → OnOk result (AreColumns (map actor_of_item items.now) columns.new) }
{
    for item in items {
        columns.add(actor_of(*item))?;
    }
    Ok(())
}

/// The process that makes an item, or 0.
fn actor_of(item: Item) -> u32
    ensures { result ≡ actor_of_item item }
{
    match item {
        Item::Step { actor, .. } => actor,
        Item::Quiesce { .. } | Item::Tick { .. } => 0,
    }
}
