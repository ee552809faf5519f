ghost use Rattle.std.specs.Prelude.{◌≡◌, IfOk, OnErr, OnOk};
ghost use Rattle.sr_classes.specs.Classes.{class_of};
ghost use Rattle.sr_shard.specs.Dividing.{AreInPlace, HasPartsFrom, moved_in, without_moved};
ghost use Rattle.sr_shard.specs.Shards.{AreNumbered, AreOpened, IsGathered, IsJoined};
ghost use Rattle.sr_world.specs.Worlds as worlds;

use crate::divided::Divided;
use crate::shard::{Opening, Shard};
use sr_buckets::PARTS;
use sr_core::Classes;
use sr_value::{NoMemory, Row};
use sr_world::World;
use std::alloc::Global;

/// The shards of a world, in the order of their numbers. What stands in parts is moved into them; the world has none of it
/// then, nor after memory ran out. It takes no time by what stands there, but for what is pending.
pub fn split<P: Opening>(
    alloc: Global,
    classes: &Classes,
    world: &mut World,
) -> Result<Row<Shard<P>>, NoMemory>
    requires world { world.old ≡ P.opened.world }
    requires classes { class_of classes.now.of ≡ P.opened.class }
    ensures shards { IfOk result (AreOpened P.opened) }
    ensures rest { world.new ≡ without_moved world.old }
{
    let divided = Divided::of(alloc, classes, world.lend())?;
    shards_of(alloc, divided)
}

fn shards_of<P: Opening>(alloc: Global, divided: Divided) -> Result<Row<Shard<P>>, NoMemory>
    requires { HasPartsFrom 0 P.opened.class (moved_in P.opened.world) divided }
    ensures { IfOk result (AreOpened P.opened) }
{
    let mut divided = divided;
    let mut shards = Row::new(alloc);
    for number in 0..PARTS {
        let portion = divided.take(alloc, number);
        shards.push(Shard::begin(alloc, portion))?;
    }
    Ok(shards)
}

/// Moves what shards have back into the world that has all else. After out of memory that world is as before, and the
/// shards are gone.
pub fn unsplit<P: Opening>(
    alloc: Global,
    world: &mut World,
    shards: Row<Shard<P>>,
) -> Result<(), NoMemory>
    requires { AreNumbered shards }
    ensures joined { OnOk result ((joined : worlds.World) → IsJoined P.opened.class world.old shards joined → world.new ≡ joined) }
    ensures err { OnErr result (world.new ≡ world.old) }
{
    let divided = together(alloc, shards);
    let loan = divided.into_loan(alloc)?;
    world.take_back(loan);
    Ok(())
}

/// What shards have, by part.
fn together<P: Opening>(alloc: Global, shards: Row<Shard<P>>) -> Divided
    requires { AreNumbered shards }
    ensures place { AreInPlace result }
    ensures parts { IsGathered P.opened.class shards result }
{
    let mut divided = Divided::empty(alloc);
    let mut shards = shards;
    'putting: while let Some(shard) = shards.pop() {
        divided.put(shard.into_portion());
    }
    divided
}
