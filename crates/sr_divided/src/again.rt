ghost use Rattle.std.specs.Prelude.{◌≡◌, OnOk};
ghost use Rattle.sr_classes.specs.Classes.{class_of};
ghost use Rattle.sr_queue.specs.Dividing.{AreInOrder};

use sr_core::Classes;
use sr_shard::{Opening, split, unsplit};
use sr_value::NoMemory;
use sr_world::World;
use std::alloc::Global;
use std::marker::Brand;

/// Divides a world into shards, and joins them again. Where the pending invocations stand in the order of their numbers,
/// it is the same world then.
pub fn divide_and_join(alloc: Global, classes: &Classes, world: &mut World) -> Result<(), NoMemory>
    ensures { OnOk result (AreInOrder world.old.pending → world.new ≡ world.old) }
{
    by_shards::<Brand>(alloc, classes, world)
}

fn by_shards<P: Opening>(
    alloc: Global,
    classes: &Classes,
    world: &mut World,
) -> Result<(), NoMemory>
    requires world { world.old ≡ P.opened.world }
    requires classes { class_of classes.now.of ≡ P.opened.class }
    ensures { OnOk result (AreInOrder world.old.pending → world.new ≡ world.old) }
{
    let shards = split::<P>(alloc, classes, world)?;
    unsplit(alloc, world, shards)?;
    Ok(())
}
