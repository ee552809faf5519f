ghost use Rattle.std.specs.Prelude.{◌≡◌, is_some};
ghost use Rattle.sr_replay.specs.Living.{KeepsLiving};
ghost use Rattle.sr_world.specs.Worlds.{started};

use sr_actor::{Actor, Member};
use sr_world::World;
use std::collections::HashMap;

/// How many that have ended may be kept beside as many as live.
const FEW: usize = 16;

/// Drops those whose processes have ended, where they are more than those that live and a few.
pub(crate) fn sweep<A: Actor>(crew: &mut HashMap<u32, Member<A>>, world: &World)
    ensures { KeepsLiving world.now crew.old crew.new }
{
    if crew.len() / 2 > world.len().saturating_add(FEW) {
        drop_ended(crew, world);
    }
}

/// Drops those whose processes have ended.
fn drop_ended<A: Actor>(crew: &mut HashMap<u32, Member<A>>, world: &World)
    ensures { KeepsLiving world.now crew.old crew.new }
{
    crew.retain(
        |process: &u32, member: &mut Member<A>| -> bool
            ensures { (result ≡ is_some (started world.entry.now process.now)) × (member.new ≡ member.old) }
        { world.started(*process).is_some() },
    );
}
