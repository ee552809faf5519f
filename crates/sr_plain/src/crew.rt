ghost use Rattle.std.specs.Prelude.{◌≡◌, is_some};
ghost use Rattle.sr_plain.specs.Crew.{AllLive, KeepsLiving, LetsGo};
ghost use Rattle.sr_world.specs.Worlds.{started};

use crate::change::Woken;
use sr_actor::{Actor, Member};
use sr_world::World;
use std::collections::HashMap;

/// Drops those whose processes have ended.
#[cold]
#[inline(never)]
fn drop_ended<A: Actor>(crew: &mut HashMap<u32, Member<A>>, world: &World)
    ensures keeps { KeepsLiving world.now crew.old crew.new }
    ensures live { AllLive world.now crew.new }
{
    crew.retain(
        |process: &u32, member: &mut Member<A>| -> bool
            ensures { (result ≡ is_some (started world.entry.now process.now)) × (member.new ≡ member.old) }
        { world.started(*process).is_some() },
    );
}

/// Drops those whose processes a step ended.
#[inline(always)]
pub(crate) fn let_go<A: Actor>(crew: &mut HashMap<u32, Member<A>>, world: &World, woken: Woken)
    ensures { LetsGo world.now woken crew.old crew.new }
{
    if woken.change.is_everything() {
        return drop_ended(crew, world);
    }
    match woken.gone {
        Some(process) => {
            crew.remove(&process);
        }
        None => {}
    }
}
