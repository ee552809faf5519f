ghost use Rattle.std.specs.Prelude.{IsSome, OnOk};
ghost use Rattle.sr_actor.specs.Crew.{Begins, HasBegun, member_of};

use crate::actor::Actor;
use crate::member::Member;
use sr_ask::Start;
use sr_value::NoMemory;
use std::alloc::Global;
use std::collections::HashMap;

#[cold]
#[inline(never)]
fn begin<A: Actor>(
    crew: &mut HashMap<u32, Member<A>>,
    alloc: Global,
    start: &Start,
    ticks: u32,
) -> Result<(), NoMemory>
    ensures { OnOk result (HasBegun A.asks_after A.core_of start.now ticks crew.old crew.new) }
{
    let actor = A::start(alloc, start, ticks)?;
    let instance = start.instance;
    crew.insert(start.process, Member { instance, actor })?;
    Ok(())
}

/// Has a process begin, where it hasn't.
pub fn begin_once<A: Actor>(
    crew: &mut HashMap<u32, Member<A>>,
    alloc: Global,
    start: &Start,
    ticks: u32,
) -> Result<(), NoMemory>
    ensures known { OnOk result (IsSome (member_of crew.new start.now.process)) }
    ensures begins { OnOk result (Begins A.asks_after A.core_of start.now ticks crew.old crew.new) }
{
    if crew.contains_key(&start.process) {
        return Ok(());
    }
    begin(crew, alloc, start, ticks)
}
