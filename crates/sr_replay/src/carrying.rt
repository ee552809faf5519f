ghost use Rattle.std.specs.Prelude.{IfOk, OnOk};
ghost use Rattle.sr_replay.specs.Carrying.{Carries, Hears, Rests};
ghost use Rattle.sr_replay.specs.Names.{KnowsNames, Notes, is_named};
ghost use Rattle.sr_world.specs.Steps.{does};

use crate::names::{may_have, note};
use sr_actor::{Actor, Member};
use sr_ask::Ask;
use sr_core::Core;
use sr_value::NoMemory;
use sr_world::{Acted, End, World};
use std::collections::HashSet;

/// Has the machine carry a request out, where its step may have this number. Elsewhere it can't be done.
pub(crate) fn carry_out(
    world: &mut World,
    names: &mut HashSet<u32>,
    core: &Core,
    actor: u32,
    ask: &Ask,
    name: u32,
) -> Result<Acted, NoMemory>
    ensures carries { KnowsNames names.old world.old → IfOk result (λ came. Carries (is_named world.old name (does core.now world.old actor ask.now name)) (does core.now world.old actor ask.now name) world.old world.new came) }
    ensures notes { OnOk result (Notes name names.old names.new) }
{
    let may = may_have(names, world, core, ask, name);
    note(names, name)?;
    if !may {
        return Ok(Acted::Cannot);
    }
    world.act(core, actor, ask, name)
}

/// Hands a process its answer, or notes how the run has ended. Says whether there was such a step.
pub(crate) fn hear<A: Actor>(member: &mut Member<A>, acted: Acted, ending: &mut Option<End>) -> bool
    ensures { (program : A.Program) → Hears (A.asks_after program) A.can_feed acted member.old member.new ending.old ending.new result }
{
    match acted {
        Acted::Done(answer) => {
            member.answer(answer);
            true
        }
        Acted::Ends(end) => {
            *ending = Some(end);
            true
        }
        Acted::Cannot | Acted::Undecided => false,
    }
}

/// How a rest ends the run, where it does. Says whether there was such a rest; where final code began, its number has to be
/// unused.
pub(crate) fn come_to(acted: Acted, unused: bool, name: u32, ending: &mut Option<End>) -> bool
    ensures { Rests acted unused name ending.old ending.new result }
{
    match acted {
        Acted::Done(_) => unused,
        Acted::Ends(end) => {
            *ending = Some(end);
            name == 0
        }
        Acted::Cannot | Acted::Undecided => false,
    }
}
