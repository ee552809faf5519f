ghost use Rattle.std.specs.Prelude.{◌≡◌, ◌==◌, ◌&&◌, ℕ, IfOk, IsTrue, OnOk, not};
ghost use Rattle.sr_replay.specs.Names.{KnowsNames, Notes, is_kept, is_named};
ghost use Rattle.sr_world.specs.Acting.{NeedsNew};
ghost use Rattle.sr_world.specs.Steps.{does};

use sr_ask::Ask;
use sr_core::Core;
use sr_value::NoMemory;
use sr_world::World;
use std::alloc::Global;
use std::collections::HashSet;

/// The numbers that are given out when a run begins: that of machine 1 and the boot process.
pub(crate) fn first_names(alloc: Global) -> Result<HashSet<u32>, NoMemory>
    ensures { IfOk result (λ names. (name : ℕ) → is_kept names name ≡ (1 == name)) }
{
    let mut names = HashSet::new(alloc);
    names.insert(1)?;
    Ok(names)
}

/// Whether a number is neither 0 nor given out.
pub(crate) fn is_unused(names: &HashSet<u32>, name: u32) -> bool
    ensures { result ≡ (not (name == 0) && not (is_kept names.now name)) }
{
    name != 0 && !names.contains(&name)
}

/// Keeps a number, unless it is 0.
pub(crate) fn note(names: &mut HashSet<u32>, name: u32) -> Result<(), NoMemory>
    ensures { OnOk result (Notes name names.old names.new) }
{
    if name != 0 {
        names.insert(name)?;
    }
    Ok(())
}

/// Whether the step of a request may have this number.
pub(crate) fn may_have(
    names: &HashSet<u32>,
    world: &World,
    core: &Core,
    ask: &Ask,
    name: u32,
) -> bool
    ensures needed { IsTrue result → (actor : ℕ) → NeedsNew (does core.now world.now actor ask.now name) world.now name }
    ensures named { KnowsNames names.now world.now → (actor : ℕ) → result ≡ is_named world.now name (does core.now world.now actor ask.now name) }
{
    if world.makes(core, ask) {
        return is_unused(names, name) && world.is_new(name);
    }
    name == 0
}
