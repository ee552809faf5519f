ghost use Rattle.std.specs.Prelude.{◌≡◌, OnOk};
ghost use Rattle.sr_code.specs.Operands.{put_cap, put_value};
ghost use Rattle.sr_core.specs.declared.component.Core.{Core};
ghost use Rattle.sr_meaning.specs.Expressions.{ensured, needs_of};
ghost use Rattle.sr_gen_expr.specs.Emitting.{Takes, create_meaning, keep_top, put_arguments, put_only};

use crate::emitting::emit;
use sr_code::{Coded, Instruction};
use sr_core::Core;
use sr_value::{NoMemory, Place, Row};

/// Emits a `create` after its arguments and its machine.
pub fn gen_created(
    core: &Core,
    place: Place,
    resource: u32,
    out: &mut Row<Coded>,
) -> Result<(), NoMemory>
    ensures { OnOk result (Takes put_arguments (put_only put_value) core.now place (create_meaning resource) out.old out.new) }
{
    emit(place, Instruction::TakeInstance, out)?;
    emit(place, Instruction::Create { resource }, out)?;
    gen_ensured(place, needs(core, resource), out)?;
    emit(place, Instruction::ToCap, out)?;
    Ok(())
}

/// Emits the requests for globals, from the first to the last.
pub fn gen_ensured(place: Place, globals: &[u32], out: &mut Row<Coded>) -> Result<(), NoMemory>
    ensures { OnOk result ((core : Core) → Takes put_cap (keep_top put_cap) core place (λ vm. ensured globals.now vm) out.old out.new) }
{
    let mut at = globals.len();
    while at > 0 {
        at -= 1;
        let global = globals[at];
        emit(place, Instruction::EnsureGlobal { global }, out)?;
    }
    Ok(())
}

/// The globals that a component needs, each after those that it imports.
pub fn needs(core: &Core, component: u32) -> &[u32]
    ensures { result.now ≡ needs_of core.now component }
{
    match core.components.get(component as usize) {
        Some(found) => found.needs.as_slice(),
        None => &[],
    }
}
