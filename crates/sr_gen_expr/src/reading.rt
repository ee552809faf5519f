ghost use Rattle.std.specs.Prelude.{◌≡◌, ◌+◌, IfOk, OnOk, length};
ghost use Rattle.sr_code.specs.Operands.{put_value};
ghost use Rattle.sr_core.specs.declared.component.Core.{Core};
ghost use Rattle.sr_meaning.specs.Expressions.{read_all};
ghost use Rattle.sr_gen_expr.specs.Emitting.{Takes, put_only, put_places};

use crate::emitting::emit;
use sr_code::{Coded, Instruction};
use sr_value::{NoMemory, Place, Row};

/// Emits the reads and stores of a `read`, after its places.
pub fn gen_reads(place: Place, out: &mut Row<Coded>) -> Result<(), NoMemory>
    ensures { OnOk result ((core : Core) → Takes put_places (put_only put_value) core place (λ targets. read_all 0 targets) out.old out.new) }
{
    let to = out.len();
    emit(place, Instruction::EndRead, out)?;
    let end = out.len();
    emit(place, Instruction::Jump { to }, out)?;
    emit(place, Instruction::NumberRead, out)?;
    let store = two_above(out)?;
    emit(place, Instruction::ReadNext { store, end }, out)?;
    let next = out.len();
    emit(place, Instruction::StoreRead, out)?;
    emit(place, Instruction::Jump { to: next }, out)?;
    Ok(())
}

/// The address of the instruction after the next one to be emitted.
fn two_above(out: &Row<Coded>) -> Result<usize, NoMemory>
    ensures { IfOk result (λ to. to ≡ length out.now + 2) }
{
    match out.len().checked_add(2) {
        Some(to) => Ok(to),
        None => Err(NoMemory),
    }
}
