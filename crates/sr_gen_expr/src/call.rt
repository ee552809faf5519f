ghost use Rattle.std.specs.Prelude.{◌≡◌, IfOk, OnOk};
ghost use Rattle.sr_code.specs.Operands.{put_value};
ghost use Rattle.sr_core.specs.declared.component.Core.{Core};
ghost use Rattle.sr_gen_expr.specs.Emitting.{Takes, answer_meaning, put_invoked, put_only};

use crate::emitting::emit;
use sr_code::{Coded, Instruction};
use sr_value::{Duplicate, NoMemory, Place, Row, Shape};
use std::alloc::Global;

/// Emits what follows an invocation that wants a reply: its results are stored, and its value is put.
pub fn gen_answer(
    alloc: Global,
    place: Place,
    returns: &Option<Shape>,
    out: &mut Row<Coded>,
) -> Result<(), NoMemory>
    ensures { OnOk result ((core : Core) → Takes put_invoked (put_only put_value) core place (answer_meaning returns.now) out.old out.new) }
{
    let to = out.len();
    let default = default_of(alloc, returns)?;
    emit(place, default, out)?;
    let none = out.len();
    emit(place, Instruction::StoreResults { to }, out)?;
    emit(place, Instruction::Take { none }, out)?;
    Ok(())
}

/// The instruction that puts the default of a type.
pub fn default_of(alloc: Global, returns: &Option<Shape>) -> Result<Instruction, NoMemory>
    ensures { IfOk result (λ i. i ≡ Instruction.Default returns.now) }
{
    match returns {
        None => Ok(Instruction::Default(None)),
        Some(shape) => Ok(Instruction::Default(Some(shape.copy(alloc)?))),
    }
}
