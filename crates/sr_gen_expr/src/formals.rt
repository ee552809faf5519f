ghost use Rattle.std.specs.Prelude.{OnOk};
ghost use Rattle.sr_code.specs.Operands.{put_list};
ghost use Rattle.sr_core.specs.declared.component.Core.{Core};
ghost use Rattle.sr_meaning.specs.Statements.{make_formals, make_returned};
ghost use Rattle.sr_gen_expr.specs.Emitting.{Gives, Takes, put_nothing, put_only};

use crate::emitting::emit;
use sr_code::{Coded, Instruction};
use sr_core::{Formal, Returned, Scope};
use sr_value::{Duplicate, NoMemory, Place, Row};
use std::alloc::Global;

/// Emits the making of formals, whose arguments are a list. The argument of each is stored as it is made.
pub fn gen_formals(
    alloc: Global,
    place: Place,
    scope: Scope,
    formals: &[Formal],
    out: &mut Row<Coded>,
) -> Result<(), NoMemory>
    ensures { OnOk result ((core : Core) → Takes put_list (put_only put_nothing) core place (λ args. make_formals scope formals.now args) out.old out.new) }
{
    emit(place, Instruction::DropList, out)?;
    let mut at = formals.len();
    while at > 0 {
        at -= 1;
        let formal = &formals[at];
        let var = formal.var;
        let mode = formal.mode;
        emit(place, Instruction::StoreFormal { scope, var, mode }, out)?;
        let shape = formal.shape.copy(alloc)?;
        emit(
            place,
            Instruction::MakeFormal {
                scope,
                var,
                mode,
                shape,
            },
            out,
        )?;
    }
    Ok(())
}

/// Emits the making of the returned name, where there is one.
pub fn gen_returned(
    alloc: Global,
    place: Place,
    returned: &Option<Returned>,
    out: &mut Row<Coded>,
) -> Result<(), NoMemory>
    ensures { OnOk result ((core : Core) → Gives put_nothing core place (make_returned returned.now) out.old out.new) }
{
    match returned {
        None => Ok(()),
        Some(name) => {
            let scope = Scope::Own;
            let var = name.var;
            emit(place, Instruction::Make { scope, var }, out)?;
            let shape = name.shape.copy(alloc)?;
            emit(place, Instruction::FixedShape(shape), out)?;
            Ok(())
        }
    }
}
