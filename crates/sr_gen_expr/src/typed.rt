ghost use Rattle.std.specs.Prelude.{OnOk};
ghost use Rattle.sr_code.specs.Operands.{put_cap, put_number};
ghost use Rattle.sr_meaning.specs.Statements.{cap_expr, number_expr};
ghost use Rattle.sr_gen_expr.specs.Emitting.{Gives};

use crate::emitting::emit;
use crate::expression::gen_expr;
use sr_code::{Coded, Instruction};
use sr_core::{Core, Expr};
use sr_value::{NoMemory, Place, Row};
use std::alloc::Global;

/// Emits an expression whose value is a number.
pub fn gen_number(
    alloc: Global,
    core: &Core,
    place: Place,
    expr: &Expr,
    out: &mut Row<Coded>,
) -> Result<(), NoMemory>
    ensures { OnOk result (Gives put_number core.now place (number_expr expr.now) out.old out.new) }
{
    emit(place, Instruction::ToNumber, out)?;
    gen_expr(alloc, core, place, expr, out)?;
    Ok(())
}

/// Emits an expression whose value is a capability.
pub fn gen_cap(
    alloc: Global,
    core: &Core,
    place: Place,
    expr: &Expr,
    out: &mut Row<Coded>,
) -> Result<(), NoMemory>
    ensures { OnOk result (Gives put_cap core.now place (cap_expr expr.now) out.old out.new) }
{
    emit(place, Instruction::ToCap, out)?;
    gen_expr(alloc, core, place, expr, out)?;
    Ok(())
}
