ghost use Rattle.std.specs.Prelude.{OnOk};
ghost use Rattle.sr_core.specs.declared.statement.Statement.TheOpen.{Statement-F};
ghost use Rattle.sr_meaning.specs.Statements.{statement_meaning};
ghost use Rattle.sr_gen.specs.Doing.{Acts};
ghost use Rattle.sr_gen.specs.declared.ways.Ways.{Ways};

use crate::action::gen_send;
use crate::patching::patch;
use sr_code::{Coded, Instruction};
use sr_core::{Core, Expr};
use sr_gen_expr::{emit, gen_number};
use sr_value::{NoMemory, Place, Row};
use std::alloc::Global;

/// Emits the sends of a `sem`, each with its tick.
pub fn gen_sends(
    alloc: Global,
    core: &Core,
    place: Place,
    target: &Expr,
    count: &Expr,
    out: &mut Row<Coded>,
) -> Result<(), NoMemory>
    ensures { OnOk result ((ways : Ways) (line : Place) → Acts ways core.now line (statement_meaning (Statement-F.Sends place target.now count.now)) out.old out.new) }
{
    let first = out.len();
    emit(place, Instruction::Repeat { head: 0 }, out)?;
    let again = out.len();
    gen_send(alloc, core, place, target, &[], out)?;
    let head = out.len();
    patch(place, Instruction::Repeat { head }, first, out);
    emit(place, Instruction::Jump { to: again }, out)?;
    emit(place, Instruction::ToCount, out)?;
    gen_number(alloc, core, place, count, out)?;
    Ok(())
}
