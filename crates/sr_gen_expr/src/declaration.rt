ghost use Rattle.std.specs.Prelude.{OnOk};
ghost use Rattle.sr_meaning.specs.Statements.{declaration_meaning, first_value, spot_in};
ghost use Rattle.sr_gen_expr.specs.Emitting.{Gives, put_nothing};

use crate::emitting::emit;
use crate::expression::gen_expr;
use crate::shape::gen_shape;
use sr_code::{Coded, Instruction};
use sr_core::{Core, Declaration, Expr, Scope, Setup};
use sr_value::{Duplicate, NoMemory, Place, Row};
use std::alloc::Global;

/// Emits the code of a declaration.
pub fn gen_declaration(
    alloc: Global,
    core: &Core,
    place: Place,
    declaration: &Declaration,
    out: &mut Row<Coded>,
) -> Result<(), NoMemory>
    ensures { OnOk result (Gives put_nothing core.now place (declaration_meaning declaration.now) out.old out.new) }
{
    let scope = declaration.scope;
    let var = declaration.var;
    match &declaration.setup {
        Setup::Typed { shape, value } => {
            gen_first_value(alloc, core, place, scope, var, value, out)?;
            emit(place, Instruction::Make { scope, var }, out)?;
            gen_shape(alloc, core, place, shape, out)?;
            Ok(())
        }
        Setup::Untyped { shape, value } => {
            emit(place, Instruction::StoreIn { scope, var }, out)?;
            let shape = shape.copy(alloc)?;
            emit(place, Instruction::MakeLike { scope, var, shape }, out)?;
            gen_expr(alloc, core, place, value, out)?;
            Ok(())
        }
    }
}

/// Emits the store of the first value of a variable, where it has one.
fn gen_first_value(
    alloc: Global,
    core: &Core,
    place: Place,
    scope: Scope,
    var: u32,
    value: &Option<Expr>,
    out: &mut Row<Coded>,
) -> Result<(), NoMemory>
    ensures { OnOk result (Gives put_nothing core.now place (λ here. first_value value.now (spot_in scope var here) here) out.old out.new) }
{
    match value {
        None => Ok(()),
        Some(expr) => {
            emit(place, Instruction::StoreIn { scope, var }, out)?;
            gen_expr(alloc, core, place, expr, out)?;
            Ok(())
        }
    }
}
