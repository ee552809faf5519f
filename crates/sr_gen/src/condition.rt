ghost use Rattle.std.specs.Prelude.{◌≡◌, OnOk, true};
ghost use Rattle.sr_core.specs.declared.expression.Expr.TheVariants.{Leaf as a_leaf};
ghost use Rattle.sr_core.specs.declared.expression.Leaf.TheVariants.{Constant as a_constant};
ghost use Rattle.sr_value.specs.declared.value.Value.TheVariants.{Bool as a_truth};
ghost use Rattle.sr_meaning.specs.Statements.{condition_meaning, truth_expr};
ghost use Rattle.sr_gen.specs.Doing.{Checks};

use sr_code::{Coded, Instruction};
use sr_core::{Core, Expr, Leaf};
use sr_gen_expr::{emit, gen_expr};
use sr_value::{NoMemory, Place, Row, Value};
use std::alloc::Global;

/// Whether it is the constant that is true.
fn is_true(expr: &Expr) -> bool
    ensures { result ≡ true → expr.now ≡ a_leaf (a_constant (a_truth true)) }
{
    matches!(expr, Expr::Leaf(Leaf::Constant(Value::Bool(true))))
}

/// Emits a condition: where it doesn't hold, the code goes on at `past`. The condition `true` has no code.
pub fn gen_truth(
    alloc: Global,
    core: &Core,
    place: Place,
    past: usize,
    expr: &Expr,
    out: &mut Row<Coded>,
) -> Result<(), NoMemory>
    ensures { OnOk result (Checks past core.now place (truth_expr expr.now) out.old out.new) }
{
    if is_true(expr) {
        return Ok(());
    }
    emit(place, Instruction::JumpUnless { to: past }, out)?;
    gen_expr(alloc, core, place, expr, out)?;
    Ok(())
}

/// The same where there may be none.
pub fn gen_condition(
    alloc: Global,
    core: &Core,
    place: Place,
    past: usize,
    condition: &Option<Expr>,
    out: &mut Row<Coded>,
) -> Result<(), NoMemory>
    ensures { OnOk result (Checks past core.now place (condition_meaning condition.now) out.old out.new) }
{
    match condition {
        None => Ok(()),
        Some(expr) => gen_truth(alloc, core, place, past, expr, out),
    }
}
