//! The arguments and the value of invocations.
ghost use Rattle.std.specs.Prelude.{◌≡◌, IfOk};
ghost use Rattle.sr_lower_expr.specs.Expressions as exprs;
ghost use Rattle.sr_check_expr.specs.Meanings as meanings;
ghost use Rattle.sr_core.specs.declared.expression.Expr.{out-Expr};

use crate::places::{place_of, value_of};
use crate::scene::{Lowered, Scene};
use crate::shapes::shape_of_type;
use sr_check_expr::Facts;
use sr_core::{Argument, Expr, Leaf};
use sr_tables::copy_shape;
use sr_types::{Mode, Param, Ty};
use sr_value::{NoMemory, Row, Shape};
use std::alloc::Global;

/// The formals of an operation of this type.
fn params_of<'a>(facts: &'a Facts, ty: &Ty) -> &'a [Param]
    ensures { result.now ≡ meanings.params_of facts.now ty.now }
{
    match facts.signatures.of(ty) {
        Some(signature) => signature.params.as_slice(),
        None => &[],
    }
}

/// An argument goes as its formal says.
fn argument(alloc: Global, mode: Mode, lowered: Lowered) -> Argument
    ensures { result ≡ exprs.argument_core mode lowered }
{
    match mode {
        Mode::Val => Argument::Val(value_of(lowered)),
        Mode::Var => Argument::Var(place_of(alloc, lowered)),
        Mode::Res => Argument::Res(place_of(alloc, lowered)),
    }
}

/// The arguments of an operation of this type.
pub fn arguments_of(
    alloc: Global,
    facts: &Facts,
    callee: &Ty,
    lowered: Row<Lowered>,
) -> Result<Row<Argument>, NoMemory>
    ensures { IfOk result (λ args. args ≡ exprs.arguments_by (meanings.params_of facts.now callee.now) lowered) }
{
    let args = params_of(facts, callee)
        .iter()
        .zip(lowered.into_vec())
        .map(|(param, one)| argument(alloc, param.mode, one))
        .collect(alloc)?;
    Ok(Row::from_vec(args))
}

/// What an operation of a number returns.
fn returns_numbered(alloc: Global, scene: &Scene, op: u32) -> Result<Option<Shape>, NoMemory>
    ensures { IfOk result (λ shape. shape ≡ exprs.returns_numbered scene.now op) }
{
    match scene.tables.operations.at(op) {
        None => Ok(None),
        Some(operation) => copy_shape(alloc, &operation.returns),
    }
}

/// What a capability of a type returns: its type tells no bounds.
fn returns_typed(alloc: Global, scene: &Scene, ty: &Ty) -> Result<Option<Shape>, NoMemory>
    ensures { IfOk result (λ shape. shape ≡ exprs.returns_typed scene.now ty.now) }
{
    match scene.facts.signatures.of(ty) {
        None => Ok(None),
        Some(signature) => match &signature.returns {
            None => Ok(None),
            Some(ty) => Ok(Some(shape_of_type(alloc, ty, &scene.tables.shapes)?)),
        },
    }
}

/// The type of the value of a call, by what is called.
pub fn returned_by_call(
    alloc: Global,
    scene: &Scene,
    ty: &Ty,
    target: &Expr,
) -> Result<Option<Shape>, NoMemory>
    ensures { IfOk result (λ shape. shape ≡ exprs.layer_returns scene.now ty.now (out-Expr target.now)) }
{
    match target {
        Expr::Leaf(Leaf::Operation { op, .. }) | Expr::Member { op, .. } => {
            returns_numbered(alloc, scene, *op)
        }
        _ => returns_typed(alloc, scene, ty),
    }
}
