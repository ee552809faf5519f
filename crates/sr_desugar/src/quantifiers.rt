//! Quantifiers, and the sends that semaphores and processes stand for.
ghost use Rattle.std.specs.Prelude.{◌≡◌, [], ◌∷◌, ◌++◌, IfOk, OnOk};
ghost use Rattle.sr_desugar.specs.Bodies as bodies;
ghost use Rattle.sr_desugar.specs.Statements as statements;

use crate::declarations::int_constant;
use crate::simple::act;
use sr_core::{Action, Argument, Direction, Expr, Quantifier, Statement};
use sr_lower_expr::{
    Scene, boxed_value, core_value, operation_expr, optional_value, own_number, own_place,
};
use sr_names::Spot;
use sr_tables::{line_of, spot_named};
use sr_tree::{Process, Semaphore};
use sr_value::{Boxed, NoMemory, Place, Row, Span};
use std::alloc::Global;

fn direction(written: sr_tree::Direction) -> Direction
    ensures { result ≡ statements.direction_core written }
{
    match written {
        sr_tree::Direction::To => Direction::Up,
        sr_tree::Direction::Downto => Direction::Down,
    }
}

/// The step of a quantifier; 1 where none is written.
fn step_of(alloc: Global, step: &Option<sr_tree::Expr>, scene: &Scene) -> Result<Expr, NoMemory>
    ensures { IfOk result (λ expr. expr ≡ statements.step_core scene.now step.now) }
{
    match step {
        None => Ok(int_constant(1)),
        Some(step) => core_value(alloc, step, scene),
    }
}

fn quantifier(
    alloc: Global,
    tree: &sr_tree::Quantifier,
    scene: &Scene,
) -> Result<Quantifier, NoMemory>
    ensures { IfOk result (λ quantifier. quantifier ≡ statements.quantifier_core scene.now tree.now) }
{
    let var = own_number(scene, spot_named(&tree.name))?;
    let from = boxed_value(alloc, &tree.first, scene)?;
    let to = boxed_value(alloc, &tree.last, scene)?;
    let by = Boxed::new(alloc, step_of(alloc, &tree.step, scene)?)?;
    let condition = optional_value(alloc, &tree.such_that, scene)?;
    Ok(Quantifier {
        var,
        from: from.into_inner(),
        direction: direction(tree.direction),
        to: to.into_inner(),
        by: by.into_inner(),
        condition,
    })
}

/// Quantifiers.
pub fn quantifiers_of(
    alloc: Global,
    trees: &[sr_tree::Quantifier],
    scene: &Scene,
) -> Result<Row<Quantifier>, NoMemory>
    ensures { IfOk result (λ quantifiers. quantifiers ≡ statements.quantifiers_core scene.now trees.now) }
{
    let mut quantifiers = Row::new(alloc);
    for tree in trees {
        quantifiers.push(quantifier(alloc, tree, scene)?)?;
    }
    Ok(quantifiers)
}

/// `sem s := n` is `op s() {send}` and `n` sends.
fn value_sends(
    alloc: Global,
    scene: &Scene,
    place: Place,
    operation: Spot,
    value: &sr_tree::Expr,
) -> Result<Statement, NoMemory>
    ensures { IfOk result (λ sends. sends ∷ [] ≡ statements.value_sends scene.now place operation value.now) }
{
    let count = boxed_value(alloc, value, scene)?;
    let target = operation_expr(scene, operation)?;
    Ok(Statement::Sends {
        place,
        target,
        count: count.into_inner(),
    })
}

/// Appends the sends of semaphores to other statements. Without a value it is 0.
pub fn push_semaphores(
    alloc: Global,
    scene: &Scene,
    span: Span,
    semaphores: &[Semaphore],
    code: &mut Row<Statement>,
) -> Result<(), NoMemory>
    ensures { OnOk result (code.new ≡ code.old ++ statements.semaphores_core scene.now span semaphores.now) }
{
    for semaphore in semaphores {
        if let Some(value) = &semaphore.value {
            let operation = spot_named(&semaphore.name);
            code.push(value_sends(alloc, scene, line_of(span), operation, value)?)?;
        }
    }
    Ok(())
}

/// The send of a process, with the values of its quantifiers.
fn process_send(alloc: Global, scene: &Scene, process: &Process) -> Result<Action, NoMemory>
    ensures { IfOk result (λ action. action ≡ bodies.process_send scene.now process.now) }
{
    let mut args = Row::new(alloc);
    for quantifier in process.quantifiers.as_slice() {
        let place = own_place(alloc, scene, spot_named(&quantifier.name))?;
        args.push(Argument::Val(Expr::Load(place)))?;
    }
    let target = operation_expr(scene, spot_named(&process.name))?;
    Ok(Action::Send { target, args })
}

/// `process p` sends to its operation where it stands, and with quantifiers once for each of their values.
pub fn process_sends(alloc: Global, scene: &Scene, process: &Process) -> Result<Statement, NoMemory>
    ensures { IfOk result (λ statement. statement ≡ bodies.process_sends scene.now process.now) }
{
    match process.quantifiers.as_slice() {
        [] => Ok(act(process.span, process_send(alloc, scene, process)?)),
        trees => {
            let quantifiers = quantifiers_of(alloc, trees, scene)?;
            let mut body = Row::new(alloc);
            body.push(act(process.span, process_send(alloc, scene, process)?))?;
            Ok(Statement::Fa {
                place: line_of(process.span),
                quantifiers,
                body,
            })
        }
    }
}
