ghost use Rattle.std.specs.Prelude.{map};
ghost use Rattle.sr_meaning.specs.Expressions.{argument_of, expr_meaning, in_order, part_of_expr, place_of_expr, reading_of, step_of_expr};
ghost use Rattle.sr_interpreter_expr.specs.Interpreters.{Agrees, after_and, after_operand, after_or, after_resource, after_target, after_values, after_whole, here_of, stage_of};

use crate::apply::apply;
use crate::array::settle_array;
use crate::call::call;
use crate::globals::create;
use crate::interpreter::Interpreter;
use crate::leaf::leaf_value;
use crate::places::{load, part, spot_of};
use crate::reading::{kind_of, read_from};
use crate::scene::{HasCore, Scene};
use crate::settle::{capability, count, member, number, operated, operated_on, truth};
use crate::stop::Stop;
use sr_ask::{Located, ReadTarget, Sent};
use sr_core::{Argument, Expr, Part, Piece, PlaceExpr, Reading, Step};
use sr_value::{Operator, Row, Sel, Shape, Value};

/// What an expression asks, and what it gives.
#[cycle(evaluation)]
pub fn evaluate<C: HasCore>(
    scene: &Scene<C>,
    interpreter: &mut Interpreter,
    expr: &Expr,
) -> Result<Value, Stop>
    ensures { Agrees (expr_meaning expr.now (here_of C.core_of scene.now) (stage_of interpreter.old)) result (stage_of interpreter.new) }
{
    match expr {
        Expr::Leaf(leaf) => leaf_value(scene, interpreter, leaf),
        Expr::Load(place) => {
            let at = locate(scene, interpreter, place)?;
            load(scene, interpreter, &at)
        }
        Expr::Unary { op, operand } => {
            let x = evaluate(scene, interpreter, operand.get())?;
            operated_on(scene, interpreter, *op, &x)
        }
        Expr::Binary { op, left, right } => {
            let x = evaluate(scene, interpreter, left.get())?;
            operate(scene, interpreter, right.get(), *op, &x)
        }
        Expr::And { left, right } => {
            let x = evaluate(scene, interpreter, left.get())?;
            after_and(scene, interpreter, right.get(), &x)
        }
        Expr::Or { left, right } => {
            let x = evaluate(scene, interpreter, left.get())?;
            after_or(scene, interpreter, right.get(), &x)
        }
        Expr::Apply { function, args } => {
            let values = evaluate_all(scene, interpreter, args.as_slice())?;
            apply(scene, interpreter, *function, values)
        }
        Expr::Array(parts) => {
            let pieces = evaluate_parts(scene, interpreter, parts.as_slice())?;
            settle_array(scene, interpreter, pieces.as_slice())
        }
        Expr::Of { whole, step } => {
            let value = evaluate(scene, interpreter, whole.get())?;
            select_part(scene, interpreter, step.get(), &value)
        }
        Expr::Member { of, op } => {
            let value = evaluate(scene, interpreter, of.get())?;
            member_in(scene, interpreter, *op, &value)
        }
        Expr::Call {
            target,
            args,
            returns,
        } => {
            let value = evaluate(scene, interpreter, target.get())?;
            call_with(scene, interpreter, args.as_slice(), &value, returns)
        }
        Expr::Create {
            resource,
            args,
            machine,
        } => {
            let values = evaluate_all(scene, interpreter, args.as_slice())?;
            create_on(scene, interpreter, machine.get(), *resource, values)
        }
        Expr::Read(readings) => {
            let read_targets = evaluate_readings(scene, interpreter, readings.as_slice())?;
            read_from(scene, interpreter, read_targets.as_slice(), 0)
        }
    }
}

/// An operator whose left operand is there.
#[cycle(evaluation)]
fn operate<C: HasCore>(
    scene: &Scene<C>,
    interpreter: &mut Interpreter,
    right: &Expr,
    op: Operator,
    x: &Value,
) -> Result<Value, Stop>
    ensures { Agrees (after_operand op x.now (expr_meaning right.now) (here_of C.core_of scene.now) (stage_of interpreter.old)) result (stage_of interpreter.new) }
{
    let y = evaluate(scene, interpreter, right)?;
    operated(scene, interpreter, op, x, &y)
}

/// `and` doesn't evaluate the right side after false.
#[cycle(evaluation)]
fn after_and<C: HasCore>(
    scene: &Scene<C>,
    interpreter: &mut Interpreter,
    right: &Expr,
    x: &Value,
) -> Result<Value, Stop>
    ensures { Agrees (after_and x.now (expr_meaning right.now) (here_of C.core_of scene.now) (stage_of interpreter.old)) result (stage_of interpreter.new) }
{
    if truth(scene, interpreter, x)? {
        operate(scene, interpreter, right, Operator::And, x)
    } else {
        Ok(Value::Bool(false))
    }
}

/// `or` doesn't evaluate the right side after true.
#[cycle(evaluation)]
fn after_or<C: HasCore>(
    scene: &Scene<C>,
    interpreter: &mut Interpreter,
    right: &Expr,
    x: &Value,
) -> Result<Value, Stop>
    ensures { Agrees (after_or x.now (expr_meaning right.now) (here_of C.core_of scene.now) (stage_of interpreter.old)) result (stage_of interpreter.new) }
{
    if truth(scene, interpreter, x)? {
        Ok(Value::Bool(true))
    } else {
        operate(scene, interpreter, right, Operator::Or, x)
    }
}

/// The part of a value that a step selects.
#[cycle(evaluation)]
fn select_part<C: HasCore>(
    scene: &Scene<C>,
    interpreter: &mut Interpreter,
    step: &Step,
    value: &Value,
) -> Result<Value, Stop>
    ensures { Agrees (after_whole value.now (step_of_expr step.now) (here_of C.core_of scene.now) (stage_of interpreter.old)) result (stage_of interpreter.new) }
{
    let sel = evaluate_step(scene, interpreter, step)?;
    part(scene, interpreter, value, sel)
}

/// `r.f`, where `r` is there.
fn member_in<C: HasCore>(
    scene: &Scene<C>,
    interpreter: &mut Interpreter,
    op: u32,
    value: &Value,
) -> Result<Value, Stop>
    ensures { Agrees (after_resource op value.now (here_of C.core_of scene.now) (stage_of interpreter.old)) result (stage_of interpreter.new) }
{
    let cap = capability(scene, interpreter, value)?;
    member(scene, interpreter, op, cap)
}

/// A call whose target is there.
#[cycle(evaluation)]
fn call_with<C: HasCore>(
    scene: &Scene<C>,
    interpreter: &mut Interpreter,
    args: &[Argument],
    target: &Value,
    returns: &Option<Shape>,
) -> Result<Value, Stop>
    ensures { Agrees (after_target target.now (map argument_of args.now) returns.now (here_of C.core_of scene.now) (stage_of interpreter.old)) result (stage_of interpreter.new) }
{
    let cap = capability(scene, interpreter, target)?;
    let sent = evaluate_arguments(scene, interpreter, args)?;
    call(scene, interpreter, cap, &sent, returns)
}

/// `create` whose arguments are there.
#[cycle(evaluation)]
fn create_on<C: HasCore>(
    scene: &Scene<C>,
    interpreter: &mut Interpreter,
    machine: &Expr,
    resource: u32,
    values: Row<Value>,
) -> Result<Value, Stop>
    ensures { Agrees (after_values resource values (expr_meaning machine.now) (here_of C.core_of scene.now) (stage_of interpreter.old)) result (stage_of interpreter.new) }
{
    let value = evaluate(scene, interpreter, machine)?;
    let vm = capability(scene, interpreter, &value)?;
    create(scene, interpreter, resource, values, vm)
}

/// What expressions ask, and what they give, from left to right.
#[cycle(evaluation)]
pub fn evaluate_all<C: HasCore>(
    scene: &Scene<C>,
    interpreter: &mut Interpreter,
    exprs: &[Expr],
) -> Result<Row<Value>, Stop>
    ensures { Agrees (in_order (map expr_meaning exprs.now) (here_of C.core_of scene.now) (stage_of interpreter.old)) result (stage_of interpreter.new) }
{
    let mut values = Row::new(scene.alloc);
    for expr in exprs {
        let value = evaluate(scene, interpreter, expr)?;
        values.push(value)?;
    }
    Ok(values)
}

/// The place that a place expression gives. Its indices are evaluated once.
#[cycle(evaluation)]
pub fn locate<C: HasCore>(
    scene: &Scene<C>,
    interpreter: &mut Interpreter,
    place: &PlaceExpr,
) -> Result<Located, Stop>
    ensures { Agrees (place_of_expr place.now (here_of C.core_of scene.now) (stage_of interpreter.old)) result (stage_of interpreter.new) }
{
    let path = evaluate_steps(scene, interpreter, place.path.as_slice())?;
    Ok(Located {
        spot: spot_of(scene, place.root),
        path,
    })
}

#[cycle(evaluation)]
fn evaluate_steps<C: HasCore>(
    scene: &Scene<C>,
    interpreter: &mut Interpreter,
    steps: &[Step],
) -> Result<Row<Sel>, Stop>
    ensures { Agrees (in_order (map step_of_expr steps.now) (here_of C.core_of scene.now) (stage_of interpreter.old)) result (stage_of interpreter.new) }
{
    let mut path = Row::new(scene.alloc);
    for step in steps {
        let sel = evaluate_step(scene, interpreter, step)?;
        path.push(sel)?;
    }
    Ok(path)
}

#[cycle(evaluation)]
fn evaluate_step<C: HasCore>(
    scene: &Scene<C>,
    interpreter: &mut Interpreter,
    step: &Step,
) -> Result<Sel, Stop>
    ensures { Agrees (step_of_expr step.now (here_of C.core_of scene.now) (stage_of interpreter.old)) result (stage_of interpreter.new) }
{
    match step {
        Step::At(index) => {
            let x = evaluate(scene, interpreter, index)?;
            let i = number(scene, interpreter, &x)?;
            Ok(Sel::At(i))
        }
        Step::At2(row, column) => {
            let x = evaluate(scene, interpreter, row)?;
            let i = number(scene, interpreter, &x)?;
            let y = evaluate(scene, interpreter, column)?;
            let j = number(scene, interpreter, &y)?;
            Ok(Sel::At2(i, j))
        }
        Step::Field(field) => Ok(Sel::Field(*field)),
    }
}

#[cycle(evaluation)]
fn evaluate_parts<C: HasCore>(
    scene: &Scene<C>,
    interpreter: &mut Interpreter,
    parts: &[Part],
) -> Result<Row<Piece>, Stop>
    ensures { Agrees (in_order (map part_of_expr parts.now) (here_of C.core_of scene.now) (stage_of interpreter.old)) result (stage_of interpreter.new) }
{
    let mut pieces = Row::new(scene.alloc);
    for part in parts {
        let piece = evaluate_part(scene, interpreter, part)?;
        pieces.push(piece)?;
    }
    Ok(pieces)
}

#[cycle(evaluation)]
fn evaluate_part<C: HasCore>(
    scene: &Scene<C>,
    interpreter: &mut Interpreter,
    part: &Part,
) -> Result<Piece, Stop>
    ensures { Agrees (part_of_expr part.now (here_of C.core_of scene.now) (stage_of interpreter.old)) result (stage_of interpreter.new) }
{
    match part {
        Part::One(value) => {
            let value = evaluate(scene, interpreter, value)?;
            Ok(Piece { count: 1, value })
        }
        Part::Repeated {
            count: times,
            value,
        } => {
            let n = evaluate(scene, interpreter, times)?;
            let n = number(scene, interpreter, &n)?;
            let value = evaluate(scene, interpreter, value)?;
            let count = count(scene, interpreter, n)?;
            Ok(Piece { count, value })
        }
    }
}

/// What arguments ask, and what they send, from left to right.
#[cycle(evaluation)]
pub fn evaluate_arguments<C: HasCore>(
    scene: &Scene<C>,
    interpreter: &mut Interpreter,
    args: &[Argument],
) -> Result<Row<Sent>, Stop>
    ensures { Agrees (in_order (map argument_of args.now) (here_of C.core_of scene.now) (stage_of interpreter.old)) result (stage_of interpreter.new) }
{
    let mut sent = Row::new(scene.alloc);
    for arg in args {
        let one = evaluate_argument(scene, interpreter, arg)?;
        sent.push(one)?;
    }
    Ok(sent)
}

#[cycle(evaluation)]
fn evaluate_argument<C: HasCore>(
    scene: &Scene<C>,
    interpreter: &mut Interpreter,
    arg: &Argument,
) -> Result<Sent, Stop>
    ensures { Agrees (argument_of arg.now (here_of C.core_of scene.now) (stage_of interpreter.old)) result (stage_of interpreter.new) }
{
    match arg {
        Argument::Val(value) => {
            let x = evaluate(scene, interpreter, value)?;
            Ok(Sent {
                value: Some(x),
                back: None,
            })
        }
        Argument::Var(place) => {
            let at = locate(scene, interpreter, place)?;
            let x = load(scene, interpreter, &at)?;
            Ok(Sent {
                value: Some(x),
                back: Some(at),
            })
        }
        Argument::Res(place) => {
            let at = locate(scene, interpreter, place)?;
            Ok(Sent {
                value: None,
                back: Some(at),
            })
        }
    }
}

#[cycle(evaluation)]
fn evaluate_readings<C: HasCore>(
    scene: &Scene<C>,
    interpreter: &mut Interpreter,
    readings: &[Reading],
) -> Result<Row<ReadTarget>, Stop>
    ensures { Agrees (in_order (map reading_of readings.now) (here_of C.core_of scene.now) (stage_of interpreter.old)) result (stage_of interpreter.new) }
{
    let mut read_targets = Row::new(scene.alloc);
    for reading in readings {
        let place = locate(scene, interpreter, &reading.place)?;
        read_targets.push(ReadTarget {
            kind: kind_of(reading.kind),
            place,
        })?;
    }
    Ok(read_targets)
}
