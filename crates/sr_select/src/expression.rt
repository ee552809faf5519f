ghost use Rattle.std.specs.Prelude.{◌≡◌, map};
ghost use Rattle.sr_value.specs.Operators.{Answers};
ghost use Rattle.sr_value.specs.Parts.{with_ok};
ghost use Rattle.sr_core.specs.Values.{cap_of, member_of};
ghost use Rattle.sr_select.specs.Guards.{after_and, after_operand, after_or, after_whole, guard_part, guard_place, guard_step, guard_value, in_order, truth_of_guard};
ghost use Rattle.sr_select.specs.Looks.{Sees};
ghost use Rattle.sr_select.specs.Sights.{guarding_of};

use crate::leaf::{leaf_value, load_at};
use crate::letting_go::let_go;
use crate::reads::Reads;
use crate::sight::Sight;
use sr_ask::Seen;
use sr_core::{
    Expr, Part, Piece, PlaceExpr, Step, apply, array, capability, count, member, number, truth,
};
use sr_value::{Fault, Operator, Row, Sel, Value, ValueFail, arith, part_of, unary};

/// The value of a guard's expression, and what it reads.
#[cycle(evaluation)]
pub fn evaluate<R: Reads>(
    sight: &Sight,
    reads: &R,
    seen: &mut Row<Seen>,
    expr: &Expr,
) -> Result<Value, ValueFail>
    ensures { Sees (guard_value expr.now (guarding_of (R.reading reads.now) sight.now) seen.old) result seen.new }
{
    match expr {
        Expr::Leaf(leaf) => leaf_value(sight, reads, seen, leaf),
        Expr::Load(place) => evaluate_place(sight, reads, seen, place),
        Expr::Unary { op, operand } => {
            let x = evaluate(sight, reads, seen, operand.get())?;
            let found = unary(sight.scene.alloc, *op, &x);
            let_go(x);
            found
        }
        Expr::Binary { op, left, right } => {
            let x = evaluate(sight, reads, seen, left.get())?;
            let found = operate(sight, reads, seen, right.get(), *op, &x);
            let_go(x);
            found
        }
        Expr::And { left, right } => {
            let x = evaluate(sight, reads, seen, left.get())?;
            let found = after_and(sight, reads, seen, right.get(), &x);
            let_go(x);
            found
        }
        Expr::Or { left, right } => {
            let x = evaluate(sight, reads, seen, left.get())?;
            let found = after_or(sight, reads, seen, right.get(), &x);
            let_go(x);
            found
        }
        Expr::Apply { function, args } => {
            let values = evaluate_all(sight, reads, seen, args.as_slice())?;
            apply(sight.scene.alloc, reads.names(), *function, values)
        }
        Expr::Array(parts) => {
            let pieces = evaluate_parts(sight, reads, seen, parts.as_slice())?;
            array(sight.scene.alloc, pieces.as_slice())
        }
        Expr::Of { whole, step } => {
            let value = evaluate(sight, reads, seen, whole.get())?;
            let found = select_part(sight, reads, seen, step.get(), &value);
            let_go(value);
            found
        }
        Expr::Member { of, op } => {
            let value = evaluate(sight, reads, seen, of.get())?;
            let found = member_in(*op, &value);
            let_go(value);
            found
        }
        Expr::Call { .. } => Err(ValueFail::Fault(Fault::Range)),
        Expr::Create { .. } => Err(ValueFail::Fault(Fault::Range)),
        Expr::Read(_) => Err(ValueFail::Fault(Fault::Range)),
    }
}

/// An operator whose left operand is there.
#[cycle(evaluation)]
fn operate<R: Reads>(
    sight: &Sight,
    reads: &R,
    seen: &mut Row<Seen>,
    right: &Expr,
    op: Operator,
    x: &Value,
) -> Result<Value, ValueFail>
    ensures { Sees (after_operand op x.now (guard_value right.now) (guarding_of (R.reading reads.now) sight.now) seen.old) result seen.new }
{
    let y = evaluate(sight, reads, seen, right)?;
    let found = arith(sight.scene.alloc, op, x, &y);
    let_go(y);
    found
}

/// `and` doesn't evaluate the right side after false.
#[cycle(evaluation)]
fn after_and<R: Reads>(
    sight: &Sight,
    reads: &R,
    seen: &mut Row<Seen>,
    right: &Expr,
    x: &Value,
) -> Result<Value, ValueFail>
    ensures { Sees (after_and x.now (guard_value right.now) (guarding_of (R.reading reads.now) sight.now) seen.old) result seen.new }
{
    if truth(x)? {
        operate(sight, reads, seen, right, Operator::And, x)
    } else {
        Ok(Value::Bool(false))
    }
}

/// `or` doesn't evaluate the right side after true.
#[cycle(evaluation)]
fn after_or<R: Reads>(
    sight: &Sight,
    reads: &R,
    seen: &mut Row<Seen>,
    right: &Expr,
    x: &Value,
) -> Result<Value, ValueFail>
    ensures { Sees (after_or x.now (guard_value right.now) (guarding_of (R.reading reads.now) sight.now) seen.old) result seen.new }
{
    if truth(x)? {
        Ok(Value::Bool(true))
    } else {
        operate(sight, reads, seen, right, Operator::Or, x)
    }
}

/// The part of a value that a step selects.
#[cycle(evaluation)]
fn select_part<R: Reads>(
    sight: &Sight,
    reads: &R,
    seen: &mut Row<Seen>,
    step: &Step,
    value: &Value,
) -> Result<Value, ValueFail>
    ensures { Sees (after_whole value.now (guard_step step.now) (guarding_of (R.reading reads.now) sight.now) seen.old) result seen.new }
{
    let sel = evaluate_step(sight, reads, seen, step)?;
    part_of(sight.scene.alloc, value, sel)
}

/// `r.f`, where `r` is there.
fn member_in(op: u32, value: &Value) -> Result<Value, ValueFail>
    ensures { Answers result (with_ok (cap_of value.now) (member_of op)) }
{
    let cap = capability(value)?;
    member(op, cap)
}

/// The values of expressions, from left to right.
#[cycle(evaluation)]
fn evaluate_all<R: Reads>(
    sight: &Sight,
    reads: &R,
    seen: &mut Row<Seen>,
    exprs: &[Expr],
) -> Result<Row<Value>, ValueFail>
    ensures { Sees (in_order (map guard_value exprs.now) (guarding_of (R.reading reads.now) sight.now) seen.old) result seen.new }
{
    let mut values = Row::new(sight.scene.alloc);
    for expr in exprs {
        let value = evaluate(sight, reads, seen, expr)?;
        values.push(value)?;
    }
    Ok(values)
}

/// The value at a place. Its indices are evaluated once.
#[cycle(evaluation)]
fn evaluate_place<R: Reads>(
    sight: &Sight,
    reads: &R,
    seen: &mut Row<Seen>,
    place: &PlaceExpr,
) -> Result<Value, ValueFail>
    ensures { Sees (guard_place place.now (guarding_of (R.reading reads.now) sight.now) seen.old) result seen.new }
{
    let path = evaluate_steps(sight, reads, seen, place.path.as_slice())?;
    load_at(sight, reads, seen, place.root, path)
}

#[cycle(evaluation)]
fn evaluate_steps<R: Reads>(
    sight: &Sight,
    reads: &R,
    seen: &mut Row<Seen>,
    steps: &[Step],
) -> Result<Row<Sel>, ValueFail>
    ensures { Sees (in_order (map guard_step steps.now) (guarding_of (R.reading reads.now) sight.now) seen.old) result seen.new }
{
    let mut path = Row::new(sight.scene.alloc);
    for step in steps {
        let sel = evaluate_step(sight, reads, seen, step)?;
        path.push(sel)?;
    }
    Ok(path)
}

#[cycle(evaluation)]
fn evaluate_step<R: Reads>(
    sight: &Sight,
    reads: &R,
    seen: &mut Row<Seen>,
    step: &Step,
) -> Result<Sel, ValueFail>
    ensures { Sees (guard_step step.now (guarding_of (R.reading reads.now) sight.now) seen.old) result seen.new }
{
    match step {
        Step::At(index) => {
            let x = evaluate(sight, reads, seen, index)?;
            let i = number(&x);
            let_go(x);
            Ok(Sel::At(i?))
        }
        Step::At2(row, column) => {
            let x = evaluate(sight, reads, seen, row)?;
            let i = number(&x);
            let_go(x);
            let i = i?;
            let y = evaluate(sight, reads, seen, column)?;
            let j = number(&y);
            let_go(y);
            Ok(Sel::At2(i, j?))
        }
        Step::Field(field) => Ok(Sel::Field(*field)),
    }
}

#[cycle(evaluation)]
fn evaluate_parts<R: Reads>(
    sight: &Sight,
    reads: &R,
    seen: &mut Row<Seen>,
    parts: &[Part],
) -> Result<Row<Piece>, ValueFail>
    ensures { Sees (in_order (map guard_part parts.now) (guarding_of (R.reading reads.now) sight.now) seen.old) result seen.new }
{
    let mut pieces = Row::new(sight.scene.alloc);
    for part in parts {
        let piece = evaluate_part(sight, reads, seen, part)?;
        pieces.push(piece)?;
    }
    Ok(pieces)
}

#[cycle(evaluation)]
fn evaluate_part<R: Reads>(
    sight: &Sight,
    reads: &R,
    seen: &mut Row<Seen>,
    part: &Part,
) -> Result<Piece, ValueFail>
    ensures { Sees (guard_part part.now (guarding_of (R.reading reads.now) sight.now) seen.old) result seen.new }
{
    match part {
        Part::One(value) => {
            let value = evaluate(sight, reads, seen, value)?;
            Ok(Piece { count: 1, value })
        }
        Part::Repeated {
            count: times,
            value,
        } => {
            let n = evaluate(sight, reads, seen, times)?;
            let found = number(&n);
            let_go(n);
            let number = found?;
            let value = evaluate(sight, reads, seen, value)?;
            match count(number) {
                Ok(count) => Ok(Piece { count, value }),
                Err(fail) => {
                    let_go(value);
                    Err(fail)
                }
            }
        }
    }
}

/// Whether a condition holds; where there is none, it does.
pub fn holds<R: Reads>(
    sight: &Sight,
    reads: &R,
    seen: &mut Row<Seen>,
    condition: &Option<Expr>,
) -> Result<bool, ValueFail>
    ensures { Sees (truth_of_guard condition.now (guarding_of (R.reading reads.now) sight.now) seen.old) result seen.new }
{
    match condition {
        None => Ok(true),
        Some(expr) => {
            let value = evaluate(sight, reads, seen, expr)?;
            let found = truth(&value);
            let_go(value);
            found
        }
    }
}
