use crate::picks::Picks;
use sr_core::{Formal, FormalShape};
use sr_value::{Cap, Dims, Duplicate, NoMemory, Row, Shape, Shared, Value, ValueFail, default_of};
use std::alloc::Global;

/// How many rows and columns an array of any length is given, less one.
const MORE: i32 = 1;

/// What a variable of this shape begins with, or 0 where there is no such variable.
pub fn first_value(alloc: Global, shape: &Shape) -> Result<Value, NoMemory> {
    match default_of(alloc, shape) {
        Ok(value) => Ok(value),
        Err(ValueFail::Fault(_)) => Ok(Value::Int(0)),
        Err(ValueFail::NoMemory) => Err(NoMemory),
    }
}

/// A value of this shape.
pub fn some_value(alloc: Global, shape: &Shape, picks: &mut Picks) -> Result<Value, NoMemory> {
    match shape {
        Shape::Int => Ok(Value::Int(picks.int_below(10))),
        Shape::Bool => Ok(Value::Bool(picks.below(2) == 1)),
        Shape::Capa => Ok(Value::Capa(Cap::Noop)),
        _ => first_value(alloc, shape),
    }
}

/// Bounds from this one on.
fn bounds(lo: i32, hi: Option<i32>) -> (i32, i32) {
    (lo, hi.unwrap_or(lo.saturating_add(MORE)))
}

/// A value that this formal holds.
pub fn some_argument(
    alloc: Global,
    shape: &FormalShape,
    picks: &mut Picks,
) -> Result<Value, NoMemory> {
    match shape {
        FormalShape::Fixed(shape) => some_value(alloc, shape, picks),
        FormalShape::Open { lo, item } => {
            let (lo, hi) = bounds(*lo, None);
            some_array(alloc, Dims::One { lo, hi }, item)
        }
        FormalShape::Open2 {
            lo,
            hi,
            lo2,
            hi2,
            item,
        } => {
            let (lo, hi) = bounds(*lo, *hi);
            let (lo2, hi2) = bounds(*lo2, *hi2);
            some_array(alloc, Dims::Two { lo, hi, lo2, hi2 }, item)
        }
    }
}

fn some_array(alloc: Global, dims: Dims, item: &Shape) -> Result<Value, NoMemory> {
    let item = Shared::new(alloc, item.copy(alloc)?)?;
    first_value(alloc, &Shape::Arr { dims, item })
}

/// A value for each formal.
pub fn some_arguments(
    alloc: Global,
    formals: &[Formal],
    picks: &mut Picks,
) -> Result<Row<Value>, NoMemory> {
    let mut arguments = Row::new(alloc);
    for formal in formals {
        arguments.push(some_argument(alloc, &formal.shape, picks)?)?;
    }
    Ok(arguments)
}
