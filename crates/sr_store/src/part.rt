ghost use Rattle.std.specs.Prelude.{◌≡◌, [], false, true};
ghost use Rattle.sr_in_place.specs.Puts.{Wrote};
ghost use Rattle.sr_value.specs.Operators.{Answers};
ghost use Rattle.sr_value.specs.Parts.{loaded_at, stored_at};

use sr_in_place::put;
use sr_value::{Fault, Sel, Shape, Value, ValueFail, loaded};
use std::alloc::Global;

/// A copy of the value at the end of a path. A number is read where it stands.
#[inline(always)]
pub(crate) fn value_at(alloc: Global, value: &Value, path: &[Sel]) -> Result<Value, ValueFail>
    ensures { Answers result (loaded_at value.now path.now) }
{
    match path {
        [] => match value {
            Value::Int(number) => Ok(Value::Int(*number)),
            _ => loaded(alloc, value, path),
        },
        _ => loaded(alloc, value, path),
    }
}

/// Puts a value at the end of a path in a place of this shape. A number is written where it stands.
#[inline(always)]
pub(crate) fn put_at(
    shape: &Shape,
    place: &mut Value,
    path: &[Sel],
    value: Value,
) -> Result<(), Fault>
    ensures { Wrote result place.old place.new (stored_at shape.now place.old path.now value) }
{
    match path {
        [] => match value {
            Value::Int(number) => put_number(shape, place, number),
            _ => put(shape, place, path, value),
        },
        _ => put(shape, place, path, value),
    }
}

/// Puts a number in a whole place.
fn put_number(shape: &Shape, place: &mut Value, number: i32) -> Result<(), Fault>
    ensures { Wrote result place.old place.new (stored_at shape.now place.old [] (Value.Int number)) }
{
    if write_number(shape, place, number) {
        return Ok(());
    }
    put(shape, place, &[], Value::Int(number))
}

/// Writes a number in a place of numbers, and whether it is one.
fn write_number(shape: &Shape, place: &mut Value, number: i32) -> bool
    ensures numbers { result ≡ true → shape.now ≡ Shape.Int }
    ensures written { result ≡ true → place.new ≡ Value.Int number }
    ensures left { result ≡ false → place.new ≡ place.old }
{
    match shape {
        Shape::Int => match place {
            Value::Int(held) => {
                *held = number;
                true
            }
            _ => false,
        },
        _ => false,
    }
}
