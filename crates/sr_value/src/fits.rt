ghost use Rattle.std.specs.Prelude.{map};
ghost use Rattle.sr_value.specs.Operators.{Answers};
ghost use Rattle.sr_value.specs.Parts.{all_fit, each_fits, fitted_in, same_extents, same_length};

use crate::copies::Duplicate;
use crate::fault::{Fault, ValueFail};
use crate::row::Row;
use crate::shape::{Dims, Shape};
use crate::unset::indices;
use crate::value::Value;
use std::alloc::Global;

/// What a place holds after a value was put in it: the value, with the bounds of the place. E5 where a
/// string is too long, E4 where arrays have other lengths, E3 where the value is of another kind.
#[cycle(fits)]
pub fn fitted(alloc: Global, shape: &Shape, value: &Value) -> Result<Value, ValueFail>
    ensures { Answers result (fitted_in shape.now value.now) }
{
    match shape {
        Shape::Int => match value {
            Value::Int(number) => Ok(Value::Int(*number)),
            _ => Err(ValueFail::Fault(Fault::Index)),
        },
        Shape::Bool => match value {
            Value::Bool(truth) => Ok(Value::Bool(*truth)),
            _ => Err(ValueFail::Fault(Fault::Index)),
        },
        Shape::Char => match value {
            Value::Char(byte) => Ok(Value::Char(*byte)),
            _ => Err(ValueFail::Fault(Fault::Index)),
        },
        Shape::Enum { ty, count } => match value {
            Value::Enum { ty: of, at } => {
                if *ty == *of && *at < *count {
                    Ok(Value::Enum { ty: *of, at: *at })
                } else {
                    Err(ValueFail::Fault(Fault::Index))
                }
            }
            _ => Err(ValueFail::Fault(Fault::Index)),
        },
        Shape::Str { most } => match value {
            Value::Str(text) => {
                if text.len() <= *most as usize {
                    Ok(Value::Str(text.copy(alloc)?))
                } else {
                    Err(ValueFail::Fault(Fault::StringLength))
                }
            }
            _ => Err(ValueFail::Fault(Fault::Index)),
        },
        Shape::Rec(shapes) => match value {
            Value::Rec(fields) => Ok(Value::Rec(each_fitted(
                alloc,
                shapes.as_slice(),
                fields.as_slice(),
            )?)),
            _ => Err(ValueFail::Fault(Fault::Index)),
        },
        Shape::Arr { dims, item } => match value {
            Value::Arr { dims: sent, items } => {
                check_extents(*dims, *sent)?;
                Ok(Value::Arr {
                    dims: *dims,
                    items: all_fitted(alloc, item.get(), items.as_slice())?,
                })
            }
            _ => Err(ValueFail::Fault(Fault::Index)),
        },
        Shape::Capa => match value {
            Value::Capa(cap) => Ok(Value::Capa(*cap)),
            _ => Err(ValueFail::Fault(Fault::Index)),
        },
    }
}

#[cycle(fits)]
fn all_fitted(alloc: Global, shape: &Shape, values: &[Value]) -> Result<Row<Value>, ValueFail>
    ensures { Answers result (all_fit (fitted_in shape.now) values.now) }
{
    let mut held = Row::new(alloc);
    for value in values {
        held.push(fitted(alloc, shape, value)?)?;
    }
    Ok(held)
}

#[cycle(fits)]
fn each_fitted(alloc: Global, shapes: &[Shape], values: &[Value]) -> Result<Row<Value>, ValueFail>
    ensures { Answers result (each_fits (map fitted_in shapes.now) values.now) }
{
    let mut held = Row::new(alloc);
    let mut rest = values;
    for shape in shapes {
        match rest {
            [] => return Err(ValueFail::Fault(Fault::Index)),
            [value, others @ ..] => {
                held.push(fitted(alloc, shape, value)?)?;
                rest = others;
            }
        }
    }
    if rest.is_empty() {
        Ok(held)
    } else {
        Err(ValueFail::Fault(Fault::Index))
    }
}

/// E4 where the lengths differ.
fn check_length(place: u64, sent: u64) -> Result<(), ValueFail>
    ensures { Answers result (same_length place sent) }
{
    if place == sent {
        Ok(())
    } else {
        Err(ValueFail::Fault(Fault::Shape))
    }
}

/// Arrays of the same lengths; E4 where a length differs, E3 where the number of dimensions does.
fn check_extents(place: Dims, sent: Dims) -> Result<(), ValueFail>
    ensures { Answers result (same_extents place sent) }
{
    match place {
        Dims::One { lo, hi } => match sent {
            Dims::One { lo: from, hi: to } => check_length(indices(lo, hi), indices(from, to)),
            Dims::Two { .. } => Err(ValueFail::Fault(Fault::Index)),
        },
        Dims::Two { lo, hi, lo2, hi2 } => match sent {
            Dims::One { .. } => Err(ValueFail::Fault(Fault::Index)),
            Dims::Two {
                lo: from,
                hi: to,
                lo2: from2,
                hi2: to2,
            } => {
                match check_length(indices(lo, hi), indices(from, to)) {
                    Ok(()) => check_length(indices(lo2, hi2), indices(from2, to2)),
                    Err(fail) => Err(fail),
                }
            }
        },
    }
}
