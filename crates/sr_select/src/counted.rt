ghost use Rattle.std.specs.Prelude.{◌≡◌, map};
ghost use Rattle.sr_value.specs.Operators.{Answers};
ghost use Rattle.sr_value.specs.Parts.{all_fit, each_fits};
ghost use Rattle.sr_select.specs.Guards.{counted_in, recounted};

use sr_core::high_bound;
use sr_value::{Dims, Duplicate, Fault, Row, Shape, Value, ValueFail, indices};
use std::alloc::Global;

/// The bounds of an array as it was sent, counted from the lower bounds of its place; E6 where a bound is no int.
fn recounted(place: Dims, sent: Dims) -> Result<Dims, Fault>
    ensures { result ≡ recounted place sent }
{
    match place {
        Dims::One { lo, hi: _ } => match sent {
            Dims::One { lo: from, hi: to } => {
                let hi = high_bound(lo, None, indices(from, to))?;
                Ok(Dims::One { lo, hi })
            }
            Dims::Two { .. } => Ok(sent),
        },
        Dims::Two {
            lo,
            hi: _,
            lo2,
            hi2: _,
        } => match sent {
            Dims::One { .. } => Ok(sent),
            Dims::Two {
                lo: from,
                hi: to,
                lo2: from2,
                hi2: to2,
            } => {
                match high_bound(lo, None, indices(from, to)) {
                    Ok(hi) => match high_bound(lo2, None, indices(from2, to2)) {
                        Ok(hi2) => Ok(Dims::Two { lo, hi, lo2, hi2 }),
                        Err(fault) => Err(fault),
                    },
                    Err(fault) => Err(fault),
                }
            }
        },
    }
}

/// A copy of a value as it was sent, each array in it counted from the lower bounds of its place.
#[cycle(counting)]
pub fn counted(alloc: Global, shape: &Shape, value: &Value) -> Result<Value, ValueFail>
    ensures { Answers result (counted_in shape.now value.now) }
{
    match shape {
        Shape::Rec(shapes) => match value {
            Value::Rec(fields) => Ok(Value::Rec(each_counted(
                alloc,
                shapes.as_slice(),
                fields.as_slice(),
            )?)),
            _ => Ok(value.copy(alloc)?),
        },
        Shape::Arr { dims, item } => match value {
            Value::Arr { dims: sent, items } => match recounted(*dims, *sent) {
                Ok(bounds) => Ok(Value::Arr {
                    dims: bounds,
                    items: all_counted(alloc, item.get(), items.as_slice())?,
                }),
                Err(fault) => Err(ValueFail::Fault(fault)),
            },
            _ => Ok(value.copy(alloc)?),
        },
        _ => Ok(value.copy(alloc)?),
    }
}

#[cycle(counting)]
fn all_counted(alloc: Global, shape: &Shape, values: &[Value]) -> Result<Row<Value>, ValueFail>
    ensures { Answers result (all_fit (counted_in shape.now) values.now) }
{
    let mut held = Row::new(alloc);
    for value in values {
        held.push(counted(alloc, shape, value)?)?;
    }
    Ok(held)
}

#[cycle(counting)]
fn each_counted(alloc: Global, shapes: &[Shape], values: &[Value]) -> Result<Row<Value>, ValueFail>
    ensures { Answers result (each_fits (map counted_in shapes.now) values.now) }
{
    let mut held = Row::new(alloc);
    let mut rest = values;
    for shape in shapes {
        match rest {
            [] => return Err(ValueFail::Fault(Fault::Index)),
            [value, others @ ..] => {
                held.push(counted(alloc, shape, value)?)?;
                rest = others;
            }
        }
    }
    if rest.is_empty() {
        Ok(held)
    } else {
        Err(ValueFail::Fault(Fault::Index))
    }
}
