ghost use Rattle.std.specs.Prelude.{◌≡◌, drop, map};
ghost use Rattle.sr_value.specs.Parts.{all_fit, each_fits, fitted_in, stored_at};
ghost use Rattle.sr_in_place.specs.Puts.{char_stored, item_stored, outcome};

use crate::extents::check_extents;
use crate::putting::{byte_spot, char_at_end};
use sr_value::{Fault, Sel, Shape, Value, field_place, item_place, step_at};

/// Whether [`crate::put`] would put a value at the end of a path in a place of this shape, or its fault. Nothing is
/// changed, and it takes no memory.
pub fn check_put(shape: &Shape, place: &Value, path: &[Sel], value: &Value) -> Result<(), Fault>
    ensures { result ≡ outcome (stored_at shape.now place.now path.now value.now) }
{
    check_from(shape, place, path, 0, value)
}

/// The same for what is left of a path from a step on.
#[cycle(reaching)]
fn check_from(
    shape: &Shape,
    place: &Value,
    path: &[Sel],
    at: usize,
    value: &Value,
) -> Result<(), Fault>
    ensures { result ≡ outcome (stored_at shape.now place.now (drop at path.now) value.now) }
{
    let Some(step) = step_at(path, at) else {
        return check_fit(shape, value);
    };
    match shape {
        Shape::Str { .. } => check_char(place, step, path, at + 1, value),
        Shape::Rec(shapes) => match place {
            Value::Rec(fields) => match field_place(step) {
                Some(spot) => match shapes.get().get(spot) {
                    Some(inner) => check_item(inner, fields.as_slice(), spot, path, at + 1, value),
                    None => Err(Fault::Index),
                },
                None => Err(Fault::Index),
            },
            _ => Err(Fault::Index),
        },
        Shape::Arr { dims: _, item } => match place {
            Value::Arr { dims, items } => match item_place(*dims, step) {
                Some(spot) => check_item(item.get(), items.as_slice(), spot, path, at + 1, value),
                None => Err(Fault::Index),
            },
            _ => Err(Fault::Index),
        },
        _ => Err(Fault::Index),
    }
}

/// The same in one of several places of this shape.
#[cycle(reaching)]
fn check_item(
    shape: &Shape,
    items: &[Value],
    spot: usize,
    path: &[Sel],
    at: usize,
    value: &Value,
) -> Result<(), Fault>
    ensures { result ≡ outcome (item_stored shape.now items.now spot (drop at path.now) value.now) }
{
    match items.get(spot) {
        Some(place) => check_from(shape, place, path, at, value),
        None => Err(Fault::Index),
    }
}

/// The same in a place of strings, of whose chars a step selects one.
fn check_char(place: &Value, step: Sel, path: &[Sel], at: usize, value: &Value) -> Result<(), Fault>
    ensures { result ≡ outcome (char_stored place.now step (drop at path.now) value.now) }
{
    if byte_spot(place, step).is_none() {
        return Err(Fault::Index);
    }
    char_at_end(path, at, value)?;
    Ok(())
}

/// Whether [`crate::fit`] would give a value the bounds of its place, or its fault.
#[cycle(checking)]
fn check_fit(shape: &Shape, value: &Value) -> Result<(), Fault>
    ensures { result ≡ outcome (fitted_in shape.now value.now) }
{
    match shape {
        Shape::Int => match value {
            Value::Int(_) => Ok(()),
            _ => Err(Fault::Index),
        },
        Shape::Bool => match value {
            Value::Bool(_) => Ok(()),
            _ => Err(Fault::Index),
        },
        Shape::Char => match value {
            Value::Char(_) => Ok(()),
            _ => Err(Fault::Index),
        },
        Shape::Enum { ty, count } => match value {
            Value::Enum { ty: of, at } => {
                if *ty == *of && *at < *count {
                    Ok(())
                } else {
                    Err(Fault::Index)
                }
            }
            _ => Err(Fault::Index),
        },
        Shape::Str { most } => match value {
            Value::Str(text) => {
                if text.len() <= *most as usize {
                    Ok(())
                } else {
                    Err(Fault::StringLength)
                }
            }
            _ => Err(Fault::Index),
        },
        Shape::Rec(shapes) => match value {
            Value::Rec(fields) => check_each(shapes.as_slice(), fields.as_slice()),
            _ => Err(Fault::Index),
        },
        Shape::Arr { dims, item } => match value {
            Value::Arr { dims: sent, items } => {
                check_extents(*dims, *sent)?;
                check_all(item.get(), items.as_slice())
            }
            _ => Err(Fault::Index),
        },
        Shape::Capa => match value {
            Value::Capa(_) => Ok(()),
            _ => Err(Fault::Index),
        },
    }
}

#[cycle(checking)]
fn check_all(shape: &Shape, values: &[Value]) -> Result<(), Fault>
    ensures { result ≡ outcome (all_fit (fitted_in shape.now) values.now) }
{
    for value in values {
        check_fit(shape, value)?;
    }
    Ok(())
}

#[cycle(checking)]
fn check_each(shapes: &[Shape], values: &[Value]) -> Result<(), Fault>
    ensures { result ≡ outcome (each_fits (map fitted_in shapes.now) values.now) }
{
    let mut rest = values;
    for shape in shapes {
        match rest {
            [] => return Err(Fault::Index),
            [value, others @ ..] => {
                check_fit(shape, value)?;
                rest = others;
            }
        }
    }
    if rest.is_empty() {
        Ok(())
    } else {
        Err(Fault::Index)
    }
}
