ghost use Rattle.std.specs.Prelude.{◌≡◌, ◌<◌, drop};
ghost use Rattle.sr_value.specs.declared.value.Value.{out-Value};
ghost use Rattle.sr_value.specs.Parts.{stored_at, with_part};
ghost use Rattle.sr_in_place.specs.Puts.{IsCharStored, Wrote, byte_count, char_stored, item_stored, layer_spot};

use crate::fitting::fit;
use sr_value::{Fault, Row, Sel, Shape, Text, Value, byte_place, field_place, item_place, step_at};

/// Puts a value at the end of a path in a place of this shape. E3 where the path leads nowhere, before the
/// value is looked at; else the faults of [`fit`]. After a fault the place is as before. It takes no memory.
pub fn put(shape: &Shape, place: &mut Value, path: &[Sel], value: Value) -> Result<(), Fault>
    ensures { Wrote result place.old place.new (stored_at shape.now place.old path.now value) }
{
    let mut value = value;
    put_from(shape, place, path, 0, &mut value)
}

/// The same for what is left of a path from a step on, with the value taken out of `value`.
#[cycle(putting)]
fn put_from(
    shape: &Shape,
    place: &mut Value,
    path: &[Sel],
    at: usize,
    value: &mut Value,
) -> Result<(), Fault>
    ensures { Wrote result place.old place.new (stored_at shape.now place.old (drop at path.now) value.old) }
{
    let Some(step) = step_at(path, at) else {
        fit(shape, value)?;
        std::mem::swap(place, value);
        return Ok(());
    };
    match shape {
        Shape::Str { .. } => put_char(place, step, path, at + 1, value),
        Shape::Rec(shapes) => match place {
            Value::Rec(fields) => match field_place(step) {
                Some(spot) => match shapes.get().get(spot) {
                    Some(inner) => put_item(inner, fields, spot, path, at + 1, value),
                    None => Err(Fault::Index),
                },
                None => Err(Fault::Index),
            },
            _ => Err(Fault::Index),
        },
        Shape::Arr { dims: _, item } => match place {
            Value::Arr { dims, items } => match item_place(*dims, step) {
                Some(spot) => put_item(item.get(), items, spot, path, at + 1, value),
                None => Err(Fault::Index),
            },
            _ => Err(Fault::Index),
        },
        _ => Err(Fault::Index),
    }
}

/// The same in one of several places of this shape.
#[cycle(putting)]
fn put_item(
    shape: &Shape,
    items: &mut Row<Value>,
    spot: usize,
    path: &[Sel],
    at: usize,
    value: &mut Value,
) -> Result<(), Fault>
    ensures { Wrote result items.old items.new (item_stored shape.now items.old spot (drop at path.now) value.old) }
{
    if spot < items.len() {
        put_from(shape, items.at_mut(spot), path, at, value)
    } else {
        Err(Fault::Index)
    }
}

/// The same in a place of strings, of whose chars a step selects one.
fn put_char(
    place: &mut Value,
    step: Sel,
    path: &[Sel],
    at: usize,
    value: &Value,
) -> Result<(), Fault>
    ensures { Wrote result place.old place.new (char_stored place.old step (drop at path.now) value.now) }
{
    let Some(spot) = byte_spot(place, step) else {
        return Err(Fault::Index);
    };
    let byte = char_at_end(path, at, value)?;
    set_byte(place, spot, byte);
    Ok(())
}

/// Where the byte of a string that a step selects stands, where there is one.
pub(crate) fn byte_spot(value: &Value, step: Sel) -> Option<usize>
    ensures { result ≡ layer_spot (out-Value value.now) step }
{
    match value {
        Value::Str(text) => { byte_place(text.as_bytes(), step).filter(|spot| *spot < text.len()) }
        _ => None,
    }
}

/// The char that the place of a char holds after a store, where the path has ended and the value is one.
pub(crate) fn char_at_end(path: &[Sel], at: usize, value: &Value) -> Result<u8, Fault>
    ensures { IsCharStored (drop at path.now) value.now result }
{
    match step_at(path, at) {
        None => match value {
            Value::Char(byte) => Ok(*byte),
            _ => Err(Fault::Index),
        },
        Some(_) => Err(Fault::Index),
    }
}

/// Changes a byte of a string. It takes no memory.
fn set_byte(place: &mut Value, spot: usize, byte: u8)
    requires { spot < byte_count place.old }
    ensures { place.new ≡ with_part place.old spot (Value.Char byte) }
{
    if let Value::Str(text) = std::mem::replace(place, Value::Bool(false)) {
        let mut bytes = text.into_vec();
        bytes[spot] = byte;
        *place = Value::Str(Text::from_vec(bytes));
    }
}
