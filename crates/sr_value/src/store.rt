ghost use Rattle.std.specs.Prelude.{◌≡◌, ◌<◌, drop, length, slice_set, slice_get, IfOk, OnSome, unwrap_or};
ghost use Rattle.sr_value.specs.Operands.{char_in};
ghost use Rattle.sr_value.specs.Operators.{Answers};
ghost use Rattle.sr_value.specs.Parts.{stored_at};

use crate::copies::Duplicate;
use crate::fault::{Fault, ValueFail};
use crate::fits::fitted;
use crate::index::{byte_place, field_place, item_place};
use crate::memory::NoMemory;
use crate::part::step_at;
use crate::row::Row;
use crate::shape::{Sel, Shape};
use crate::text::Text;
use crate::value::Value;
use std::alloc::Global;

/// What a place of this shape that holds `old` holds after `value` is put at the end of a path in it. E3
/// where the path leads nowhere, before the value is looked at; else the faults of [`fitted`].
pub fn stored(
    alloc: Global,
    shape: &Shape,
    old: &Value,
    path: &[Sel],
    value: &Value,
) -> Result<Value, ValueFail>
    ensures { Answers result (stored_at shape.now old.now path.now value.now) }
{
    stored_from(alloc, shape, old, path, 0, value)
}

/// The same for what is left of a path from a step on.
fn stored_from(
    alloc: Global,
    shape: &Shape,
    old: &Value,
    path: &[Sel],
    at: usize,
    value: &Value,
) -> Result<Value, ValueFail>
    ensures { Answers result (stored_at shape.now old.now (drop at path.now) value.now) }
{
    match step_at(path, at) {
        None => fitted(alloc, shape, value),
        Some(step) => match shape {
            Shape::Str { .. } => match old {
                Value::Str(text) => match byte_place(text.as_bytes(), step) {
                    Some(place) => match byte_in(text.as_bytes(), place) {
                        Some(byte) => match stored_char(byte, path, at + 1, value) {
                            Ok(held) => Ok(Value::Str(with_byte(alloc, text, place, &held)?)),
                            Err(fail) => Err(fail),
                        },
                        None => Err(ValueFail::Fault(Fault::Index)),
                    },
                    None => Err(ValueFail::Fault(Fault::Index)),
                },
                _ => Err(ValueFail::Fault(Fault::Index)),
            },
            Shape::Rec(shapes) => match old {
                Value::Rec(fields) => match field_place(step) {
                    Some(place) => match fields.get(place) {
                        Some(field) => match shapes.get().get(place) {
                            Some(inner) => match stored_from(
                                alloc,
                                inner,
                                field,
                                path,
                                at + 1,
                                value,
                            ) {
                                Ok(held) => Ok(Value::Rec(with_item(alloc, fields, place, held)?)),
                                Err(fail) => Err(fail),
                            },
                            None => Err(ValueFail::Fault(Fault::Index)),
                        },
                        None => Err(ValueFail::Fault(Fault::Index)),
                    },
                    None => Err(ValueFail::Fault(Fault::Index)),
                },
                _ => Err(ValueFail::Fault(Fault::Index)),
            },
            Shape::Arr { dims: _, item } => match old {
                Value::Arr { dims, items } => match item_place(*dims, step) {
                    Some(place) => match items.get(place) {
                        Some(inner) => match stored_from(
                            alloc,
                            item.get(),
                            inner,
                            path,
                            at + 1,
                            value,
                        ) {
                            Ok(held) => Ok(Value::Arr {
                                dims: *dims,
                                items: with_item(alloc, items, place, held)?,
                            }),
                            Err(fail) => Err(fail),
                        },
                        None => Err(ValueFail::Fault(Fault::Index)),
                    },
                    None => Err(ValueFail::Fault(Fault::Index)),
                },
                _ => Err(ValueFail::Fault(Fault::Index)),
            },
            _ => Err(ValueFail::Fault(Fault::Index)),
        },
    }
}

/// The byte at a place of a string.
fn byte_in(bytes: &[u8], place: usize) -> Option<u8>
    ensures value { result ≡ slice_get bytes.now place }
    ensures within { OnSome result (place < length bytes.now) }
{
    bytes.get(place).copied()
}

/// What the place of a char holds after a store: a char, where the path has ended and the value is one.
fn stored_char(byte: u8, path: &[Sel], at: usize, value: &Value) -> Result<Value, ValueFail>
    ensures { Answers result (stored_at Shape.Char (Value.Char byte) (drop at path.now) value.now) }
{
    match step_at(path, at) {
        None => match value {
            Value::Char(held) => Ok(Value::Char(*held)),
            _ => Err(ValueFail::Fault(Fault::Index)),
        },
        Some(_) => Err(ValueFail::Fault(Fault::Index)),
    }
}

/// A copy of a string with another byte at a place.
fn with_byte(alloc: Global, text: &Text, place: usize, part: &Value) -> Result<Text, NoMemory>
    requires { place < length text.now }
    ensures { IfOk result (λ t. t ≡ slice_set text.now place (unwrap_or (char_in part.now) 0)) }
{
    let mut bytes = text.copy(alloc)?.into_vec();
    bytes[place] = part.as_char().unwrap_or(0);
    Ok(Text::from_vec(bytes))
}

/// A copy of a list with another item at a place.
fn with_item(
    alloc: Global,
    values: &Row<Value>,
    place: usize,
    item: Value,
) -> Result<Row<Value>, NoMemory>
    requires { place < length values.now }
    ensures { IfOk result (λ r. r ≡ slice_set values.now place item) }
{
    let mut items = values.copy(alloc)?;
    let _ = items.replace(place, item);
    Ok(items)
}
