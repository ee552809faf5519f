ghost use Rattle.std.specs.Prelude.{◌≡◌, ◌↔◌, IsTrue, IfOk};

use crate::capability::Cap;
use crate::compare::Compare;
use crate::copies::Duplicate;
use crate::memory::NoMemory;
use crate::row::Row;
use crate::shape::Dims;
use crate::text::Text;
use std::alloc::Global;

/// A value of an SR program.
#[derive(Debug, Drop)]
pub enum Value {
    Int(i32),
    Bool(bool),
    Char(u8),
    /// A literal of an enumeration: the enumeration's number, and the literal's place in it, from 0.
    Enum { ty: u32, at: u32 },
    Str(Text),
    /// A record: its fields in order.
    Rec(Row<Value>),
    /// An array: its items by rows.
    Arr { dims: Dims, items: Row<Value> },
    Capa(Cap),
}

impl Duplicate for Value {
    fn copy(&self, alloc: Global) -> Result<Value, NoMemory> {
        copied_value(alloc, self)
    }
}

/// A copy of a value.
#[cycle(copied_values)]
fn copied_value(alloc: Global, value: &Value) -> Result<Value, NoMemory>
    ensures { IfOk result (λ c. c ≡ value.now) }
{
    match value {
        Value::Int(number) => Ok(Value::Int(*number)),
        Value::Bool(truth) => Ok(Value::Bool(*truth)),
        Value::Char(byte) => Ok(Value::Char(*byte)),
        Value::Enum { ty, at } => Ok(Value::Enum { ty: *ty, at: *at }),
        Value::Str(text) => Ok(Value::Str(text.copy(alloc)?)),
        Value::Rec(fields) => Ok(Value::Rec(copied_values(alloc, fields.as_slice())?)),
        Value::Arr { dims, items } => Ok(Value::Arr {
            dims: *dims,
            items: copied_values(alloc, items.as_slice())?,
        }),
        Value::Capa(cap) => Ok(Value::Capa(*cap)),
    }
}

#[cycle(copied_values)]
fn copied_values(alloc: Global, values: &[Value]) -> Result<Row<Value>, NoMemory>
    ensures { IfOk result (λ c. c ≡ values.now) }
{
    let mut copies = Row::new(alloc);
    for value in values {
        copies.push(copied_value(alloc, value)?)?;
    }
    Ok(copies)
}

impl Compare for Value {
    fn same(&self, other: &Self) -> bool {
        same_value(self, other)
    }
}

/// Whether two values are the same, bounds of arrays included.
#[cycle(same_values)]
fn same_value(mine: &Value, theirs: &Value) -> bool
    ensures { IsTrue result ↔ (mine.now ≡ theirs.now) }
{
    match mine {
        Value::Int(number) => match theirs {
            Value::Int(their_number) => *number == *their_number,
            _ => false,
        },
        Value::Bool(truth) => match theirs {
            Value::Bool(their_truth) => *truth == *their_truth,
            _ => false,
        },
        Value::Char(byte) => match theirs {
            Value::Char(their_byte) => *byte == *their_byte,
            _ => false,
        },
        Value::Enum { ty, at } => match theirs {
            Value::Enum {
                ty: their_ty,
                at: their_at,
            } => *ty == *their_ty && *at == *their_at,
            _ => false,
        },
        Value::Str(text) => match theirs {
            Value::Str(their_text) => text.same(their_text),
            _ => false,
        },
        Value::Rec(fields) => match theirs {
            Value::Rec(their_fields) => same_values(fields.as_slice(), their_fields.as_slice()),
            _ => false,
        },
        Value::Arr { dims, items } => match theirs {
            Value::Arr {
                dims: their_dims,
                items: their_items,
            } => dims.same(their_dims) && same_values(items.as_slice(), their_items.as_slice()),
            _ => false,
        },
        Value::Capa(cap) => match theirs {
            Value::Capa(their_cap) => cap.same(their_cap),
            _ => false,
        },
    }
}

#[cycle(same_values)]
fn same_values(mine: &[Value], theirs: &[Value]) -> bool
    ensures { IsTrue result ↔ (mine.now ≡ theirs.now) }
{
    let mut rest = theirs;
    for value in mine {
        match rest {
            [] => return false,
            [first, others @ ..] => {
                if !same_value(value, first) {
                    return false;
                }
                rest = others;
            }
        }
    }
    rest.is_empty()
}
