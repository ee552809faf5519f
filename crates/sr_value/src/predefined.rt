ghost use Rattle.std.specs.Prelude.{◌≡◌};
ghost use Rattle.sr_value.specs.Operators.{Answers};
ghost use Rattle.sr_value.specs.Predefined.{absolute_value, least_value, greatest_value, lowest_value, highest_value, next_value, previous_value, lower_end, upper_end, lower_value, upper_value, length_value, written_int, number_value, char_value, string_value};

use crate::compare::Compare;
use crate::evaluation::int;
use crate::fault::{Fault, ValueFail};
use crate::shape::{Dims, Shape};
use crate::value::Value;
use crate::value_text::{EnumNames, text_of};
use std::alloc::Global;
use std::str;

/// One of the dimensions of an array.
#[derive(Clone, Copy, Debug, PartialEq, Eq)]
pub enum Dimension {
    First,
    Second,
}

impl Compare for Dimension {
    fn same(&self, other: &Self) -> bool {
        *self == *other
    }
}

/// `abs(i)`: E1 for the least `int`. What is no `int` is E6.
pub fn absolute(value: &Value) -> Result<Value, Fault>
    ensures { result ≡ absolute_value value.now }
{
    match value.as_int() {
        Some(number) => int(i64::from(number.unsigned_abs())),
        None => Err(Fault::Range),
    }
}

/// `min(i, j)`. What is no `int` is E6.
pub fn least(a: &Value, b: &Value) -> Result<Value, Fault>
    ensures { result ≡ least_value a.now b.now }
{
    let (Some(x), Some(y)) = (a.as_int(), b.as_int()) else {
        return Err(Fault::Range);
    };
    Ok(Value::Int(x.min(y)))
}

/// `max(i, j)`. What is no `int` is E6.
pub fn greatest(a: &Value, b: &Value) -> Result<Value, Fault>
    ensures { result ≡ greatest_value a.now b.now }
{
    let (Some(x), Some(y)) = (a.as_int(), b.as_int()) else {
        return Err(Fault::Range);
    };
    Ok(Value::Int(x.max(y)))
}

/// `low(T)`, where `T` is the type of places of this shape. A type that has no least value is E6.
pub fn lowest(shape: &Shape) -> Result<Value, Fault>
    ensures { result ≡ lowest_value shape.now }
{
    match shape {
        Shape::Int => Ok(Value::Int(i32::MIN)),
        Shape::Bool => Ok(Value::Bool(false)),
        Shape::Char => Ok(Value::Char(0)),
        Shape::Enum { ty, count: _ } => Ok(Value::Enum { ty: *ty, at: 0 }),
        _ => Err(Fault::Range),
    }
}

/// `high(T)`, where `T` is the type of places of this shape. A type that has no greatest value is E6.
pub fn highest(shape: &Shape) -> Result<Value, Fault>
    ensures { result ≡ highest_value shape.now }
{
    match shape {
        Shape::Int => Ok(Value::Int(i32::MAX)),
        Shape::Bool => Ok(Value::Bool(true)),
        Shape::Char => Ok(Value::Char(255)),
        Shape::Enum { ty, count } => Ok(Value::Enum {
            ty: *ty,
            at: count.saturating_sub(1),
        }),
        _ => Err(Fault::Range),
    }
}

/// `succ(x)` of an `int`, a `char` or a literal; `literals` is the number of literals of its
/// enumeration. Past the end, and of another value, it is E6.
pub fn successor(value: &Value, literals: u32) -> Result<Value, Fault>
    ensures { result ≡ next_value literals value.now }
{
    match value {
        Value::Int(number) => match number.checked_add(1) {
            Some(next) => Ok(Value::Int(next)),
            None => Err(Fault::Range),
        },
        Value::Char(byte) => match byte.checked_add(1) {
            Some(next) => Ok(Value::Char(next)),
            None => Err(Fault::Range),
        },
        Value::Enum { ty, at } => {
            if *at < literals.saturating_sub(1) {
                Ok(Value::Enum {
                    ty: *ty,
                    at: *at + 1,
                })
            } else {
                Err(Fault::Range)
            }
        }
        _ => Err(Fault::Range),
    }
}

/// `pred(x)` of an `int`, a `char` or a literal. Before the first, and of another value, it is E6.
pub fn predecessor(value: &Value) -> Result<Value, Fault>
    ensures { result ≡ previous_value value.now }
{
    match value {
        Value::Int(number) => match number.checked_sub(1) {
            Some(before) => Ok(Value::Int(before)),
            None => Err(Fault::Range),
        },
        Value::Char(byte) => match byte.checked_sub(1) {
            Some(before) => Ok(Value::Char(before)),
            None => Err(Fault::Range),
        },
        Value::Enum { ty, at } => match at.checked_sub(1) {
            Some(before) => Ok(Value::Enum {
                ty: *ty,
                at: before,
            }),
            None => Err(Fault::Range),
        },
        _ => Err(Fault::Range),
    }
}

impl Dims {
    /// The lowest index of a dimension, where there is that dimension.
    pub fn lower(&self, dimension: Dimension) -> Option<i32>
        ensures { result ≡ lower_end self.now dimension }
    {
        match *self {
            Dims::One { lo, .. } => match dimension {
                Dimension::First => Some(lo),
                Dimension::Second => None,
            },
            Dims::Two { lo, lo2, .. } => match dimension {
                Dimension::First => Some(lo),
                Dimension::Second => Some(lo2),
            },
        }
    }

    /// The highest index of a dimension, where there is that dimension.
    pub fn upper(&self, dimension: Dimension) -> Option<i32>
        ensures { result ≡ upper_end self.now dimension }
    {
        match *self {
            Dims::One { hi, .. } => match dimension {
                Dimension::First => Some(hi),
                Dimension::Second => None,
            },
            Dims::Two { hi, hi2, .. } => match dimension {
                Dimension::First => Some(hi),
                Dimension::Second => Some(hi2),
            },
        }
    }
}

/// `lb(a)` or `lb(a, 2)`: the lowest index. What is no array of that dimension is E6.
pub fn lower_bound(value: &Value, dimension: Dimension) -> Result<Value, Fault>
    ensures { result ≡ lower_value value.now dimension }
{
    match value {
        Value::Arr { dims, items: _ } => match dims.lower(dimension) {
            Some(lo) => Ok(Value::Int(lo)),
            None => Err(Fault::Range),
        },
        _ => Err(Fault::Range),
    }
}

/// `ub(a)` or `ub(a, 2)`: the highest index. What is no array of that dimension is E6.
pub fn upper_bound(value: &Value, dimension: Dimension) -> Result<Value, Fault>
    ensures { result ≡ upper_value value.now dimension }
{
    match value {
        Value::Arr { dims, items: _ } => match dims.upper(dimension) {
            Some(hi) => Ok(Value::Int(hi)),
            None => Err(Fault::Range),
        },
        _ => Err(Fault::Range),
    }
}

/// `length(s)`: the number of bytes of a string. What is no string is E6.
pub fn length_of(value: &Value) -> Result<Value, Fault>
    ensures { result ≡ length_value value.now }
{
    match value {
        Value::Str(text) => match i32::try_from(text.len()) {
            Ok(length) => Ok(Value::Int(length)),
            Err(_) => Err(Fault::Overflow),
        },
        _ => Err(Fault::Range),
    }
}

/// The number that a text writes: an optional sign, then one decimal digit or more, in the range of
/// `int`.
pub fn parse_int(bytes: &[u8]) -> Option<i32>
    ensures { result ≡ written_int bytes.now }
{
    match str::from_utf8(bytes) {
        Ok(text) => text.parse::<i32>().ok(),
        Err(_) => None,
    }
}

/// `int(x)`: the number of a `char`, a literal or a `bool`, or the one that a string writes. A string
/// that writes none, and another value, are E6.
pub fn int_of(value: &Value) -> Result<Value, Fault>
    ensures { result ≡ number_value value.now }
{
    match value {
        Value::Bool(truth) => Ok(Value::Int(i32::from(*truth))),
        Value::Char(byte) => Ok(Value::Int(i32::from(*byte))),
        Value::Enum { ty: _, at } => match i32::try_from(*at) {
            Ok(number) => Ok(Value::Int(number)),
            Err(_) => Err(Fault::Range),
        },
        Value::Str(text) => match parse_int(text.as_bytes()) {
            Some(number) => Ok(Value::Int(number)),
            None => Err(Fault::Range),
        },
        _ => Err(Fault::Range),
    }
}

/// `char(i)`: E6 for a number that is no byte, and for a value that is no `int`.
pub fn char_of(value: &Value) -> Result<Value, Fault>
    ensures { result ≡ char_value value.now }
{
    match value.as_int() {
        Some(number) => match u8::try_from(number) {
            Ok(byte) => Ok(Value::Char(byte)),
            Err(_) => Err(Fault::Range),
        },
        None => Err(Fault::Range),
    }
}

/// `string(x)`: the text of a value that isn't a record or array; of those it is E6.
pub fn string_of(alloc: Global, value: &Value, names: &EnumNames) -> Result<Value, ValueFail>
    ensures { Answers result (string_value names.now value.now) }
{
    match value {
        Value::Rec(_) => Err(ValueFail::Fault(Fault::Range)),
        Value::Arr { .. } => Err(ValueFail::Fault(Fault::Range)),
        _ => Ok(Value::Str(text_of(alloc, value, names)?)),
    }
}
