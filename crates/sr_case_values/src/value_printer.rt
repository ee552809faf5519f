//! Values and shapes as text.

use sr_case_files::push_byte;
use sr_value::{Cap, Dims, Owner, Shape, Value};
use std::alloc::AllocError;

/// Bytes between quotes.
pub fn print_quoted(out: &mut String, bytes: &[u8]) -> Result<(), AllocError> {
    out.push('"')?;
    for byte in bytes {
        match *byte {
            b'"' | b'\\' => write!(out, "\\x{byte:02x}")?,
            plain => push_byte(out, plain)?,
        }
    }
    out.push('"')
}

/// `'a'` or `'\x80'`
fn print_char(out: &mut String, byte: u8) -> Result<(), AllocError> {
    if byte.is_ascii_alphanumeric() {
        let letter = char::from(byte);
        write!(out, "'{letter}'")
    } else {
        write!(out, "'\\x{byte:02x}'")
    }
}

/// `op:0@2`, `op:0@process:3`, `res:3`, `vm:1`, `null` or `noop`
pub fn print_cap(out: &mut String, cap: Cap) -> Result<(), AllocError> {
    match cap {
        Cap::Null => out.push_str("null"),
        Cap::Noop => out.push_str("noop"),
        Cap::Res(instance) => write!(out, "res:{instance}"),
        Cap::Vm(machine) => write!(out, "vm:{machine}"),
        Cap::Op { owner, op } => match owner {
            Owner::Inst(instance) => write!(out, "op:{op}@{instance}"),
            Owner::Proc(process) => write!(out, "op:{op}@process:{process}"),
        },
    }
}

/// `1..3` or `1..3/0..4`
fn print_dims(out: &mut String, dims: Dims) -> Result<(), AllocError> {
    match dims {
        Dims::One { lo, hi } => write!(out, "{lo}..{hi}"),
        Dims::Two { lo, hi, lo2, hi2 } => write!(out, "{lo}..{hi}/{lo2}..{hi2}"),
    }
}

/// A number, `true`, `'a'`, `enum:0:1`, `"text"`, a record `(1 2)`, an array `[1..2 7 8]`, or a capability.
#[cycle(printing_values)]
pub fn print_value(out: &mut String, value: &Value) -> Result<(), AllocError> {
    match value {
        Value::Int(number) => write!(out, "{number}"),
        Value::Bool(truth) => write!(out, "{truth}"),
        Value::Char(byte) => print_char(out, *byte),
        Value::Enum { ty, at } => write!(out, "enum:{ty}:{at}"),
        Value::Str(text) => print_quoted(out, text.as_bytes()),
        Value::Rec(fields) => print_values(out, fields.as_slice()),
        Value::Arr { dims, items } => {
            out.push('[')?;
            print_dims(out, *dims)?;
            print_items(out, items.as_slice())?;
            out.push(']')
        }
        Value::Capa(cap) => print_cap(out, *cap),
    }
}

/// Values, each after a space.
#[cycle(printing_values)]
fn print_items(out: &mut String, values: &[Value]) -> Result<(), AllocError> {
    for value in values {
        out.push(' ')?;
        print_value(out, value)?;
    }
    Ok(())
}

/// `(1 2)`
#[cycle(printing_values)]
pub fn print_values(out: &mut String, values: &[Value]) -> Result<(), AllocError> {
    let mut is_first = true;
    out.push('(')?;
    for value in values {
        if !is_first {
            out.push(' ')?;
        }
        is_first = false;
        print_value(out, value)?;
    }
    out.push(')')
}

/// `int`, `bool`, `char`, `cap`, `enum:0:2`, `string:9`, a record `(int bool)` or an array `[1..3 int]`
#[cycle(printing_shapes)]
pub fn print_shape(out: &mut String, shape: &Shape) -> Result<(), AllocError> {
    match shape {
        Shape::Int => out.push_str("int"),
        Shape::Bool => out.push_str("bool"),
        Shape::Char => out.push_str("char"),
        Shape::Enum { ty, count } => write!(out, "enum:{ty}:{count}"),
        Shape::Str { most } => write!(out, "string:{most}"),
        Shape::Rec(fields) => print_shapes(out, fields.as_slice()),
        Shape::Arr { dims, item } => {
            out.push('[')?;
            print_dims(out, *dims)?;
            out.push(' ')?;
            print_shape(out, item.get())?;
            out.push(']')
        }
        Shape::Capa => out.push_str("cap"),
    }
}

/// `(int bool)`
#[cycle(printing_shapes)]
fn print_shapes(out: &mut String, shapes: &[Shape]) -> Result<(), AllocError> {
    let mut is_first = true;
    out.push('(')?;
    for shape in shapes {
        if !is_first {
            out.push(' ')?;
        }
        is_first = false;
        print_shape(out, shape)?;
    }
    out.push(')')
}
