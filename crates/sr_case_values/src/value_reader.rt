//! Values, shapes and paths from their text.

use crate::nodes::{Node, Words};
use sr_case_files::unescaped;
use sr_value::{Cap, Dims, NoMemory, Owner, Row, Sel, Shape, Shared, Text, Value};
use std::alloc::Global;

/// The number that a text spells, or 0.
fn unsigned(text: &str) -> u32 {
    text.parse().unwrap_or(0)
}

/// The number that a text spells, or 0.
fn signed(text: &str) -> i32 {
    text.parse().unwrap_or(0)
}

/// The numbers around a sign, or 0.
fn pair(text: &str, sign: char) -> (u32, u32) {
    match text.split_once(sign) {
        Some((one, other)) => (unsigned(one), unsigned(other)),
        None => (0, 0),
    }
}

/// Bounds such as `1..3`.
fn bounds(text: &str) -> (i32, i32) {
    match text.split_once("..") {
        Some((lo, hi)) => (signed(lo), signed(hi)),
        None => (0, 0),
    }
}

/// The bounds of an array, such as `1..3` or `1..3/0..4`.
fn dims_of(text: &str) -> Dims {
    match text.split_once('/') {
        None => {
            let (lo, hi) = bounds(text);
            Dims::One { lo, hi }
        }
        Some((first, second)) => {
            let (lo, hi) = bounds(first);
            let (lo2, hi2) = bounds(second);
            Dims::Two { lo, hi, lo2, hi2 }
        }
    }
}

/// An operation, such as `0@2` of an instance or `0@process:3` of a process.
fn operation(text: &str) -> Cap {
    let Some((op, owner)) = text.split_once('@') else {
        return Cap::Null;
    };
    let op = unsigned(op);
    let owner = match owner.strip_prefix("process:") {
        Some(process) => Owner::Proc(unsigned(process)),
        None => Owner::Inst(unsigned(owner)),
    };
    Cap::Op { owner, op }
}

/// A capability, such as `op:0@2`, `res:3` or `vm:1`; `null` where it is none of these.
fn cap_of(text: &str) -> Cap {
    if text == "noop" {
        Cap::Noop
    } else if let Some(op) = text.strip_prefix("op:") {
        operation(op)
    } else if let Some(instance) = text.strip_prefix("res:") {
        Cap::Res(unsigned(instance))
    } else if let Some(machine) = text.strip_prefix("vm:") {
        Cap::Vm(unsigned(machine))
    } else {
        Cap::Null
    }
}

/// The byte of a character such as `a'` or `\x80'`, whose first quote is gone.
fn char_of(alloc: Global, text: &str) -> Result<Value, NoMemory> {
    let bytes = unescaped(alloc, text)?;
    Ok(Value::Char(bytes.first().copied().unwrap_or(0)))
}

/// The value that a word stands for.
fn word_value(alloc: Global, word: &str) -> Result<Value, NoMemory> {
    if let Ok(number) = word.parse::<i32>() {
        Ok(Value::Int(number))
    } else if let Ok(truth) = word.parse::<bool>() {
        Ok(Value::Bool(truth))
    } else if let Some(text) = word.strip_prefix('\'') {
        char_of(alloc, text)
    } else if let Some(literal) = word.strip_prefix("enum:") {
        let (ty, at) = pair(literal, ':');
        Ok(Value::Enum { ty, at })
    } else {
        Ok(Value::Capa(cap_of(word)))
    }
}

/// The value that a node stands for: a number, `true`, `'a'`, `enum:0:1`, `"text"`, a record `(1 2)`, an array
/// `[1..2 7 8]`, or a capability.
#[cycle(reading_values)]
pub fn value_of(alloc: Global, node: &Node) -> Result<Value, NoMemory> {
    match node {
        Node::Word(word) => word_value(alloc, word.as_str()),
        Node::Quoted(bytes) => Ok(Value::Str(Text::from_slice(alloc, bytes)?)),
        Node::Round(fields) => Ok(Value::Rec(values_of(alloc, fields)?)),
        Node::Square(parts) => match parts.split_first() {
            Some((Node::Word(dims), items)) => Ok(Value::Arr {
                dims: dims_of(dims.as_str()),
                items: values_of(alloc, items)?,
            }),
            _ => Ok(Value::Capa(Cap::Null)),
        },
    }
}

/// The values that nodes stand for.
#[cycle(reading_values)]
pub fn values_of(alloc: Global, nodes: &[Node]) -> Result<Row<Value>, NoMemory> {
    let mut values = Row::new(alloc);
    for node in nodes {
        values.push(value_of(alloc, node)?)?;
    }
    Ok(values)
}

/// The value that comes next, or `null`.
pub fn next_value(alloc: Global, words: &mut Words<'_>) -> Result<Value, NoMemory> {
    match words.next() {
        Some(node) => value_of(alloc, node),
        None => Ok(Value::Capa(Cap::Null)),
    }
}

/// The shape that a word stands for.
fn word_shape(word: &str) -> Shape {
    if let Some(literals) = word.strip_prefix("enum:") {
        let (ty, count) = pair(literals, ':');
        return Shape::Enum { ty, count };
    }
    if let Some(most) = word.strip_prefix("string:") {
        return Shape::Str {
            most: unsigned(most),
        };
    }
    match word {
        "int" => Shape::Int,
        "bool" => Shape::Bool,
        "char" => Shape::Char,
        _ => Shape::Capa,
    }
}

/// The shape that a node stands for: `int`, `bool`, `char`, `cap`, `enum:0:2`, `string:9`, a record `(int bool)` or an
/// array `[1..3 int]`.
#[cycle(reading_shapes)]
pub fn shape_of(alloc: Global, node: &Node) -> Result<Shape, NoMemory> {
    match node {
        Node::Word(word) => Ok(word_shape(word.as_str())),
        Node::Quoted(_) => Ok(Shape::Capa),
        Node::Round(fields) => Ok(Shape::Rec(Shared::new(alloc, shapes_of(alloc, fields)?)?)),
        Node::Square(parts) => match parts.as_slice() {
            [Node::Word(dims), item] => Ok(Shape::Arr {
                dims: dims_of(dims.as_str()),
                item: Shared::new(alloc, shape_of(alloc, item)?)?,
            }),
            _ => Ok(Shape::Capa),
        },
    }
}

/// The shapes that nodes stand for.
#[cycle(reading_shapes)]
fn shapes_of(alloc: Global, nodes: &[Node]) -> Result<Row<Shape>, NoMemory> {
    let mut shapes = Row::new(alloc);
    for node in nodes {
        shapes.push(shape_of(alloc, node)?)?;
    }
    Ok(shapes)
}

/// The shape that comes next, or that of capabilities.
pub fn next_shape(alloc: Global, words: &mut Words<'_>) -> Result<Shape, NoMemory> {
    match words.next() {
        Some(node) => shape_of(alloc, node),
        None => Ok(Shape::Capa),
    }
}

/// The step that a node stands for: an element `[2]` or `[2 3]`, or a field by its number.
fn step_of(node: &Node) -> Sel {
    match node {
        Node::Word(word) => Sel::Field(unsigned(word.as_str())),
        Node::Square(indices) => match indices.as_slice() {
            [Node::Word(first), Node::Word(second)] => {
                Sel::At2(signed(first.as_str()), signed(second.as_str()))
            }
            [Node::Word(only)] => Sel::At(signed(only.as_str())),
            _ => Sel::At(0),
        },
        _ => Sel::At(0),
    }
}

/// The steps of the list that comes next.
pub fn next_path(alloc: Global, words: &mut Words<'_>) -> Result<Vec<Sel>, NoMemory> {
    let mut path = Vec::new(alloc);
    for node in words.list() {
        path.push(step_of(node))?;
    }
    Ok(path)
}
