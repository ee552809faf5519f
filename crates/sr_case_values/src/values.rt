//! Lines on what functions over values give, such as `binary / -7 2 => -3`.

use crate::nodes::{Node, Words, nodes_of};
use crate::value_printer::{print_quoted, print_value};
use crate::value_reader::{next_path, next_shape, next_value};
use sr_literal::number_of;
use sr_value::{
    Dimension, EnumNames, Fault, NoMemory, Operator, Row, Text, Value, ValueFail, absolute, arith,
    char_of, default_of, fitted, greatest, highest, int_of, least, length_of, loaded, lower_bound,
    lowest, predecessor, stored, string_of, successor, unary, upper_bound,
};
use std::alloc::{AllocError, Global};

/// The operator that a word stands for. Those before an operand are `minus`, `plus` and `not`.
fn operator(word: &str) -> Operator {
    match word {
        "or" => Operator::Or,
        "xor" => Operator::Xor,
        "and" => Operator::And,
        "=" => Operator::Eq,
        "!=" => Operator::Ne,
        "<" => Operator::Lt,
        "<=" => Operator::Le,
        ">" => Operator::Gt,
        ">=" => Operator::Ge,
        "+" => Operator::Add,
        "-" => Operator::Sub,
        "||" => Operator::Join,
        "*" => Operator::Mul,
        "/" => Operator::Div,
        "%" => Operator::Rem,
        "mod" => Operator::Mod,
        "minus" => Operator::Minus,
        "plus" => Operator::Plus,
        _ => Operator::Not,
    }
}

/// A value or the fault in its place, as text.
fn tell(alloc: Global, answer: Result<Value, Fault>) -> Result<String, NoMemory> {
    match answer {
        Ok(value) => {
            let mut out = String::new(alloc);
            print_value(&mut out, &value)?;
            Ok(out)
        }
        Err(fault) => Ok(format!(in alloc; "{fault:?}")?),
    }
}

/// What was to be made, or the fault in its place.
fn made(answer: Result<Value, ValueFail>) -> Result<Result<Value, Fault>, NoMemory> {
    match answer {
        Ok(value) => Ok(Ok(value)),
        Err(ValueFail::Fault(fault)) => Ok(Err(fault)),
        Err(ValueFail::NoMemory) => Err(NoMemory),
    }
}

/// A row of two texts.
fn texts(alloc: Global, first: &str, second: &str) -> Result<Row<Text>, NoMemory> {
    let mut row = Row::new(alloc);
    row.push(Text::from_slice(alloc, first.as_bytes())?)?;
    row.push(Text::from_slice(alloc, second.as_bytes())?)?;
    Ok(row)
}

/// The names of one enumeration of two literals.
fn colours(alloc: Global) -> Result<EnumNames, NoMemory> {
    let mut names = Row::new(alloc);
    names.push(texts(alloc, "red", "green")?)?;
    Ok(names)
}

/// The value of an operator between two operands.
fn between(alloc: Global, words: &mut Words<'_>) -> Result<Result<Value, Fault>, NoMemory> {
    let op = operator(words.word());
    let a = next_value(alloc, words)?;
    let b = next_value(alloc, words)?;
    made(arith(alloc, op, &a, &b))
}

/// The value of an operator before its operand.
fn before(alloc: Global, words: &mut Words<'_>) -> Result<Result<Value, Fault>, NoMemory> {
    let op = operator(words.word());
    let a = next_value(alloc, words)?;
    made(unary(alloc, op, &a))
}

/// The text of a value, with the names of one enumeration.
fn text_of(alloc: Global, value: &Value) -> Result<Result<Value, Fault>, NoMemory> {
    let names = colours(alloc)?;
    made(string_of(alloc, value, &names))
}

/// The dimension of this number.
fn dimension(number: u32) -> Dimension {
    if number == 2 {
        Dimension::Second
    } else {
        Dimension::First
    }
}

/// The value of a predefined function of one value, and of a number after it.
fn predefined(name: &str, value: &Value, words: &mut Words<'_>) -> Result<Value, Fault> {
    match name {
        "abs" => absolute(value),
        "succ" => successor(value, words.number()),
        "pred" => predecessor(value),
        "char" => char_of(value),
        "int" => int_of(value),
        "length" => length_of(value),
        "lb" => lower_bound(value, dimension(words.number())),
        _ => upper_bound(value, dimension(words.number())),
    }
}

/// The value of `min` or `max`.
fn of_two(
    alloc: Global,
    name: &str,
    words: &mut Words<'_>,
) -> Result<Result<Value, Fault>, NoMemory> {
    let a = next_value(alloc, words)?;
    let b = next_value(alloc, words)?;
    if name == "min" {
        Ok(least(&a, &b))
    } else {
        Ok(greatest(&a, &b))
    }
}

/// The value of a function of a shape.
fn of_shape(
    alloc: Global,
    name: &str,
    words: &mut Words<'_>,
) -> Result<Result<Value, Fault>, NoMemory> {
    let shape = next_shape(alloc, words)?;
    match name {
        "low" => Ok(lowest(&shape)),
        "high" => Ok(highest(&shape)),
        _ => made(default_of(alloc, &shape)),
    }
}

/// What a place of a shape makes of a value.
fn in_place(alloc: Global, words: &mut Words<'_>) -> Result<Result<Value, Fault>, NoMemory> {
    let shape = next_shape(alloc, words)?;
    let value = next_value(alloc, words)?;
    made(fitted(alloc, &shape, &value))
}

/// The value at a path in a value.
fn at_path(alloc: Global, words: &mut Words<'_>) -> Result<Result<Value, Fault>, NoMemory> {
    let value = next_value(alloc, words)?;
    let path = next_path(alloc, words)?;
    made(loaded(alloc, &value, &path))
}

/// A value of a shape with another at a path.
fn with_part(alloc: Global, words: &mut Words<'_>) -> Result<Result<Value, Fault>, NoMemory> {
    let shape = next_shape(alloc, words)?;
    let old = next_value(alloc, words)?;
    let path = next_path(alloc, words)?;
    let new = next_value(alloc, words)?;
    made(stored(alloc, &shape, &old, &path, &new))
}

/// What a function over values gives.
fn answer(
    alloc: Global,
    name: &str,
    words: &mut Words<'_>,
) -> Result<Result<Value, Fault>, NoMemory> {
    match name {
        "binary" => between(alloc, words),
        "unary" => before(alloc, words),
        "min" | "max" => of_two(alloc, name, words),
        "low" | "high" | "default" => of_shape(alloc, name, words),
        "fitted" => in_place(alloc, words),
        "loaded" => at_path(alloc, words),
        "stored" => with_part(alloc, words),
        "string" => text_of(alloc, &next_value(alloc, words)?),
        _ => Ok(predefined(name, &next_value(alloc, words)?, words)),
    }
}

/// How many items the default of a shape has, where it is an array.
fn tell_count(alloc: Global, words: &mut Words<'_>) -> Result<String, NoMemory> {
    match of_shape(alloc, "default", words)? {
        Ok(Value::Arr { items, .. }) => {
            let count = items.len();
            Ok(format!(in alloc; "{count}")?)
        }
        other => tell(alloc, other),
    }
}

/// The number that digits spell.
fn tell_number(alloc: Global, digits: &str) -> Result<String, AllocError> {
    match number_of(digits.as_bytes()) {
        Some(number) => format!(in alloc; "{number}"),
        None => String::from_str(alloc, "none"),
    }
}

/// The bytes that a literal for a string stands for.
fn tell_literal(alloc: Global, token: &[u8]) -> Result<String, NoMemory> {
    let text = sr_literal::string_of(alloc, token)?;
    let mut out = String::new(alloc);
    print_quoted(&mut out, text.as_bytes())?;
    Ok(out)
}

/// What is found for a call.
fn found(alloc: Global, nodes: &[Node]) -> Result<String, NoMemory> {
    let mut words = Words::new(nodes);
    match words.word() {
        "items" => tell_count(alloc, &mut words),
        "number" => Ok(tell_number(alloc, words.word())?),
        "literal" => tell_literal(alloc, words.quoted()),
        name => tell(alloc, answer(alloc, name, &mut words)?),
    }
}

/// What is told of a line such as `min 1 2 => 1`.
pub fn tell_call(alloc: Global, line: &str) -> Result<String, NoMemory> {
    let call = match line.rsplit_once(" => ") {
        Some((call, _)) => call,
        None => line,
    };
    let nodes = nodes_of(alloc, call)?;
    let found = found(alloc, &nodes)?;
    Ok(format!(in alloc; "{call} => {found}")?)
}
