ghost use Rattle.std.specs.Prelude.{◌≡◌, ◌≢◌, ◌↔◌, IsTrue, IfSome, option_copied};
ghost use Rattle.sr_value.specs.Operands.{bytes_in};
ghost use Rattle.sr_value.specs.Operators.{Answers, value_of, value_of_one, int_result, truth_result, equality_of, order_of};

use crate::compare::Compare;
use crate::division::{modulo, quotient, remainder};
use crate::fault::{Fault, ValueFail};
use crate::operator::Operator;
use crate::text::Text;
use crate::value::Value;
use std::alloc::Global;
use std::cmp::Ordering;
use std::slice;

/// The most bytes that a string may have.
pub const MOST_BYTES: usize = 65_535;

/// The value of an operator between two operands. Operands that haven't the operator's types, and
/// an operator that takes one operand, are E6.
pub fn arith(alloc: Global, op: Operator, a: &Value, b: &Value) -> Result<Value, ValueFail>
    ensures { Answers result (value_of op a.now b.now) }
{
    match op {
        Operator::Join => joined(alloc, a, b),
        _ => match scalar(op, a, b) {
            Ok(value) => Ok(value),
            Err(fault) => Err(ValueFail::Fault(fault)),
        },
    }
}

/// The value of an operator before its operand. An operand that hasn't the operator's type, and an
/// operator that takes two operands, are E6.
pub fn unary(_alloc: Global, op: Operator, a: &Value) -> Result<Value, ValueFail>
    ensures { Answers result (value_of_one op a.now) }
{
    match sole(op, a) {
        Ok(value) => Ok(value),
        Err(fault) => Err(ValueFail::Fault(fault)),
    }
}

/// The value of an operator that takes no memory.
fn scalar(op: Operator, a: &Value, b: &Value) -> Result<Value, Fault>
    requires { op ≢ Operator.Join }
    ensures { result ≡ value_of op a.now b.now }
{
    match op {
        Operator::Or => or(a, b),
        Operator::Xor => xor(a, b),
        Operator::And => and(a, b),
        Operator::Eq => truth(equality(a, b)),
        Operator::Ne => truth(equality(a, b).map(|equal| !equal)),
        Operator::Lt => truth(order(a, b).map(|order| order.is_lt())),
        Operator::Le => truth(order(a, b).map(|order| order.is_le())),
        Operator::Gt => truth(order(a, b).map(|order| order.is_gt())),
        Operator::Ge => truth(order(a, b).map(|order| order.is_ge())),
        Operator::Add => sum(a, b),
        Operator::Sub => difference(a, b),
        Operator::Join => unreachable!(),
        Operator::Mul => product(a, b),
        Operator::Div => divided(a, b),
        Operator::Rem => remaining(a, b),
        Operator::Mod => reduced(a, b),
        Operator::Minus => Err(Fault::Range),
        Operator::Plus => Err(Fault::Range),
        Operator::Not => Err(Fault::Range),
    }
}

fn sole(op: Operator, a: &Value) -> Result<Value, Fault>
    ensures { result ≡ value_of_one op a.now }
{
    match op {
        Operator::Minus => match a.as_int() {
            Some(x) => int(-i64::from(x)),
            None => Err(Fault::Range),
        },
        Operator::Plus => match a.as_int() {
            Some(x) => Ok(Value::Int(x)),
            None => Err(Fault::Range),
        },
        Operator::Not => truth(a.as_bool().map(|x| !x)),
        _ => Err(Fault::Range),
    }
}

/// A whole number as an `int`.
pub(crate) fn int(exact: i64) -> Result<Value, Fault>
    ensures { result ≡ int_result exact }
{
    match i32::try_from(exact) {
        Ok(number) => Ok(Value::Int(number)),
        Err(_) => Err(Fault::Overflow),
    }
}

fn truth(answer: Option<bool>) -> Result<Value, Fault>
    ensures { result ≡ truth_result answer }
{
    match answer {
        Some(truth) => Ok(Value::Bool(truth)),
        None => Err(Fault::Range),
    }
}

fn or(a: &Value, b: &Value) -> Result<Value, Fault>
    ensures { result ≡ value_of Operator.Or a.now b.now }
{
    let (Some(x), Some(y)) = (a.as_bool(), b.as_bool()) else {
        return Err(Fault::Range);
    };
    Ok(Value::Bool(x || y))
}

fn xor(a: &Value, b: &Value) -> Result<Value, Fault>
    ensures { result ≡ value_of Operator.Xor a.now b.now }
{
    let (Some(x), Some(y)) = (a.as_bool(), b.as_bool()) else {
        return Err(Fault::Range);
    };
    Ok(Value::Bool(x != y))
}

fn and(a: &Value, b: &Value) -> Result<Value, Fault>
    ensures { result ≡ value_of Operator.And a.now b.now }
{
    let (Some(x), Some(y)) = (a.as_bool(), b.as_bool()) else {
        return Err(Fault::Range);
    };
    Ok(Value::Bool(x && y))
}

/// Whether two operands are equal, where they are of one type that `=` compares.
pub fn equality(a: &Value, b: &Value) -> Option<bool>
    ensures value { result ≡ equality_of a.now b.now }
    ensures exact { IfSome result (λ truth. IsTrue truth ↔ (a.now ≡ b.now)) }
{
    match a {
        Value::Int(x) => b.as_int().map(|y| x.same(&y)),
        Value::Bool(x) => b.as_bool().map(|y| *x == y),
        Value::Char(x) => b.as_char().map(|y| *x == y),
        Value::Enum { ty, at } => b.as_literal(*ty).map(|y| *at == y),
        Value::Str(x) => b.as_text().map(|y| x.as_bytes() == y),
        Value::Capa(x) => b.as_cap().map(|y| x.same(&y)),
        _ => None,
    }
}

/// The order of two operands of one ordered type: numbers by size, strings by bytes.
fn order(a: &Value, b: &Value) -> Option<Ordering>
    ensures { result ≡ order_of a.now b.now }
{
    match a {
        Value::Int(x) => b.as_int().map(|y| x.cmp(&y)),
        Value::Char(x) => b.as_char().map(|y| x.cmp(&y)),
        Value::Enum { ty, at } => b.as_literal(*ty).map(|y| at.cmp(&y)),
        Value::Str(x) => b.as_text().map(|y| x.as_bytes().cmp(&y)),
        _ => None,
    }
}

fn sum(a: &Value, b: &Value) -> Result<Value, Fault>
    ensures { result ≡ value_of Operator.Add a.now b.now }
{
    let (Some(x), Some(y)) = (a.as_int(), b.as_int()) else {
        return Err(Fault::Range);
    };
    int(i64::from(x) + i64::from(y))
}

fn difference(a: &Value, b: &Value) -> Result<Value, Fault>
    ensures { result ≡ value_of Operator.Sub a.now b.now }
{
    let (Some(x), Some(y)) = (a.as_int(), b.as_int()) else {
        return Err(Fault::Range);
    };
    int(i64::from(x) - i64::from(y))
}

fn product(a: &Value, b: &Value) -> Result<Value, Fault>
    ensures { result ≡ value_of Operator.Mul a.now b.now }
{
    let (Some(x), Some(y)) = (a.as_int(), b.as_int()) else {
        return Err(Fault::Range);
    };
    int(i64::from(x) * i64::from(y))
}

fn divided(a: &Value, b: &Value) -> Result<Value, Fault>
    ensures { result ≡ value_of Operator.Div a.now b.now }
{
    let (Some(x), Some(y)) = (a.as_int(), b.as_int()) else {
        return Err(Fault::Range);
    };
    if y == 0 {
        return Err(Fault::ZeroDivisor);
    }
    int(quotient(x, y))
}

fn remaining(a: &Value, b: &Value) -> Result<Value, Fault>
    ensures { result ≡ value_of Operator.Rem a.now b.now }
{
    let (Some(x), Some(y)) = (a.as_int(), b.as_int()) else {
        return Err(Fault::Range);
    };
    if y == 0 {
        return Err(Fault::ZeroDivisor);
    }
    Ok(Value::Int(remainder(x, y)))
}

fn reduced(a: &Value, b: &Value) -> Result<Value, Fault>
    ensures { result ≡ value_of Operator.Mod a.now b.now }
{
    let (Some(x), Some(y)) = (a.as_int(), b.as_int()) else {
        return Err(Fault::Range);
    };
    if y == 0 {
        return Err(Fault::ZeroDivisor);
    }
    Ok(Value::Int(modulo(x, y)))
}

/// The bytes of two strings or characters, one after the other.
fn joined(alloc: Global, a: &Value, b: &Value) -> Result<Value, ValueFail>
    ensures { Answers result (value_of Operator.Join a.now b.now) }
{
    let (Some(front), Some(back)) = (bytes(a), bytes(b)) else {
        return Err(ValueFail::Fault(Fault::Range));
    };
    if front.len() > MOST_BYTES || back.len() > MOST_BYTES - front.len() {
        return Err(ValueFail::Fault(Fault::StringLength));
    }
    let mut text = Text::from_slice(alloc, front)?;
    text.push_all(back)?;
    Ok(Value::Str(text))
}

/// What `||` joins: the bytes of a string, or the one byte of a `char`.
fn bytes(value: &Value) -> Option<&[u8]>
    ensures { option_copied result ≡ bytes_in value.now }
{
    match value {
        Value::Str(text) => Some(text.as_bytes()),
        Value::Char(byte) => Some(slice::from_ref(byte)),
        _ => None,
    }
}
