ghost use Rattle.std.specs.Prelude.{◌≡◌, IfOk};
ghost use Rattle.sr_types.specs.Operators.{operands_wanted, operand_wanted, are_taken, is_taken, whole_type, operand_type, binary_rule, unary_rule};
ghost use Rattle.sr_types.specs.Statics.{decided, static_of_two, static_of_one, static_beside};

use crate::fitting::fits;
use crate::kinds::{may_be_bool, may_be_compared, may_be_int, may_be_ordered, may_be_text};
use crate::ty::Ty;
use crate::typed::{Outcome, Static, Typed};
use sr_value::{
    Duplicate, Fault, NoMemory, Operator, Value, ValueFail, arith, unary as value_of_one,
};
use std::alloc::Global;

/// What the two operands of an operator have to be.
#[derive(Clone, Copy)]
pub enum Operands {
    /// Both `bool`.
    Bools,
    /// Of one type that `=` compares.
    Comparable,
    /// Of one type that `<` compares.
    Ordered,
    /// Both `int`.
    Ints,
    /// Each a string or a `char`.
    Texts,
}

/// What the operand of an operator has to be.
#[derive(Clone, Copy)]
pub enum Operand {
    /// An `int`.
    Number,
    /// A `bool`.
    Condition,
}

/// An operator between two operands.
pub fn binary(alloc: Global, op: Operator, a: &Typed, b: &Typed) -> Result<Outcome, NoMemory>
    ensures { IfOk result (λ outcome. outcome ≡ binary_rule op a.now b.now) }
{
    let Some(operands) = operands_of(op) else {
        return Ok(Outcome::Broken);
    };
    if !operands.take(&a.ty, &b.ty) {
        return Ok(Outcome::Broken);
    }
    Ok(Outcome::Met(Typed {
        ty: operands.whole(),
        is_place: false,
        value: value_of_two(alloc, op, &a.value, &b.value)?,
    }))
}

/// An operator before its operand.
pub fn unary(alloc: Global, op: Operator, a: &Typed) -> Result<Outcome, NoMemory>
    ensures { IfOk result (λ outcome. outcome ≡ unary_rule op a.now) }
{
    let Some(operand) = operand_of(op) else {
        return Ok(Outcome::Broken);
    };
    if !operand.takes(&a.ty) {
        return Ok(Outcome::Broken);
    }
    Ok(Outcome::Met(Typed {
        ty: operand.ty(),
        is_place: false,
        value: value_of_sole(alloc, op, &a.value)?,
    }))
}

/// What an operator wants of its two operands, where it takes two.
fn operands_of(op: Operator) -> Option<Operands>
    ensures { result ≡ operands_wanted op }
{
    match op {
        Operator::Or | Operator::Xor | Operator::And => Some(Operands::Bools),
        Operator::Eq | Operator::Ne => Some(Operands::Comparable),
        Operator::Lt | Operator::Le | Operator::Gt | Operator::Ge => Some(Operands::Ordered),
        Operator::Add | Operator::Sub => Some(Operands::Ints),
        Operator::Join => Some(Operands::Texts),
        Operator::Mul | Operator::Div | Operator::Rem | Operator::Mod => Some(Operands::Ints),
        Operator::Minus | Operator::Plus | Operator::Not => None,
    }
}

/// What an operator wants of its operand, where it takes one.
fn operand_of(op: Operator) -> Option<Operand>
    ensures { result ≡ operand_wanted op }
{
    match op {
        Operator::Minus | Operator::Plus => Some(Operand::Number),
        Operator::Not => Some(Operand::Condition),
        _ => None,
    }
}

impl Operands {
    /// Whether operands of these types are what is wanted.
    fn take(self, a: &Ty, b: &Ty) -> bool
        ensures { result ≡ are_taken self a.now b.now }
    {
        match self {
            Operands::Bools => may_be_bool(a) && may_be_bool(b),
            Operands::Comparable => {
                may_be_compared(a) && may_be_compared(b) && (fits(a, b) || fits(b, a))
            }
            Operands::Ordered => may_be_ordered(a) && may_be_ordered(b) && fits(a, b),
            Operands::Ints => may_be_int(a) && may_be_int(b),
            Operands::Texts => may_be_text(a) && may_be_text(b),
        }
    }

    /// The type of the whole.
    fn whole(self) -> Ty
        ensures { result ≡ whole_type self }
    {
        match self {
            Operands::Bools => Ty::Bool,
            Operands::Comparable => Ty::Bool,
            Operands::Ordered => Ty::Bool,
            Operands::Ints => Ty::Int,
            Operands::Texts => Ty::Str,
        }
    }
}

impl Operand {
    /// Whether an operand of this type is what is wanted.
    fn takes(self, a: &Ty) -> bool
        ensures { result ≡ is_taken self a.now }
    {
        match self {
            Operand::Number => may_be_int(a),
            Operand::Condition => may_be_bool(a),
        }
    }

    /// The type of the operand, and of the result.
    fn ty(self) -> Ty
        ensures { result ≡ operand_type self }
    {
        match self {
            Operand::Number => Ty::Int,
            Operand::Condition => Ty::Bool,
        }
    }
}

/// What is known of the value of an operator between two operands.
fn value_of_two(alloc: Global, op: Operator, a: &Static, b: &Static) -> Result<Static, NoMemory>
    ensures { IfOk result (λ value. value ≡ static_of_two op a.now b.now) }
{
    match a {
        Static::Unknown => Ok(Static::Unknown),
        Static::Faults(fault) => Ok(fault_beside(*fault, b)),
        Static::Known(left) => value_after(alloc, op, left, b),
    }
}

/// A fault, where the operand beside it is static too.
fn fault_beside(fault: Fault, b: &Static) -> Static
    ensures { result ≡ static_beside fault b.now }
{
    match b {
        Static::Unknown => Static::Unknown,
        _ => Static::Faults(fault),
    }
}

/// What is known of the value of an operator after a left operand of this value.
fn value_after(alloc: Global, op: Operator, left: &Value, b: &Static) -> Result<Static, NoMemory>
    ensures { IfOk result (λ value. value ≡ static_of_two op (Static.Known left.now) b.now) }
{
    match b {
        Static::Unknown => Ok(Static::Unknown),
        Static::Faults(fault) => {
            if is_decided(op, left) {
                Ok(Static::Known(left.copy(alloc)?))
            } else {
                Ok(Static::Faults(*fault))
            }
        }
        Static::Known(right) => match arith(alloc, op, left, right) {
            Ok(value) => Ok(Static::Known(value)),
            Err(ValueFail::Fault(fault)) => Ok(Static::Faults(fault)),
            Err(ValueFail::NoMemory) => Err(NoMemory),
        },
    }
}

/// Whether the left operand of `and` or `or` decides the whole, so that the right one isn't evaluated.
fn is_decided(op: Operator, left: &Value) -> bool
    ensures { result ≡ decided op left.now }
{
    match op {
        Operator::And => left.as_bool() == Some(false),
        Operator::Or => left.as_bool() == Some(true),
        _ => false,
    }
}

/// What is known of the value of an operator before its operand.
fn value_of_sole(alloc: Global, op: Operator, a: &Static) -> Result<Static, NoMemory>
    ensures { IfOk result (λ value. value ≡ static_of_one op a.now) }
{
    match a {
        Static::Unknown => Ok(Static::Unknown),
        Static::Faults(fault) => Ok(Static::Faults(*fault)),
        Static::Known(operand) => match value_of_one(alloc, op, operand) {
            Ok(value) => Ok(Static::Known(value)),
            Err(ValueFail::Fault(fault)) => Ok(Static::Faults(fault)),
            Err(ValueFail::NoMemory) => Err(NoMemory),
        },
    }
}
