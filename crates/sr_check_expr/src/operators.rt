ghost use Rattle.std.specs.Prelude.{◌≡◌};
ghost use Rattle.sr_check_expr.specs.Exprs.{operator_of, prefix_of, conversion_outcome, grouped};

use sr_tree::{BinaryOperator, Conversion, UnaryOperator};
use sr_types::{Outcome, Typed, char_conversion, int_conversion, string_conversion};
use sr_value::Operator;

/// The operator between two operands that is written so.
pub(crate) fn operator_of(written: BinaryOperator) -> Operator
    ensures { result ≡ operator_of written }
{
    match written {
        BinaryOperator::Or => Operator::Or,
        BinaryOperator::Xor => Operator::Xor,
        BinaryOperator::And => Operator::And,
        BinaryOperator::Equal => Operator::Eq,
        BinaryOperator::NotEqual => Operator::Ne,
        BinaryOperator::Less => Operator::Lt,
        BinaryOperator::LessEqual => Operator::Le,
        BinaryOperator::Greater => Operator::Gt,
        BinaryOperator::GreaterEqual => Operator::Ge,
        BinaryOperator::Plus => Operator::Add,
        BinaryOperator::Minus => Operator::Sub,
        BinaryOperator::Join => Operator::Join,
        BinaryOperator::Times => Operator::Mul,
        BinaryOperator::Divide => Operator::Div,
        BinaryOperator::Remainder => Operator::Rem,
        BinaryOperator::Modulo => Operator::Mod,
    }
}

/// The operator before an operand that is written so.
pub(crate) fn prefix_of(written: UnaryOperator) -> Operator
    ensures { result ≡ prefix_of written }
{
    match written {
        UnaryOperator::Minus => Operator::Minus,
        UnaryOperator::Plus => Operator::Plus,
        UnaryOperator::Not => Operator::Not,
    }
}

/// What a conversion is.
pub(crate) fn converted(conversion: Conversion, value: &Typed) -> Outcome
    ensures { result ≡ conversion_outcome conversion value.now }
{
    match conversion {
        Conversion::Int => int_conversion(value),
        Conversion::Char => char_conversion(value),
        Conversion::Str => string_conversion(value),
    }
}

/// What stands in brackets is no place.
pub(crate) fn grouped(inner: Typed) -> Typed
    ensures { result ≡ grouped inner }
{
    Typed {
        ty: inner.ty,
        is_place: false,
        value: inner.value,
    }
}
