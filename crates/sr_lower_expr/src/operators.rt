//! Operators and conversions in the core.
ghost use Rattle.std.specs.Prelude.{◌≡◌};
ghost use Rattle.sr_check_expr.specs.Exprs as written;
ghost use Rattle.sr_lower_expr.specs.Operators as operators;

use sr_core::{Expr, Function};
use sr_tree::{BinaryOperator, Conversion, UnaryOperator};
use sr_value::{Boxed, Operator};

/// The function that a conversion is.
pub fn conversion_function(conversion: Conversion) -> Function
    ensures { result ≡ operators.conversion_function conversion }
{
    match conversion {
        Conversion::Int => Function::ToInt,
        Conversion::Char => Function::ToChar,
        Conversion::Str => Function::ToText,
    }
}

/// The operator before an operand that is written so.
pub fn prefix_of(operator: UnaryOperator) -> Operator
    ensures { result ≡ written.prefix_of operator }
{
    match operator {
        UnaryOperator::Minus => Operator::Minus,
        UnaryOperator::Plus => Operator::Plus,
        UnaryOperator::Not => Operator::Not,
    }
}

/// The operator between two operands that is written so.
fn operator_of(operator: BinaryOperator) -> Operator
    ensures { result ≡ written.operator_of operator }
{
    match operator {
        BinaryOperator::Or => Operator::Or,
        BinaryOperator::Xor => Operator::Xor,
        BinaryOperator::And => Operator::And,
        BinaryOperator::Equal => Operator::Eq,
        BinaryOperator::NotEqual => Operator::Ne,
        BinaryOperator::Less => Operator::Lt,
        BinaryOperator::LessEqual => Operator::Le,
        BinaryOperator::Greater => Operator::Gt,
        BinaryOperator::GreaterEqual => Operator::Ge,
        BinaryOperator::Plus => Operator::Add,
        BinaryOperator::Minus => Operator::Sub,
        BinaryOperator::Join => Operator::Join,
        BinaryOperator::Times => Operator::Mul,
        BinaryOperator::Divide => Operator::Div,
        BinaryOperator::Remainder => Operator::Rem,
        BinaryOperator::Modulo => Operator::Mod,
    }
}

/// An operator between two operands. The right side of `and` and `or` may be left out.
pub fn binary(operator: BinaryOperator, left: Boxed<Expr>, right: Boxed<Expr>) -> Expr
    ensures { result ≡ operators.binary_core operator left right }
{
    match operator {
        BinaryOperator::And => Expr::And { left, right },
        BinaryOperator::Or => Expr::Or { left, right },
        _ => Expr::Binary {
            op: operator_of(operator),
            left,
            right,
        },
    }
}
