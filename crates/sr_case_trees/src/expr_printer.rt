//! Expressions as text, each with its operator or word in front and brackets around.

use sr_case_files::push_bytes;
use sr_tree::{
    BasicType, BinaryOperator, Conversion, Create, Expr, Invocation, Literal, Name, Part,
    QualifiedName, UnaryOperator,
};
use std::alloc::AllocError;

/// `(+ a (* b c))`
#[cycle(printing)]
pub fn print_expr(out: &mut String, expr: &Expr) -> Result<(), AllocError> {
    match expr {
        Expr::Literal { literal, .. } => print_literal(out, literal),
        Expr::Name(name) => print_name(out, name),
        Expr::BasicType { basic, .. } => out.push_str(basic_text(*basic)),
        Expr::Conversion {
            conversion,
            value,
            ..
        } => print_one(out, conversion_text(*conversion), value.get()),
        Expr::Group { inner, .. } => print_one(out, "group", inner.get()),
        Expr::Parts { parts, .. } => print_parts(out, parts.as_slice()),
        Expr::Field { record, field, .. } => print_field(out, record.get(), field),
        Expr::Index {
            array,
            first,
            second,
            ..
        } => {
            out.push_str("(index")?;
            print_next(out, array.get())?;
            print_next(out, first.get())?;
            if let Some(second) = second {
                print_next(out, second.get())?;
            }
            out.push(')')
        }
        Expr::Call(invocation) => print_call(out, invocation),
        Expr::Create(create) => print_create(out, create),
        Expr::Unary {
            operator,
            operand,
            ..
        } => print_one(out, unary_text(*operator), operand.get()),
        Expr::Pending { operation, .. } => print_pending(out, operation),
        Expr::Binary {
            left,
            operator,
            right,
            ..
        } => {
            out.push('(')?;
            out.push_str(binary_text(*operator))?;
            print_next(out, left.get())?;
            print_next(out, right.get())?;
            out.push(')')
        }
    }
}

pub fn print_name(out: &mut String, name: &Name) -> Result<(), AllocError> {
    push_bytes(out, name.text.as_bytes())
}

/// `a.b`
pub fn print_qualified(out: &mut String, name: &QualifiedName) -> Result<(), AllocError> {
    print_name(out, &name.first)?;
    if let Some(second) = &name.second {
        out.push('.')?;
        print_name(out, second)?;
    }
    Ok(())
}

/// ` a`
#[cycle(printing)]
fn print_next(out: &mut String, expr: &Expr) -> Result<(), AllocError> {
    out.push(' ')?;
    print_expr(out, expr)
}

/// `(head a)`
#[cycle(printing)]
fn print_one(out: &mut String, head: &str, only: &Expr) -> Result<(), AllocError> {
    out.push('(')?;
    out.push_str(head)?;
    print_next(out, only)?;
    out.push(')')
}

/// `(. record field)`
#[cycle(printing)]
fn print_field(out: &mut String, record: &Expr, field: &Name) -> Result<(), AllocError> {
    out.push_str("(. ")?;
    print_expr(out, record)?;
    out.push(' ')?;
    print_name(out, field)?;
    out.push(')')
}

/// ` a b`
#[cycle(printing)]
fn print_exprs(out: &mut String, exprs: &[Expr]) -> Result<(), AllocError> {
    for expr in exprs {
        print_next(out, expr)?;
    }
    Ok(())
}

/// `(parts a (repeat n b))`
#[cycle(printing)]
fn print_parts(out: &mut String, parts: &[Part]) -> Result<(), AllocError> {
    out.push_str("(parts")?;
    for part in parts {
        if let Some(count) = &part.count {
            out.push_str(" (repeat")?;
            print_next(out, count.get())?;
            print_next(out, part.value.get())?;
            out.push(')')?;
        } else {
            print_next(out, part.value.get())?;
        }
    }
    out.push(')')
}

/// `(call f a b)`
#[cycle(printing)]
fn print_call(out: &mut String, invocation: &Invocation) -> Result<(), AllocError> {
    out.push_str("(call ")?;
    print_expr(out, invocation.callee.get())?;
    print_exprs(out, invocation.arguments.as_slice())?;
    out.push(')')
}

/// `(create r a b)`, `(create r a b on v)` or `(create vm)`
#[cycle(printing)]
fn print_create(out: &mut String, create: &Create) -> Result<(), AllocError> {
    match create {
        Create::Machine { .. } => out.push_str("(create vm)"),
        Create::Resource {
            resource,
            arguments,
            machine,
            ..
        } => {
            out.push_str("(create ")?;
            print_qualified(out, resource)?;
            print_exprs(out, arguments.as_slice())?;
            if let Some(machine) = machine {
                out.push_str(" on ")?;
                print_expr(out, machine.get())?;
            }
            out.push(')')
        }
    }
}

/// `(? f)`
fn print_pending(out: &mut String, operation: &Name) -> Result<(), AllocError> {
    out.push_str("(? ")?;
    print_name(out, operation)?;
    out.push(')')
}

fn print_literal(out: &mut String, literal: &Literal) -> Result<(), AllocError> {
    match literal {
        Literal::Number(text) | Literal::Char(text) | Literal::Str(text) => {
            push_bytes(out, text.as_bytes())
        }
        Literal::True => out.push_str("true"),
        Literal::False => out.push_str("false"),
        Literal::Null => out.push_str("null"),
        Literal::Noop => out.push_str("noop"),
    }
}

fn basic_text(basic: BasicType) -> &'static str {
    match basic {
        BasicType::Int => "int",
        BasicType::Bool => "bool",
        BasicType::Char => "char",
    }
}

fn conversion_text(conversion: Conversion) -> &'static str {
    match conversion {
        Conversion::Int => "to int",
        Conversion::Char => "to char",
        Conversion::Str => "to string",
    }
}

fn unary_text(operator: UnaryOperator) -> &'static str {
    match operator {
        UnaryOperator::Minus => "-",
        UnaryOperator::Plus => "+",
        UnaryOperator::Not => "not",
    }
}

fn binary_text(operator: BinaryOperator) -> &'static str {
    match operator {
        BinaryOperator::Or => "or",
        BinaryOperator::Xor => "xor",
        BinaryOperator::And => "and",
        BinaryOperator::Equal => "=",
        BinaryOperator::NotEqual => "!=",
        BinaryOperator::Less => "<",
        BinaryOperator::LessEqual => "<=",
        BinaryOperator::Greater => ">",
        BinaryOperator::GreaterEqual => ">=",
        BinaryOperator::Plus => "+",
        BinaryOperator::Minus => "-",
        BinaryOperator::Join => "||",
        BinaryOperator::Times => "*",
        BinaryOperator::Divide => "/",
        BinaryOperator::Remainder => "%",
        BinaryOperator::Modulo => "mod",
    }
}
