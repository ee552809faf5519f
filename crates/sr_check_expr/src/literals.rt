ghost use Rattle.std.specs.Prelude.{◌≡◌, IfOk};
ghost use Rattle.sr_check_expr.specs.LiteralTypes.{number_static, char_static, literal_typed, literal_named, number_named, basic_type};
ghost use Rattle.sr_types.specs.Outcomes.{computed};

use crate::typed_expr::{Named, TypedExpr};
use sr_literal::{number_of, string_of};
use sr_tree::{BasicType, Literal};
use sr_types::{Static, Ty, Typed};
use sr_value::{Cap, NoMemory, Span, Value};
use std::alloc::Global;

/// What an expression is that is a literal.
pub(crate) fn literal(alloc: Global, span: Span, literal: &Literal) -> Result<TypedExpr, NoMemory>
    ensures { IfOk result (λ typed_expr. typed_expr ≡ record { span = span; typed = literal_typed literal.now; named = literal_named literal.now }) }
{
    Ok(TypedExpr {
        span,
        typed: literal_value(alloc, literal)?,
        named: literal_name(literal),
    })
}

/// The type and value of a literal.
fn literal_value(alloc: Global, literal: &Literal) -> Result<Typed, NoMemory>
    ensures { IfOk result (λ typed. typed ≡ literal_typed literal.now) }
{
    Ok(match literal {
        Literal::Number(text) => known(Ty::Int, number_value(number_of(text.as_bytes()))),
        Literal::Char(text) => {
            let bytes = string_of(alloc, text.as_bytes())?;
            known(Ty::Char, char_value(bytes.as_bytes()))
        }
        Literal::Str(text) => {
            let bytes = string_of(alloc, text.as_bytes())?;
            known(Ty::Str, Static::Known(Value::Str(bytes)))
        }
        Literal::True => known(Ty::Bool, Static::Known(Value::Bool(true))),
        Literal::False => known(Ty::Bool, Static::Known(Value::Bool(false))),
        Literal::Null => known(Ty::NullCap, Static::Known(Value::Capa(Cap::Null))),
        Literal::Noop => known(Ty::NullCap, Static::Known(Value::Capa(Cap::Noop))),
    })
}

/// An expression that is no place.
pub fn known(ty: Ty, value: Static) -> Typed
    ensures { result ≡ computed ty value }
{
    Typed {
        ty,
        is_place: false,
        value,
    }
}

fn number_value(number: Option<u32>) -> Static
    ensures { result ≡ number_static number }
{
    match number {
        Some(number) => match i32::try_from(number) {
            Ok(number) => Static::Known(Value::Int(number)),
            Err(_) => Static::Unknown,
        },
        None => Static::Unknown,
    }
}

fn char_value(bytes: &[u8]) -> Static
    ensures { result ≡ char_static bytes.now }
{
    match bytes {
        [byte, ..] => Static::Known(Value::Char(*byte)),
        [] => Static::Unknown,
    }
}

/// The number that a literal is, where it is one.
fn literal_name(literal: &Literal) -> Named
    ensures { result ≡ literal_named literal.now }
{
    match literal {
        Literal::Number(text) => number_name(number_of(text.as_bytes())),
        _ => Named::Nothing,
    }
}

fn number_name(number: Option<u32>) -> Named
    ensures { result ≡ number_named number }
{
    match number {
        Some(number) => Named::Number(number),
        None => Named::Nothing,
    }
}

/// The type that is a word.
pub fn basic(word: BasicType) -> Ty
    ensures { result ≡ basic_type word }
{
    match word {
        BasicType::Int => Ty::Int,
        BasicType::Bool => Ty::Bool,
        BasicType::Char => Ty::Char,
    }
}
