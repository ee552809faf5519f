//! What names mean and are, by the facts of the checked program.
ghost use Rattle.std.specs.Prelude.{◌≡◌, IfOk, is_some, option_copied};
ghost use Rattle.sr_names.specs.Spots.{spot_of};
ghost use Rattle.sr_names.specs.Uses.{meaning_at};
ghost use Rattle.sr_check_expr.specs.Meanings as meanings;

use crate::exprs::expr;
use crate::facts::Facts;
use crate::info::Info;
use crate::infos::name_spot;
use crate::typed_expr::TypedExpr;
use sr_names::{Diagnostics, Meaning, Predefined, Spot};
use sr_tree::{Expr, Invocation, Name};
use sr_types::{Static, Ty};
use sr_value::{Duplicate, NoMemory, Span, Value};
use std::alloc::Global;

/// What an expression is.
pub fn infer(alloc: Global, tree: &Expr, facts: &Facts) -> Result<TypedExpr, NoMemory>
    ensures { IfOk result (λ typed_expr. typed_expr ≡ meanings.typed_expr facts.now tree.now) }
{
    let mut diagnostics = Diagnostics::new(alloc);
    expr(alloc, tree, facts, &mut diagnostics)
}

/// The type of an expression.
pub fn type_of(alloc: Global, tree: &Expr, facts: &Facts) -> Result<Ty, NoMemory>
    ensures { IfOk result (λ ty. ty ≡ meanings.type_of facts.now tree.now) }
{
    let typed_expr = infer(alloc, tree, facts)?;
    Ok(typed_expr.typed.ty)
}

/// What declares the name that is used at a span.
pub fn declared_at(facts: &Facts, span: Span) -> Option<Spot>
    ensures { result ≡ meanings.declared_at facts.now span }
{
    match facts.uses.get(Spot::of(span)) {
        Some(Meaning::Declared(decl)) => Some(decl.spot),
        _ => None,
    }
}

/// The declaration that a name means; the name itself where there is none.
pub fn meant_by(facts: &Facts, name: &Name) -> Spot
    ensures { result ≡ meanings.meant_by facts.now name.now }
{
    declared_at(facts, name.span).unwrap_or(Spot::of(name.span))
}

/// The value of the static constant, or of the literal of an enumeration, that is declared at a spot.
pub fn constant_at(facts: &Facts, spot: Spot) -> Option<&Value>
    ensures { option_copied result ≡ meanings.constant_at facts.now spot }
{
    match facts.infos.get(spot)? {
        Info::Value(typed) => match &typed.value {
            Static::Known(value) => Some(value),
            _ => None,
        },
        _ => None,
    }
}

/// Whether a static constant, or a literal of an enumeration, is declared at a spot.
pub fn is_constant(facts: &Facts, spot: Spot) -> bool
    ensures { result ≡ meanings.is_constant facts.now spot }
{
    constant_at(facts, spot).is_some()
}

/// The type of the variable, constant or operation that is declared at a spot.
pub fn type_at(alloc: Global, facts: &Facts, spot: Spot) -> Result<Ty, NoMemory>
    ensures { IfOk result (λ ty. ty ≡ meanings.type_at facts.now spot) }
{
    match facts.infos.get(spot) {
        Some(Info::Value(typed)) => typed.ty.copy(alloc),
        Some(Info::Operation { ty, .. }) => ty.copy(alloc),
        _ => Ok(Ty::Untyped),
    }
}

/// Whether an operation of this type returns something.
fn returns(facts: &Facts, ty: &Ty) -> bool
    ensures { result ≡ is_some (meanings.returned_by facts.now ty.now) }
{
    match facts.signatures.of(ty) {
        Some(signature) => signature.returns.is_some(),
        None => false,
    }
}

/// Whether the operation that is declared at a spot returns something.
pub fn returns_something(facts: &Facts, spot: Spot) -> bool
    ensures { result ≡ is_some (meanings.returned_by facts.now (meanings.type_at facts.now spot)) }
{
    match facts.infos.get(spot) {
        Some(Info::Value(typed)) => returns(facts, &typed.ty),
        Some(Info::Operation { ty, .. }) => returns(facts, ty),
        _ => false,
    }
}

/// How many literals an enumeration has; 0 for another type.
pub fn literals_of(facts: &Facts, ty: &Ty) -> u32
    ensures { result ≡ meanings.literals_of facts.now ty.now }
{
    match ty {
        Ty::Enum(spot) => match facts.infos.get(name_spot(*spot)) {
            Some(Info::Enumeration { literals, .. }) => *literals,
            _ => 0,
        },
        _ => 0,
    }
}

/// The operation that an expression names: a name, or a component's name, a point and a name.
pub fn operation_meant(tree: &Expr, facts: &Facts) -> Option<Spot>
    ensures { result ≡ meanings.operation_meant facts.now tree.now }
{
    match tree {
        Expr::Name(name) => declared_at(facts, name.span),
        Expr::Field { field, .. } => declared_at(facts, field.span),
        _ => None,
    }
}

/// The predefined function that the name means that is used at a span.
fn predefined_at(facts: &Facts, span: Span) -> Option<Predefined>
    ensures { result ≡ meanings.predefined_in (meaning_at facts.now.uses (spot_of span)) }
{
    match facts.uses.get(Spot::of(span)) {
        Some(Meaning::Predefined(name)) => Some(name),
        _ => None,
    }
}

/// The predefined function that an invocation calls by its name.
pub fn function_called(tree: &Invocation, facts: &Facts) -> Option<Predefined>
    ensures { result ≡ meanings.function_called facts.now tree.now }
{
    match tree.callee.get() {
        Expr::Name(name) => predefined_at(facts, name.span),
        _ => None,
    }
}
