ghost use Rattle.std.specs.Prelude.{◌≡◌, IfOk, OnOk};
ghost use Rattle.sr_names.specs.Diagnostics.{all_noted};
ghost use Rattle.sr_check_expr.specs.Calls.{made_found, made_outcome, invocation_found, invoked_typing, called_by, made_typing};

use crate::arguments::{
    Invoked, as_many, given_back, is_callable, note_fields, note_invoked, note_values,
};
use crate::facts::Facts;
use crate::functions::{function, note_guard};
use crate::literals::known;
use crate::marks::{note_unless, note_value, settle};
use crate::naming::record_fields;
use crate::typed_expr::{Named, TypedExpr};
use sr_names::{Diagnostics, Rule};
use sr_types::{Outcome, Static, Ty, refused};
use sr_value::{NoMemory, Span};
use std::alloc::Global;

/// Notes the arguments that don't fit the fields of a record type.
fn note_made(
    facts: &Facts,
    diagnostics: &mut Diagnostics,
    ty: &Ty,
    arguments: &[TypedExpr],
) -> Result<(), NoMemory>
    ensures { OnOk result (diagnostics.new ≡ all_noted diagnostics.old (made_found facts.now ty.now arguments.now)) }
{
    match ty {
        Ty::Rec(spot) => note_fields(diagnostics, record_fields(&facts.infos, *spot), arguments),
        _ => Ok(()),
    }
}

/// What `T(a, b)` is.
fn made(facts: &Facts, ty: &Ty, arguments: &[TypedExpr]) -> Outcome
    ensures { result ≡ made_outcome facts.now ty.now arguments.now }
{
    match ty {
        Ty::Rec(spot) => {
            if as_many(record_fields(&facts.infos, *spot), arguments) {
                Outcome::Met(known(Ty::Rec(*spot), Static::Unknown))
            } else {
                Outcome::Broken
            }
        }
        Ty::Untyped => Outcome::Met(refused()),
        _ => Outcome::Broken,
    }
}

/// Notes what is found at `T(a, b)`, and answers what it is.
fn construction(
    facts: &Facts,
    diagnostics: &mut Diagnostics,
    span: Span,
    ty: &Ty,
    arguments: &[TypedExpr],
) -> Result<TypedExpr, NoMemory>
    ensures value { IfOk result (λ typed_expr. typed_expr ≡ (made_typing facts.now span ty.now arguments.now).typed_expr) }
    ensures noted { OnOk result (diagnostics.new ≡ all_noted diagnostics.old (made_typing facts.now span ty.now arguments.now).found) }
{
    note_values(diagnostics, arguments)?;
    note_made(facts, diagnostics, ty, arguments)?;
    settle(diagnostics, span, made(facts, ty, arguments))
}

/// Notes the findings at an invocation. Its result may be used in any way.
pub fn note_invocation(
    facts: &Facts,
    diagnostics: &mut Diagnostics,
    span: Span,
    callee: &TypedExpr,
    arguments: &[TypedExpr],
) -> Result<(), NoMemory>
    ensures { OnOk result (diagnostics.new ≡ all_noted diagnostics.old (invocation_found facts.now span callee.now arguments.now)) }
{
    note_value(diagnostics, callee)?;
    note_values(diagnostics, arguments)?;
    note_invoked(&facts.signatures, diagnostics, &callee.typed.ty, arguments)?;
    note_guard(diagnostics, facts.here, span)
}

/// Notes what is found at a call of an operation in an expression, and answers what it is.
fn operation(
    alloc: Global,
    facts: &Facts,
    diagnostics: &mut Diagnostics,
    span: Span,
    callee: &TypedExpr,
    arguments: &[TypedExpr],
) -> Result<TypedExpr, NoMemory>
    ensures value { IfOk result (λ typed_expr. typed_expr ≡ (invoked_typing facts.now span callee.now arguments.now).typed_expr) }
    ensures noted { OnOk result (diagnostics.new ≡ all_noted diagnostics.old (invoked_typing facts.now span callee.now arguments.now).found) }
{
    note_invocation(facts, diagnostics, span, callee, arguments)?;
    let ty = &callee.typed.ty;
    let allowed = is_callable(&facts.signatures, ty);
    note_unless(diagnostics, allowed, Rule::BadUse, span)?;
    let outcome = given_back(alloc, &facts.signatures, ty, arguments)?;
    settle(diagnostics, span, outcome)
}

/// Notes what is found at a call in an expression, apart from its parts, and answers what it is.
pub(crate) fn called(
    alloc: Global,
    facts: &Facts,
    diagnostics: &mut Diagnostics,
    span: Span,
    parts: Invoked,
) -> Result<TypedExpr, NoMemory>
    ensures value { IfOk result (λ typed_expr. typed_expr ≡ (called_by facts.now span parts.callee parts.arguments parts.callee.named).typed_expr) }
    ensures noted { OnOk result (diagnostics.new ≡ all_noted diagnostics.old (called_by facts.now span parts.callee parts.arguments parts.callee.named).found) }
{
    let arguments = parts.arguments.as_slice();
    called_by(alloc, facts, diagnostics, span, &parts.callee, arguments)
}

/// What a call is, by what its callee names.
fn called_by(
    alloc: Global,
    facts: &Facts,
    diagnostics: &mut Diagnostics,
    span: Span,
    callee: &TypedExpr,
    arguments: &[TypedExpr],
) -> Result<TypedExpr, NoMemory>
    ensures value { IfOk result (λ typed_expr. typed_expr ≡ (called_by facts.now span callee.now arguments.now callee.now.named).typed_expr) }
    ensures noted { OnOk result (diagnostics.new ≡ all_noted diagnostics.old (called_by facts.now span callee.now arguments.now callee.now.named).found) }
{
    match &callee.named {
        Named::Predefined(name) => function(alloc, facts, diagnostics, span, *name, arguments),
        Named::Type(ty) => construction(facts, diagnostics, span, ty, arguments),
        _ => operation(alloc, facts, diagnostics, span, callee, arguments),
    }
}
