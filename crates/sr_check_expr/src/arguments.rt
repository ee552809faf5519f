ghost use Rattle.std.specs.Prelude.{◌≡◌, IfOk, OnOk};
ghost use Rattle.sr_names.specs.Diagnostics.{all_noted};
ghost use Rattle.sr_check_expr.specs.Arguments.{as_many, all_valued, arguments_found, fields_found, invoked_found, takes_as_many, returned_by, returned_if, is_callable, is_sendable, returned_outcome, invoked_outcome};

use crate::info::FieldInfo;
use crate::literals::known;
use crate::marks::{note_unless, note_value};
use crate::typed_expr::TypedExpr;
use sr_names::{Diagnostics, Rule};
use sr_types::{Forms, Outcome, Param, Signatures, Static, Ty, fits, takes_argument};
use sr_value::{Duplicate, NoMemory, Row};
use std::alloc::Global;

/// The parts of an invocation, as far as they are known.
#[derive(Drop)]
pub struct Invoked {
    pub callee: TypedExpr,
    pub arguments: Row<TypedExpr>,
}

/// Notes the arguments that are no values.
pub fn note_values(diagnostics: &mut Diagnostics, arguments: &[TypedExpr]) -> Result<(), NoMemory>
    ensures { OnOk result (diagnostics.new ≡ all_noted diagnostics.old (all_valued arguments.now)) }
{
    for argument in arguments {
        note_value(diagnostics, argument)?;
    }
    Ok(())
}

/// Notes the arguments that their formals don't take.
fn note_arguments(
    diagnostics: &mut Diagnostics,
    formals: &[Param],
    arguments: &[TypedExpr],
) -> Result<(), NoMemory>
    ensures { OnOk result (diagnostics.new ≡ all_noted diagnostics.old (arguments_found formals.now arguments.now)) }
{
    let mut rest = arguments;
    for formal in formals {
        match rest {
            [] => return Ok(()),
            [first, others @ ..] => {
                let met = takes_argument(formal.mode, &formal.ty, &first.typed);
                note_unless(diagnostics, met, Rule::BadType, first.span)?;
                rest = others;
            }
        }
    }
    Ok(())
}

/// Notes the arguments that their fields don't take.
pub(crate) fn note_fields(
    diagnostics: &mut Diagnostics,
    fields: &[FieldInfo],
    arguments: &[TypedExpr],
) -> Result<(), NoMemory>
    ensures { OnOk result (diagnostics.new ≡ all_noted diagnostics.old (fields_found fields.now arguments.now)) }
{
    let mut rest = arguments;
    for field in fields {
        match rest {
            [] => return Ok(()),
            [first, others @ ..] => {
                note_unless(
                    diagnostics,
                    fits(&first.typed.ty, &field.ty),
                    Rule::BadType,
                    first.span,
                )?;
                rest = others;
            }
        }
    }
    Ok(())
}

/// Notes the arguments that don't fit a callee of this type.
pub(crate) fn note_invoked(
    signatures: &Signatures,
    diagnostics: &mut Diagnostics,
    callee: &Ty,
    arguments: &[TypedExpr],
) -> Result<(), NoMemory>
    ensures { OnOk result (diagnostics.new ≡ all_noted diagnostics.old (invoked_found signatures.now callee.now arguments.now)) }
{
    match signatures.of(callee) {
        Some(signature) => note_arguments(diagnostics, signature.params.as_slice(), arguments),
        None => Ok(()),
    }
}

/// Whether there are as many of the one as of the other.
pub fn as_many<A, B>(these: &[A], others: &[B]) -> bool
    ensures { result ≡ as_many these.now others.now }
{
    these.len() == others.len()
}

/// Whether a callee of this type is an operation with as many formals as there are arguments.
pub fn takes_as_many(signatures: &Signatures, callee: &Ty, arguments: &[TypedExpr]) -> bool
    ensures { result ≡ takes_as_many signatures.now callee.now arguments.now }
{
    match signatures.of(callee) {
        Some(signature) => as_many(signature.params.as_slice(), arguments),
        None => callee.is_untyped(),
    }
}

/// What an invocation of a callee of this type gives back.
pub fn returned_by(
    alloc: Global,
    signatures: &Signatures,
    callee: &Ty,
) -> Result<Option<Ty>, NoMemory>
    ensures { IfOk result (λ returned. returned ≡ returned_by signatures.now callee.now) }
{
    match signatures.of(callee) {
        Some(signature) => copied_type(alloc, &signature.returns),
        None => Ok(returned_if(callee.is_untyped())),
    }
}

fn copied_type(alloc: Global, ty: &Option<Ty>) -> Result<Option<Ty>, NoMemory>
    ensures { IfOk result (λ copied. copied ≡ ty.now) }
{
    match ty {
        Some(ty) => Ok(Some(ty.copy(alloc)?)),
        None => Ok(None),
    }
}

/// The result of an invocation whose callee is no operation.
fn returned_if(untyped: bool) -> Option<Ty>
    ensures { result ≡ returned_if untyped }
{
    if untyped { Some(Ty::Untyped) } else { None }
}

/// Whether a callee of this type may be called.
pub fn is_callable(signatures: &Signatures, callee: &Ty) -> bool
    ensures { result ≡ is_callable signatures.now callee.now }
{
    match signatures.of(callee) {
        Some(signature) => !matches!(signature.forms, Forms::Send),
        None => true,
    }
}

/// Whether a callee of this type may be sent to.
pub fn is_sendable(signatures: &Signatures, callee: &Ty) -> bool
    ensures { result ≡ is_sendable signatures.now callee.now }
{
    match signatures.of(callee) {
        Some(signature) => !matches!(signature.forms, Forms::Call),
        None => true,
    }
}

fn returned(met: bool, returned: Option<Ty>) -> Outcome
    ensures { result ≡ returned_outcome met returned }
{
    match returned {
        Some(ty) => {
            if met {
                Outcome::Met(known(ty, Static::Unknown))
            } else {
                Outcome::Broken
            }
        }
        None => Outcome::Broken,
    }
}

/// What an invocation in an expression is.
pub(crate) fn given_back(
    alloc: Global,
    signatures: &Signatures,
    callee: &Ty,
    arguments: &[TypedExpr],
) -> Result<Outcome, NoMemory>
    ensures { IfOk result (λ outcome. outcome ≡ invoked_outcome signatures.now callee.now arguments.now) }
{
    let ty = returned_by(alloc, signatures, callee)?;
    Ok(returned(takes_as_many(signatures, callee, arguments), ty))
}
