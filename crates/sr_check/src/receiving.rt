ghost use Rattle.std.specs.Prelude.{◌≡◌, OnOk};
ghost use Rattle.sr_names.specs.Diagnostics.{all_noted};
ghost use Rattle.sr_check.specs.Contexts.{context_of};
ghost use Rattle.sr_check.specs.Receiving.{received_rule, received_found, takes_all, receive_by, receive_found};

use crate::enclosing::Enclosing;
use crate::operation::Operation;
use crate::services::{note_service, operation_named, params_of};
use sr_check_expr::{Facts, TypedExpr, all, as_many, note_unless, note_values};
use sr_names::{Diagnostics, Rule};
use sr_tree::{Expr, Name};
use sr_types::{Param, Ty, Typed, fits};
use sr_value::{NoMemory, Span};
use std::alloc::Global;

/// Whether a formal of this type may be assigned to a place.
fn may_receive(place: &Typed, ty: &Ty) -> bool
    ensures { result ≡ received_rule place.now ty.now }
{
    place.is_place && fits(ty, &place.ty)
}

/// Notes the places that don't take their formals.
fn note_received(
    diagnostics: &mut Diagnostics,
    params: &[Param],
    places: &[TypedExpr],
) -> Result<(), NoMemory>
    ensures { OnOk result (diagnostics.new ≡ all_noted diagnostics.old (received_found params.now places.now)) }
{
    let mut rest = places;
    for param in params {
        match rest {
            [] => return Ok(()),
            [first, others @ ..] => {
                let met = may_receive(&first.typed, &param.ty);
                note_unless(diagnostics, met, Rule::BadType, first.span)?;
                rest = others;
            }
        }
    }
    Ok(())
}

/// Whether there is a place for each formal.
fn takes_all(facts: &Facts, ty: &Ty, places: &[TypedExpr]) -> bool
    ensures { result ≡ takes_all facts.now ty.now places.now }
{
    ty.is_untyped() || as_many(params_of(&facts.signatures, ty), places)
}

fn note_operation(
    facts: &Facts,
    enclosing: &Enclosing<'_>,
    diagnostics: &mut Diagnostics,
    span: Span,
    places: &[TypedExpr],
    operation: &Option<Operation>,
) -> Result<(), NoMemory>
    ensures { OnOk result (diagnostics.new ≡ all_noted diagnostics.old (receive_by (context_of enclosing.now facts.now) span places.now operation.now)) }
{
    match operation {
        None => note_unless(diagnostics, false, Rule::BadType, span),
        Some(operation) => {
            let met = takes_all(facts, &operation.ty, places);
            note_unless(diagnostics, met, Rule::BadType, span)?;
            let params = params_of(&facts.signatures, &operation.ty);
            note_received(diagnostics, params, places)?;
            note_service(facts, enclosing.procs, diagnostics, span, operation)
        }
    }
}

/// Notes what is found at `receive operation(places)`.
pub(crate) fn note_receive(
    alloc: Global,
    facts: &Facts,
    enclosing: &Enclosing<'_>,
    diagnostics: &mut Diagnostics,
    span: Span,
    name: &Name,
    places: &[Expr],
) -> Result<(), NoMemory>
    ensures { OnOk result (diagnostics.new ≡ all_noted diagnostics.old (receive_found (context_of enclosing.now facts.now) span name.now places.now)) }
{
    let places = all(alloc, places, facts, diagnostics)?;
    note_values(diagnostics, places.as_slice())?;
    let operation = operation_named(alloc, facts, name)?;
    note_operation(
        facts,
        enclosing,
        diagnostics,
        span,
        places.as_slice(),
        &operation,
    )
}
