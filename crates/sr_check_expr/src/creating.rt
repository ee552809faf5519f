ghost use Rattle.std.specs.Prelude.{◌≡◌, IfOk, OnOk, Some, option_copied};
ghost use Rattle.sr_names.specs.Diagnostics.{all_noted};
ghost use Rattle.sr_check_expr.specs.Creating.{component_type, resource_type, resource_named, instance_type, machine_valued, made_of, formals_found, instance_typing, machine_typing};

use crate::arguments::{note_invoked, note_values, takes_as_many};
use crate::facts::Facts;
use crate::functions::note_guard;
use crate::info::Info;
use crate::infos::{Infos, type_spot};
use crate::literals::known;
use crate::marks::{note_unless, note_value, settle, value_at};
use crate::naming::{deciding, decl_of};
use crate::typed_expr::TypedExpr;
use crate::uses::may_be_machine;
use sr_names::{Decl, Diagnostics, Rule, Sort, Spot};
use sr_tree::QualifiedName;
use sr_types::{Outcome, Static, Ty, own_machine};
use sr_value::{Boxed, NoMemory, Span};

/// The declaration that is named in a `create`.
pub(crate) fn resource_named(facts: &Facts, qualified: &QualifiedName) -> Option<Decl>
    ensures { result ≡ resource_named facts.now qualified.now }
{
    decl_of(facts.uses.get(Spot::of(deciding(qualified).span)))
}

fn component_type(info: Option<&Info>) -> Option<&Ty>
    ensures { option_copied result ≡ component_type (option_copied info.entry) }
{
    match info {
        Some(Info::Component(ty)) => Some(ty),
        _ => None,
    }
}

/// The type that the formals of a resource make; a global can't be made.
fn resource_type(infos: &Infos, resource: Option<Decl>) -> Option<&Ty>
    ensures { option_copied result ≡ resource_type infos.now resource }
{
    match resource {
        None => None,
        Some(decl) => match decl.sort {
            Sort::Resource => component_type(infos.get(decl.spot)),
            _ => None,
        },
    }
}

fn instance_type(resource: Option<Decl>) -> Ty
    ensures { result ≡ instance_type resource }
{
    match resource {
        None => Ty::Untyped,
        Some(decl) => Ty::Resource(type_spot(decl.spot)),
    }
}

/// Notes that an expression that stands after `on` is no machine.
fn note_machine_at(diagnostics: &mut Diagnostics, machine: &TypedExpr) -> Result<(), NoMemory>
    ensures { OnOk result (diagnostics.new ≡ all_noted diagnostics.old (machine_valued (Some machine.now))) }
{
    note_value(diagnostics, machine)?;
    let met = may_be_machine(&machine.typed);
    note_unless(diagnostics, met, Rule::BadType, machine.span)
}

/// Notes that what stands after `on` is no machine.
fn note_machine(
    diagnostics: &mut Diagnostics,
    machine: &Option<Boxed<TypedExpr>>,
) -> Result<(), NoMemory>
    ensures { OnOk result (diagnostics.new ≡ all_noted diagnostics.old (machine_valued machine.now)) }
{
    match machine {
        Some(machine) => note_machine_at(diagnostics, machine.get()),
        None => Ok(()),
    }
}

fn note_formals(
    facts: &Facts,
    diagnostics: &mut Diagnostics,
    arguments: &[TypedExpr],
    formals: Option<&Ty>,
) -> Result<(), NoMemory>
    ensures { OnOk result (diagnostics.new ≡ all_noted diagnostics.old (formals_found facts.now arguments.now (option_copied formals.entry))) }
{
    match formals {
        Some(formals) => note_invoked(&facts.signatures, diagnostics, formals, arguments),
        None => Ok(()),
    }
}

/// What is made, where the arguments are as many as the formals.
fn made_of(facts: &Facts, arguments: &[TypedExpr], instance: Ty, formals: Option<&Ty>) -> Outcome
    ensures { result ≡ made_of facts.now arguments.now instance (option_copied formals.entry) }
{
    match formals {
        Some(formals) => {
            if takes_as_many(&facts.signatures, formals, arguments) {
                Outcome::Met(known(instance, Static::Unknown))
            } else {
                Outcome::Broken
            }
        }
        None => Outcome::Broken,
    }
}

/// Notes what is found at the making of an instance, apart from its parts, and answers what it is.
pub(crate) fn instance(
    facts: &Facts,
    diagnostics: &mut Diagnostics,
    span: Span,
    resource: Option<Decl>,
    arguments: &[TypedExpr],
    machine: &Option<Boxed<TypedExpr>>,
) -> Result<TypedExpr, NoMemory>
    ensures value { IfOk result (λ typed_expr. typed_expr ≡ (instance_typing facts.now span resource arguments.now machine.now).typed_expr) }
    ensures noted { OnOk result (diagnostics.new ≡ all_noted diagnostics.old (instance_typing facts.now span resource arguments.now machine.now).found) }
{
    let formals = resource_type(&facts.infos, resource);
    note_values(diagnostics, arguments)?;
    note_machine(diagnostics, machine)?;
    note_formals(facts, diagnostics, arguments, formals)?;
    note_guard(diagnostics, facts.here, span)?;
    let outcome = made_of(facts, arguments, instance_type(resource), formals);
    settle(diagnostics, span, outcome)
}

/// Notes what is found at the making of a machine, and answers what it is.
pub(crate) fn new_machine(
    facts: &Facts,
    diagnostics: &mut Diagnostics,
    span: Span,
) -> Result<TypedExpr, NoMemory>
    ensures value { IfOk result (λ typed_expr. typed_expr ≡ (machine_typing facts.now span).typed_expr) }
    ensures noted { OnOk result (diagnostics.new ≡ all_noted diagnostics.old (machine_typing facts.now span).found) }
{
    note_guard(diagnostics, facts.here, span)?;
    Ok(value_at(span, own_machine()))
}
