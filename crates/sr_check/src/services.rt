ghost use Rattle.std.specs.Prelude.{◌≡◌, IfOk, OnOk, is_some};
ghost use Rattle.std.specs.Option.{option_copied};
ghost use Rattle.sr_names.specs.Diagnostics.{all_noted};
ghost use Rattle.sr_check.specs.Services.{operation_by, operation_at, decl_named, operation_named, is_local_info, is_shared_info, is_local_name, is_shared_name, params_of, head_rule, is_own, later_of, proc_found, service_found, head_found, names_bound, returned_bound, service_bound, type_of, spot_or, returns_of, type_or_none};

use crate::enclosing::Procs;
use crate::operation::Operation;
use sr_check_decl::{declare_name, variable};
use sr_check_expr::{Facts, Info, as_many, decl_info, decl_of, note_unless};
use sr_names::{Decl, Diagnostic, Diagnostics, Finding, Rule, Spot};
use sr_tree::Name;
use sr_types::{Param, Signatures, Ty};
use sr_value::{Duplicate, NoMemory, Row, Span};
use std::alloc::Global;

/// The operation that is declared at a spot as this.
pub(crate) fn operation_by(
    alloc: Global,
    spot: Spot,
    info: Option<&Info>,
) -> Result<Option<Operation>, NoMemory>
    ensures { IfOk result (λ operation. operation ≡ operation_by spot (option_copied info.entry)) }
{
    match info {
        Some(
            Info::Operation {
                ty,
                component,
                is_local,
            },
        ) => Ok(Some(Operation {
            spot,
            ty: ty.copy(alloc)?,
            component: *component,
            is_local: *is_local,
        })),
        _ => Ok(None),
    }
}

fn operation_at(
    alloc: Global,
    facts: &Facts,
    decl: Option<Decl>,
) -> Result<Option<Operation>, NoMemory>
    ensures { IfOk result (λ operation. operation ≡ operation_at facts.now decl) }
{
    match decl {
        None => Ok(None),
        Some(decl) => operation_by(alloc, decl.spot, facts.infos.get(decl.spot)),
    }
}

fn decl_named(facts: &Facts, name: &Name) -> Option<Decl>
    ensures { result ≡ decl_named facts.now name.now }
{
    decl_of(facts.uses.get(Spot::of(name.span)))
}

/// The operation that a name means.
pub(crate) fn operation_named(
    alloc: Global,
    facts: &Facts,
    name: &Name,
) -> Result<Option<Operation>, NoMemory>
    ensures { IfOk result (λ operation. operation ≡ operation_named facts.now name.now) }
{
    operation_at(alloc, facts, decl_named(facts, name))
}

fn is_local_info(info: Option<&Info>) -> bool
    ensures { result ≡ is_local_info (option_copied info.entry) }
{
    match info {
        Some(Info::Operation { is_local, .. }) => *is_local,
        _ => false,
    }
}

fn is_shared_info(info: Option<&Info>) -> bool
    ensures { result ≡ is_shared_info (option_copied info.entry) }
{
    match info {
        Some(Info::Operation { is_local, .. }) => !*is_local,
        _ => false,
    }
}

/// Whether a name means an operation of a proc.
pub(crate) fn is_local_name(facts: &Facts, name: &Name) -> bool
    ensures { result ≡ is_local_name facts.now name.now }
{
    is_local_info(decl_info(&facts.infos, decl_named(facts, name)))
}

/// Whether a name means an operation of a component.
pub(crate) fn is_shared_name(facts: &Facts, name: &Name) -> bool
    ensures { result ≡ is_shared_name facts.now name.now }
{
    is_shared_info(decl_info(&facts.infos, decl_named(facts, name)))
}

/// The formals of an operation of this type.
pub(crate) fn params_of<'a>(signatures: &'a Signatures, ty: &Ty) -> &'a [Param]
    ensures { result.now ≡ params_of signatures.now ty.now }
{
    match signatures.of(ty) {
        Some(signature) => signature.params.as_slice(),
        None => &[],
    }
}

/// Whether an operation of this type is serviced with as many names as it has formals, and with `returns` exactly
/// where it returns.
pub(crate) fn may_head<T>(signatures: &Signatures, names: &[T], returns: bool, ty: &Ty) -> bool
    ensures { result ≡ head_rule signatures.now names.now returns ty.now }
{
    match signatures.of(ty) {
        Some(signature) => {
            as_many(names, signature.params.as_slice()) && returns == signature.returns.is_some()
        }
        None => true,
    }
}

/// Whether an operation is of the component in which something stands.
pub(crate) fn is_own(facts: &Facts, operation: &Operation) -> bool
    ensures { result ≡ is_own facts.now operation.now }
{
    operation.component == facts.here.component.spot
}

/// Of two places that disagree the later one.
fn later_of(a: Span, b: Span) -> Span
    ensures { result ≡ later_of a b }
{
    if Spot::of(a).is_before(Spot::of(b)) {
        b
    } else {
        a
    }
}

/// Notes that an operation is serviced by a proc and at a span.
fn note_proc(diagnostics: &mut Diagnostics, span: Span, proc: Option<Span>) -> Result<(), NoMemory>
    ensures { OnOk result (diagnostics.new ≡ all_noted diagnostics.old (proc_found span proc)) }
{
    match proc {
        None => Ok(()),
        Some(proc) => diagnostics.note(Finding::Broken(Diagnostic {
            rule: Rule::BadUse,
            span: later_of(proc, span),
        })),
    }
}

/// Notes what is found where an operation is serviced at a span, by statements.
pub(crate) fn note_service(
    facts: &Facts,
    procs: &Procs,
    diagnostics: &mut Diagnostics,
    span: Span,
    operation: &Operation,
) -> Result<(), NoMemory>
    ensures { OnOk result (diagnostics.new ≡ all_noted diagnostics.old (service_found facts.now procs.now span operation.now)) }
{
    note_unless(diagnostics, is_own(facts, operation), Rule::BadUse, span)?;
    note_proc(diagnostics, span, procs.get(operation.spot))
}

/// Notes what is found at the head of a service at a span.
pub(crate) fn note_head<T>(
    facts: &Facts,
    procs: &Procs,
    diagnostics: &mut Diagnostics,
    span: Span,
    formals: &[T],
    returns: bool,
    operation: &Option<Operation>,
) -> Result<(), NoMemory>
    ensures { OnOk result (diagnostics.new ≡ all_noted diagnostics.old (head_found facts.now procs.now span formals.now returns operation.now)) }
{
    match operation {
        None => note_unless(diagnostics, false, Rule::BadType, span),
        Some(operation) => {
            let met = may_head(&facts.signatures, formals, returns, &operation.ty);
            note_unless(diagnostics, met, Rule::BadType, span)?;
            note_service(facts, procs, diagnostics, span, operation)
        }
    }
}

/// Declares the formals of a service, by the names that stand for them.
fn bind_names(
    alloc: Global,
    facts: &mut Facts,
    names: &[Name],
    params: &[Param],
) -> Result<(), NoMemory>
    ensures { OnOk result (facts.new ≡ names_bound names.now params.now facts.old) }
{
    let mut rest = params;
    for name in names {
        match rest {
            [] => declare_name(facts, name, variable(Ty::Untyped))?,
            [first, others @ ..] => {
                declare_name(facts, name, variable(first.ty.copy(alloc)?))?;
                rest = others;
            }
        }
    }
    Ok(())
}

fn bind_returned(facts: &mut Facts, name: &Option<Name>, ty: Ty) -> Result<(), NoMemory>
    ensures { OnOk result (facts.new ≡ returned_bound name.now ty facts.old) }
{
    match name {
        None => Ok(()),
        Some(name) => declare_name(facts, name, variable(ty)),
    }
}

/// A copy of the formals of an operation of this type.
fn copied_params(alloc: Global, signatures: &Signatures, ty: &Ty) -> Result<Row<Param>, NoMemory>
    ensures { IfOk result (λ params. params ≡ params_of signatures.now ty.now) }
{
    match signatures.of(ty) {
        Some(signature) => signature.params.copy(alloc),
        None => Ok(Row::new(alloc)),
    }
}

/// The type that an operation of this type returns.
fn returned_type(alloc: Global, signatures: &Signatures, ty: &Ty) -> Result<Ty, NoMemory>
    ensures { IfOk result (λ returned. returned ≡ type_or_none (returns_of signatures.now ty.now)) }
{
    match signatures.of(ty) {
        Some(signature) => copied_or_none(alloc, &signature.returns),
        None => Ok(Ty::Untyped),
    }
}

fn copied_or_none(alloc: Global, ty: &Option<Ty>) -> Result<Ty, NoMemory>
    ensures { IfOk result (λ copied. copied ≡ type_or_none ty.now) }
{
    match ty {
        Some(ty) => ty.copy(alloc),
        None => Ok(Ty::Untyped),
    }
}

/// Declares the formals of an operation of this type, by the names that stand for them.
fn bind_formals(alloc: Global, facts: &mut Facts, formals: &[Name], ty: &Ty) -> Result<(), NoMemory>
    ensures { OnOk result (facts.new ≡ names_bound formals.now (params_of facts.old.signatures ty.now) facts.old) }
{
    let params = copied_params(alloc, &facts.signatures, ty)?;
    bind_names(alloc, facts, formals, params.as_slice())
}

/// Declares what is known within a service of an operation of this type.
pub(crate) fn bind_service(
    alloc: Global,
    facts: &mut Facts,
    formals: &[Name],
    returned: &Option<Name>,
    ty: &Ty,
) -> Result<(), NoMemory>
    ensures { OnOk result (facts.new ≡ service_bound formals.now returned.now ty.now facts.old) }
{
    let returns = returned_type(alloc, &facts.signatures, ty)?;
    bind_formals(alloc, facts, formals, ty)?;
    bind_returned(facts, returned, returns)
}

/// Declares what is known within a service of an operation, where a name means one.
pub(crate) fn bind_operation(
    alloc: Global,
    facts: &mut Facts,
    formals: &[Name],
    returned: &Option<Name>,
    operation: &Option<Operation>,
) -> Result<(), NoMemory>
    ensures { OnOk result (facts.new ≡ service_bound formals.now returned.now (type_of operation.now) facts.old) }
{
    match operation {
        Some(operation) => bind_service(alloc, facts, formals, returned, &operation.ty),
        None => bind_service(alloc, facts, formals, returned, &Ty::Untyped),
    }
}

/// The operation that is served, or what stands for it.
pub(crate) fn spot_or(spot: Spot, operation: &Option<Operation>) -> Spot
    ensures { result ≡ spot_or spot operation.now }
{
    match operation {
        Some(operation) => operation.spot,
        None => spot,
    }
}
