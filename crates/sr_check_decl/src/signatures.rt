ghost use Rattle.std.specs.Prelude.{◌≡◌, IfOk, not};
ghost use Rattle.std.specs.List.{list_any};
ghost use Rattle.std.specs.Option.{option_map};
ghost use Rattle.sr_check_decl.specs.TypeTrees.{mode_of, formal_bounds, param_of, formals_of, is_call, forms_by, forms_of, is_refused_return, are_refused, params_of, whole_signature, numbered_type, operation_type, is_refused, signature_type};

use crate::kind::{BoundPolicy, NamedParam, Signed};
use crate::types::decl_type;
use sr_check_expr::Facts;
use sr_names::Spot;
use sr_tree::{Decl, InvocationKind, PassMode};
use sr_types::{Forms, Mode, Param, Signature, Ty};
use sr_value::{Duplicate, NoMemory, Row, Text};
use std::alloc::Global;

/// How an argument is passed: by value where no word is written.
pub(crate) fn mode_of(written: Option<PassMode>) -> Mode
    ensures { result ≡ mode_of written }
{
    match written {
        None | Some(PassMode::Val) => Mode::Val,
        Some(PassMode::Var) => Mode::Var,
        Some(PassMode::Res) => Mode::Res,
    }
}

/// Where the type of a formal or a field stands: `*` is for formals alone, and not for `res` ones.
pub(crate) fn formal_bounds(is_field: bool, mode: Mode) -> BoundPolicy
    ensures { result ≡ formal_bounds is_field mode }
{
    BoundPolicy {
        fixed: true,
        takes_star: !is_field && !matches!(mode, Mode::Res),
    }
}

/// A formal or a field of this type, apart from its own dims.
pub(crate) fn param_of(
    alloc: Global,
    mode: Mode,
    ty: &Ty,
    decl: &Decl,
) -> Result<NamedParam, NoMemory>
    ensures { IfOk result (λ param. param ≡ param_of mode ty.now decl.now) }
{
    Ok(NamedParam {
        name: Text::from_slice(alloc, decl.name.text.as_bytes())?,
        spot: Spot::of(decl.name.span),
        mode,
        ty: decl_type(alloc, &decl.dims, ty)?,
    })
}

/// The formals or fields of this type.
pub(crate) fn formals_of(
    alloc: Global,
    mode: Mode,
    ty: &Ty,
    decls: &[Decl],
) -> Result<Row<NamedParam>, NoMemory>
    ensures { IfOk result (λ params. params ≡ formals_of mode ty.now decls.now) }
{
    let mut params = Row::new(alloc);
    for decl in decls {
        params.push(param_of(alloc, mode, ty, decl)?)?;
    }
    Ok(params)
}

/// The forms that a signature allows: both where no braces are written.
pub(crate) fn forms_of(kinds: &[InvocationKind]) -> Forms
    ensures { result ≡ forms_of kinds.now }
{
    forms_by(has_calls(kinds), has_sends(kinds))
}

fn has_calls(kinds: &[InvocationKind]) -> bool
    ensures { result ≡ list_any is_call kinds.now }
{
    kinds.iter().any(|kind| is_call(*kind))
}

fn has_sends(kinds: &[InvocationKind]) -> bool
    ensures { result ≡ list_any (λ kind. not (is_call kind)) kinds.now }
{
    kinds.iter().any(|kind| !is_call(*kind))
}

fn is_call(kind: InvocationKind) -> bool
    ensures { result ≡ is_call kind }
{
    matches!(kind, InvocationKind::Call)
}

fn forms_by(calls: bool, sends: bool) -> Forms
    ensures { result ≡ forms_by calls sends }
{
    if calls == sends {
        return Forms::Both;
    }
    if calls { Forms::Call } else { Forms::Send }
}

/// Whether some of these were refused.
fn are_refused(params: &[NamedParam]) -> bool
    ensures { result ≡ are_refused params.now }
{
    params.iter().any(|param| param.ty.is_untyped())
}

fn is_refused_return(returned: &Option<NamedParam>) -> bool
    ensures { result ≡ is_refused_return returned.now }
{
    match returned {
        Some(param) => param.ty.is_untyped(),
        None => false,
    }
}

fn params_of(alloc: Global, params: &[NamedParam]) -> Result<Row<Param>, NoMemory>
    ensures { IfOk result (λ row. row ≡ params_of params.now) }
{
    let mut row = Row::new(alloc);
    for param in params {
        row.push(Param {
            mode: param.mode,
            ty: param.ty.copy(alloc)?,
        })?;
    }
    Ok(row)
}

fn returned_type(alloc: Global, returned: &Option<NamedParam>) -> Result<Option<Ty>, NoMemory>
    ensures { IfOk result (λ ty. ty ≡ option_map (λ param. param.ty) returned.now) }
{
    match returned {
        Some(param) => Ok(Some(param.ty.copy(alloc)?)),
        None => Ok(None),
    }
}

/// Whether a part of a signature was refused.
pub(crate) fn is_refused(signed: &Signed) -> bool
    ensures { result ≡ is_refused signed.now }
{
    are_refused(signed.params.as_slice()) || is_refused_return(&signed.returned)
}

/// A signature without the names of its formals.
pub(crate) fn whole_signature(alloc: Global, signed: &Signed) -> Result<Signature, NoMemory>
    ensures { IfOk result (λ signature. signature ≡ whole_signature signed.now) }
{
    Ok(Signature {
        params: params_of(alloc, signed.params.as_slice())?,
        returns: returned_type(alloc, &signed.returned)?,
        forms: signed.forms,
    })
}

fn numbered_type(number: Option<usize>) -> Ty
    ensures { result ≡ numbered_type number }
{
    match number {
        None => Ty::Untyped,
        Some(number) => Ty::Op(number),
    }
}

/// The type of the capabilities for operations of a signature, which keeps its number.
fn operation_type(facts: &Facts, signature: &Signature) -> Ty
    ensures { result ≡ operation_type facts.now signature.now }
{
    numbered_type(facts.signatures.number(signature))
}

/// The type of the capabilities for operations of a signature; none where a part of it was refused.
pub(crate) fn signature_type(alloc: Global, facts: &Facts, signed: &Signed) -> Result<Ty, NoMemory>
    ensures { IfOk result (λ ty. ty ≡ signature_type facts.now signed.now) }
{
    if is_refused(signed) {
        return Ok(Ty::Untyped);
    }
    let signature = whole_signature(alloc, signed)?;
    Ok(operation_type(facts, &signature))
}
