ghost use Rattle.std.specs.Prelude.{◌≡◌, IfOk, OnOk, map};
ghost use Rattle.std.specs.Option.{option_map};
ghost use Rattle.sr_names.specs.Diagnostics.{all_noted};
ghost use Rattle.sr_check_decl.specs.TypeTrees.{type_kinding, formal_read, returned_read, signature_read, formals_at, returns_at, formals_found, all_params, returns_found, returned_param, array_type, array_found, decls_found, formals_of, decl_found, param_of, fixed_bounds};

use crate::kind::{BoundPolicy, Kind, NamedParam, Signed};
use crate::ranges::string;
use crate::signatures::{formal_bounds, formals_of, forms_of, mode_of, param_of, signature_type};
use crate::types::{array, capability_kind, named_kind, note_array, note_decl, note_decls};
use sr_check_expr::{Facts, type_spot};
use sr_names::{Diagnostics, Spot};
use sr_tree::{Decl, DimsTree, Formal, Returned, Signature, TypeTree};
use sr_types::{Mode, Ty};
use sr_value::{NoMemory, Row, Span};
use std::alloc::Global;

/// Bounds that have to be static.
pub(crate) const FIXED: BoundPolicy = BoundPolicy {
    fixed: true,
    takes_star: false,
};

/// Bounds that needn't be static.
pub(crate) const FREE: BoundPolicy = BoundPolicy {
    fixed: false,
    takes_star: false,
};

fn kind_at(span: Span, ty: Ty) -> Kind
    ensures { result ≡ record { span = span; ty = ty } }
{
    Kind { span, ty }
}

/// Notes what is found at an array, apart from its items, and answers what type it is.
fn array_kind(
    alloc: Global,
    facts: &Facts,
    diagnostics: &mut Diagnostics,
    bound_policy: BoundPolicy,
    span: Span,
    tree: &DimsTree,
    item: Kind,
) -> Result<Kind, NoMemory>
    ensures value { IfOk result (λ kind. kind ≡ record { span = span; ty = array_type tree.now item.ty }) }
    ensures noted { OnOk result (diagnostics.new ≡ all_noted diagnostics.old (array_found bound_policy facts.now tree.now item)) }
{
    note_array(alloc, facts, diagnostics, bound_policy, tree, &item)?;
    Ok(kind_at(span, array(alloc, tree, item.ty)?))
}

/// Notes what is found at formals or fields, apart from their type, and answers them.
fn formals_from(
    alloc: Global,
    facts: &Facts,
    diagnostics: &mut Diagnostics,
    bound_policy: BoundPolicy,
    mode: Mode,
    decls: &[Decl],
    kind: Kind,
) -> Result<Row<NamedParam>, NoMemory>
    ensures value { IfOk result (λ params. params ≡ formals_of mode kind.ty decls.now) }
    ensures noted { OnOk result (diagnostics.new ≡ all_noted diagnostics.old (decls_found bound_policy facts.now kind decls.now)) }
{
    note_decls(alloc, facts, diagnostics, bound_policy, &kind, decls)?;
    formals_of(alloc, mode, &kind.ty, decls)
}

/// Notes what is found at what an operation returns, apart from its type, and answers it.
fn returned_from(
    alloc: Global,
    facts: &Facts,
    diagnostics: &mut Diagnostics,
    decl: &Decl,
    kind: Kind,
) -> Result<NamedParam, NoMemory>
    ensures value { IfOk result (λ param. param ≡ param_of Mode.Res kind.ty decl.now) }
    ensures noted { OnOk result (diagnostics.new ≡ all_noted diagnostics.old (decl_found fixed_bounds facts.now kind decl.now.dims)) }
{
    note_decl(alloc, facts, diagnostics, FIXED, &kind, &decl.dims)?;
    param_of(alloc, Mode::Res, &kind.ty, decl)
}

/// Notes what is found in a type, and answers what type it is.
#[cycle(written_types)]
pub fn type_kind(
    alloc: Global,
    tree: &TypeTree,
    facts: &Facts,
    diagnostics: &mut Diagnostics,
    bound_policy: BoundPolicy,
) -> Result<Kind, NoMemory>
    ensures value { IfOk result (λ kind. kind ≡ (type_kinding tree.now facts.now bound_policy).kind) }
    ensures noted { OnOk result (diagnostics.new ≡ all_noted diagnostics.old (type_kinding tree.now facts.now bound_policy).found) }
{
    match tree {
        TypeTree::Int { span } => Ok(kind_at(*span, Ty::Int)),
        TypeTree::Bool { span } => Ok(kind_at(*span, Ty::Bool)),
        TypeTree::Char { span } => Ok(kind_at(*span, Ty::Char)),
        TypeTree::Str { span, length } => {
            string(alloc, facts, diagnostics, bound_policy, *span, length)?;
            Ok(kind_at(*span, Ty::Str))
        }
        TypeTree::Enum { span, .. } => Ok(kind_at(*span, Ty::Enum(type_spot(Spot::of(*span))))),
        TypeTree::Rec { span, fields } => {
            all_formals(alloc, fields.as_slice(), facts, diagnostics, true)?;
            Ok(kind_at(*span, Ty::Rec(type_spot(Spot::of(*span)))))
        }
        TypeTree::CapOf { span, name } => capability_kind(alloc, facts, diagnostics, *span, name),
        TypeTree::CapMachine { span } => Ok(kind_at(*span, Ty::Vm)),
        TypeTree::CapOperation {
            span,
            signature: written,
        } => {
            let signed = signature(alloc, written, facts, diagnostics)?;
            Ok(kind_at(*span, signature_type(alloc, facts, &signed)?))
        }
        TypeTree::Array { span, dims, item } => {
            let item = type_kind(alloc, item.get(), facts, diagnostics, bound_policy)?;
            array_kind(alloc, facts, diagnostics, bound_policy, *span, dims, item)
        }
        TypeTree::Named { span, name } => named_kind(alloc, facts, diagnostics, *span, name),
    }
}

/// What type is written, where what is found in it is noted elsewhere.
pub(crate) fn written_type(
    alloc: Global,
    tree: &TypeTree,
    facts: &Facts,
    bound_policy: BoundPolicy,
) -> Result<Ty, NoMemory>
    ensures { IfOk result (λ ty. ty ≡ (type_kinding tree.now facts.now bound_policy).kind.ty) }
{
    let kind = type_kind(
        alloc,
        tree,
        facts,
        &mut Diagnostics::new(alloc),
        bound_policy,
    )?;
    Ok(kind.ty)
}

/// What formals or fields are written, where what is found in them is noted elsewhere.
pub(crate) fn written_formals(
    alloc: Global,
    trees: &[Formal],
    facts: &Facts,
    is_field: bool,
) -> Result<Row<NamedParam>, NoMemory>
    ensures { IfOk result (λ params. params ≡ all_params (formals_at (map formal_read trees.now) facts.now is_field)) }
{
    all_formals(alloc, trees, facts, &mut Diagnostics::new(alloc), is_field)
}

/// Notes what is found in formals or fields, and answers them.
#[cycle(written_types)]
pub fn all_formals(
    alloc: Global,
    trees: &[Formal],
    facts: &Facts,
    diagnostics: &mut Diagnostics,
    is_field: bool,
) -> Result<Row<NamedParam>, NoMemory>
    ensures value { IfOk result (λ params. params ≡ all_params (formals_at (map formal_read trees.now) facts.now is_field)) }
    ensures noted { OnOk result (diagnostics.new ≡ all_noted diagnostics.old (formals_found (formals_at (map formal_read trees.now) facts.now is_field))) }
{
    let mut params = Row::new(alloc);
    for tree in trees {
        params.push_all(formal(alloc, tree, facts, diagnostics, is_field)?)?;
    }
    Ok(params)
}

/// Notes what is found in formals or fields of one type, and answers them.
#[cycle(written_types)]
fn formal(
    alloc: Global,
    tree: &Formal,
    facts: &Facts,
    diagnostics: &mut Diagnostics,
    is_field: bool,
) -> Result<Row<NamedParam>, NoMemory>
    ensures value { IfOk result (λ params. params ≡ (formal_read tree.now facts.now is_field).params) }
    ensures noted { OnOk result (diagnostics.new ≡ all_noted diagnostics.old (formal_read tree.now facts.now is_field).found) }
{
    let mode = mode_of(tree.mode);
    let bound_policy = formal_bounds(is_field, mode);
    let kind = type_kind(alloc, &tree.ty, facts, diagnostics, bound_policy)?;
    formals_from(
        alloc,
        facts,
        diagnostics,
        bound_policy,
        mode,
        tree.decls.as_slice(),
        kind,
    )
}

/// Notes what is found in what an operation returns, and answers it.
#[cycle(written_types)]
fn returned(
    alloc: Global,
    tree: &Option<Returned>,
    facts: &Facts,
    diagnostics: &mut Diagnostics,
) -> Result<Option<NamedParam>, NoMemory>
    ensures value { IfOk result (λ param. param ≡ returned_param (returns_at (option_map returned_read tree.now) facts.now)) }
    ensures noted { OnOk result (diagnostics.new ≡ all_noted diagnostics.old (returns_found (returns_at (option_map returned_read tree.now) facts.now))) }
{
    match tree {
        Some(written) => {
            let kind = type_kind(alloc, written.ty.get(), facts, diagnostics, FIXED)?;
            Ok(Some(returned_from(alloc, facts, diagnostics, &written.decl, kind)?))
        }
        None => Ok(None),
    }
}

/// Notes what is found in a signature, and answers it.
#[cycle(written_types)]
pub fn signature(
    alloc: Global,
    tree: &Signature,
    facts: &Facts,
    diagnostics: &mut Diagnostics,
) -> Result<Signed, NoMemory>
    ensures value { IfOk result (λ signed. signed ≡ (signature_read tree.now facts.now).signed) }
    ensures noted { OnOk result (diagnostics.new ≡ all_noted diagnostics.old (signature_read tree.now facts.now).found) }
{
    let params = all_formals(alloc, tree.formals.as_slice(), facts, diagnostics, false)?;
    let returned = returned(alloc, &tree.returned, facts, diagnostics)?;
    Ok(Signed {
        params,
        returned,
        forms: forms_of(tree.kinds.as_slice()),
    })
}
