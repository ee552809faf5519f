ghost use Rattle.std.specs.Prelude.{◌≡◌, IfOk, OnOk};
ghost use Rattle.std.specs.Option.{option_map};
ghost use Rattle.sr_check_decl.specs.TypeTrees.{operation_type, capability_kinding, named_kinding};
ghost use Rattle.sr_check_decl.specs.Entering.{entered, signed_entered, type_read_in, formal_read_in, returned_read_in, signature_read_in, formals_read_in, maybe_returned, written_entered, op_entered, ops_entered};

use crate::kind::{NamedParam, Signed};
use crate::signatures::{
    formals_of, forms_of, is_refused, mode_of, param_of, signature_type, whole_signature,
};
use crate::types::{array, capability_kind, named_kind};
use sr_check_expr::{Facts, type_spot};
use sr_names::{Diagnostics, Spot};
use sr_tree::{Formal, OpItem, QualifiedName, Returned, Signature, TypeTree};
use sr_types::{Mode, Ty};
use sr_value::{NoMemory, Row, Span};
use std::alloc::Global;

/// Puts a signature into the table, and answers the type of its operations.
pub(crate) fn enter(facts: &mut Facts, signature: sr_types::Signature) -> Result<Ty, NoMemory>
    ensures entered { OnOk result (facts.new ≡ entered signature facts.old) }
    ensures value { IfOk result (λ ty. ty ≡ operation_type facts.new signature) }
{
    let number = facts.signatures.add(signature)?;
    Ok(Ty::Op(number))
}

/// Puts a signature into the table, unless a part of it was refused.
pub(crate) fn enter_signed(
    alloc: Global,
    facts: &mut Facts,
    signed: &Signed,
) -> Result<(), NoMemory>
    ensures { OnOk result (facts.new ≡ signed_entered signed.now facts.old) }
{
    if is_refused(signed) {
        return Ok(());
    }
    enter(facts, whole_signature(alloc, signed)?)?;
    Ok(())
}

/// The type of the capabilities for what a name means.
fn capability(
    alloc: Global,
    facts: &Facts,
    span: Span,
    name: &QualifiedName,
) -> Result<Ty, NoMemory>
    ensures { IfOk result (λ ty. ty ≡ (capability_kinding facts.now span name.now).kind.ty) }
{
    let kind = capability_kind(alloc, facts, &mut Diagnostics::new(alloc), span, name)?;
    Ok(kind.ty)
}

/// The type that a name means.
fn named(alloc: Global, facts: &Facts, span: Span, name: &QualifiedName) -> Result<Ty, NoMemory>
    ensures { IfOk result (λ ty. ty ≡ (named_kinding facts.now span name.now).kind.ty) }
{
    let kind = named_kind(alloc, facts, &mut Diagnostics::new(alloc), span, name)?;
    Ok(kind.ty)
}

/// Puts the signatures into the table that are written in a type, and answers the type.
#[cycle(entered_types)]
pub(crate) fn enter_type(alloc: Global, facts: &mut Facts, tree: &TypeTree) -> Result<Ty, NoMemory>
    ensures value { IfOk result (λ ty. ty ≡ (type_read_in tree.now facts.old).read) }
    ensures entered { OnOk result (facts.new ≡ (type_read_in tree.now facts.old).facts) }
{
    match tree {
        TypeTree::Int { .. } => Ok(Ty::Int),
        TypeTree::Bool { .. } => Ok(Ty::Bool),
        TypeTree::Char { .. } => Ok(Ty::Char),
        TypeTree::Str { .. } => Ok(Ty::Str),
        TypeTree::Enum { span, .. } => Ok(Ty::Enum(type_spot(Spot::of(*span)))),
        TypeTree::Rec { span, fields } => {
            enter_formals(alloc, facts, fields.as_slice())?;
            Ok(Ty::Rec(type_spot(Spot::of(*span))))
        }
        TypeTree::CapOf { span, name } => capability(alloc, facts, *span, name),
        TypeTree::CapMachine { .. } => Ok(Ty::Vm),
        TypeTree::CapOperation { signature, .. } => {
            let signed = enter_signature(alloc, facts, signature)?;
            signature_type(alloc, facts, &signed)
        }
        TypeTree::Array { dims, item, .. } => {
            let item = enter_type(alloc, facts, item.get())?;
            array(alloc, dims, item)
        }
        TypeTree::Named { span, name } => named(alloc, facts, *span, name),
    }
}

/// Puts the signatures into the table that are written in formals or fields, and answers these.
#[cycle(entered_types)]
pub(crate) fn enter_formals(
    alloc: Global,
    facts: &mut Facts,
    trees: &[Formal],
) -> Result<Row<NamedParam>, NoMemory>
    ensures value { IfOk result (λ params. params ≡ (formals_read_in trees.now facts.old).read) }
    ensures entered { OnOk result (facts.new ≡ (formals_read_in trees.now facts.old).facts) }
{
    let mut params = Row::new(alloc);
    for tree in trees {
        params.push_all(enter_formal(alloc, facts, tree)?)?;
    }
    Ok(params)
}

#[cycle(entered_types)]
fn enter_formal(
    alloc: Global,
    facts: &mut Facts,
    tree: &Formal,
) -> Result<Row<NamedParam>, NoMemory>
    ensures value { IfOk result (λ params. params ≡ (formal_read_in tree.now facts.old).read) }
    ensures entered { OnOk result (facts.new ≡ (formal_read_in tree.now facts.old).facts) }
{
    let ty = enter_type(alloc, facts, &tree.ty)?;
    formals_of(alloc, mode_of(tree.mode), &ty, tree.decls.as_slice())
}

#[cycle(entered_types)]
fn enter_returned(
    alloc: Global,
    facts: &mut Facts,
    tree: &Option<Returned>,
) -> Result<Option<NamedParam>, NoMemory>
    ensures value { IfOk result (λ param. param ≡ (maybe_returned (option_map returned_read_in tree.now) facts.old).read) }
    ensures entered { OnOk result (facts.new ≡ (maybe_returned (option_map returned_read_in tree.now) facts.old).facts) }
{
    match tree {
        Some(written) => {
            let ty = enter_type(alloc, facts, written.ty.get())?;
            Ok(Some(param_of(alloc, Mode::Res, &ty, &written.decl)?))
        }
        None => Ok(None),
    }
}

/// Puts a signature into the table after those that stand inside it, and answers it.
#[cycle(entered_types)]
pub(crate) fn enter_signature(
    alloc: Global,
    facts: &mut Facts,
    tree: &Signature,
) -> Result<Signed, NoMemory>
    ensures value { IfOk result (λ signed. signed ≡ (signature_read_in tree.now facts.old).read) }
    ensures entered { OnOk result (facts.new ≡ (signature_read_in tree.now facts.old).facts) }
{
    let params = enter_formals(alloc, facts, tree.formals.as_slice())?;
    let returned = enter_returned(alloc, facts, &tree.returned)?;
    let signed = Signed {
        params,
        returned,
        forms: forms_of(tree.kinds.as_slice()),
    };
    enter_signed(alloc, facts, &signed)?;
    Ok(signed)
}

/// Puts the signatures into the table that are written in the type of a declaration, where one is written.
pub fn enter_written(
    alloc: Global,
    facts: &mut Facts,
    tree: &Option<TypeTree>,
) -> Result<(), NoMemory>
    ensures { OnOk result (facts.new ≡ written_entered tree.now facts.old) }
{
    match tree {
        None => Ok(()),
        Some(written) => {
            enter_type(alloc, facts, written)?;
            Ok(())
        }
    }
}

fn enter_operation(alloc: Global, facts: &mut Facts, item: &OpItem) -> Result<(), NoMemory>
    ensures { OnOk result (facts.new ≡ op_entered item.now facts.old) }
{
    match item {
        OpItem::Signed { signature, .. } => {
            enter_signature(alloc, facts, signature)?;
            Ok(())
        }
        OpItem::Typed { .. } => Ok(()),
    }
}

/// Puts the signatures into the table that are written in the declarations of operations.
pub fn enter_operations(alloc: Global, facts: &mut Facts, items: &[OpItem]) -> Result<(), NoMemory>
    ensures { OnOk result (facts.new ≡ ops_entered items.now facts.old) }
{
    for item in items {
        enter_operation(alloc, facts, item)?;
    }
    Ok(())
}
