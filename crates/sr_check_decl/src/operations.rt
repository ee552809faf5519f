ghost use Rattle.std.specs.Prelude.{◌≡◌, None, IfOk, OnOk};
ghost use Rattle.std.specs.Option.{option_copied};
ghost use Rattle.sr_names.specs.Diagnostics.{all_noted};
ghost use Rattle.sr_check_decl.specs.Declarations.{op_found};
ghost use Rattle.sr_check_decl.specs.TypeTrees.{signature_read};
ghost use Rattle.sr_check_decl.specs.Declaring.{declare_name, operation, optype_of, or_untyped, op_type, op_item_name, ops_declared, operation_declared, semaphore_signature, semaphore_declared, sems_declared, process_params, process_signature, process_declared, procedure_declared, optype_declared, written_type};
ghost use Rattle.sr_check_decl.specs.Entering.{entered};

use crate::entering::{enter, enter_signature};
use crate::signatures::signature_type;
use crate::tally::declare_name;
use crate::types::named_decl;
use crate::written::signature;
use sr_check_expr::{Facts, Info, decl_info, note_unless};
use sr_names::{Diagnostics, Rule};
use sr_tree::{Name, OpItem, OpTypeDecl, Process, Quantifier, Semaphore, Signature};
use sr_types::{Forms, Mode, Param, Ty};
use sr_value::{Duplicate, NoMemory, Row};
use std::alloc::Global;

/// What an operation of this type is declared as where something stands.
fn operation(facts: &Facts, is_local: bool, ty: Ty) -> Info
    ensures { result ≡ operation facts.now is_local ty }
{
    Info::Operation {
        ty,
        component: facts.here.component.spot,
        is_local,
    }
}

/// The type that the type of an operation is, where this is one.
fn optype_of(info: Option<&Info>) -> Option<&Ty>
    ensures { option_copied result ≡ optype_of (option_copied info.entry) }
{
    match info {
        Some(Info::OpType(ty)) => Some(ty),
        _ => None,
    }
}

fn or_untyped(alloc: Global, ty: Option<&Ty>) -> Result<Ty, NoMemory>
    ensures { IfOk result (λ whole. whole ≡ or_untyped (option_copied ty.entry)) }
{
    match ty {
        Some(ty) => ty.copy(alloc),
        None => Ok(Ty::Untyped),
    }
}

/// The type that a signature makes, with what is found in it.
pub(crate) fn signed_type(
    alloc: Global,
    facts: &Facts,
    diagnostics: &mut Diagnostics,
    tree: &Signature,
) -> Result<Ty, NoMemory>
    ensures value { IfOk result (λ ty. ty ≡ written_type tree.now facts.now) }
    ensures noted { OnOk result (diagnostics.new ≡ all_noted diagnostics.old (signature_read tree.now facts.now).found) }
{
    let signed = signature(alloc, tree, facts, diagnostics)?;
    signature_type(alloc, facts, &signed)
}

/// The type that a signature makes, where what is found in it is noted elsewhere.
fn type_of_signature(alloc: Global, facts: &Facts, tree: &Signature) -> Result<Ty, NoMemory>
    ensures { IfOk result (λ ty. ty ≡ written_type tree.now facts.now) }
{
    signed_type(alloc, facts, &mut Diagnostics::new(alloc), tree)
}

/// Notes what is found in the signature of an operation, or in the name of its type, and answers its type.
pub(crate) fn op_type(
    alloc: Global,
    facts: &Facts,
    diagnostics: &mut Diagnostics,
    item: &OpItem,
) -> Result<Ty, NoMemory>
    ensures value { IfOk result (λ ty. ty ≡ op_type facts.now item.now) }
    ensures noted { OnOk result (diagnostics.new ≡ all_noted diagnostics.old (op_found facts.now item.now)) }
{
    match item {
        OpItem::Signed {
            signature: written,
            ..
        } => signed_type(alloc, facts, diagnostics, written),
        OpItem::Typed { span, optype, .. } => {
            let named = optype_of(decl_info(&facts.infos, named_decl(facts, optype)));
            note_unless(diagnostics, named.is_some(), Rule::BadType, *span)?;
            or_untyped(alloc, named)
        }
    }
}

/// The type of an operation, where what is found in it is noted elsewhere.
fn type_of_op(alloc: Global, facts: &Facts, item: &OpItem) -> Result<Ty, NoMemory>
    ensures { IfOk result (λ ty. ty ≡ op_type facts.now item.now) }
{
    op_type(alloc, facts, &mut Diagnostics::new(alloc), item)
}

fn op_item_name(item: &OpItem) -> &Name
    ensures { result.now ≡ op_item_name item.now }
{
    match item {
        OpItem::Signed { name, .. } => name,
        OpItem::Typed { name, .. } => name,
    }
}

fn declare_operation(
    alloc: Global,
    facts: &mut Facts,
    is_local: bool,
    item: &OpItem,
) -> Result<(), NoMemory>
    ensures { OnOk result (facts.new ≡ declare_name facts.old (op_item_name item.now) (operation facts.old is_local (op_type facts.old item.now))) }
{
    let ty = type_of_op(alloc, facts, item)?;
    let info = operation(facts, is_local, ty);
    declare_name(facts, op_item_name(item), info)
}

/// Declares operations.
pub fn declare_operations(
    alloc: Global,
    facts: &mut Facts,
    is_local: bool,
    items: &[OpItem],
) -> Result<(), NoMemory>
    ensures { OnOk result (facts.new ≡ ops_declared is_local items.now facts.old) }
{
    for item in items {
        declare_operation(alloc, facts, is_local, item)?;
    }
    Ok(())
}

/// Declares an operation of a signature that isn't written.
fn declare_entered(
    facts: &mut Facts,
    is_local: bool,
    name: &Name,
    signature: sr_types::Signature,
) -> Result<(), NoMemory>
    ensures { OnOk result (facts.new ≡ operation_declared is_local name.now signature (entered signature facts.old)) }
{
    let ty = enter(facts, signature)?;
    let info = operation(facts, is_local, ty);
    declare_name(facts, name, info)
}

/// The signature of a semaphore: it has no formals, and may be sent to alone.
fn semaphore_signature(alloc: Global) -> sr_types::Signature
    ensures { result ≡ semaphore_signature }
{
    sr_types::Signature {
        params: Row::new(alloc),
        returns: None,
        forms: Forms::Send,
    }
}

/// Declares a semaphore.
pub(crate) fn declare_semaphore(
    alloc: Global,
    facts: &mut Facts,
    is_local: bool,
    name: &Name,
) -> Result<(), NoMemory>
    ensures { OnOk result (facts.new ≡ semaphore_declared is_local name.now facts.old) }
{
    declare_entered(facts, is_local, name, semaphore_signature(alloc))
}

/// Declares semaphores.
pub fn declare_semaphores(
    alloc: Global,
    facts: &mut Facts,
    is_local: bool,
    semaphores: &[Semaphore],
) -> Result<(), NoMemory>
    ensures { OnOk result (facts.new ≡ sems_declared is_local semaphores.now facts.old) }
{
    for semaphore in semaphores {
        declare_semaphore(alloc, facts, is_local, &semaphore.name)?;
    }
    Ok(())
}

/// The formals of the operation of a process: an int for each of its quantifiers.
fn process_params(alloc: Global, quantifiers: &[Quantifier]) -> Result<Row<Param>, NoMemory>
    ensures { IfOk result (λ row. row ≡ process_params quantifiers.now) }
{
    let mut row = Row::new(alloc);
    for _quantifier in quantifiers {
        row.push(Param {
            mode: Mode::Val,
            ty: Ty::Int,
        })?;
    }
    Ok(row)
}

/// The signature of the operation of a process: it may be sent to alone.
fn process_signature(
    alloc: Global,
    quantifiers: &[Quantifier],
) -> Result<sr_types::Signature, NoMemory>
    ensures { IfOk result (λ signature. signature ≡ process_signature quantifiers.now) }
{
    Ok(sr_types::Signature {
        params: process_params(alloc, quantifiers)?,
        returns: None,
        forms: Forms::Send,
    })
}

/// Declares the operation of a process.
pub(crate) fn declare_process(
    alloc: Global,
    facts: &mut Facts,
    tree: &Process,
) -> Result<(), NoMemory>
    ensures { OnOk result (facts.new ≡ process_declared tree.now facts.old) }
{
    let signature = process_signature(alloc, tree.quantifiers.as_slice())?;
    declare_entered(facts, false, &tree.name, signature)
}

/// Declares the operation of a procedure.
pub(crate) fn declare_procedure(
    alloc: Global,
    facts: &mut Facts,
    name: &Name,
    tree: &Signature,
) -> Result<(), NoMemory>
    ensures { OnOk result (facts.new ≡ procedure_declared name.now tree.now facts.old) }
{
    enter_signature(alloc, facts, tree)?;
    let ty = type_of_signature(alloc, facts, tree)?;
    let info = operation(facts, false, ty);
    declare_name(facts, name, info)
}

/// Declares the type of an operation.
pub(crate) fn declare_optype(
    alloc: Global,
    facts: &mut Facts,
    tree: &OpTypeDecl,
) -> Result<(), NoMemory>
    ensures { OnOk result (facts.new ≡ optype_declared tree.now facts.old) }
{
    enter_signature(alloc, facts, &tree.signature)?;
    let ty = type_of_signature(alloc, facts, &tree.signature)?;
    declare_name(facts, &tree.name, Info::OpType(ty))
}
