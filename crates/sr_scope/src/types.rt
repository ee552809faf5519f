ghost use Rattle.std.specs.Prelude.{◌≡◌, OnOk, [], map};
ghost use Rattle.std.specs.Option.{option_map};
ghost use Rattle.sr_names.specs.Diagnostics.{all_noted};
ghost use Rattle.sr_scope.specs.Types.{maybe_expr_found, range_found, dims_found, maybe_dims_found, decls_found, formals_found, formals_declared, formals_twice, signed_declared, signed_twice, signed_found, type_found, maybe_type_found, formal_read, returned_read, signature_read, maybe_found};

use crate::declares::{declare_name, declare_variables};
use crate::exprs::note_expr;
use crate::names::qualified_name;
use sr_names::{Blocks, Diagnostics, Place, Sort, Table};
use sr_tree::{Decl, DimsTree, Expr, Formal, RangeTree, Returned, Signature, TypeTree};
use sr_value::NoMemory;
use std::alloc::Global;

/// Notes what is found in an expression, where there is one.
pub fn maybe_expr(
    maybe: &Option<Expr>,
    place: &Place,
    blocks: &Blocks,
    diagnostics: &mut Diagnostics,
) -> Result<(), NoMemory>
    ensures { OnOk result (diagnostics.new ≡ all_noted diagnostics.old (maybe_expr_found maybe.now place.now blocks.now)) }
{
    match maybe {
        Some(value) => note_expr(value, place, blocks, diagnostics),
        None => Ok(()),
    }
}

fn range(
    range: &RangeTree,
    place: &Place,
    blocks: &Blocks,
    diagnostics: &mut Diagnostics,
) -> Result<(), NoMemory>
    ensures { OnOk result (diagnostics.new ≡ all_noted diagnostics.old (range_found range.now place.now blocks.now)) }
{
    match range {
        RangeTree::Length { length: bound, .. } | RangeTree::From { low: bound, .. } => {
            note_expr(bound, place, blocks, diagnostics)
        }
        RangeTree::Bounds { low, high, .. } => {
            note_expr(low, place, blocks, diagnostics)?;
            note_expr(high, place, blocks, diagnostics)
        }
        RangeTree::Any { .. } => Ok(()),
    }
}

fn dims(
    dims: &DimsTree,
    place: &Place,
    blocks: &Blocks,
    diagnostics: &mut Diagnostics,
) -> Result<(), NoMemory>
    ensures { OnOk result (diagnostics.new ≡ all_noted diagnostics.old (dims_found dims.now place.now blocks.now)) }
{
    range(&dims.first, place, blocks, diagnostics)?;
    match &dims.second {
        Some(second) => range(second, place, blocks, diagnostics),
        None => Ok(()),
    }
}

fn maybe_dims(
    maybe: &Option<DimsTree>,
    place: &Place,
    blocks: &Blocks,
    diagnostics: &mut Diagnostics,
) -> Result<(), NoMemory>
    ensures { OnOk result (diagnostics.new ≡ all_noted diagnostics.old (maybe_dims_found maybe.now place.now blocks.now)) }
{
    match maybe {
        Some(written) => dims(written, place, blocks, diagnostics),
        None => Ok(()),
    }
}

/// Notes what is found in the bounds of names that are declared.
pub fn decls(
    decls: &[Decl],
    place: &Place,
    blocks: &Blocks,
    diagnostics: &mut Diagnostics,
) -> Result<(), NoMemory>
    ensures { OnOk result (diagnostics.new ≡ all_noted diagnostics.old (decls_found decls.now place.now blocks.now)) }
{
    for decl in decls {
        maybe_dims(&decl.dims, place, blocks, diagnostics)?;
    }
    Ok(())
}

/// Declares formals, or the fields of a record, in a scope.
pub fn declare_formals(
    alloc: Global,
    formals: &[Formal],
    table: &mut Table,
    diagnostics: &mut Diagnostics,
) -> Result<(), NoMemory>
    ensures table { OnOk result (table.new ≡ formals_declared (map formal_read formals.now) table.old) }
    ensures noted { OnOk result (diagnostics.new ≡ all_noted diagnostics.old (formals_twice (map formal_read formals.now) table.old)) }
{
    for formal in formals {
        declare_variables(alloc, formal.decls.as_slice(), table, diagnostics)?;
    }
    Ok(())
}

/// Declares the formals of a signature and what it returns in a scope.
pub fn declare_signature(
    alloc: Global,
    signature: &Signature,
    table: &mut Table,
    diagnostics: &mut Diagnostics,
) -> Result<(), NoMemory>
    ensures table { OnOk result (table.new ≡ signed_declared (signature_read signature.now) table.old) }
    ensures noted { OnOk result (diagnostics.new ≡ all_noted diagnostics.old (signed_twice (signature_read signature.now) table.old)) }
{
    declare_formals(alloc, signature.formals.as_slice(), table, diagnostics)?;
    match &signature.returned {
        Some(returned) => declare_name(
            alloc,
            &returned.decl.name,
            Sort::Variable,
            table,
            diagnostics,
        ),
        None => Ok(()),
    }
}

/// Notes the fields of a record type that are declared twice.
fn note_fields(
    alloc: Global,
    fields: &[Formal],
    diagnostics: &mut Diagnostics,
) -> Result<(), NoMemory>
    ensures { OnOk result (diagnostics.new ≡ all_noted diagnostics.old (formals_twice (map formal_read fields.now) [])) }
{
    let mut scope = Table::new(alloc);
    declare_formals(alloc, fields, &mut scope, diagnostics)
}

/// Notes the names of a signature that are declared twice.
fn note_signed(
    alloc: Global,
    signature: &Signature,
    diagnostics: &mut Diagnostics,
) -> Result<(), NoMemory>
    ensures { OnOk result (diagnostics.new ≡ all_noted diagnostics.old (signed_twice (signature_read signature.now) [])) }
{
    let mut scope = Table::new(alloc);
    declare_signature(alloc, signature, &mut scope, diagnostics)
}

/// Notes what is found in a type.
#[cycle(types)]
pub fn type_tree(
    alloc: Global,
    ty: &TypeTree,
    place: &Place,
    blocks: &Blocks,
    diagnostics: &mut Diagnostics,
) -> Result<(), NoMemory>
    ensures { OnOk result (diagnostics.new ≡ all_noted diagnostics.old (type_found ty.now place.now blocks.now)) }
{
    match ty {
        TypeTree::Int { .. }
        | TypeTree::Bool { .. }
        | TypeTree::Char { .. }
        | TypeTree::Enum { .. }
        | TypeTree::CapMachine { .. } => Ok(()),
        TypeTree::Str { length, .. } => maybe_expr(length, place, blocks, diagnostics),
        TypeTree::Rec { fields, .. } => {
            note_fields(alloc, fields.as_slice(), diagnostics)?;
            formals(alloc, fields.as_slice(), place, blocks, diagnostics)
        }
        TypeTree::CapOf { name, .. } => qualified_name(name, place, blocks, diagnostics),
        TypeTree::CapOperation {
            signature: written,
            ..
        } => { signature(alloc, written, place, blocks, diagnostics) }
        TypeTree::Array {
            dims: bounds,
            item,
            ..
        } => {
            dims(bounds, place, blocks, diagnostics)?;
            type_tree(alloc, item.get(), place, blocks, diagnostics)
        }
        TypeTree::Named { name, .. } => qualified_name(name, place, blocks, diagnostics),
    }
}

/// Notes what is found in the bounds and types of formals or fields.
#[cycle(types)]
pub fn formals(
    alloc: Global,
    formals: &[Formal],
    place: &Place,
    blocks: &Blocks,
    diagnostics: &mut Diagnostics,
) -> Result<(), NoMemory>
    ensures { OnOk result (diagnostics.new ≡ all_noted diagnostics.old (formals_found (map formal_read formals.now) place.now blocks.now)) }
{
    for formal in formals {
        decls(formal.decls.as_slice(), place, blocks, diagnostics)?;
        type_tree(alloc, &formal.ty, place, blocks, diagnostics)?;
    }
    Ok(())
}

#[cycle(types)]
fn maybe_returned(
    alloc: Global,
    maybe: &Option<Returned>,
    place: &Place,
    blocks: &Blocks,
    diagnostics: &mut Diagnostics,
) -> Result<(), NoMemory>
    ensures { OnOk result (diagnostics.new ≡ all_noted diagnostics.old (maybe_found (option_map returned_read maybe.now) place.now blocks.now)) }
{
    match maybe {
        Some(returned) => {
            maybe_dims(&returned.decl.dims, place, blocks, diagnostics)?;
            type_tree(alloc, returned.ty.get(), place, blocks, diagnostics)
        }
        None => Ok(()),
    }
}

/// Notes what is found in a signature, and which names it declares twice.
#[cycle(types)]
pub fn signature(
    alloc: Global,
    signature: &Signature,
    place: &Place,
    blocks: &Blocks,
    diagnostics: &mut Diagnostics,
) -> Result<(), NoMemory>
    ensures { OnOk result (diagnostics.new ≡ all_noted diagnostics.old (signed_found (signature_read signature.now) place.now blocks.now)) }
{
    note_signed(alloc, signature, diagnostics)?;
    formals(
        alloc,
        signature.formals.as_slice(),
        place,
        blocks,
        diagnostics,
    )?;
    maybe_returned(alloc, &signature.returned, place, blocks, diagnostics)
}

/// Notes what is found in a type, where one is written.
pub fn maybe_type(
    alloc: Global,
    maybe: &Option<TypeTree>,
    place: &Place,
    blocks: &Blocks,
    diagnostics: &mut Diagnostics,
) -> Result<(), NoMemory>
    ensures { OnOk result (diagnostics.new ≡ all_noted diagnostics.old (maybe_type_found maybe.now place.now blocks.now)) }
{
    match maybe {
        Some(ty) => type_tree(alloc, ty, place, blocks, diagnostics),
        None => Ok(()),
    }
}
