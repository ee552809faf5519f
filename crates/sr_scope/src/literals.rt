//! Declares the literals of enumerations.

ghost use Rattle.std.specs.Prelude.{◌≡◌, OnOk};
ghost use Rattle.std.specs.Option.{option_map};
ghost use Rattle.sr_names.specs.Diagnostics.{all_noted};
ghost use Rattle.sr_scope.specs.Declares.{names_declared, names_twice};
ghost use Rattle.sr_scope.specs.Literals.{literals_of, formals_literals, maybe_literals, returned_literals, signature_literals};

use crate::declares::declare_names;
use sr_names::{Diagnostics, Sort, Table};
use sr_tree::{Formal, Returned, Signature, TypeTree};
use sr_value::NoMemory;
use std::alloc::Global;

/// Declares the literals of the enumerations that are written in a type, in the order of the text.
#[cycle(literals)]
pub fn declare_literals(
    alloc: Global,
    ty: &TypeTree,
    table: &mut Table,
    diagnostics: &mut Diagnostics,
) -> Result<(), NoMemory>
    ensures table { OnOk result (table.new ≡ names_declared Sort.Literal (literals_of ty.now) table.old) }
    ensures noted { OnOk result (diagnostics.new ≡ all_noted diagnostics.old (names_twice Sort.Literal (literals_of ty.now) table.old)) }
{
    match ty {
        TypeTree::Enum { literals, .. } => declare_names(
            alloc,
            literals.as_slice(),
            Sort::Literal,
            table,
            diagnostics,
        ),
        TypeTree::Rec { fields, .. } => {
            declare_in_formals(alloc, fields.as_slice(), table, diagnostics)
        }
        TypeTree::CapOperation { signature, .. } => {
            declare_in_signature(alloc, signature, table, diagnostics)
        }
        TypeTree::Array { item, .. } => declare_literals(alloc, item.get(), table, diagnostics),
        TypeTree::Int { .. }
        | TypeTree::Bool { .. }
        | TypeTree::Char { .. }
        | TypeTree::Str { .. }
        | TypeTree::CapOf { .. }
        | TypeTree::CapMachine { .. }
        | TypeTree::Named { .. } => Ok(()),
    }
}

#[cycle(literals)]
fn declare_in_formals(
    alloc: Global,
    formals: &[Formal],
    table: &mut Table,
    diagnostics: &mut Diagnostics,
) -> Result<(), NoMemory>
    ensures table { OnOk result (table.new ≡ names_declared Sort.Literal (formals_literals formals.now) table.old) }
    ensures noted { OnOk result (diagnostics.new ≡ all_noted diagnostics.old (names_twice Sort.Literal (formals_literals formals.now) table.old)) }
{
    for formal in formals {
        declare_literals(alloc, &formal.ty, table, diagnostics)?;
    }
    Ok(())
}

#[cycle(literals)]
fn declare_in_returned(
    alloc: Global,
    returned: &Option<Returned>,
    table: &mut Table,
    diagnostics: &mut Diagnostics,
) -> Result<(), NoMemory>
    ensures table { OnOk result (table.new ≡ names_declared Sort.Literal (maybe_literals (option_map returned_literals returned.now)) table.old) }
    ensures noted { OnOk result (diagnostics.new ≡ all_noted diagnostics.old (names_twice Sort.Literal (maybe_literals (option_map returned_literals returned.now)) table.old)) }
{
    match returned {
        Some(written) => declare_literals(alloc, written.ty.get(), table, diagnostics),
        None => Ok(()),
    }
}

#[cycle(literals)]
fn declare_in_signature(
    alloc: Global,
    signature: &Signature,
    table: &mut Table,
    diagnostics: &mut Diagnostics,
) -> Result<(), NoMemory>
    ensures table { OnOk result (table.new ≡ names_declared Sort.Literal (signature_literals signature.now) table.old) }
    ensures noted { OnOk result (diagnostics.new ≡ all_noted diagnostics.old (names_twice Sort.Literal (signature_literals signature.now) table.old)) }
{
    declare_in_formals(alloc, signature.formals.as_slice(), table, diagnostics)?;
    declare_in_returned(alloc, &signature.returned, table, diagnostics)
}
