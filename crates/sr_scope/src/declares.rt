ghost use Rattle.std.specs.Prelude.{◌≡◌, OnOk, map};
ghost use Rattle.sr_names.specs.Diagnostics.{all_noted};
ghost use Rattle.sr_scope.specs.Declares.{name_declared, name_twice, names_declared, names_twice, returned_declared, returned_twice, op_name};
ghost use Rattle.sr_scope.specs.Statements.{arm_scope, arm_twice};

use sr_names::{Blocks, Diagnostics, Sort, Table, declare};
use sr_tree::{Decl, Name, OpItem, Semaphore};
use sr_value::NoMemory;
use std::alloc::Global;

/// Declares a name in a scope, and notes where the scope has it already.
pub fn declare_name(
    alloc: Global,
    name: &Name,
    sort: Sort,
    table: &mut Table,
    diagnostics: &mut Diagnostics,
) -> Result<(), NoMemory>
    ensures table { OnOk result (table.new ≡ name_declared sort name.now table.old) }
    ensures noted { OnOk result (diagnostics.new ≡ all_noted diagnostics.old (name_twice sort name.now table.old)) }
{
    declare(
        alloc,
        table,
        diagnostics,
        name.text.as_bytes(),
        name.span,
        sort,
    )
}

/// Declares names in a scope one after another.
pub fn declare_names(
    alloc: Global,
    names: &[Name],
    sort: Sort,
    table: &mut Table,
    diagnostics: &mut Diagnostics,
) -> Result<(), NoMemory>
    ensures table { OnOk result (table.new ≡ names_declared sort names.now table.old) }
    ensures noted { OnOk result (diagnostics.new ≡ all_noted diagnostics.old (names_twice sort names.now table.old)) }
{
    for name in names {
        declare_name(alloc, name, sort, table, diagnostics)?;
    }
    Ok(())
}

/// Declares the variables of a declaration or the formals of one type.
pub fn declare_variables(
    alloc: Global,
    decls: &[Decl],
    table: &mut Table,
    diagnostics: &mut Diagnostics,
) -> Result<(), NoMemory>
    ensures table { OnOk result (table.new ≡ names_declared Sort.Variable (map (λ decl. decl.name) decls.now) table.old) }
    ensures noted { OnOk result (diagnostics.new ≡ all_noted diagnostics.old (names_twice Sort.Variable (map (λ decl. decl.name) decls.now) table.old)) }
{
    for decl in decls {
        declare_name(alloc, &decl.name, Sort::Variable, table, diagnostics)?;
    }
    Ok(())
}

/// Declares the name of what an operation returns, where there is one.
pub fn declare_returned(
    alloc: Global,
    returned: &Option<Name>,
    table: &mut Table,
    diagnostics: &mut Diagnostics,
) -> Result<(), NoMemory>
    ensures table { OnOk result (table.new ≡ returned_declared returned.now table.old) }
    ensures noted { OnOk result (diagnostics.new ≡ all_noted diagnostics.old (returned_twice returned.now table.old)) }
{
    match returned {
        Some(name) => declare_name(alloc, name, Sort::Variable, table, diagnostics),
        None => Ok(()),
    }
}

/// Opens a scope for formals and what an operation returns, and declares them in it.
pub fn open_formals(
    alloc: Global,
    formals: &[Name],
    returned: &Option<Name>,
    blocks: &mut Blocks,
    diagnostics: &mut Diagnostics,
) -> Result<(), NoMemory>
    ensures scopes { OnOk result (blocks.new ≡ arm_scope formals.now returned.now blocks.old) }
    ensures noted { OnOk result (diagnostics.new ≡ all_noted diagnostics.old (arm_twice formals.now returned.now)) }
{
    blocks.open(alloc)?;
    declare_names(
        alloc,
        formals,
        Sort::Variable,
        &mut blocks.inner,
        diagnostics,
    )?;
    declare_returned(alloc, returned, &mut blocks.inner, diagnostics)
}

/// Declares operations.
pub fn declare_operations(
    alloc: Global,
    items: &[OpItem],
    table: &mut Table,
    diagnostics: &mut Diagnostics,
) -> Result<(), NoMemory>
    ensures table { OnOk result (table.new ≡ names_declared Sort.Operation (map op_name items.now) table.old) }
    ensures noted { OnOk result (diagnostics.new ≡ all_noted diagnostics.old (names_twice Sort.Operation (map op_name items.now) table.old)) }
{
    for item in items {
        declare_name(
            alloc,
            operation_name(item),
            Sort::Operation,
            table,
            diagnostics,
        )?;
    }
    Ok(())
}

fn operation_name(item: &OpItem) -> &Name
    ensures { result.now ≡ op_name item.now }
{
    match item {
        OpItem::Signed { name, .. } => name,
        OpItem::Typed { name, .. } => name,
    }
}

/// Declares semaphores, which are operations.
pub fn declare_semaphores(
    alloc: Global,
    semaphores: &[Semaphore],
    table: &mut Table,
    diagnostics: &mut Diagnostics,
) -> Result<(), NoMemory>
    ensures table { OnOk result (table.new ≡ names_declared Sort.Operation (map (λ semaphore. semaphore.name) semaphores.now) table.old) }
    ensures noted { OnOk result (diagnostics.new ≡ all_noted diagnostics.old (names_twice Sort.Operation (map (λ semaphore. semaphore.name) semaphores.now) table.old)) }
{
    for semaphore in semaphores {
        declare_name(alloc, &semaphore.name, Sort::Operation, table, diagnostics)?;
    }
    Ok(())
}
