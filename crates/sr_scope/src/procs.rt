ghost use Rattle.std.specs.Prelude.{◌≡◌, OnOk};
ghost use Rattle.sr_names.specs.Diagnostics.{all_noted};
ghost use Rattle.sr_scope.specs.Declarations.{with_inner};
ghost use Rattle.sr_scope.specs.Declares.{names_declared, names_twice};
ghost use Rattle.sr_scope.specs.Procs.{proc_item_read, proc_items_found, proc_found, procedure_found, process_found, final_found, quantifier_names};

use crate::declarations::{constant, operations, quantifiers, semaphores, variables};
use crate::declares::{
    declare_name, declare_operations, declare_semaphores, declare_variables, open_formals,
};
use crate::names::name;
use crate::statements::statement;
use crate::types::{declare_signature, signature};
use sr_names::{Blocks, Diagnostics, Place, Sort, Table};
use sr_tree::{FinalCode, Proc, ProcItem, Procedure, Process, Quantifier};
use sr_value::NoMemory;
use std::alloc::Global;

/// Notes what is found in the items of a proc's block, each of which sees what those before it declare.
fn proc_items(
    alloc: Global,
    items: &[ProcItem],
    place: &Place,
    blocks: &mut Blocks,
    diagnostics: &mut Diagnostics,
) -> Result<(), NoMemory>
    ensures scopes { OnOk result (blocks.new.outer ≡ blocks.old.outer) }
    ensures noted { OnOk result (diagnostics.new ≡ all_noted diagnostics.old (proc_items_found items.now place.now blocks.old)) }
{
    for item in items {
        proc_item(alloc, item, place, blocks, diagnostics)?;
    }
    Ok(())
}

fn proc_item(
    alloc: Global,
    item: &ProcItem,
    place: &Place,
    blocks: &mut Blocks,
    diagnostics: &mut Diagnostics,
) -> Result<(), NoMemory>
    ensures scopes { OnOk result (blocks.new ≡ with_inner blocks.old (proc_item_read item.now place.now blocks.old).inner) }
    ensures noted { OnOk result (diagnostics.new ≡ all_noted diagnostics.old (proc_item_read item.now place.now blocks.old).found) }
{
    match item {
        ProcItem::Const(declared) => {
            constant(alloc, declared, place, blocks, diagnostics)?;
            declare_name(
                alloc,
                &declared.name,
                Sort::Constant,
                &mut blocks.inner,
                diagnostics,
            )
        }
        ProcItem::Var(declared) => {
            variables(alloc, declared, place, blocks, diagnostics)?;
            declare_variables(
                alloc,
                declared.decls.as_slice(),
                &mut blocks.inner,
                diagnostics,
            )
        }
        ProcItem::Op(declared) => {
            operations(alloc, declared.items.as_slice(), place, blocks, diagnostics)?;
            declare_operations(
                alloc,
                declared.items.as_slice(),
                &mut blocks.inner,
                diagnostics,
            )
        }
        ProcItem::Sem(declared) => {
            semaphores(declared.semaphores.as_slice(), place, blocks, diagnostics)?;
            declare_semaphores(
                alloc,
                declared.semaphores.as_slice(),
                &mut blocks.inner,
                diagnostics,
            )
        }
        ProcItem::Statement(inner) => statement(alloc, inner, place, blocks, diagnostics),
    }
}

/// Notes what is found in a proc. The scopes are then as before.
pub fn proc(
    alloc: Global,
    proc: &Proc,
    place: &Place,
    blocks: &mut Blocks,
    diagnostics: &mut Diagnostics,
) -> Result<(), NoMemory>
    ensures scopes { OnOk result (blocks.new ≡ blocks.old) }
    ensures noted { OnOk result (diagnostics.new ≡ all_noted diagnostics.old (proc_found proc.now place.now blocks.old)) }
{
    name(&proc.name, place, blocks, diagnostics)?;
    open_formals(
        alloc,
        proc.formals.as_slice(),
        &proc.returned,
        blocks,
        diagnostics,
    )?;
    proc_items(alloc, proc.block.as_slice(), place, blocks, diagnostics)?;
    blocks.close();
    Ok(())
}

/// Notes what is found in a procedure. The scopes are then as before.
pub fn procedure(
    alloc: Global,
    procedure: &Procedure,
    place: &Place,
    blocks: &mut Blocks,
    diagnostics: &mut Diagnostics,
) -> Result<(), NoMemory>
    ensures scopes { OnOk result (blocks.new ≡ blocks.old) }
    ensures noted { OnOk result (diagnostics.new ≡ all_noted diagnostics.old (procedure_found procedure.now place.now blocks.old)) }
{
    signature(alloc, &procedure.signature, place, blocks, diagnostics)?;
    blocks.open(alloc)?;
    declare_signature(alloc, &procedure.signature, &mut blocks.inner, diagnostics)?;
    proc_items(
        alloc,
        procedure.block.as_slice(),
        place,
        blocks,
        diagnostics,
    )?;
    blocks.close();
    Ok(())
}

/// Notes what is found in a process. The scopes are then as before.
pub fn process(
    alloc: Global,
    process: &Process,
    place: &Place,
    blocks: &mut Blocks,
    diagnostics: &mut Diagnostics,
) -> Result<(), NoMemory>
    ensures scopes { OnOk result (blocks.new ≡ blocks.old) }
    ensures noted { OnOk result (diagnostics.new ≡ all_noted diagnostics.old (process_found process.now place.now blocks.old)) }
{
    blocks.open(alloc)?;
    quantifiers(
        alloc,
        process.quantifiers.as_slice(),
        place,
        blocks,
        diagnostics,
    )?;
    blocks.inner = Table::new(alloc);
    declare_quantified(
        alloc,
        process.quantifiers.as_slice(),
        &mut blocks.inner,
        diagnostics,
    )?;
    proc_items(alloc, process.block.as_slice(), place, blocks, diagnostics)?;
    blocks.close();
    Ok(())
}

/// Declares the formals that a process has for its quantifiers.
fn declare_quantified(
    alloc: Global,
    quantifiers: &[Quantifier],
    table: &mut Table,
    diagnostics: &mut Diagnostics,
) -> Result<(), NoMemory>
    ensures table { OnOk result (table.new ≡ names_declared Sort.Variable (quantifier_names quantifiers.now) table.old) }
    ensures noted { OnOk result (diagnostics.new ≡ all_noted diagnostics.old (names_twice Sort.Variable (quantifier_names quantifiers.now) table.old)) }
{
    for quantifier in quantifiers {
        declare_name(alloc, &quantifier.name, Sort::Variable, table, diagnostics)?;
    }
    Ok(())
}

/// Notes what is found in final code. The scopes are then as before.
pub fn final_code(
    alloc: Global,
    code: &FinalCode,
    place: &Place,
    blocks: &mut Blocks,
    diagnostics: &mut Diagnostics,
) -> Result<(), NoMemory>
    ensures scopes { OnOk result (blocks.new ≡ blocks.old) }
    ensures noted { OnOk result (diagnostics.new ≡ all_noted diagnostics.old (final_found code.now place.now blocks.old)) }
{
    blocks.open(alloc)?;
    proc_items(alloc, code.block.as_slice(), place, blocks, diagnostics)?;
    blocks.close();
    Ok(())
}
