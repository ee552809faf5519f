ghost use Rattle.std.specs.Prelude.{◌≡◌, OnOk, Some, []};
ghost use Rattle.std.specs.Option.{option_copied};
ghost use Rattle.sr_names.specs.Diagnostics.{all_noted};
ghost use Rattle.sr_scope.specs.Items.{spec_declared, spec_twice, specs_declared, specs_twice, item_declared, item_twice, items_declared, items_twice, spec_within, item_within, inside, spec_found, specs_found, item_found, items_found, served_name, is_operation, name_served, name_served_twice, served_twice};

use crate::declarations::{constant, operations, semaphores, variables};
use crate::declares::{declare_name, declare_operations, declare_semaphores, declare_variables};
use crate::literals::declare_literals;
use crate::procs::{final_code, proc, procedure, process};
use crate::statements::statement;
use crate::types::{signature, type_tree};
use sr_names::{Blocks, Diagnostics, Meaning, Place, Sort, Spot, Table};
use sr_tree::{Item, Name, SpecItem};
use sr_value::NoMemory;
use std::alloc::Global;

fn declare_spec_item(
    alloc: Global,
    item: &SpecItem,
    table: &mut Table,
    diagnostics: &mut Diagnostics,
) -> Result<(), NoMemory>
    ensures table { OnOk result (table.new ≡ spec_declared item.now table.old) }
    ensures noted { OnOk result (diagnostics.new ≡ all_noted diagnostics.old (spec_twice item.now table.old)) }
{
    match item {
        SpecItem::Import(_) => Ok(()),
        SpecItem::Const(declared) => {
            declare_name(alloc, &declared.name, Sort::Constant, table, diagnostics)
        }
        SpecItem::Type(declared) => {
            declare_name(alloc, &declared.name, Sort::Type, table, diagnostics)?;
            declare_literals(alloc, &declared.ty, table, diagnostics)
        }
        SpecItem::OpType(declared) => {
            declare_name(alloc, &declared.name, Sort::OpType, table, diagnostics)
        }
        SpecItem::Op(declared) => {
            declare_operations(alloc, declared.items.as_slice(), table, diagnostics)
        }
        SpecItem::Var(declared) => {
            declare_variables(alloc, declared.decls.as_slice(), table, diagnostics)
        }
        SpecItem::Sem(declared) => {
            declare_semaphores(alloc, declared.semaphores.as_slice(), table, diagnostics)
        }
    }
}

/// Declares what the items of a spec declare.
pub fn declare_spec(
    alloc: Global,
    items: &[SpecItem],
    table: &mut Table,
    diagnostics: &mut Diagnostics,
) -> Result<(), NoMemory>
    ensures table { OnOk result (table.new ≡ specs_declared items.now table.old) }
    ensures noted { OnOk result (diagnostics.new ≡ all_noted diagnostics.old (specs_twice items.now table.old)) }
{
    for item in items {
        declare_spec_item(alloc, item, table, diagnostics)?;
    }
    Ok(())
}

fn declare_item(
    alloc: Global,
    item: &Item,
    table: &mut Table,
    diagnostics: &mut Diagnostics,
) -> Result<(), NoMemory>
    ensures table { OnOk result (table.new ≡ item_declared item.now table.old) }
    ensures noted { OnOk result (diagnostics.new ≡ all_noted diagnostics.old (item_twice item.now table.old)) }
{
    match item {
        Item::Spec(inner) => declare_spec_item(alloc, inner, table, diagnostics),
        Item::Procedure(procedure) => {
            declare_name(alloc, &procedure.name, Sort::Operation, table, diagnostics)
        }
        Item::Process(process) => {
            declare_name(alloc, &process.name, Sort::Operation, table, diagnostics)
        }
        Item::Proc(_) | Item::Final(_) | Item::Statement(_) => Ok(()),
    }
}

/// Declares what the items of a body declare.
pub fn declare_items(
    alloc: Global,
    items: &[Item],
    table: &mut Table,
    diagnostics: &mut Diagnostics,
) -> Result<(), NoMemory>
    ensures table { OnOk result (table.new ≡ items_declared items.now table.old) }
    ensures noted { OnOk result (diagnostics.new ≡ all_noted diagnostics.old (items_twice items.now table.old)) }
{
    for item in items {
        declare_item(alloc, item, table, diagnostics)?;
    }
    Ok(())
}

/// The constant or type that an item declares.
fn spec_within(item: &SpecItem) -> Option<Spot>
    ensures { result ≡ spec_within item.now }
{
    match item {
        SpecItem::Const(declared) => Some(Spot::of(declared.name.span)),
        SpecItem::Type(declared) => Some(Spot::of(declared.name.span)),
        SpecItem::OpType(declared) => Some(Spot::of(declared.name.span)),
        SpecItem::Import(_) | SpecItem::Op(_) | SpecItem::Var(_) | SpecItem::Sem(_) => None,
    }
}

fn item_within(item: &Item) -> Option<Spot>
    ensures { result ≡ item_within item.now }
{
    match item {
        Item::Spec(inner) => spec_within(inner),
        Item::Proc(_)
        | Item::Procedure(_)
        | Item::Process(_)
        | Item::Final(_)
        | Item::Statement(_) => None,
    }
}

fn spec_item(
    alloc: Global,
    item: &SpecItem,
    place: &Place,
    blocks: &Blocks,
    diagnostics: &mut Diagnostics,
) -> Result<(), NoMemory>
    ensures { OnOk result (diagnostics.new ≡ all_noted diagnostics.old (spec_found item.now place.now blocks.now)) }
{
    match item {
        SpecItem::Import(_) => Ok(()),
        SpecItem::Const(declared) => constant(alloc, declared, place, blocks, diagnostics),
        SpecItem::Type(declared) => type_tree(alloc, &declared.ty, place, blocks, diagnostics),
        SpecItem::OpType(declared) => signature(
            alloc,
            &declared.signature,
            place,
            blocks,
            diagnostics,
        ),
        SpecItem::Op(declared) => {
            operations(alloc, declared.items.as_slice(), place, blocks, diagnostics)
        }
        SpecItem::Var(declared) => variables(alloc, declared, place, blocks, diagnostics),
        SpecItem::Sem(declared) => semaphores(
            declared.semaphores.as_slice(),
            place,
            blocks,
            diagnostics,
        ),
    }
}

/// Notes what is found in the items of a spec.
pub fn spec_items(
    alloc: Global,
    items: &[SpecItem],
    place: &mut Place,
    blocks: &Blocks,
    diagnostics: &mut Diagnostics,
) -> Result<(), NoMemory>
    ensures place { OnOk result (place.new ≡ inside place.old place.new.within) }
    ensures noted { OnOk result (diagnostics.new ≡ all_noted diagnostics.old (specs_found items.now place.old blocks.now)) }
{
    for item in items {
        place.within = spec_within(item);
        spec_item(alloc, item, place, blocks, diagnostics)?;
    }
    Ok(())
}

fn item(
    alloc: Global,
    item: &Item,
    place: &Place,
    blocks: &mut Blocks,
    diagnostics: &mut Diagnostics,
) -> Result<(), NoMemory>
    ensures scopes { OnOk result (blocks.new ≡ blocks.old) }
    ensures noted { OnOk result (diagnostics.new ≡ all_noted diagnostics.old (item_found item.now place.now blocks.old)) }
{
    match item {
        Item::Spec(inner) => spec_item(alloc, inner, place, blocks, diagnostics),
        Item::Proc(inner) => proc(alloc, inner, place, blocks, diagnostics),
        Item::Procedure(inner) => procedure(alloc, inner, place, blocks, diagnostics),
        Item::Process(inner) => process(alloc, inner, place, blocks, diagnostics),
        Item::Final(inner) => final_code(alloc, inner, place, blocks, diagnostics),
        Item::Statement(inner) => statement(alloc, inner, place, blocks, diagnostics),
    }
}

/// Notes what is found in the items of a body.
pub fn items(
    alloc: Global,
    items: &[Item],
    place: &mut Place,
    blocks: &mut Blocks,
    diagnostics: &mut Diagnostics,
) -> Result<(), NoMemory>
    ensures place { OnOk result (place.new ≡ inside place.old place.new.within) }
    ensures scopes { OnOk result (blocks.new ≡ blocks.old) }
    ensures noted { OnOk result (diagnostics.new ≡ all_noted diagnostics.old (items_found items.now place.old blocks.old)) }
{
    for each in items {
        place.within = item_within(each);
        item(alloc, each, place, blocks, diagnostics)?;
    }
    Ok(())
}

/// The name of the operation that an item serves.
fn served_name(item: &Item) -> Option<&Name>
    ensures { option_copied result ≡ served_name item.now }
{
    match item {
        Item::Proc(proc) => Some(&proc.name),
        Item::Procedure(procedure) => Some(&procedure.name),
        Item::Process(process) => Some(&process.name),
        Item::Spec(_) | Item::Final(_) | Item::Statement(_) => None,
    }
}

fn is_operation(meaning: Option<Meaning>) -> bool
    ensures { result ≡ is_operation meaning }
{
    match meaning {
        Some(Meaning::Declared(decl)) => decl.sort == Sort::Operation,
        Some(Meaning::Predefined(_)) => false,
        None => false,
    }
}

fn serve(
    alloc: Global,
    name: &Name,
    place: &Place,
    blocks: &Blocks,
    served: &mut Table,
    diagnostics: &mut Diagnostics,
) -> Result<(), NoMemory>
    ensures table { OnOk result (served.new ≡ name_served place.now blocks.now (Some name.now) served.old) }
    ensures noted { OnOk result (diagnostics.new ≡ all_noted diagnostics.old (name_served_twice place.now blocks.now (Some name.now) served.old)) }
{
    let meaning = place.denotes(blocks, name.text.as_bytes(), Spot::of(name.span));
    if is_operation(meaning) {
        return declare_name(alloc, name, Sort::Operation, served, diagnostics);
    }
    Ok(())
}

/// Notes the procs, procedures and processes of operations that another one serves already.
pub fn note_served(
    alloc: Global,
    items: &[Item],
    place: &Place,
    blocks: &Blocks,
    diagnostics: &mut Diagnostics,
) -> Result<(), NoMemory>
    ensures { OnOk result (diagnostics.new ≡ all_noted diagnostics.old (served_twice items.now place.now blocks.now [])) }
{
    let mut served = Table::new(alloc);
    serve_items(alloc, items, place, blocks, &mut served, diagnostics)
}

/// Notes those that serve an operation that is among the served ones, or that an item before them serves.
fn serve_items(
    alloc: Global,
    items: &[Item],
    place: &Place,
    blocks: &Blocks,
    served: &mut Table,
    diagnostics: &mut Diagnostics,
) -> Result<(), NoMemory>
    ensures { OnOk result (diagnostics.new ≡ all_noted diagnostics.old (served_twice items.now place.now blocks.now served.old)) }
{
    for item in items {
        if let Some(name) = served_name(item) {
            serve(alloc, name, place, blocks, served, diagnostics)?;
        }
    }
    Ok(())
}
