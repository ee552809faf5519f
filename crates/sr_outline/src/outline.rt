//! What a program declares outside of code.
ghost use Rattle.std.specs.Prelude.{◌≡◌, [], IfOk, ◌+◌, ◌++◌, OnOk, fold, length, map, flat_map};
ghost use Rattle.sr_outline.specs.Outline as outline;
ghost use Rattle.sr_tables.specs.Parts.{components_in, in_item};
ghost use Rattle.std.specs.List.{enumerate_from};
ghost use Rattle.sr_outline.specs.Heads.{with_heads};
ghost use Rattle.sr_tables.specs.Tables.{with_entries};
ghost use Rattle.sr_tree.specs.Nested.{formal_types, signature_types, types_within, written_types};

use crate::heads::declare_heads;
use crate::operations::{OperationTable, open_component};
use crate::shapes::declare_types;
use crate::variables::note_shared;
use crate::waits::{note_procs, note_sites};
use crate::weights::Weights;
use sr_check_expr::Facts;
use sr_tables::{Head, SpotMap, Spots, Tables, number_of, spot_named};
use sr_tree::{File, Formal, Name, Returned, Signature, SpecItem, TypeTree};
use sr_value::{Duplicate, EnumNames, NoMemory, Row, Shape, Text};
use std::alloc::Global;
use std::mem;

fn empty_tables(alloc: Global) -> Tables
    ensures { result ≡ outline.no_tables }
{
    Tables {
        components: Spots::new(alloc),
        procs: Spots::new(alloc),
        sites: Spots::new(alloc),
        shared: SpotMap::new(alloc),
        shapes: SpotMap::new(alloc),
        heads: SpotMap::new(alloc),
        operations: SpotMap::new(alloc),
    }
}

/// Puts in what stands in a component, besides operations and the signatures that have names.
fn note_component(
    alloc: Global,
    component: &sr_tree::Component,
    facts: &Facts,
    number: u32,
    weights: &mut Weights,
    tables: &mut Tables,
) -> Result<(), NoMemory>
    ensures { OnOk result (tables.new ≡ outline.with_component facts.now tables.old (number, component.now)) }
{
    tables.components.insert(spot_named(component.name()))?;
    note_procs(component, facts, &mut tables.procs)?;
    note_sites(component, facts, &mut tables.sites)?;
    note_shared(alloc, component, number, facts, &mut tables.shared)?;
    declare_types(alloc, component, facts, weights, &mut tables.shapes)
}

/// Puts in the declarations of these components, numbered from this number on. Returns the number after the last.
fn note_components(
    alloc: Global,
    components: &[sr_tree::Component],
    facts: &Facts,
    first: usize,
    weights: &mut Weights,
    tables: &mut Tables,
) -> Result<usize, NoMemory>
    ensures tables { OnOk result (tables.new ≡ fold (outline.with_component facts.now) tables.old (enumerate_from first components.now)) }
    ensures next { IfOk result (λ next. next ≡ first + length components.now) }
{
    let mut number = first;
    for component in components {
        let at = number_of(number)?;
        note_component(alloc, component, facts, at, weights, tables)?;
        number += 1;
    }
    Ok(number)
}

#[tactic(auto, using(crate::proofs::Appends::numbered_append))]
fn note_files(
    alloc: Global,
    files: &[File],
    facts: &Facts,
    tables: &mut Tables,
) -> Result<(), NoMemory>
    ensures { OnOk result (tables.new ≡ fold (outline.with_component facts.now) tables.old (enumerate_from 0 (components_in files.now))) }
{
    let mut weights = Weights::new(alloc);
    let mut number = 0;
    for file in files {
        number = note_components(
            alloc,
            file.components.as_slice(),
            facts,
            number,
            &mut weights,
            tables,
        )?;
    }
    Ok(())
}

fn declare_components(
    alloc: Global,
    components: &[sr_tree::Component],
    facts: &Facts,
    table: &SpotMap<Shape>,
    all: &mut SpotMap<Head>,
) -> Result<(), NoMemory>
    ensures { OnOk result (all.new ≡ with_heads facts.now table.now all.old (outline.all_optypes components.now)) }
{
    for component in components {
        declare_heads(alloc, component, facts, table, all)?;
    }
    Ok(())
}

/// Puts in the signatures that have names.
fn declare_all(
    alloc: Global,
    files: &[File],
    facts: &Facts,
    table: &SpotMap<Shape>,
    all: &mut SpotMap<Head>,
) -> Result<(), NoMemory>
    ensures { OnOk result (all.new ≡ with_heads facts.now table.now all.old (outline.all_optypes (components_in files.now))) }
{
    for file in files {
        declare_components(alloc, file.components.as_slice(), facts, table, all)?;
    }
    Ok(())
}

/// Puts in the operations of these components, numbered from this number on. Returns the number after the last.
fn open_components(
    alloc: Global,
    components: &[sr_tree::Component],
    facts: &Facts,
    first: usize,
    opening: &mut OperationTable,
) -> Result<usize, NoMemory>
    ensures operations { OnOk result (opening.new.operations ≡ with_entries opening.old.operations (flat_map (outline.component_entries facts.now opening.old.shapes opening.old.heads opening.old.procs) (enumerate_from first components.now))) }
    ensures shapes { OnOk result (opening.new.shapes ≡ opening.old.shapes) }
    ensures heads { OnOk result (opening.new.heads ≡ opening.old.heads) }
    ensures procs { OnOk result (opening.new.procs ≡ opening.old.procs) }
    ensures next { IfOk result (λ next. next ≡ first + length components.now) }
{
    let mut number = first;
    for component in components {
        let at = number_of(number)?;
        opening.component = at;
        open_component(alloc, opening, component, facts)?;
        number += 1;
    }
    Ok(number)
}

#[tactic(auto, using(crate::proofs::Appends::numbered_entries_append))]
fn open_all(
    alloc: Global,
    files: &[File],
    facts: &Facts,
    opening: &mut OperationTable,
) -> Result<(), NoMemory>
    ensures operations { OnOk result (opening.new.operations ≡ with_entries opening.old.operations (flat_map (outline.component_entries facts.now opening.old.shapes opening.old.heads opening.old.procs) (enumerate_from 0 (components_in files.now)))) }
    ensures shapes { OnOk result (opening.new.shapes ≡ opening.old.shapes) }
    ensures heads { OnOk result (opening.new.heads ≡ opening.old.heads) }
    ensures procs { OnOk result (opening.new.procs ≡ opening.old.procs) }
{
    let mut number = 0;
    for file in files {
        number = open_components(alloc, file.components.as_slice(), facts, number, opening)?;
    }
    Ok(())
}

/// What operations are made with, taken out of the tables.
fn take_opening(alloc: Global, tables: &mut Tables) -> OperationTable
    ensures opening { result ≡ record { shapes = tables.old.shapes; heads = tables.old.heads; procs = tables.old.procs; component = 0; operations = tables.old.operations } }
    ensures tables { tables.new ≡ record tables.old { shapes = []; heads = []; procs = []; operations = [] } }
{
    OperationTable {
        shapes: mem::replace(&mut tables.shapes, SpotMap::new(alloc)),
        heads: mem::replace(&mut tables.heads, SpotMap::new(alloc)),
        procs: mem::replace(&mut tables.procs, Spots::new(alloc)),
        component: 0,
        operations: mem::replace(&mut tables.operations, SpotMap::new(alloc)),
    }
}

/// Puts what operations were made with back into the tables.
fn put_back(opening: OperationTable, tables: &mut Tables)
    ensures { tables.new ≡ record tables.old { shapes = opening.shapes; heads = opening.heads; procs = opening.procs; operations = opening.operations } }
{
    let OperationTable {
        shapes,
        heads,
        procs,
        component: _,
        operations,
    } = opening;
    tables.shapes = shapes;
    tables.heads = heads;
    tables.procs = procs;
    tables.operations = operations;
}

/// Puts in the operations.
fn note_operations(
    alloc: Global,
    files: &[File],
    facts: &Facts,
    tables: &mut Tables,
) -> Result<(), NoMemory>
    ensures { OnOk result (tables.new ≡ record tables.old { operations = with_entries tables.old.operations (flat_map (outline.component_entries facts.now tables.old.shapes tables.old.heads tables.old.procs) (enumerate_from 0 (components_in files.now))) }) }
{
    let mut opening = take_opening(alloc, tables);
    let opened = open_all(alloc, files, facts, &mut opening);
    put_back(opening, tables);
    opened
}

/// Puts what a program declares outside of code into tables that are empty.
fn note_all(
    alloc: Global,
    files: &[File],
    facts: &Facts,
    tables: &mut Tables,
) -> Result<(), NoMemory>
    requires { tables.old ≡ outline.no_tables }
    ensures { OnOk result (tables.new ≡ outline.tables_of facts.now (components_in files.now)) }
{
    note_files(alloc, files, facts, tables)?;
    declare_all(alloc, files, facts, &tables.shapes, &mut tables.heads)?;
    note_operations(alloc, files, facts, tables)
}

/// What a program declares outside of code.
pub fn tables_of(alloc: Global, files: &[File], facts: &Facts) -> Result<Tables, NoMemory>
    ensures { IfOk result (λ tables. tables ≡ outline.tables_of facts.now (components_in files.now)) }
{
    let mut tables = empty_tables(alloc);
    note_all(alloc, files, facts, &mut tables).and(Ok(tables))
}

fn literal_names(alloc: Global, literals: &[Name]) -> Result<Row<Text>, NoMemory>
    ensures { IfOk result (λ names. names ≡ map (λ name. name.text) literals.now) }
{
    let mut names = Row::new(alloc);
    for literal in literals {
        names.push(literal.text.copy(alloc)?)?;
    }
    Ok(names)
}

/// Appends the names of the literals of the enumerations that are written in a type, in the order of the text.
#[cycle(literals)]
fn push_within(alloc: Global, tree: &TypeTree, names: &mut EnumNames) -> Result<(), NoMemory>
    ensures { OnOk result (names.new ≡ names.old ++ flat_map outline.tree_literals (types_within tree.now)) }
{
    match tree {
        TypeTree::Enum { literals, .. } => names.push(literal_names(alloc, literals.as_slice())?),
        TypeTree::Rec { fields, .. } => push_within_formals(alloc, fields.as_slice(), names),
        TypeTree::CapOperation { signature, .. } => push_within_signature(alloc, signature, names),
        TypeTree::Array { item, .. } => push_within(alloc, item.get(), names),
        TypeTree::Int { .. }
        | TypeTree::Bool { .. }
        | TypeTree::Char { .. }
        | TypeTree::Str { .. }
        | TypeTree::CapOf { .. }
        | TypeTree::CapMachine { .. }
        | TypeTree::Named { .. } => Ok(()),
    }
}

#[cycle(literals)]
fn push_within_formals(
    alloc: Global,
    formals: &[Formal],
    names: &mut EnumNames,
) -> Result<(), NoMemory>
    ensures { OnOk result (names.new ≡ names.old ++ flat_map outline.tree_literals (flat_map formal_types formals.now)) }
{
    for formal in formals {
        push_within(alloc, &formal.ty, names)?;
    }
    Ok(())
}

#[cycle(literals)]
fn push_within_returned(
    alloc: Global,
    returned: &Option<Returned>,
    names: &mut EnumNames,
) -> Result<(), NoMemory>
    ensures { OnOk result (names.new ≡ names.old ++ flat_map outline.tree_literals (written_types returned.now)) }
{
    match returned {
        Some(written) => push_within(alloc, written.ty.get(), names),
        None => Ok(()),
    }
}

#[cycle(literals)]
fn push_within_signature(
    alloc: Global,
    signature: &Signature,
    names: &mut EnumNames,
) -> Result<(), NoMemory>
    ensures { OnOk result (names.new ≡ names.old ++ flat_map outline.tree_literals (signature_types signature.now)) }
{
    push_within_formals(alloc, signature.formals.as_slice(), names)?;
    push_within_returned(alloc, &signature.returned, names)
}

fn push_literals(alloc: Global, item: &SpecItem, names: &mut EnumNames) -> Result<(), NoMemory>
    ensures { OnOk result (names.new ≡ names.old ++ outline.item_literals item.now) }
{
    match item {
        SpecItem::Type(named) => push_within(alloc, &named.ty, names),
        _ => Ok(()),
    }
}

fn push_spec_literals(
    alloc: Global,
    items: &[SpecItem],
    names: &mut EnumNames,
) -> Result<(), NoMemory>
    ensures { OnOk result (names.new ≡ names.old ++ flat_map outline.item_literals items.now) }
{
    for item in items {
        push_literals(alloc, item, names)?;
    }
    Ok(())
}

fn push_body_literals(
    alloc: Global,
    items: &[sr_tree::Item],
    names: &mut EnumNames,
) -> Result<(), NoMemory>
    ensures { OnOk result (names.new ≡ names.old ++ flat_map (in_item outline.item_literals) items.now) }
{
    for item in items {
        if let sr_tree::Item::Spec(inner) = item {
            push_literals(alloc, inner, names)?;
        }
    }
    Ok(())
}

fn push_component_literals(
    alloc: Global,
    component: &sr_tree::Component,
    names: &mut EnumNames,
) -> Result<(), NoMemory>
    ensures { OnOk result (names.new ≡ names.old ++ outline.component_literals component.now) }
{
    push_spec_literals(alloc, component.spec(), names)?;
    push_body_literals(alloc, component.body(), names)
}

fn push_all_literals(
    alloc: Global,
    components: &[sr_tree::Component],
    names: &mut EnumNames,
) -> Result<(), NoMemory>
    ensures { OnOk result (names.new ≡ names.old ++ outline.enumerations_of components.now) }
{
    for component in components {
        push_component_literals(alloc, component, names)?;
    }
    Ok(())
}

/// The names of the literals of each enumeration of a program.
pub fn enumerations_of(alloc: Global, files: &[File]) -> Result<EnumNames, NoMemory>
    ensures { IfOk result (λ names. names ≡ outline.enumerations_of (components_in files.now)) }
{
    let mut names = Row::new(alloc);
    for file in files {
        push_all_literals(alloc, file.components.as_slice(), &mut names)?;
    }
    Ok(names)
}
