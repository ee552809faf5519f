//! The globals that components import and need.
#![tactic(auto, using(crate::proofs::Appends::numbers_append))]

ghost use Rattle.std.specs.Prelude.{◌≡◌, [], ◌∷◌, ◌++◌, IfOk, OnOk, fold, flat_map, map};
ghost use Rattle.sr_outline.specs.Outline as outline;
ghost use Rattle.sr_tables.specs.Parts.{components_in, in_item};

use crate::globals::Globals;
use sr_check_expr::Facts;
use sr_names::{Meaning, Sort, Spot};
use sr_tables::Spots;
use sr_tree::{Component, File, Item, Name, SpecItem};
use sr_value::{NoMemory, Row};
use std::alloc::Global;

/// Appends the global that a name means to others.
fn note_name(
    name: &Name,
    facts: &Facts,
    components: &Spots,
    imports: &mut Globals,
) -> Result<(), NoMemory>
    ensures { OnOk result (imports.new ≡ fold outline.with_number imports.old (outline.globals_named facts.now components.now name.now)) }
{
    match facts.uses.get(Spot::of(name.span)) {
        Some(Meaning::Declared(decl)) => {
            if decl.sort == Sort::Global {
                return imports.insert(components.number(decl.spot)?);
            }
            Ok(())
        }
        _ => Ok(()),
    }
}

/// Appends the globals among these names to others.
fn note_names(
    names: &[Name],
    facts: &Facts,
    components: &Spots,
    imports: &mut Globals,
) -> Result<(), NoMemory>
    ensures { OnOk result (imports.new ≡ fold outline.with_number imports.old (flat_map (outline.globals_named facts.now components.now) names.now)) }
{
    for name in names {
        note_name(name, facts, components, imports)?;
    }
    Ok(())
}

fn note_spec_item(
    item: &SpecItem,
    facts: &Facts,
    components: &Spots,
    imports: &mut Globals,
) -> Result<(), NoMemory>
    ensures { OnOk result (imports.new ≡ fold outline.with_number imports.old (outline.item_imports facts.now components.now item.now)) }
{
    match item {
        SpecItem::Import(written) => {
            note_names(written.names.as_slice(), facts, components, imports)
        }
        _ => Ok(()),
    }
}

fn note_spec(
    items: &[SpecItem],
    facts: &Facts,
    components: &Spots,
    imports: &mut Globals,
) -> Result<(), NoMemory>
    ensures { OnOk result (imports.new ≡ fold outline.with_number imports.old (flat_map (outline.item_imports facts.now components.now) items.now)) }
{
    for item in items {
        note_spec_item(item, facts, components, imports)?;
    }
    Ok(())
}

fn note_body(
    items: &[Item],
    facts: &Facts,
    components: &Spots,
    imports: &mut Globals,
) -> Result<(), NoMemory>
    ensures { OnOk result (imports.new ≡ fold outline.with_number imports.old (flat_map (in_item (outline.item_imports facts.now components.now)) items.now)) }
{
    for item in items {
        if let Item::Spec(inner) = item {
            note_spec_item(inner, facts, components, imports)?;
        }
    }
    Ok(())
}

/// The globals that a component imports, in the order of the text, each once.
fn imports_of(
    alloc: Global,
    component: &Component,
    facts: &Facts,
    components: &Spots,
) -> Result<Row<u32>, NoMemory>
    ensures { IfOk result (λ imports. imports ≡ outline.imports_of facts.now components.now component.now) }
{
    let mut imports = Globals::new(alloc);
    note_spec(component.spec(), facts, components, &mut imports)?;
    note_body(component.body(), facts, components, &mut imports)?;
    imports.into_row(alloc)
}

/// Appends the globals that each of these components imports.
fn push_imports(
    alloc: Global,
    trees: &[Component],
    facts: &Facts,
    components: &Spots,
    all: &mut Row<Row<u32>>,
) -> Result<(), NoMemory>
    ensures { OnOk result (all.new ≡ all.old ++ map (outline.imports_of facts.now components.now) trees.now) }
{
    for component in trees {
        all.push(imports_of(alloc, component, facts, components)?)?;
    }
    Ok(())
}

/// The globals that each component imports.
pub fn all_imports(
    alloc: Global,
    files: &[File],
    facts: &Facts,
    components: &Spots,
) -> Result<Row<Row<u32>>, NoMemory>
    ensures { IfOk result (λ all. all ≡ map (outline.imports_of facts.now components.now) (components_in files.now)) }
{
    let mut all = Row::new(alloc);
    for file in files {
        push_imports(
            alloc,
            file.components.as_slice(),
            facts,
            components,
            &mut all,
        )?;
    }
    Ok(all)
}

/// The globals that a component imports, by its number.
pub fn imports_at(imports: &[Row<u32>], number: u32) -> &[u32]
    ensures { result.now ≡ outline.imports_at imports.now number }
{
    match imports.get(number as usize) {
        None => &[],
        Some(globals) => globals.as_slice(),
    }
}

/// So many globals import one another in a row at most: the search for them fits into 8 MiB of stack.
const MOST_LEVELS: u32 = 4_096;

/// Puts a global that is wanted after those that there are, unless it is there, and after those that it imports.
#[cycle(needed)]
#[tactic(auto, using(crate::proofs::Needed::needed_zero, crate::proofs::Needed::needed_left, crate::proofs::Needed::needed_put))]
fn push_global(
    depth: usize,
    levels: u32,
    imports: &[Row<u32>],
    global: u32,
    there: &mut Globals,
) -> Result<(), NoMemory>
    ensures { OnOk result (there.new ≡ outline.with_needed depth imports.now there.old (global ∷ [])) }
{
    if depth == 0 {
        return Ok(());
    }
    if there.contains(global) {
        return Ok(());
    }
    if levels == 0 {
        return Err(NoMemory);
    }
    push_needed(
        depth - 1,
        levels - 1,
        imports,
        imports_at(imports, global),
        there,
    )?;
    there.insert(global)
}

/// Puts the globals that are wanted after those that there are, each after those that it imports. No chain of imports
/// is longer than there are components. Answers out of memory where one is longer than `levels`.
#[cycle(needed)]
#[tactic(auto, using(crate::proofs::Needed::needed_append))]
fn push_needed(
    depth: usize,
    levels: u32,
    imports: &[Row<u32>],
    wanted: &[u32],
    there: &mut Globals,
) -> Result<(), NoMemory>
    ensures { OnOk result (there.new ≡ outline.with_needed depth imports.now there.old wanted.now) }
{
    for global in wanted {
        push_global(depth, levels, imports, *global, there)?;
    }
    Ok(())
}

/// The globals that a component needs, directly or through globals. Out of memory where more than 4,096 globals import
/// one another in a row.
pub fn needs_of(alloc: Global, imports: &[Row<u32>], number: u32) -> Result<Row<u32>, NoMemory>
    ensures { IfOk result (λ needs. needs ≡ outline.needs_of imports.now number) }
{
    let mut there = Globals::new(alloc);
    push_needed(
        imports.len(),
        MOST_LEVELS,
        imports,
        imports_at(imports, number),
        &mut there,
    )?;
    there.into_row(alloc)
}
