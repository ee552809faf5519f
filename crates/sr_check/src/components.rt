ghost use Rattle.std.specs.Prelude.{◌≡◌, ◌++◌, false, OnOk, map};
ghost use Rattle.sr_names.specs.Diagnostics.{all_noted};
ghost use Rattle.sr_check_decl.specs.Declarations.{spec_items_found};
ghost use Rattle.sr_check_decl.specs.TypeTrees.{formal_read, formals_at, formals_found};
ghost use Rattle.sr_check.specs.Components.{item_read, items_read, proc_entered, item_procs, items_procs, component_read, components_read, files_read};

use crate::enclosing::Procs;
use crate::operation::Operation;
use crate::procs::{beginning, final_code, proc, procedure, process};
use crate::services::operation_named;
use crate::serving::Serving;
use crate::statements::statement;
use sr_check_decl::{all_formals, component_decl, note_spec_item, note_spec_items, stand};
use sr_check_expr::Facts;
use sr_names::{Diagnostics, Spot};
use sr_tree::{Component, File, Formal, Item, SpecItem};
use sr_value::{NoMemory, Span};
use std::alloc::Global;

/// Notes what is found in an item of a component. What is declared in its code is then known.
fn item(
    alloc: Global,
    item: &Item,
    procs: &Procs,
    facts: &mut Facts,
    diagnostics: &mut Diagnostics,
) -> Result<(), NoMemory>
    ensures known { OnOk result (facts.new ≡ (item_read procs.now item.now facts.old).facts) }
    ensures noted { OnOk result (diagnostics.new ≡ all_noted diagnostics.old (item_read procs.now item.now facts.old).found) }
{
    match item {
        Item::Spec(inner) => note_spec_item(alloc, facts, diagnostics, false, inner),
        Item::Proc(inner) => proc(alloc, inner, procs, facts, diagnostics),
        Item::Procedure(inner) => procedure(alloc, inner, procs, facts, diagnostics),
        Item::Process(inner) => process(alloc, inner, procs, facts, diagnostics),
        Item::Final(inner) => final_code(alloc, inner, procs, facts, diagnostics),
        Item::Statement(inner) => {
            let enclosing = beginning(procs, Serving::SetsUp);
            statement(alloc, inner, &enclosing, facts, diagnostics)
        }
    }
}

fn items(
    alloc: Global,
    items: &[Item],
    procs: &Procs,
    facts: &mut Facts,
    diagnostics: &mut Diagnostics,
) -> Result<(), NoMemory>
    ensures known { OnOk result (facts.new ≡ (items_read procs.now items.now facts.old).facts) }
    ensures noted { OnOk result (diagnostics.new ≡ all_noted diagnostics.old (items_read procs.now items.now facts.old).found) }
{
    for each in items {
        item(alloc, each, procs, facts, diagnostics)?;
    }
    Ok(())
}

fn enter_proc(procs: &mut Procs, operation: Option<Operation>, span: Span) -> Result<(), NoMemory>
    ensures { OnOk result (procs.new ≡ proc_entered operation span procs.old) }
{
    match operation {
        None => Ok(()),
        Some(operation) => procs.insert(operation.spot, span),
    }
}

fn enter_item(alloc: Global, facts: &Facts, item: &Item, procs: &mut Procs) -> Result<(), NoMemory>
    ensures { OnOk result (procs.new ≡ item_procs facts.now item.now procs.old) }
{
    match item {
        Item::Proc(proc) => {
            let operation = operation_named(alloc, facts, &proc.name)?;
            enter_proc(procs, operation, proc.span)
        }
        Item::Procedure(procedure) => {
            procs.insert(Spot::of(procedure.name.span), procedure.span)
        }
        Item::Process(process) => procs.insert(Spot::of(process.name.span), process.span),
        Item::Spec(_) | Item::Final(_) | Item::Statement(_) => Ok(()),
    }
}

/// Puts the procs among items in, by the operations that they serve.
fn enter_items(
    alloc: Global,
    facts: &Facts,
    items: &[Item],
    procs: &mut Procs,
) -> Result<(), NoMemory>
    ensures { OnOk result (procs.new ≡ items_procs facts.now items.now procs.old) }
{
    for item in items {
        enter_item(alloc, facts, item, procs)?;
    }
    Ok(())
}

/// Notes what is found in the spec and the formals of a component.
fn note_head(
    alloc: Global,
    spec: &[SpecItem],
    formals: &[Formal],
    facts: &Facts,
    diagnostics: &mut Diagnostics,
) -> Result<(), NoMemory>
    ensures { OnOk result (diagnostics.new ≡ all_noted diagnostics.old (spec_items_found facts.now spec.now ++ formals_found (formals_at (map formal_read formals.now) facts.now false))) }
{
    note_spec_items(alloc, facts, diagnostics, spec)?;
    all_formals(alloc, formals, facts, diagnostics, false)?;
    Ok(())
}

/// Notes what is found in a component. What is declared in its code is then known.
fn component(
    alloc: Global,
    component: &Component,
    facts: &mut Facts,
    diagnostics: &mut Diagnostics,
) -> Result<(), NoMemory>
    ensures known { OnOk result (facts.new ≡ (component_read component.now facts.old).facts) }
    ensures noted { OnOk result (diagnostics.new ≡ all_noted diagnostics.old (component_read component.now facts.old).found) }
{
    stand(facts, component_decl(component));
    note_head(
        alloc,
        component.spec(),
        component.formals(),
        facts,
        diagnostics,
    )?;
    let mut procs = Procs::new(alloc);
    enter_items(alloc, facts, component.body(), &mut procs)?;
    items(alloc, component.body(), &procs, facts, diagnostics)
}

fn components(
    alloc: Global,
    components: &[Component],
    facts: &mut Facts,
    diagnostics: &mut Diagnostics,
) -> Result<(), NoMemory>
    ensures known { OnOk result (facts.new ≡ (components_read components.now facts.old).facts) }
    ensures noted { OnOk result (diagnostics.new ≡ all_noted diagnostics.old (components_read components.now facts.old).found) }
{
    for each in components {
        component(alloc, each, facts, diagnostics)?;
    }
    Ok(())
}

/// Notes what is found in the components of files. What is declared in their code is then known.
pub(crate) fn files(
    alloc: Global,
    files: &[File],
    facts: &mut Facts,
    diagnostics: &mut Diagnostics,
) -> Result<(), NoMemory>
    ensures known { OnOk result (facts.new ≡ (files_read files.now facts.old).facts) }
    ensures noted { OnOk result (diagnostics.new ≡ all_noted diagnostics.old (files_read files.now facts.old).found) }
{
    for file in files {
        components(alloc, file.components.as_slice(), facts, diagnostics)?;
    }
    Ok(())
}
