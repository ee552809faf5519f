//! The operations of a program, in the order of the text.
#![tactic(auto, using(crate::proofs::Appends::opened_append))]

ghost use Rattle.std.specs.Prelude.{◌≡◌, [], ◌∷◌, IfOk, OnOk, flat_map, position};
ghost use Rattle.sr_names.specs.Spots.{same_spot};
ghost use Rattle.sr_outline.specs.Heads as heads;

use crate::heads::{head_of, int_parameters, op_head, sent_head};
use sr_check_expr::Facts;
use sr_core::{Operation, Scope};
use sr_names::Spot;
use sr_tables::{Head, SpotMap, Spots, number_of, op_item_name, spot_named};
use sr_tree::{Component, Item, Name, OpItem, ProcItem, Procedure, Process, Semaphore, SpecItem};
use sr_value::{Duplicate, NoMemory, Row, Shape};
use std::alloc::Global;

/// The operations of a component so far, and the tables that they are made with.
#[derive(Drop)]
pub struct OperationTable {
    pub shapes: SpotMap<Shape>,
    pub heads: SpotMap<Head>,
    /// The procs, each by the operation that it serves.
    pub procs: Spots,
    /// The number of the component.
    pub component: u32,
    /// The operations so far.
    pub operations: SpotMap<Operation>,
}

/// The proc that serves an operation, where one does.
fn proc_of(procs: &Spots, spot: Spot) -> Result<Option<u32>, NoMemory>
    ensures { IfOk result (λ proc. proc ≡ position (same_spot spot) procs.now) }
{
    match procs.place(spot) {
        None => Ok(None),
        Some(place) => Ok(Some(number_of(place)?)),
    }
}

/// Puts in an operation that is declared.
fn open(
    alloc: Global,
    opening: &mut OperationTable,
    name: &Name,
    scope: Scope,
    head: Head,
) -> Result<(), NoMemory>
    ensures { OnOk result (opening.new ≡ heads.with_opened opening.old ((record { name = name.now; scope = scope; head = head }) ∷ [])) }
{
    let spot = spot_named(name);
    let proc = proc_of(&opening.procs, spot)?;
    let text = name.text.copy(alloc)?;
    let Head {
        parameters,
        returns,
        can_call,
        can_send,
    } = head;
    let operation = Operation {
        name: text,
        component: opening.component,
        scope,
        parameters,
        returns,
        can_call,
        can_send,
        proc,
    };
    opening.operations.insert(spot, operation)
}

fn open_ops(
    alloc: Global,
    opening: &mut OperationTable,
    scope: Scope,
    ops: &[OpItem],
    facts: &Facts,
) -> Result<(), NoMemory>
    ensures { OnOk result (opening.new ≡ heads.with_opened opening.old (heads.ops_opened facts.now opening.old.shapes opening.old.heads scope ops.now)) }
{
    for op in ops {
        let head = op_head(alloc, op, facts, &opening.shapes, &opening.heads)?;
        open(alloc, opening, op_item_name(op), scope, head)?;
    }
    Ok(())
}

/// `sem s` is `op s() {send}`.
fn open_sems(
    alloc: Global,
    opening: &mut OperationTable,
    scope: Scope,
    semaphores: &[Semaphore],
) -> Result<(), NoMemory>
    ensures { OnOk result (opening.new ≡ heads.with_opened opening.old (heads.sems_opened scope semaphores.now)) }
{
    for semaphore in semaphores {
        open(
            alloc,
            opening,
            &semaphore.name,
            scope,
            sent_head(Row::new(alloc)),
        )?;
    }
    Ok(())
}

fn open_spec_item(
    alloc: Global,
    opening: &mut OperationTable,
    item: &SpecItem,
    facts: &Facts,
) -> Result<(), NoMemory>
    ensures { OnOk result (opening.new ≡ heads.with_opened opening.old (heads.spec_item_opened facts.now opening.old.shapes opening.old.heads item.now)) }
{
    match item {
        SpecItem::Op(declared) => {
            open_ops(
                alloc,
                opening,
                Scope::Shared,
                declared.items.as_slice(),
                facts,
            )
        }
        SpecItem::Sem(declared) => {
            open_sems(
                alloc,
                opening,
                Scope::Shared,
                declared.semaphores.as_slice(),
            )
        }
        _ => Ok(()),
    }
}

/// An operation that a proc declares is the process's own.
fn open_inner(
    alloc: Global,
    opening: &mut OperationTable,
    item: &ProcItem,
    facts: &Facts,
) -> Result<(), NoMemory>
    ensures { OnOk result (opening.new ≡ heads.with_opened opening.old (heads.inner_opened facts.now opening.old.shapes opening.old.heads item.now)) }
{
    match item {
        ProcItem::Op(declared) => {
            open_ops(alloc, opening, Scope::Own, declared.items.as_slice(), facts)
        }
        ProcItem::Sem(declared) => {
            open_sems(alloc, opening, Scope::Own, declared.semaphores.as_slice())
        }
        _ => Ok(()),
    }
}

fn open_block(
    alloc: Global,
    opening: &mut OperationTable,
    block: &[ProcItem],
    facts: &Facts,
) -> Result<(), NoMemory>
    ensures { OnOk result (opening.new ≡ heads.with_opened opening.old (heads.block_opened facts.now opening.old.shapes opening.old.heads block.now)) }
{
    for item in block {
        open_inner(alloc, opening, item, facts)?;
    }
    Ok(())
}

/// `procedure f` is `op f` with its proc.
fn open_procedure(
    alloc: Global,
    opening: &mut OperationTable,
    procedure: &Procedure,
    facts: &Facts,
) -> Result<(), NoMemory>
    ensures { OnOk result (opening.new ≡ heads.with_opened opening.old (heads.procedure_opened facts.now opening.old.shapes procedure.now ∷ heads.block_opened facts.now opening.old.shapes opening.old.heads procedure.now.block)) }
{
    let head = head_of(alloc, &procedure.signature, facts, &opening.shapes)?;
    open(alloc, opening, &procedure.name, Scope::Shared, head)?;
    open_block(alloc, opening, procedure.block.as_slice(), facts)
}

/// `process p` is `op p() {send}` with its proc, and an int for each quantifier.
fn open_process(
    alloc: Global,
    opening: &mut OperationTable,
    process: &Process,
    facts: &Facts,
) -> Result<(), NoMemory>
    ensures { OnOk result (opening.new ≡ heads.with_opened opening.old (heads.process_opened process.now ∷ heads.block_opened facts.now opening.old.shapes opening.old.heads process.now.block)) }
{
    let parameters = int_parameters(alloc, process.quantifiers.as_slice())?;
    open(
        alloc,
        opening,
        &process.name,
        Scope::Shared,
        sent_head(parameters),
    )?;
    open_block(alloc, opening, process.block.as_slice(), facts)
}

fn open_item(
    alloc: Global,
    opening: &mut OperationTable,
    item: &Item,
    facts: &Facts,
) -> Result<(), NoMemory>
    ensures { OnOk result (opening.new ≡ heads.with_opened opening.old (heads.item_opened facts.now opening.old.shapes opening.old.heads item.now)) }
{
    match item {
        Item::Spec(inner) => open_spec_item(alloc, opening, inner, facts),
        Item::Proc(proc) => open_block(alloc, opening, proc.block.as_slice(), facts),
        Item::Procedure(procedure) => open_procedure(alloc, opening, procedure, facts),
        Item::Process(process) => open_process(alloc, opening, process, facts),
        Item::Final(last) => open_block(alloc, opening, last.block.as_slice(), facts),
        Item::Statement(_) => Ok(()),
    }
}

fn open_spec(
    alloc: Global,
    opening: &mut OperationTable,
    items: &[SpecItem],
    facts: &Facts,
) -> Result<(), NoMemory>
    ensures { OnOk result (opening.new ≡ heads.with_opened opening.old (flat_map (heads.spec_item_opened facts.now opening.old.shapes opening.old.heads) items.now)) }
{
    for item in items {
        open_spec_item(alloc, opening, item, facts)?;
    }
    Ok(())
}

fn open_body(
    alloc: Global,
    opening: &mut OperationTable,
    items: &[Item],
    facts: &Facts,
) -> Result<(), NoMemory>
    ensures { OnOk result (opening.new ≡ heads.with_opened opening.old (flat_map (heads.item_opened facts.now opening.old.shapes opening.old.heads) items.now)) }
{
    for item in items {
        open_item(alloc, opening, item, facts)?;
    }
    Ok(())
}

/// Puts in the operations that a component declares.
pub fn open_component(
    alloc: Global,
    opening: &mut OperationTable,
    component: &Component,
    facts: &Facts,
) -> Result<(), NoMemory>
    ensures { OnOk result (opening.new ≡ heads.with_opened opening.old (heads.component_opened facts.now opening.old.shapes opening.old.heads component.now)) }
{
    open_spec(alloc, opening, component.spec(), facts)?;
    open_body(alloc, opening, component.body(), facts)
}
