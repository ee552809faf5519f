//! The procs and the statements that wait for invocations, by their numbers.
#![tactic(auto, using(sr_tables::proofs::Appends::spots_append))]

ghost use Rattle.std.specs.Prelude.{◌≡◌, [], ◌∷◌, OnOk, flat_map, if◌then◌else◌, map};
ghost use Rattle.sr_outline.specs.Numbers as numbers;
ghost use Rattle.sr_tables.specs.Tables.{with_spots};
ghost use Rattle.sr_tables.specs.Lists.{lists};

use sr_check_expr::{Facts, function_called, meant_by, operation_meant};
use sr_names::{Predefined, Spot};
use sr_tables::{Spots, spot_named};
use sr_tree::{Arm, BlockItem, Branch, CoArm, Component, Invocation, Item, ProcItem, Statement};
use sr_value::{NoMemory, Span};

/// Whether a predefined function is `P`.
fn is_p(function: Option<Predefined>) -> bool
    ensures { result ≡ numbers.is_p function }
{
    matches!(&function, Some(Predefined::P))
}

/// Whether an invocation is `P(s)`, which is `receive s()`.
pub fn is_wait(invocation: &Invocation, facts: &Facts) -> bool
    ensures { result ≡ numbers.is_wait facts.now invocation.now }
{
    is_p(function_called(invocation, facts))
}

/// The operation that `P` receives.
pub fn wait_operation(span: Span, invocation: &Invocation, facts: &Facts) -> Spot
    ensures { result ≡ numbers.wait_operation facts.now span invocation.now }
{
    match invocation.arguments.as_slice() {
        [semaphore] => operation_meant(semaphore, facts).unwrap_or(Spot::of(span)),
        _ => Spot::of(span),
    }
}

/// Puts in the waiting statements of a block.
#[cycle(sites)]
fn note_block(block: &[BlockItem], facts: &Facts, sites: &mut Spots) -> Result<(), NoMemory>
    ensures { OnOk result (sites.new ≡ with_spots sites.old (numbers.block_sites facts.now block.now)) }
{
    for item in block {
        if let BlockItem::Statement(statement) = item {
            note_statement(statement, facts, sites)?;
        }
    }
    Ok(())
}

#[cycle(sites)]
fn note_branch(branch: &Branch, facts: &Facts, sites: &mut Spots) -> Result<(), NoMemory>
    ensures { OnOk result (sites.new ≡ with_spots sites.old (numbers.branch_sites facts.now branch.now)) }
{
    note_block(branch.block.as_slice(), facts, sites)
}

#[cycle(sites)]
fn note_branches(branches: &[Branch], facts: &Facts, sites: &mut Spots) -> Result<(), NoMemory>
    ensures { OnOk result (sites.new ≡ with_spots sites.old (lists (map (numbers.branch_sites facts.now) branches.now))) }
{
    for branch in branches {
        note_branch(branch, facts, sites)?;
    }
    Ok(())
}

#[cycle(sites)]
fn note_arm(arm: &Arm, facts: &Facts, sites: &mut Spots) -> Result<(), NoMemory>
    ensures { OnOk result (sites.new ≡ with_spots sites.old (numbers.arm_sites facts.now arm.now)) }
{
    note_block(arm.block.as_slice(), facts, sites)
}

#[cycle(sites)]
fn note_arms(arms: &[Arm], facts: &Facts, sites: &mut Spots) -> Result<(), NoMemory>
    ensures { OnOk result (sites.new ≡ with_spots sites.old (lists (map (numbers.arm_sites facts.now) arms.now))) }
{
    for arm in arms {
        note_arm(arm, facts, sites)?;
    }
    Ok(())
}

#[cycle(sites)]
fn note_co_arm(arm: &CoArm, facts: &Facts, sites: &mut Spots) -> Result<(), NoMemory>
    ensures { OnOk result (sites.new ≡ with_spots sites.old (numbers.co_arm_sites facts.now arm.now)) }
{
    match &arm.block {
        None => Ok(()),
        Some(items) => note_block(items.as_slice(), facts, sites),
    }
}

#[cycle(sites)]
fn note_co_arms(arms: &[CoArm], facts: &Facts, sites: &mut Spots) -> Result<(), NoMemory>
    ensures { OnOk result (sites.new ≡ with_spots sites.old (lists (map (numbers.co_arm_sites facts.now) arms.now))) }
{
    for arm in arms {
        note_co_arm(arm, facts, sites)?;
    }
    Ok(())
}

/// Puts in a statement, if it waits.
fn note_waiting(waits: bool, spot: Spot, sites: &mut Spots) -> Result<(), NoMemory>
    ensures { OnOk result (sites.new ≡ with_spots sites.old (if waits then spot ∷ [] else [])) }
{
    if waits {
        return sites.insert(spot);
    }
    Ok(())
}

fn note_call(
    span: Span,
    invocation: &Invocation,
    facts: &Facts,
    sites: &mut Spots,
) -> Result<(), NoMemory>
    ensures { OnOk result (sites.new ≡ with_spots sites.old (numbers.call_sites facts.now span invocation.now)) }
{
    note_waiting(is_wait(invocation, facts), Spot::of(span), sites)
}

/// Puts in the waiting statements of a statement, itself before those in its blocks.
#[cycle(sites)]
fn note_statement(statement: &Statement, facts: &Facts, sites: &mut Spots) -> Result<(), NoMemory>
    ensures { OnOk result (sites.new ≡ with_spots sites.old (numbers.sites_in facts.now statement.now)) }
{
    match statement {
        Statement::Call {
            span,
            invocation,
            ..
        } => { note_call(*span, invocation, facts, sites) }
        Statement::Receive { span, .. } => sites.insert(Spot::of(*span)),
        Statement::If {
            branches,
            otherwise,
            ..
        }
        | Statement::Do {
            branches,
            otherwise,
            ..
        } => {
            note_branches(branches.as_slice(), facts, sites)?;
            match otherwise {
                None => Ok(()),
                Some(items) => note_block(items.as_slice(), facts, sites),
            }
        }
        Statement::ForAll { block, .. } => note_block(block.as_slice(), facts, sites),
        Statement::In {
            span,
            arms,
            otherwise,
        } => {
            sites.insert(Spot::of(*span))?;
            note_arms(arms.as_slice(), facts, sites)?;
            match otherwise {
                None => Ok(()),
                Some(items) => note_block(items.as_slice(), facts, sites),
            }
        }
        Statement::Co { arms, .. } => note_co_arms(arms.as_slice(), facts, sites),
        _ => Ok(()),
    }
}

fn note_inner(block: &[ProcItem], facts: &Facts, sites: &mut Spots) -> Result<(), NoMemory>
    ensures { OnOk result (sites.new ≡ with_spots sites.old (flat_map (numbers.inner_sites facts.now) block.now)) }
{
    for item in block {
        if let ProcItem::Statement(statement) = item {
            note_statement(statement, facts, sites)?;
        }
    }
    Ok(())
}

fn note_item(item: &Item, facts: &Facts, sites: &mut Spots) -> Result<(), NoMemory>
    ensures { OnOk result (sites.new ≡ with_spots sites.old (numbers.item_sites facts.now item.now)) }
{
    match item {
        Item::Spec(_) => Ok(()),
        Item::Proc(proc) => note_inner(proc.block.as_slice(), facts, sites),
        Item::Procedure(procedure) => note_inner(procedure.block.as_slice(), facts, sites),
        Item::Process(process) => note_inner(process.block.as_slice(), facts, sites),
        Item::Final(last) => note_inner(last.block.as_slice(), facts, sites),
        Item::Statement(statement) => note_statement(statement, facts, sites),
    }
}

/// Puts in the waiting statements of a component.
pub fn note_sites(component: &Component, facts: &Facts, sites: &mut Spots) -> Result<(), NoMemory>
    ensures { OnOk result (sites.new ≡ with_spots sites.old (numbers.component_sites facts.now component.now)) }
{
    for item in component.body() {
        note_item(item, facts, sites)?;
    }
    Ok(())
}

/// Puts in the procs of a component, each by the operation that it serves.
pub fn note_procs(component: &Component, facts: &Facts, procs: &mut Spots) -> Result<(), NoMemory>
    ensures { OnOk result (procs.new ≡ with_spots procs.old (numbers.component_served facts.now component.now)) }
{
    for item in component.body() {
        match item {
            Item::Proc(proc) => procs.insert(meant_by(facts, &proc.name))?,
            Item::Procedure(procedure) => procs.insert(spot_named(&procedure.name))?,
            Item::Process(process) => procs.insert(spot_named(&process.name))?,
            _ => {}
        }
    }
    Ok(())
}
