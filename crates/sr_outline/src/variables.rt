//! The variables of components and of processes, by their numbers.
#![tactic(auto, using(sr_tables::proofs::Appends::spots_append))]

ghost use Rattle.std.specs.Prelude.{◌≡◌, IfOk, OnOk, ◌++◌, map, flat_map, option_to_list};
ghost use Rattle.std.specs.List.{enumerate_from};
ghost use Rattle.sr_outline.specs.Numbers as numbers;
ghost use Rattle.sr_tables.specs.Tables.{with_spots, each_once, with_entries};
ghost use Rattle.sr_tables.specs.Lists.{lists};
ghost use Rattle.sr_tables.specs.Parts.{spot_named};

use crate::waits::{is_wait, wait_operation};
use sr_check_expr::{Facts, is_constant, meant_by, returns_something};
use sr_names::Spot;
use sr_tables::{SharedVariable, SpotMap, Spots, number_of, spot_named};
use sr_tree::{
    Arm, BlockItem, Branch, CoArm, Component, ConstDecl, Expr, Formal, Invocation, Item, Name,
    ProcItem, Quantifier, Signature, SpecItem, Statement, VarDecl,
};
use sr_value::{NoMemory, Row, Span};
use std::alloc::Global;

/// Puts in a constant that isn't static.
#[tactic(auto, using(sr_tables::proofs::Appends::spots_append), unfolding(crate::specs::Numbers::const_names))]
fn note_const(constant: &ConstDecl, facts: &Facts, names: &mut Spots) -> Result<(), NoMemory>
    ensures { OnOk result (names.new ≡ with_spots names.old (numbers.const_names facts.now constant.now)) }
{
    let spot = spot_named(&constant.name);
    if is_constant(facts, spot) {
        return Ok(());
    }
    names.insert(spot)
}

#[tactic(auto, using(sr_tables::proofs::Appends::spots_append), unfolding(crate::specs::Numbers::var_names))]
fn note_var(variables: &VarDecl, names: &mut Spots) -> Result<(), NoMemory>
    ensures { OnOk result (names.new ≡ with_spots names.old (numbers.var_names variables.now)) }
{
    for decl in variables.decls.as_slice() {
        names.insert(spot_named(&decl.name))?;
    }
    Ok(())
}

fn note_formal(formal: &Formal, names: &mut Spots) -> Result<(), NoMemory>
    ensures { OnOk result (names.new ≡ with_spots names.old (numbers.formal_spots formal.now)) }
{
    for decl in formal.decls.as_slice() {
        names.insert(spot_named(&decl.name))?;
    }
    Ok(())
}

fn note_formals(formals: &[Formal], names: &mut Spots) -> Result<(), NoMemory>
    ensures { OnOk result (names.new ≡ with_spots names.old (numbers.formal_names formals.now)) }
{
    for formal in formals {
        note_formal(formal, names)?;
    }
    Ok(())
}

fn note_names(written: &[Name], names: &mut Spots) -> Result<(), NoMemory>
    ensures { OnOk result (names.new ≡ with_spots names.old (map spot_named written.now)) }
{
    for name in written {
        names.insert(spot_named(name))?;
    }
    Ok(())
}

fn note_optional(spot: Option<Spot>, names: &mut Spots) -> Result<(), NoMemory>
    ensures { OnOk result (names.new ≡ with_spots names.old (option_to_list spot)) }
{
    match spot {
        None => Ok(()),
        Some(spot) => names.insert(spot),
    }
}

fn note_quantifiers(quantifiers: &[Quantifier], names: &mut Spots) -> Result<(), NoMemory>
    ensures { OnOk result (names.new ≡ with_spots names.old (numbers.quantifier_names quantifiers.now)) }
{
    for quantifier in quantifiers {
        names.insert(spot_named(&quantifier.name))?;
    }
    Ok(())
}

fn push_formal(formal: &Formal, spots: &mut Row<Spot>) -> Result<(), NoMemory>
    ensures { OnOk result (spots.new ≡ spots.old ++ numbers.formal_spots formal.now) }
{
    for decl in formal.decls.as_slice() {
        spots.push(spot_named(&decl.name))?;
    }
    Ok(())
}

/// The names of the formals that are declared.
pub fn formal_spots(alloc: Global, formals: &[Formal]) -> Result<Row<Spot>, NoMemory>
    ensures { IfOk result (λ spots. spots ≡ numbers.formal_names formals.now) }
{
    let mut spots = Row::new(alloc);
    for formal in formals {
        push_formal(formal, &mut spots)?;
    }
    Ok(spots)
}

/// These names.
pub fn name_spots(alloc: Global, names: &[Name]) -> Result<Row<Spot>, NoMemory>
    ensures { IfOk result (λ spots. spots ≡ map spot_named names.now) }
{
    let mut spots = Row::new(alloc);
    for name in names {
        spots.push(spot_named(name))?;
    }
    Ok(spots)
}

/// The name of what a proc or an arm returns.
pub fn returned_spot(returned: &Option<Name>) -> Option<Spot>
    ensures { option_to_list result ≡ numbers.returned_names returned.now }
{
    match returned {
        None => None,
        Some(name) => Some(spot_named(name)),
    }
}

/// The names of quantifiers.
pub fn quantifier_spots(alloc: Global, quantifiers: &[Quantifier]) -> Result<Row<Spot>, NoMemory>
    ensures { IfOk result (λ spots. spots ≡ numbers.quantifier_names quantifiers.now) }
{
    let mut spots = Row::new(alloc);
    for quantifier in quantifiers {
        spots.push(spot_named(&quantifier.name))?;
    }
    Ok(spots)
}

/// The name of what a signature returns.
pub fn signature_returned(signature: &Signature) -> Option<Spot>
    ensures { option_to_list result ≡ numbers.signature_returned signature.now }
{
    match &signature.returned {
        None => None,
        Some(returned) => Some(spot_named(&returned.decl.name)),
    }
}

/// What a received operation returns goes by the statement that receives it.
pub fn receive_returned(span: Span, operation: Spot, facts: &Facts) -> Option<Spot>
    ensures { option_to_list result ≡ numbers.receive_returned facts.now span operation }
{
    if returns_something(facts, operation) {
        return Some(Spot::of(span));
    }
    None
}

/// The formals of a `receive` go by the places that they are assigned to.
pub fn receive_spots(alloc: Global, places: &[Expr]) -> Result<Row<Spot>, NoMemory>
    ensures { IfOk result (λ spots. spots ≡ numbers.place_spots places.now) }
{
    let mut spots = Row::new(alloc);
    for place in places {
        spots.push(Spot::of(place.span()))?;
    }
    Ok(spots)
}

fn note_places(places: &[Expr], names: &mut Spots) -> Result<(), NoMemory>
    ensures { OnOk result (names.new ≡ with_spots names.old (numbers.place_spots places.now)) }
{
    for place in places {
        names.insert(Spot::of(place.span()))?;
    }
    Ok(())
}

fn note_receive(
    span: Span,
    operation: Spot,
    places: &[Expr],
    facts: &Facts,
    names: &mut Spots,
) -> Result<(), NoMemory>
    ensures { OnOk result (names.new ≡ with_spots names.old (numbers.receive_names facts.now span operation places.now)) }
{
    note_places(places, names)?;
    note_optional(receive_returned(span, operation, facts), names)
}

/// Puts in the variables of a `receive` of a named operation.
fn note_received(
    span: Span,
    operation: &Name,
    places: &[Expr],
    facts: &Facts,
    names: &mut Spots,
) -> Result<(), NoMemory>
    ensures { OnOk result (names.new ≡ with_spots names.old (numbers.received_names facts.now span operation.now places.now)) }
{
    note_receive(span, meant_by(facts, operation), places, facts, names)
}

#[tactic(auto, using(sr_tables::proofs::Appends::spots_append), unfolding(crate::specs::Numbers::call_names))]
fn note_call(
    span: Span,
    invocation: &Invocation,
    facts: &Facts,
    names: &mut Spots,
) -> Result<(), NoMemory>
    ensures { OnOk result (names.new ≡ with_spots names.old (numbers.call_names facts.now span invocation.now)) }
{
    if !is_wait(invocation, facts) {
        return Ok(());
    }
    let operation = wait_operation(span, invocation, facts);
    note_receive(span, operation, &[], facts, names)
}

#[cycle(names)]
fn note_item(item: &BlockItem, facts: &Facts, names: &mut Spots) -> Result<(), NoMemory>
    ensures { OnOk result (names.new ≡ with_spots names.old (numbers.item_in facts.now item.now)) }
{
    match item {
        BlockItem::Const(constant) => note_const(constant, facts, names),
        BlockItem::Var(variables) => note_var(variables, names),
        BlockItem::Statement(statement) => note_statement(statement, facts, names),
    }
}

#[cycle(names)]
fn note_block(block: &[BlockItem], facts: &Facts, names: &mut Spots) -> Result<(), NoMemory>
    ensures { OnOk result (names.new ≡ with_spots names.old (numbers.block_in facts.now block.now)) }
{
    for item in block {
        note_item(item, facts, names)?;
    }
    Ok(())
}

#[cycle(names)]
fn note_branch(branch: &Branch, facts: &Facts, names: &mut Spots) -> Result<(), NoMemory>
    ensures { OnOk result (names.new ≡ with_spots names.old (numbers.branch_in facts.now branch.now)) }
{
    note_block(branch.block.as_slice(), facts, names)
}

#[cycle(names)]
fn note_branches(branches: &[Branch], facts: &Facts, names: &mut Spots) -> Result<(), NoMemory>
    ensures { OnOk result (names.new ≡ with_spots names.old (lists (map (numbers.branch_in facts.now) branches.now))) }
{
    for branch in branches {
        note_branch(branch, facts, names)?;
    }
    Ok(())
}

#[cycle(names)]
fn note_arms(arms: &[Arm], facts: &Facts, names: &mut Spots) -> Result<(), NoMemory>
    ensures { OnOk result (names.new ≡ with_spots names.old (lists (map (numbers.arm_in facts.now) arms.now))) }
{
    for arm in arms {
        note_arm(arm, facts, names)?;
    }
    Ok(())
}

#[cycle(names)]
fn note_arm(arm: &Arm, facts: &Facts, names: &mut Spots) -> Result<(), NoMemory>
    ensures { OnOk result (names.new ≡ with_spots names.old (numbers.arm_in facts.now arm.now)) }
{
    note_names(arm.formals.as_slice(), names)?;
    note_optional(returned_spot(&arm.returned), names)?;
    note_block(arm.block.as_slice(), facts, names)
}

#[cycle(names)]
fn note_co_arms(arms: &[CoArm], facts: &Facts, names: &mut Spots) -> Result<(), NoMemory>
    ensures { OnOk result (names.new ≡ with_spots names.old (lists (map (numbers.co_arm_in facts.now) arms.now))) }
{
    for arm in arms {
        note_co_arm(arm, facts, names)?;
    }
    Ok(())
}

#[cycle(names)]
fn note_co_arm(arm: &CoArm, facts: &Facts, names: &mut Spots) -> Result<(), NoMemory>
    ensures { OnOk result (names.new ≡ with_spots names.old (numbers.co_arm_in facts.now arm.now)) }
{
    note_quantifiers(arm.quantifiers.as_slice(), names)?;
    match &arm.block {
        None => Ok(()),
        Some(items) => note_block(items.as_slice(), facts, names),
    }
}

/// Puts in the variables that a statement declares.
#[cycle(names)]
fn note_statement(statement: &Statement, facts: &Facts, names: &mut Spots) -> Result<(), NoMemory>
    ensures { OnOk result (names.new ≡ with_spots names.old (numbers.names_in facts.now statement.now)) }
{
    match statement {
        Statement::Call {
            span,
            invocation,
            ..
        } => { note_call(*span, invocation, facts, names) }
        Statement::Receive {
            span,
            operation,
            places,
        } => { note_received(*span, operation, places.as_slice(), facts, names) }
        Statement::If {
            branches,
            otherwise,
            ..
        }
        | Statement::Do {
            branches,
            otherwise,
            ..
        } => {
            note_branches(branches.as_slice(), facts, names)?;
            match otherwise {
                None => Ok(()),
                Some(items) => note_block(items.as_slice(), facts, names),
            }
        }
        Statement::ForAll {
            quantifiers,
            block,
            ..
        } => {
            note_quantifiers(quantifiers.as_slice(), names)?;
            note_block(block.as_slice(), facts, names)
        }
        Statement::In {
            arms,
            otherwise,
            ..
        } => {
            note_arms(arms.as_slice(), facts, names)?;
            match otherwise {
                None => Ok(()),
                Some(items) => note_block(items.as_slice(), facts, names),
            }
        }
        Statement::Co { arms, .. } => note_co_arms(arms.as_slice(), facts, names),
        _ => Ok(()),
    }
}

fn note_inner(item: &ProcItem, facts: &Facts, names: &mut Spots) -> Result<(), NoMemory>
    ensures { OnOk result (names.new ≡ with_spots names.old (numbers.inner_names facts.now item.now)) }
{
    match item {
        ProcItem::Const(constant) => note_const(constant, facts, names),
        ProcItem::Var(variables) => note_var(variables, names),
        ProcItem::Op(_) | ProcItem::Sem(_) => Ok(()),
        ProcItem::Statement(statement) => note_statement(statement, facts, names),
    }
}

fn note_inners(block: &[ProcItem], facts: &Facts, names: &mut Spots) -> Result<(), NoMemory>
    ensures { OnOk result (names.new ≡ with_spots names.old (flat_map (numbers.inner_names facts.now) block.now)) }
{
    for item in block {
        note_inner(item, facts, names)?;
    }
    Ok(())
}

fn note_spots(spots: &[Spot], names: &mut Spots) -> Result<(), NoMemory>
    ensures { OnOk result (names.new ≡ with_spots names.old spots.now) }
{
    for spot in spots {
        names.insert(*spot)?;
    }
    Ok(())
}

/// The own variables of a proc or final code: its formals, the name of what it returns, and what its block declares.
pub fn own_spots(
    alloc: Global,
    formals: &[Spot],
    returned: Option<Spot>,
    block: &[ProcItem],
    facts: &Facts,
) -> Result<Spots, NoMemory>
    ensures { IfOk result (λ spots. spots ≡ numbers.own_spots facts.now formals.now (option_to_list returned) block.now) }
{
    let mut names = Spots::new(alloc);
    note_spots(formals, &mut names)?;
    note_optional(returned, &mut names)?;
    note_inners(block, facts, &mut names)?;
    Ok(names)
}

fn note_initial_item(item: &Item, facts: &Facts, names: &mut Spots) -> Result<(), NoMemory>
    ensures { OnOk result (names.new ≡ with_spots names.old (numbers.item_names facts.now item.now)) }
{
    match item {
        Item::Process(process) => note_quantifiers(process.quantifiers.as_slice(), names),
        Item::Statement(statement) => note_statement(statement, facts, names),
        _ => Ok(()),
    }
}

/// The own variables of the initial code of a component.
pub fn initial_spots(alloc: Global, component: &Component, facts: &Facts) -> Result<Spots, NoMemory>
    ensures { IfOk result (λ spots. spots ≡ numbers.initial_spots facts.now component.now) }
{
    let mut names = Spots::new(alloc);
    for item in component.body() {
        note_initial_item(item, facts, &mut names)?;
    }
    Ok(names)
}

fn note_shared_spec(item: &SpecItem, facts: &Facts, names: &mut Spots) -> Result<(), NoMemory>
    ensures { OnOk result (names.new ≡ with_spots names.old (numbers.spec_item_shared facts.now item.now)) }
{
    match item {
        SpecItem::Const(constant) => note_const(constant, facts, names),
        SpecItem::Var(variables) => note_var(variables, names),
        _ => Ok(()),
    }
}

fn note_shared_specs(items: &[SpecItem], facts: &Facts, names: &mut Spots) -> Result<(), NoMemory>
    ensures { OnOk result (names.new ≡ with_spots names.old (flat_map (numbers.spec_item_shared facts.now) items.now)) }
{
    for item in items {
        note_shared_spec(item, facts, names)?;
    }
    Ok(())
}

fn note_shared_items(items: &[Item], facts: &Facts, names: &mut Spots) -> Result<(), NoMemory>
    ensures { OnOk result (names.new ≡ with_spots names.old (flat_map (numbers.item_shared facts.now) items.now)) }
{
    for item in items {
        if let Item::Spec(inner) = item {
            note_shared_spec(inner, facts, names)?;
        }
    }
    Ok(())
}

/// The shared variables of a component: its formals, then what its declarations declare.
fn shared_spots(alloc: Global, component: &Component, facts: &Facts) -> Result<Spots, NoMemory>
    ensures { IfOk result (λ spots. spots ≡ each_once (numbers.shared_spots facts.now component.now)) }
{
    let mut names = Spots::new(alloc);
    note_formals(component.formals(), &mut names)?;
    note_shared_specs(component.spec(), facts, &mut names)?;
    note_shared_items(component.body(), facts, &mut names)?;
    Ok(names)
}

/// Puts in the variables of a component, each with its place among them.
fn note_numbered(
    spots: &[Spot],
    component: u32,
    shared: &mut SpotMap<SharedVariable>,
) -> Result<(), NoMemory>
    ensures { OnOk result (shared.new ≡ with_entries shared.old (numbers.shared_entries component (enumerate_from 0 spots.now))) }
{
    let mut place = 0;
    for spot in spots {
        let var = number_of(place)?;
        shared.insert(*spot, SharedVariable { component, var })?;
        place += 1;
    }
    Ok(())
}

/// Puts in the shared variables of a component, each with its number in it.
pub fn note_shared(
    alloc: Global,
    component: &Component,
    number: u32,
    facts: &Facts,
    shared: &mut SpotMap<SharedVariable>,
) -> Result<(), NoMemory>
    ensures { OnOk result (shared.new ≡ with_entries shared.old (numbers.component_shared facts.now number component.now)) }
{
    let names = shared_spots(alloc, component, facts)?;
    note_numbered(names.as_slice(), number, shared)
}
