//! What signatures say of operations.
#![tactic(auto, using(crate::proofs::Appends::heads_append))]

ghost use Rattle.std.specs.Prelude.{◌≡◌, ◌++◌, IfOk, OnOk, map, flat_map, [], ◌∷◌};
ghost use Rattle.std.specs.List.{list_any};
ghost use Rattle.std.specs.Option.{option_map};
ghost use Rattle.sr_outline.specs.Heads as heads;
ghost use Rattle.sr_tables.specs.Parts.{in_item, in_component};

use crate::shapes::{decl_shape, formal_shape, type_shape};
use sr_check_expr::{Facts, meant_by};
use sr_core::{FormalShape, Mode, Parameter};
use sr_names::Spot;
use sr_tables::{Head, SpotMap, copy_shape, deciding, spot_named};
use sr_tree::{
    Component, Formal, InvocationKind, Item, OpItem, OpTypeDecl, PassMode, QualifiedName,
    Quantifier, Returned, Signature, SpecItem,
};
use sr_value::{Duplicate, NoMemory, Row, Shape};
use std::alloc::Global;

/// The mode of a formal; by value where no word is written.
fn mode_of(mode: Option<PassMode>) -> Mode
    ensures { result ≡ heads.mode_of mode }
{
    match mode {
        None | Some(PassMode::Val) => Mode::Val,
        Some(PassMode::Var) => Mode::Var,
        Some(PassMode::Res) => Mode::Res,
    }
}

/// Appends formals of one type to others.
fn push_parameters(
    alloc: Global,
    formal: &Formal,
    facts: &Facts,
    table: &SpotMap<Shape>,
    all: &mut Row<Parameter>,
) -> Result<(), NoMemory>
    ensures { OnOk result (all.new ≡ all.old ++ heads.parameters_in facts.now table.now formal.now) }
{
    let mode = mode_of(formal.mode);
    for decl in formal.decls.as_slice() {
        let shape = formal_shape(alloc, &decl.dims, &formal.ty, facts, table)?;
        all.push(Parameter { mode, shape })?;
    }
    Ok(())
}

/// The formals that are declared.
pub fn parameters_of(
    alloc: Global,
    formals: &[Formal],
    facts: &Facts,
    table: &SpotMap<Shape>,
) -> Result<Row<Parameter>, NoMemory>
    ensures { IfOk result (λ parameters. parameters ≡ heads.parameters_of facts.now table.now formals.now) }
{
    let mut all = Row::new(alloc);
    for formal in formals {
        push_parameters(alloc, formal, facts, table, &mut all)?;
    }
    Ok(all)
}

fn returned_shape(
    alloc: Global,
    returned: &Option<Returned>,
    facts: &Facts,
    table: &SpotMap<Shape>,
) -> Result<Option<Shape>, NoMemory>
    ensures { IfOk result (λ shape. shape ≡ option_map (heads.returned_shape facts.now table.now) returned.now) }
{
    match returned {
        None => Ok(None),
        Some(returned) => {
            let item = type_shape(alloc, returned.ty.get(), facts, table)?;
            Ok(Some(decl_shape(alloc, &returned.decl.dims, item, facts)?))
        }
    }
}

fn same_kind(kind: InvocationKind, other: InvocationKind) -> bool
    ensures { result ≡ heads.same_kind kind other }
{
    match kind {
        InvocationKind::Call => match other {
            InvocationKind::Call => true,
            InvocationKind::Send => false,
        },
        InvocationKind::Send => match other {
            InvocationKind::Call => false,
            InvocationKind::Send => true,
        },
    }
}

fn is_written(kinds: &[InvocationKind], form: InvocationKind) -> bool
    ensures { result ≡ list_any (λ kind. heads.same_kind kind form) kinds.now }
{
    for kind in kinds {
        if same_kind(*kind, form) {
            return true;
        }
    }
    false
}

/// Whether a form is among those that are written; where none is written, both are allowed.
fn allows(kinds: &[InvocationKind], form: InvocationKind) -> bool
    ensures { result ≡ heads.allows kinds.now form }
{
    kinds.is_empty() || is_written(kinds, form)
}

/// What a signature says.
pub fn head_of(
    alloc: Global,
    signature: &Signature,
    facts: &Facts,
    table: &SpotMap<Shape>,
) -> Result<Head, NoMemory>
    ensures { IfOk result (λ head. head ≡ heads.head_of facts.now table.now signature.now) }
{
    Ok(Head {
        parameters: parameters_of(alloc, signature.formals.as_slice(), facts, table)?,
        returns: returned_shape(alloc, &signature.returned, facts, table)?,
        can_call: allows(signature.kinds.as_slice(), InvocationKind::Call),
        can_send: allows(signature.kinds.as_slice(), InvocationKind::Send),
    })
}

/// An operation that is sent to, without results.
pub fn sent_head(parameters: Row<Parameter>) -> Head
    ensures { result ≡ heads.sent_head parameters }
{
    Head {
        parameters,
        returns: None,
        can_call: false,
        can_send: true,
    }
}

/// An int for each quantifier of a process.
pub fn int_parameters(alloc: Global, quantifiers: &[Quantifier]) -> Result<Row<Parameter>, NoMemory>
    ensures { IfOk result (λ parameters. parameters ≡ map heads.int_parameter quantifiers.now) }
{
    let mut all = Row::new(alloc);
    for _quantifier in quantifiers {
        all.push(Parameter {
            mode: Mode::Val,
            shape: FormalShape::Fixed(Shape::Int),
        })?;
    }
    Ok(all)
}

fn copy_parameters(alloc: Global, parameters: &[Parameter]) -> Result<Row<Parameter>, NoMemory>
    ensures { IfOk result (λ copies. copies ≡ parameters.now) }
{
    let mut copies = Row::new(alloc);
    for parameter in parameters {
        copies.push(Parameter {
            mode: parameter.mode,
            shape: parameter.shape.copy(alloc)?,
        })?;
    }
    Ok(copies)
}

fn copy_head(alloc: Global, head: &Head) -> Result<Head, NoMemory>
    ensures { IfOk result (λ copy. copy ≡ head.now) }
{
    Ok(Head {
        parameters: copy_parameters(alloc, head.parameters.as_slice())?,
        returns: copy_shape(alloc, &head.returns)?,
        can_call: head.can_call,
        can_send: head.can_send,
    })
}

fn head_at(alloc: Global, named: &SpotMap<Head>, spot: Spot) -> Result<Head, NoMemory>
    ensures { IfOk result (λ head. head ≡ heads.head_at named.now spot) }
{
    match named.get(spot) {
        Some(head) => copy_head(alloc, head),
        None => Ok(sent_head(Row::new(alloc))),
    }
}

/// What the signature says that a name means.
fn named_head(
    alloc: Global,
    name: &QualifiedName,
    facts: &Facts,
    named: &SpotMap<Head>,
) -> Result<Head, NoMemory>
    ensures { IfOk result (λ head. head ≡ heads.named_head facts.now named.now name.now) }
{
    head_at(alloc, named, meant_by(facts, deciding(name)))
}

/// What is said of an operation, by its signature or by the name of one.
pub fn op_head(
    alloc: Global,
    op: &OpItem,
    facts: &Facts,
    table: &SpotMap<Shape>,
    named: &SpotMap<Head>,
) -> Result<Head, NoMemory>
    ensures { IfOk result (λ head. head ≡ heads.op_head facts.now table.now named.now op.now) }
{
    match op {
        OpItem::Signed { signature, .. } => head_of(alloc, signature, facts, table),
        OpItem::Typed { optype, .. } => named_head(alloc, optype, facts, named),
    }
}

fn declare_head(
    alloc: Global,
    named: &OpTypeDecl,
    facts: &Facts,
    table: &SpotMap<Shape>,
    all: &mut SpotMap<Head>,
) -> Result<(), NoMemory>
    ensures { OnOk result (all.new ≡ heads.with_heads facts.now table.now all.old (named.now ∷ [])) }
{
    let head = head_of(alloc, &named.signature, facts, table)?;
    all.insert(spot_named(&named.name), head)
}

fn declare_spec(
    alloc: Global,
    items: &[SpecItem],
    facts: &Facts,
    table: &SpotMap<Shape>,
    all: &mut SpotMap<Head>,
) -> Result<(), NoMemory>
    ensures { OnOk result (all.new ≡ heads.with_heads facts.now table.now all.old (flat_map heads.spec_item_optypes items.now)) }
{
    for item in items {
        if let SpecItem::OpType(named) = item {
            declare_head(alloc, named, facts, table, all)?;
        }
    }
    Ok(())
}

fn declare_body(
    alloc: Global,
    items: &[Item],
    facts: &Facts,
    table: &SpotMap<Shape>,
    all: &mut SpotMap<Head>,
) -> Result<(), NoMemory>
    ensures { OnOk result (all.new ≡ heads.with_heads facts.now table.now all.old (flat_map (in_item heads.spec_item_optypes) items.now)) }
{
    for item in items {
        if let Item::Spec(SpecItem::OpType(named)) = item {
            declare_head(alloc, named, facts, table, all)?;
        }
    }
    Ok(())
}

/// Puts in the signatures that a component names.
pub fn declare_heads(
    alloc: Global,
    component: &Component,
    facts: &Facts,
    table: &SpotMap<Shape>,
    all: &mut SpotMap<Head>,
) -> Result<(), NoMemory>
    ensures { OnOk result (all.new ≡ heads.with_heads facts.now table.now all.old (in_component heads.spec_item_optypes component.now)) }
{
    declare_spec(alloc, component.spec(), facts, table, all)?;
    declare_body(alloc, component.body(), facts, table, all)
}
