//! What expressions are in the core.
ghost use Rattle.std.specs.Prelude.{◌≡◌, ◌∷◌, [], IfOk, map, position};
ghost use Rattle.std.specs.Str.{bytes_eq};
ghost use Rattle.sr_lower_expr.specs.Expressions as exprs;
ghost use Rattle.std.specs.Option.{option_map};
ghost use Rattle.sr_lower_expr.specs.Places as places;
ghost use Rattle.sr_core.specs.declared.expression.Expr.TheVariants as nodes;
ghost use Rattle.sr_core.specs.declared.expression.Expr.{out-Expr};
ghost use Rattle.sr_check_expr.specs.Meanings.{constant_at, params_of, typed_expr};
ghost use Rattle.sr_lower_expr.specs.Operators.{conversion_function};
ghost use Rattle.sr_check_expr.specs.Exprs.{prefix_of};
ghost use Rattle.sr_types.specs.declared.ty.Ty.{out-Ty};

use crate::functions::function;
use crate::invoked::{arguments_of, returned_by_call};
use crate::operators::{binary, conversion_function, prefix_of};
use crate::places::{
    nothing, operation_expr, operation_number, part_of, place_at, place_of, root_of, value_of,
};
use crate::scene::{Lowered, Scene};
use sr_check_expr::{
    Facts, FieldInfo, Info, Named, constant_at, infer, meant_by, name_spot, type_of,
};
use sr_core::{Argument, Function, Leaf, PlaceExpr, Step};
use sr_names::{Meaning, Predefined, Spot};
use sr_tables::{deciding, number_of};
use sr_tree::{Conversion, Create, Expr, Invocation, Name, Part, UnaryOperator};
use sr_types::{Static, Ty};
use sr_value::{Boxed, Duplicate, NoMemory, Row, Shape, Span, Value};
use std::alloc::Global;

/// An invocation of an operation, in the core.
#[derive(Drop)]
pub struct Sent {
    pub target: Boxed<sr_core::Expr>,
    pub args: Row<Argument>,
    /// The type of the value, where the operation returns.
    pub returns: Boxed<Option<Shape>>,
}

/// What is known of a value before the run.
fn static_expr(value: Static) -> sr_core::Expr
    ensures { result ≡ exprs.static_expr value }
{
    match value {
        Static::Known(value) => sr_core::Expr::Leaf(Leaf::Constant(value)),
        Static::Unknown | Static::Faults(_) => nothing(),
    }
}

/// The static constant, operation or variable that is declared at a spot.
fn declared(alloc: Global, scene: &Scene, spot: Spot) -> Result<Lowered, NoMemory>
    ensures { IfOk result (λ lowered. lowered ≡ exprs.named_core scene.now spot (constant_at scene.now.facts spot) (places.operation_at scene.now spot)) }
{
    if let Some(value) = constant_at(&scene.facts, spot) {
        let value = value.copy(alloc)?;
        return Ok(Lowered::Value(sr_core::Expr::Leaf(Leaf::Constant(value))));
    }
    if scene.tables.operations.get(spot).is_some() {
        return Ok(Lowered::Value(operation_expr(scene, spot)?));
    }
    Ok(Lowered::Place(place_at(alloc, root_of(scene, spot)?)))
}

/// What a name is that is used at a span; `EOF` is -1.
fn named(alloc: Global, scene: &Scene, span: Span) -> Result<Lowered, NoMemory>
    ensures { IfOk result (λ lowered. lowered ≡ exprs.name_core scene.now span) }
{
    match scene.facts.uses.get(Spot::of(span)) {
        Some(Meaning::Declared(decl)) => declared(alloc, scene, decl.spot),
        Some(Meaning::Predefined(Predefined::Eof)) => {
            Ok(Lowered::Value(sr_core::Expr::Leaf(Leaf::Constant(Value::Int(-1)))))
        }
        Some(Meaning::Predefined(_)) | None => Ok(Lowered::Value(nothing())),
    }
}

/// The place of the field of this name.
fn field_place(fields: &[FieldInfo], name: &[u8]) -> Option<usize>
    ensures { result ≡ position (λ field. bytes_eq field.name name.now) fields.now }
{
    fields
        .iter()
        .position(|field| field.name.as_bytes() == name)
}

/// The number of the field of this name; 0 where there is none.
fn field_number(scene: &Scene, spot: sr_types::Spot, name: &[u8]) -> Result<u32, NoMemory>
    ensures { IfOk result (λ number. number ≡ exprs.field_number scene.now.facts spot name.now) }
{
    match scene.facts.infos.get(name_spot(spot)) {
        Some(Info::Record(fields)) => {
            number_of(field_place(fields.as_slice(), name).unwrap_or(0))
        }
        _ => Ok(0),
    }
}

/// The operation of this name of a resource's spec.
fn member_spot(facts: &Facts, resource: sr_types::Spot, name: &[u8]) -> Spot
    ensures { result ≡ exprs.spec_operation facts.now resource name.now }
{
    match facts.specs.get(name_spot(resource), name) {
        Some(decl) => decl.spot,
        None => name_spot(resource),
    }
}

/// An operation through a capability.
fn member_expr(
    alloc: Global,
    scene: &Scene,
    owner: Boxed<Lowered>,
    operation: Spot,
) -> Result<sr_core::Expr, NoMemory>
    ensures { IfOk result (λ expr. expr ≡ exprs.member_core scene.now owner operation) }
{
    match scene.tables.operations.get(operation) {
        None => Ok(nothing()),
        Some(_) => Ok(sr_core::Expr::Member {
            of: Boxed::new(alloc, value_of(owner.into_inner()))?,
            op: operation_number(scene, operation)?,
        }),
    }
}

/// How many invocations of an operation are pending.
fn pending(scene: &Scene, operation: Spot) -> Result<sr_core::Expr, NoMemory>
    ensures { IfOk result (λ expr. expr ≡ exprs.pending_core scene.now operation) }
{
    match scene.tables.operations.get(operation) {
        None => Ok(nothing()),
        Some(_) => Ok(sr_core::Expr::Leaf(Leaf::Count {
            op: operation_number(scene, operation)?,
        })),
    }
}

/// An instance of the component that is declared at a spot.
fn instance(
    scene: &Scene,
    spot: Spot,
    args: Row<sr_core::Expr>,
    machine: Boxed<sr_core::Expr>,
) -> Result<sr_core::Expr, NoMemory>
    ensures { IfOk result (λ expr. expr ≡ exprs.instance_core scene.now spot args machine) }
{
    match scene.tables.components.place(spot) {
        None => Ok(nothing()),
        Some(place) => Ok(sr_core::Expr::Create {
            resource: number_of(place)?,
            args,
            machine,
        }),
    }
}

/// A field of a record, or an operation through a capability.
fn member(
    alloc: Global,
    scene: &Scene,
    ty: &Ty,
    owner: Boxed<Lowered>,
    name: &[u8],
) -> Result<Lowered, NoMemory>
    ensures { IfOk result (λ lowered. lowered ≡ exprs.layer_member scene.now owner name.now (out-Ty ty.now)) }
{
    match ty {
        Ty::Rec(spot) => {
            let field = field_number(scene, *spot, name)?;
            let step = Boxed::new(alloc, Step::Field(field))?;
            part_of(alloc, owner.into_inner(), step)
        }
        Ty::Resource(spot) => {
            let operation = member_spot(&scene.facts, *spot, name);
            Ok(Lowered::Value(member_expr(alloc, scene, owner, operation)?))
        }
        _ => Ok(Lowered::Value(nothing())),
    }
}

/// The value of a literal.
fn literal(alloc: Global, tree: &Expr, scene: &Scene) -> Result<sr_core::Expr, NoMemory>
    ensures { IfOk result (λ expr. expr ≡ exprs.static_expr (typed_expr scene.now.facts tree.now).typed.value) }
{
    let typed_expr = infer(alloc, tree, &scene.facts)?;
    Ok(static_expr(typed_expr.typed.value))
}

/// What is sent to an operation of this type.
fn sent_to(
    alloc: Global,
    scene: &Scene,
    ty: &Ty,
    target: Boxed<sr_core::Expr>,
    lowered: Row<Lowered>,
) -> Result<Sent, NoMemory>
    ensures { IfOk result (λ sent. sent ≡ record { target = target; args = exprs.arguments_by (params_of scene.now.facts ty.now) lowered; returns = exprs.layer_returns scene.now ty.now (out-Expr target) }) }
{
    let args = arguments_of(alloc, &scene.facts, ty, lowered)?;
    let returns = returned_by_call(alloc, scene, ty, target.get())?;
    Ok(Sent {
        target,
        args,
        returns: Boxed::new(alloc, returns)?,
    })
}

/// What an expression becomes in the core.
#[tactic(auto, using(crate::proofs::Trees::call_is, crate::proofs::Trees::field_is))]
#[cycle(exprs)]
pub fn lowered(alloc: Global, tree: &Expr, scene: &Scene) -> Result<Lowered, NoMemory>
    ensures { IfOk result (λ lowered. lowered ≡ exprs.core_expr scene.now tree.now) }
{
    match tree {
        Expr::Literal { .. } => Ok(Lowered::Value(literal(alloc, tree, scene)?)),
        Expr::Name(name) => named(alloc, scene, name.span),
        Expr::BasicType { .. } => Ok(Lowered::Value(nothing())),
        Expr::Conversion {
            conversion,
            value,
            ..
        } => {
            let converted = core_conversion(alloc, *conversion, value.get(), scene)?;
            Ok(Lowered::Value(converted))
        }
        Expr::Group { inner, .. } => Ok(Lowered::Value(core_value(alloc, inner.get(), scene)?)),
        Expr::Parts { parts, .. } => {
            let parts = core_parts(alloc, parts.as_slice(), scene)?;
            Ok(Lowered::Value(sr_core::Expr::Array(parts)))
        }
        Expr::Field { record, field, .. } => core_field(alloc, record.get(), field, scene),
        Expr::Index {
            array,
            first,
            second,
            ..
        } => {
            let whole = boxed(alloc, array.get(), scene)?;
            let first = boxed(alloc, first.get(), scene)?;
            let step = core_step(alloc, first, second, scene)?;
            part_of(alloc, whole.into_inner(), step)
        }
        Expr::Call(invocation) => Ok(Lowered::Value(core_call(alloc, invocation, scene)?)),
        Expr::Create(create) => Ok(Lowered::Value(core_create(alloc, create, scene)?)),
        Expr::Unary {
            operator,
            operand,
            ..
        } => Ok(Lowered::Value(core_unary(alloc, *operator, operand.get(), scene)?)),
        Expr::Pending { operation, .. } => {
            Ok(Lowered::Value(pending(scene, meant_by(&scene.facts, operation))?))
        }
        Expr::Binary {
            left,
            operator,
            right,
            ..
        } => {
            let left = boxed_value(alloc, left.get(), scene)?;
            let right = boxed_value(alloc, right.get(), scene)?;
            Ok(Lowered::Value(binary(*operator, left, right)))
        }
    }
}

#[cycle(exprs)]
fn core_conversion(
    alloc: Global,
    conversion: Conversion,
    value: &Expr,
    scene: &Scene,
) -> Result<sr_core::Expr, NoMemory>
    ensures { IfOk result (λ expr. expr ≡ nodes.Apply (conversion_function conversion) (exprs.core_value scene.now value.now ∷ [])) }
{
    let mut args = Row::new(alloc);
    args.push(core_value(alloc, value, scene)?)?;
    Ok(sr_core::Expr::Apply {
        function: conversion_function(conversion),
        args,
    })
}

#[cycle(exprs)]
fn core_unary(
    alloc: Global,
    operator: UnaryOperator,
    operand: &Expr,
    scene: &Scene,
) -> Result<sr_core::Expr, NoMemory>
    ensures { IfOk result (λ expr. expr ≡ nodes.Unary (prefix_of operator) (exprs.core_value scene.now operand.now)) }
{
    Ok(sr_core::Expr::Unary {
        op: prefix_of(operator),
        operand: boxed_value(alloc, operand, scene)?,
    })
}

/// What an expression becomes, in a box, so that it can wait while others are made.
#[cycle(exprs)]
fn boxed(alloc: Global, tree: &Expr, scene: &Scene) -> Result<Boxed<Lowered>, NoMemory>
    ensures { IfOk result (λ lowered. lowered ≡ exprs.core_expr scene.now tree.now) }
{
    Boxed::new(alloc, lowered(alloc, tree, scene)?)
}

/// The value of an expression, in a box, so that it can wait while others are made.
#[cycle(exprs)]
pub fn boxed_value(
    alloc: Global,
    tree: &Expr,
    scene: &Scene,
) -> Result<Boxed<sr_core::Expr>, NoMemory>
    ensures { IfOk result (λ expr. expr ≡ exprs.core_value scene.now tree.now) }
{
    Boxed::new(alloc, core_value(alloc, tree, scene)?)
}

/// The value of an expression.
#[cycle(exprs)]
pub fn core_value(alloc: Global, tree: &Expr, scene: &Scene) -> Result<sr_core::Expr, NoMemory>
    ensures { IfOk result (λ expr. expr ≡ exprs.core_value scene.now tree.now) }
{
    Ok(value_of(lowered(alloc, tree, scene)?))
}

/// The place that an expression is.
pub fn core_place(alloc: Global, tree: &Expr, scene: &Scene) -> Result<PlaceExpr, NoMemory>
    ensures { IfOk result (λ place. place ≡ exprs.core_place scene.now tree.now) }
{
    Ok(place_of(alloc, lowered(alloc, tree, scene)?))
}

/// The value of an expression that may be left out.
pub fn optional_value(
    alloc: Global,
    tree: &Option<Expr>,
    scene: &Scene,
) -> Result<Option<sr_core::Expr>, NoMemory>
    ensures { IfOk result (λ expr. expr ≡ option_map (exprs.core_value scene.now) tree.now) }
{
    match tree {
        None => Ok(None),
        Some(tree) => Ok(Some(core_value(alloc, tree, scene)?)),
    }
}

/// The values of expressions.
#[cycle(exprs)]
pub fn core_values(
    alloc: Global,
    trees: &[Expr],
    scene: &Scene,
) -> Result<Row<sr_core::Expr>, NoMemory>
    ensures { IfOk result (λ values. values ≡ map (exprs.core_value scene.now) trees.now) }
{
    let mut values = Row::new(alloc);
    for tree in trees {
        values.push(core_value(alloc, tree, scene)?)?;
    }
    Ok(values)
}

#[cycle(exprs)]
fn all_lowered(alloc: Global, trees: &[Expr], scene: &Scene) -> Result<Row<Lowered>, NoMemory>
    ensures { IfOk result (λ all. all ≡ map (exprs.core_expr scene.now) trees.now) }
{
    let mut all = Row::new(alloc);
    for tree in trees {
        all.push(lowered(alloc, tree, scene)?)?;
    }
    Ok(all)
}

/// One index or two.
#[cycle(exprs)]
fn core_step(
    alloc: Global,
    first: Boxed<Lowered>,
    second: &Option<Boxed<Expr>>,
    scene: &Scene,
) -> Result<Boxed<Step>, NoMemory>
    ensures { IfOk result (λ step. step ≡ exprs.index_step first (option_map (exprs.told scene.now) second.now)) }
{
    match second {
        None => Boxed::new(alloc, Step::At(value_of(first.into_inner()))),
        Some(second) => {
            let second = core_value(alloc, second.get(), scene)?;
            Boxed::new(alloc, Step::At2(value_of(first.into_inner()), second))
        }
    }
}

/// After a component stands a name of its spec, after a value a field or an operation.
#[cycle(exprs)]
fn core_field(alloc: Global, owner: &Expr, field: &Name, scene: &Scene) -> Result<Lowered, NoMemory>
    ensures { IfOk result (λ lowered. lowered ≡ exprs.field_core scene.now (exprs.with_core scene.now owner.now) field.now (typed_expr scene.now.facts owner.now).named) }
{
    let typed_expr = Boxed::new(alloc, infer(alloc, owner, &scene.facts)?)?;
    if let Named::Component(_) = &typed_expr.get().named {
        return named(alloc, scene, field.span);
    }
    let whole = boxed(alloc, owner, scene)?;
    member(
        alloc,
        scene,
        &typed_expr.get().typed.ty,
        whole,
        field.text.as_bytes(),
    )
}

#[cycle(exprs)]
fn core_parts(alloc: Global, trees: &[Part], scene: &Scene) -> Result<Row<sr_core::Part>, NoMemory>
    ensures { IfOk result (λ parts. parts ≡ map (exprs.core_part scene.now) trees.now) }
{
    let mut parts = Row::new(alloc);
    for tree in trees {
        parts.push(core_part(alloc, tree, scene)?)?;
    }
    Ok(parts)
}

#[cycle(exprs)]
fn core_part(alloc: Global, tree: &Part, scene: &Scene) -> Result<sr_core::Part, NoMemory>
    ensures { IfOk result (λ part. part ≡ exprs.core_part scene.now tree.now) }
{
    match &tree.count {
        None => Ok(sr_core::Part::One(core_value(alloc, tree.value.get(), scene)?)),
        Some(count) => {
            let count = boxed_value(alloc, count.get(), scene)?;
            let value = core_value(alloc, tree.value.get(), scene)?;
            Ok(sr_core::Part::Repeated {
                count: count.into_inner(),
                value,
            })
        }
    }
}

/// An invocation of an operation.
#[tactic(auto, using(crate::proofs::Trees::lowered_of_tree))]
#[cycle(exprs)]
pub fn core_sent(alloc: Global, tree: &Invocation, scene: &Scene) -> Result<Sent, NoMemory>
    ensures { IfOk result (λ sent. sent ≡ exprs.sent_core scene.now (exprs.core_sending scene.now tree.now)) }
{
    let target = boxed_value(alloc, tree.callee.get(), scene)?;
    let lowered = all_lowered(alloc, tree.arguments.as_slice(), scene)?;
    let ty = type_of(alloc, tree.callee.get(), &scene.facts)?;
    sent_to(alloc, scene, &ty, target, lowered)
}

/// A call of an operation.
#[cycle(exprs)]
fn core_called(alloc: Global, tree: &Invocation, scene: &Scene) -> Result<sr_core::Expr, NoMemory>
    ensures { IfOk result (λ expr. expr ≡ exprs.called scene.now (exprs.core_sending scene.now tree.now)) }
{
    let Sent {
        target,
        args,
        returns,
    } = core_sent(alloc, tree, scene)?;
    Ok(sr_core::Expr::Call {
        target,
        args,
        returns: returns.into_inner(),
    })
}

/// A call is of a predefined function, of a record type, or of an operation.
#[tactic(auto, using(crate::proofs::Trees::trees_told, crate::proofs::Trees::lowered_of_tree, crate::proofs::Values::values_of_pairs))]
#[cycle(exprs)]
pub fn core_call(alloc: Global, tree: &Invocation, scene: &Scene) -> Result<sr_core::Expr, NoMemory>
    ensures { IfOk result (λ expr. expr ≡ exprs.call_of scene.now (exprs.core_sending scene.now tree.now)) }
{
    let typed_expr = Boxed::new(alloc, infer(alloc, tree.callee.get(), &scene.facts)?)?;
    match &typed_expr.get().named {
        Named::Predefined(name) => {
            let lowered = all_lowered(alloc, tree.arguments.as_slice(), scene)?;
            function(alloc, scene, *name, tree.arguments.as_slice(), lowered)
        }
        Named::Type(_) => Ok(sr_core::Expr::Apply {
            function: Function::Record,
            args: core_values(alloc, tree.arguments.as_slice(), scene)?,
        }),
        _ => core_called(alloc, tree, scene),
    }
}

/// The machine on which an instance is made: without `on` the creator's.
#[cycle(exprs)]
fn core_machine(
    alloc: Global,
    tree: &Option<Boxed<Expr>>,
    scene: &Scene,
) -> Result<sr_core::Expr, NoMemory>
    ensures { IfOk result (λ expr. expr ≡ exprs.machine_core (option_map (exprs.told scene.now) tree.now)) }
{
    match tree {
        None => Ok(sr_core::Expr::Leaf(Leaf::MyMachine)),
        Some(tree) => core_value(alloc, tree.get(), scene),
    }
}

/// The making of an instance or a machine.
#[cycle(exprs)]
pub fn core_create(alloc: Global, tree: &Create, scene: &Scene) -> Result<sr_core::Expr, NoMemory>
    ensures { IfOk result (λ expr. expr ≡ exprs.core_create scene.now tree.now) }
{
    match tree {
        Create::Resource {
            resource,
            arguments,
            machine,
            ..
        } => {
            let spot = meant_by(&scene.facts, deciding(resource));
            let args = core_values(alloc, arguments.as_slice(), scene)?;
            let machine = Boxed::new(alloc, core_machine(alloc, machine, scene)?)?;
            instance(scene, spot, args, machine)
        }
        Create::Machine { .. } => Ok(sr_core::Expr::Leaf(Leaf::MakeMachine)),
    }
}
