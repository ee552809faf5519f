//! The predefined functions in the core.

ghost use Rattle.std.specs.Prelude.{◌≡◌, IfOk, map, zip};
ghost use Rattle.sr_core.specs.declared.expression.Expr.TheVariants as nodes;
ghost use Rattle.sr_lower_expr.specs.Expressions as exprs;
ghost use Rattle.sr_check_expr.specs.Meanings.{type_of};

use crate::places::{nothing, place_of, value_of};
use crate::scene::{Lowered, Scene};
use crate::shapes::shape_of_type;
use sr_check_expr::{Facts, Named, infer, literals_of, type_of};
use sr_core::{Function, Leaf, Readable, Reading};
use sr_names::Predefined;
use sr_tree::Expr;
use sr_types::Ty;
use sr_value::{Boxed, Fault, NoMemory, Row, Shape, Value, highest, lowest};
use std::alloc::Global;

fn values(alloc: Global, lowered: Row<Lowered>) -> Result<Row<sr_core::Expr>, NoMemory>
    ensures { IfOk result (λ values. values ≡ exprs.values lowered) }
{
    let values = lowered
        .into_vec()
        .into_iter()
        .map(|one| value_of(one))
        .collect(alloc)?;
    Ok(Row::from_vec(values))
}

fn apply(
    alloc: Global,
    function: Function,
    lowered: Row<Lowered>,
) -> Result<sr_core::Expr, NoMemory>
    ensures { IfOk result (λ expr. expr ≡ nodes.Apply function (exprs.values lowered)) }
{
    Ok(sr_core::Expr::Apply {
        function,
        args: values(alloc, lowered)?,
    })
}

/// The least or the greatest value of a shape.
fn end_value(shape: &Shape, is_high: bool) -> Result<Value, Fault>
    ensures { result ≡ exprs.end_value is_high shape.now }
{
    if is_high {
        highest(shape)
    } else {
        lowest(shape)
    }
}

/// The least or the greatest value of a type.
fn end_of(alloc: Global, scene: &Scene, ty: &Ty, is_high: bool) -> Result<sr_core::Expr, NoMemory>
    ensures { IfOk result (λ expr. expr ≡ exprs.end_core scene.now is_high ty.now) }
{
    let shape = Boxed::new(alloc, shape_of_type(alloc, ty, &scene.tables.shapes)?)?;
    match end_value(shape.get(), is_high) {
        Ok(value) => Ok(sr_core::Expr::Leaf(Leaf::Constant(value))),
        Err(_) => Ok(nothing()),
    }
}

/// `low(T)` and `high(T)` are known before the run.
fn ends(
    alloc: Global,
    scene: &Scene,
    trees: &[Expr],
    is_high: bool,
) -> Result<sr_core::Expr, NoMemory>
    ensures { IfOk result (λ expr. expr ≡ exprs.ends_core scene.now is_high (exprs.named_types scene.now.facts trees.now)) }
{
    for tree in trees {
        let typed_expr = Boxed::new(alloc, infer(alloc, tree, &scene.facts)?)?;
        if let Named::Type(ty) = &typed_expr.get().named {
            return end_of(alloc, scene, ty, is_high);
        }
    }
    Ok(nothing())
}

fn is_two(named: &Named) -> bool
    ensures { result ≡ exprs.is_two named.now }
{
    match named {
        Named::Number(number) => *number == 2,
        _ => false,
    }
}

/// Whether the second argument of `lb` or `ub` is the literal 2.
fn is_second(alloc: Global, trees: &[Expr], facts: &Facts) -> Result<bool, NoMemory>
    ensures { IfOk result (λ second. second ≡ exprs.is_second facts.now trees.now) }
{
    match trees {
        [_, number] => {
            let typed_expr = Boxed::new(alloc, infer(alloc, number, facts)?)?;
            Ok(is_two(&typed_expr.get().named))
        }
        [] | [_] | [_, _, _, ..] => Ok(false),
    }
}

/// The number of the dimension is no argument.
fn without_number(trees: &[Expr], lowered: Row<Lowered>) -> Row<Lowered>
    ensures { result ≡ exprs.without_number trees.now lowered }
{
    match trees {
        [] | [_] | [_, _, _, ..] => lowered,
        [_, _] => {
            let mut first = lowered;
            first.truncate(1);
            first
        }
    }
}

/// `lb(a)`, `lb(a, 1)` or `lb(a, 2)`.
fn bound(
    alloc: Global,
    scene: &Scene,
    functions: (Function, Function),
    trees: &[Expr],
    lowered: Row<Lowered>,
) -> Result<sr_core::Expr, NoMemory>
    ensures { IfOk result (λ expr. expr ≡ exprs.bound_core scene.now.facts functions.0 functions.1 trees.now lowered) }
{
    let (first, second) = functions;
    let function = if is_second(alloc, trees, &scene.facts)? {
        second
    } else {
        first
    };
    apply(alloc, function, without_number(trees, lowered))
}

/// How many literals the enumeration of the first argument has.
fn literals_in(alloc: Global, trees: &[Expr], facts: &Facts) -> Result<u32, NoMemory>
    ensures { IfOk result (λ literals. literals ≡ exprs.literals_in facts.now trees.now) }
{
    match trees {
        [] => Ok(0),
        [tree, ..] => {
            let ty = Boxed::new(alloc, type_of(alloc, tree, facts)?)?;
            Ok(literals_of(facts, ty.get()))
        }
    }
}

fn readable(ty: &Ty) -> Readable
    ensures { result ≡ exprs.readable_of ty.now }
{
    match ty {
        Ty::Bool => Readable::Bool,
        Ty::Char => Readable::Char,
        Ty::Str => Readable::Str,
        _ => Readable::Int,
    }
}

/// What an item is read as, by the type of its place.
fn readable_at(alloc: Global, tree: &Expr, facts: &Facts) -> Result<Readable, NoMemory>
    ensures { IfOk result (λ kind. kind ≡ exprs.readable_of (type_of facts.now tree.now)) }
{
    Ok(readable(&type_of(alloc, tree, facts)?))
}

/// What items are read as, by the types of their places.
fn readables(alloc: Global, trees: &[Expr], facts: &Facts) -> Result<Row<Readable>, NoMemory>
    ensures { IfOk result (λ kinds. kinds ≡ map (λ tree. exprs.readable_of (type_of facts.now tree)) trees.now) }
{
    let mut kinds = Row::new(alloc);
    for tree in trees {
        kinds.push(readable_at(alloc, tree, facts)?)?;
    }
    Ok(kinds)
}

/// An item that is read as a kind, at its place.
fn reading(alloc: Global, kind: Readable, lowered: Lowered) -> Reading
    ensures { result ≡ exprs.reading_core (kind, lowered) }
{
    Reading {
        kind,
        place: place_of(alloc, lowered),
    }
}

/// Items that are read as these kinds, at these places.
fn read_as(
    alloc: Global,
    kinds: Row<Readable>,
    lowered: Row<Lowered>,
) -> Result<Row<Reading>, NoMemory>
    ensures { IfOk result (λ readings. readings ≡ map exprs.reading_core (zip kinds lowered)) }
{
    let readings = kinds
        .into_vec()
        .into_iter()
        .zip(lowered.into_vec())
        .map(|(kind, one)| reading(alloc, kind, one))
        .collect(alloc)?;
    Ok(Row::from_vec(readings))
}

/// Items are read by the types of their places.
fn readings(
    alloc: Global,
    trees: &[Expr],
    lowered: Row<Lowered>,
    facts: &Facts,
) -> Result<Row<Reading>, NoMemory>
    ensures { IfOk result (λ readings. readings ≡ exprs.readings_core facts.now trees.now lowered) }
{
    let kinds = readables(alloc, trees, facts)?;
    read_as(alloc, kinds, lowered)
}

/// A call of a predefined function, whose arguments are these in the core.
pub fn function(
    alloc: Global,
    scene: &Scene,
    name: Predefined,
    trees: &[Expr],
    lowered: Row<Lowered>,
) -> Result<sr_core::Expr, NoMemory>
    ensures { IfOk result (λ expr. expr ≡ exprs.function_core scene.now name trees.now lowered) }
{
    match name {
        Predefined::Abs => apply(alloc, Function::Abs, lowered),
        Predefined::Min => apply(alloc, Function::Min, lowered),
        Predefined::Max => apply(alloc, Function::Max, lowered),
        Predefined::Low => ends(alloc, scene, trees, false),
        Predefined::High => ends(alloc, scene, trees, true),
        Predefined::Lb => {
            bound(
                alloc,
                scene,
                (Function::LowBound, Function::LowBound2),
                trees,
                lowered,
            )
        }
        Predefined::Ub => {
            bound(
                alloc,
                scene,
                (Function::HighBound, Function::HighBound2),
                trees,
                lowered,
            )
        }
        Predefined::Length => apply(alloc, Function::Length, lowered),
        Predefined::Pred => apply(alloc, Function::Pred, lowered),
        Predefined::Succ => {
            let literals = literals_in(alloc, trees, &scene.facts)?;
            apply(alloc, Function::Succ { literals }, lowered)
        }
        Predefined::MyResource => Ok(sr_core::Expr::Leaf(Leaf::MyResource)),
        Predefined::MyVm => Ok(sr_core::Expr::Leaf(Leaf::MyMachine)),
        Predefined::Read => {
            Ok(sr_core::Expr::Read(readings(alloc, trees, lowered, &scene.facts)?))
        }
        _ => Ok(nothing()),
    }
}
