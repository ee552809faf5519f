//! Whose variables and operations names mean, and the places that are made of them.
ghost use Rattle.std.specs.Prelude.{◌≡◌, ◌==◌, IfOk, option_to_list, position};
ghost use Rattle.sr_core.specs.declared.statement.Scope.TheVariants.{Shared};
ghost use Rattle.sr_lower_expr.specs.Places as places;
ghost use Rattle.sr_tables.specs.Tables.{found_at};

use crate::scene::{Lowered, Scene};
use sr_core::{
    Expr, Formal, Home, Leaf, Operation, OperationOwner, Parameter, PlaceExpr, Returned, Root,
    Scope, Step,
};
use sr_names::Spot;
use sr_tables::{SpotMap, copy_shape, number_of};
use sr_value::{Boxed, Duplicate, NoMemory, Row, Shape, Value};
use std::alloc::Global;

/// The number of an own variable.
pub fn own_number(scene: &Scene, spot: Spot) -> Result<u32, NoMemory>
    ensures { IfOk result (λ number. number ≡ places.own_number scene.now spot) }
{
    scene.own.number(spot)
}

/// The number of an operation.
pub fn operation_number(scene: &Scene, spot: Spot) -> Result<u32, NoMemory>
    ensures { IfOk result (λ number. number ≡ places.operation_number scene.now spot) }
{
    scene.tables.operations.number(spot)
}

/// The place of a global among others.
fn import_place(imports: &[u32], global: u32) -> Option<usize>
    ensures { result ≡ position (λ import. import == global) imports.now }
{
    imports.iter().position(|import| *import == global)
}

/// The place of a global in the list of those that the component imports.
fn import_number(scene: &Scene, global: u32) -> Result<Option<u32>, NoMemory>
    ensures { IfOk result (λ number. number ≡ places.import_place scene.now global) }
{
    match import_place(scene.imports.as_slice(), global) {
        None => Ok(None),
        Some(place) => Ok(Some(number_of(place)?)),
    }
}

fn home_of(scene: &Scene, component: u32) -> Result<Home, NoMemory>
    ensures { IfOk result (λ home. home ≡ places.home_of scene.now component) }
{
    if component == scene.component {
        return Ok(Home::Mine);
    }
    match import_number(scene, component)? {
        None => Ok(Home::Mine),
        Some(import) => Ok(Home::Imported(import)),
    }
}

/// The variable that stands where a program is refused.
fn nowhere() -> Root
    ensures { result ≡ places.nowhere }
{
    Root::Shared {
        home: Home::Mine,
        var: 0,
    }
}

/// An own variable of the process.
fn own_root(scene: &Scene, spot: Spot) -> Result<Root, NoMemory>
    ensures { IfOk result (λ root. root ≡ places.own_root scene.now spot) }
{
    match scene.own.place(spot) {
        None => Ok(nowhere()),
        Some(place) => Ok(Root::Own(number_of(place)?)),
    }
}

/// A variable of a component is shared, and every other is the process's own.
pub fn root_of(scene: &Scene, spot: Spot) -> Result<Root, NoMemory>
    ensures { IfOk result (λ root. root ≡ places.root_of scene.now spot) }
{
    match scene.tables.shared.get(spot) {
        Some(variable) => Ok(Root::Shared {
            home: home_of(scene, variable.component)?,
            var: variable.var,
        }),
        None => own_root(scene, spot),
    }
}

/// The place that is a variable.
pub fn place_at(alloc: Global, root: Root) -> PlaceExpr
    ensures { result ≡ places.place_at root }
{
    PlaceExpr {
        root,
        path: Row::new(alloc),
    }
}

/// The place that is an own variable.
pub fn own_place(alloc: Global, scene: &Scene, spot: Spot) -> Result<PlaceExpr, NoMemory>
    ensures { IfOk result (λ place. place ≡ places.own_place scene.now spot) }
{
    Ok(place_at(alloc, own_root(scene, spot)?))
}

/// Whether an operation belongs to the instance or to the process. One that isn't there, as in no accepted program,
/// counts as the instance's.
pub fn scope_of_operation(operations: &SpotMap<Operation>, spot: Spot) -> Scope
    ensures { result ≡ places.scope_in (found_at operations.now spot) }
{
    match operations.get(spot) {
        None => Scope::Shared,
        Some(operation) => operation.scope,
    }
}

/// Whose an operation of a component is.
fn shared_whose(scene: &Scene, component: u32) -> Result<OperationOwner, NoMemory>
    ensures { IfOk result (λ whose. whose ≡ places.whose_by scene.now Shared component) }
{
    if component == scene.component {
        return Ok(OperationOwner::Mine);
    }
    match import_number(scene, component)? {
        None => Ok(OperationOwner::Mine),
        Some(import) => Ok(OperationOwner::Imported(import)),
    }
}

fn whose_of(scene: &Scene, operation: &Operation) -> Result<OperationOwner, NoMemory>
    ensures { IfOk result (λ whose. whose ≡ places.whose_by scene.now operation.now.scope operation.now.component) }
{
    match operation.scope {
        Scope::Own => Ok(OperationOwner::Process),
        Scope::Shared => shared_whose(scene, operation.component),
    }
}

/// The capability of an operation.
pub fn operation_expr(scene: &Scene, spot: Spot) -> Result<Expr, NoMemory>
    ensures { IfOk result (λ expr. expr ≡ places.operation_expr scene.now spot) }
{
    match scene.tables.operations.get(spot) {
        None => Ok(nothing()),
        Some(operation) => Ok(Expr::Leaf(Leaf::Operation {
            whose: whose_of(scene, operation)?,
            op: operation_number(scene, spot)?,
        })),
    }
}

/// What stands where a program is refused.
pub fn nothing() -> Expr
    ensures { result ≡ places.nothing }
{
    Expr::Leaf(Leaf::Constant(Value::Bool(false)))
}

/// The value at a place is loaded.
pub fn value_of(lowered: Lowered) -> Expr
    ensures { result ≡ places.value_of lowered }
{
    match lowered {
        Lowered::Place(place) => Expr::Load(place),
        Lowered::Value(value) => value,
    }
}

/// The place, where the expression is one.
pub fn place_of(alloc: Global, lowered: Lowered) -> PlaceExpr
    ensures { result ≡ places.place_of lowered }
{
    match lowered {
        Lowered::Place(place) => place,
        Lowered::Value(value) => {
            drop(value);
            place_at(alloc, nowhere())
        }
    }
}

/// A part of a value at a place is at a place too.
pub fn part_of(alloc: Global, whole: Lowered, step: Boxed<Step>) -> Result<Lowered, NoMemory>
    ensures { IfOk result (λ part. part ≡ places.part_of whole step) }
{
    match whole {
        Lowered::Place(place) => {
            let PlaceExpr { root, path } = place;
            let mut path = path;
            path.push(step.into_inner())?;
            Ok(Lowered::Place(PlaceExpr { root, path }))
        }
        Lowered::Value(value) => Ok(Lowered::Value(Expr::Of {
            whole: Boxed::new(alloc, value)?,
            step,
        })),
    }
}

/// The formals of an operation.
fn parameters_at(scene: &Scene, operation: Spot) -> &[Parameter]
    ensures { result.now ≡ places.parameters_at scene.now operation }
{
    match scene.tables.operations.get(operation) {
        None => &[],
        Some(found) => found.parameters.as_slice(),
    }
}

/// The numbers of own variables.
fn own_numbers(alloc: Global, scene: &Scene, spots: &[Spot]) -> Result<Row<u32>, NoMemory>
    ensures { IfOk result (λ numbers. numbers ≡ places.own_numbers scene.now spots.now) }
{
    let mut numbers = Row::new(alloc);
    for spot in spots {
        numbers.push(own_number(scene, *spot)?)?;
    }
    Ok(numbers)
}

/// The first of the variables; where there is none, as in a program that is refused, 0.
fn first_var(vars: &[u32]) -> u32
    ensures { result ≡ places.first_var vars.now }
{
    match vars {
        [] => 0,
        [var, ..] => *var,
    }
}

/// The variables after the first.
fn vars_after(vars: &[u32]) -> &[u32]
    ensures { result.now ≡ places.vars_after vars.now }
{
    match vars {
        [] => &[],
        [_, others @ ..] => others,
    }
}

fn formal_of(alloc: Global, var: u32, parameter: &Parameter) -> Result<Formal, NoMemory>
    ensures { IfOk result (λ formal. formal ≡ places.formal_of var parameter.now) }
{
    Ok(Formal {
        var,
        mode: parameter.mode,
        shape: parameter.shape.copy(alloc)?,
    })
}

/// Variables stand for formals in order.
pub fn formals_of(
    alloc: Global,
    vars: &[u32],
    parameters: &[Parameter],
) -> Result<Row<Formal>, NoMemory>
    ensures { IfOk result (λ formals. formals ≡ places.formals_of vars.now parameters.now) }
{
    let mut formals = Row::new(alloc);
    let mut rest = vars;
    for parameter in parameters {
        formals.push(formal_of(alloc, first_var(rest), parameter)?)?;
        rest = vars_after(rest);
    }
    Ok(formals)
}

/// Names stand for the formals of an operation in order.
pub fn own_formals(
    alloc: Global,
    scene: &Scene,
    spots: &[Spot],
    operation: Spot,
) -> Result<Row<Formal>, NoMemory>
    ensures { IfOk result (λ formals. formals ≡ places.own_formals scene.now spots.now operation) }
{
    let vars = own_numbers(alloc, scene, spots)?;
    formals_of(alloc, vars.as_slice(), parameters_at(scene, operation))
}

/// What an operation returns.
fn returns_at(alloc: Global, scene: &Scene, operation: Spot) -> Result<Option<Shape>, NoMemory>
    ensures { IfOk result (λ shape. shape ≡ places.returns_at scene.now operation) }
{
    match scene.tables.operations.get(operation) {
        None => Ok(None),
        Some(found) => copy_shape(alloc, &found.returns),
    }
}

/// The number of the variable that a name means; where there is none, as in a program that is refused, 0.
fn optional_number(scene: &Scene, spot: Option<Spot>) -> Result<u32, NoMemory>
    ensures { IfOk result (λ var. var ≡ places.first_var (places.own_numbers scene.now (option_to_list spot))) }
{
    match spot {
        None => Ok(0),
        Some(spot) => own_number(scene, spot),
    }
}

/// A name stands for the result of the operation.
pub fn own_returned(
    alloc: Global,
    scene: &Scene,
    spot: Option<Spot>,
    operation: Spot,
) -> Result<Option<Returned>, NoMemory>
    ensures { IfOk result (λ returned. returned ≡ places.own_returned scene.now (option_to_list spot) operation) }
{
    let var = optional_number(scene, spot)?;
    match returns_at(alloc, scene, operation)? {
        None => Ok(None),
        Some(shape) => Ok(Some(Returned { var, shape })),
    }
}
