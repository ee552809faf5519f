//! What declarations of variables and constants are in the core.
ghost use Rattle.std.specs.Prelude.{◌≡◌, ◌++◌, IfOk, OnOk, None, option_copied};
ghost use Rattle.std.specs.Option.{option_map};
ghost use Rattle.sr_desugar.specs.Declarations as declarations;
ghost use Rattle.sr_lower_expr.specs.Expressions as exprs;
ghost use Rattle.sr_check_expr.specs.Meanings.{type_at};
ghost use Rattle.sr_lower_expr.specs.Shapes.{shape_of_type};
ghost use Rattle.sr_tables.specs.Parts.{line_of};
ghost use Rattle.sr_core.specs.declared.statement.Statement.TheVariants as statements;

use sr_check_expr::{is_constant, type_at};
use sr_core::{Declaration, DimsExpr, ItemShape, Leaf, Range, Scope, Setup, ShapeExpr, Statement};
use sr_lower_expr::{Scene, boxed_value, core_value, nothing, own_number, shape_of_type};
use sr_names::Spot;
use sr_outline::type_shape;
use sr_tables::{line_of, spot_named};
use sr_tree::{ConstDecl, Decl, DimsTree, Expr, RangeTree, TypeTree, VarDecl};
use sr_value::{Boxed, NoMemory, Place, Row, Shape, Value};
use std::alloc::Global;

/// An int that is written by nobody.
pub fn int_constant(number: i32) -> sr_core::Expr
    ensures { result ≡ declarations.int_expr number }
{
    sr_core::Expr::Leaf(Leaf::Constant(Value::Int(number)))
}

/// The bounds of one dimension; `[n]` is `[1:n]`.
fn range(alloc: Global, tree: &RangeTree, scene: &Scene) -> Result<Range, NoMemory>
    ensures { IfOk result (λ range. range ≡ declarations.range_core scene.now tree.now) }
{
    match tree {
        RangeTree::Length { length, .. } => {
            let hi = core_value(alloc, length, scene)?;
            Ok(Range {
                lo: int_constant(1),
                hi,
            })
        }
        RangeTree::Bounds { low, high, .. } => {
            let lo = boxed_value(alloc, low, scene)?;
            let hi = core_value(alloc, high, scene)?;
            Ok(Range {
                lo: lo.into_inner(),
                hi,
            })
        }
        RangeTree::From { low, .. } => Ok(Range {
            lo: core_value(alloc, low, scene)?,
            hi: nothing(),
        }),
        RangeTree::Any { .. } => Ok(Range {
            lo: int_constant(1),
            hi: nothing(),
        }),
    }
}

fn dims(alloc: Global, tree: &DimsTree, scene: &Scene) -> Result<DimsExpr, NoMemory>
    ensures { IfOk result (λ dims. dims ≡ declarations.dims_core scene.now tree.now) }
{
    let first = Boxed::new(alloc, range(alloc, &tree.first, scene)?)?;
    match &tree.second {
        None => Ok(DimsExpr::One(first.into_inner())),
        Some(second) => {
            let second = range(alloc, second, scene)?;
            Ok(DimsExpr::Two(first.into_inner(), second))
        }
    }
}

/// A string, whose length may be any int.
fn string_item(
    alloc: Global,
    length: &Option<Expr>,
    ty: &TypeTree,
    scene: &Scene,
) -> Result<ItemShape, NoMemory>
    ensures { IfOk result (λ item. item ≡ declarations.string_item scene.now ty.now length.now) }
{
    match length {
        None => Ok(ItemShape::Fixed(type_shape(alloc, ty, &scene.facts, &scene.tables.shapes)?)),
        Some(length) => Ok(ItemShape::Str {
            most: core_value(alloc, length, scene)?,
        }),
    }
}

/// The type after the dimensions.
fn item(alloc: Global, ty: &TypeTree, scene: &Scene) -> Result<ItemShape, NoMemory>
    ensures { IfOk result (λ item. item ≡ declarations.item_core scene.now ty.now) }
{
    match ty {
        TypeTree::Str { length, .. } => string_item(alloc, length, ty, scene),
        _ => Ok(ItemShape::Fixed(type_shape(alloc, ty, &scene.facts, &scene.tables.shapes)?)),
    }
}

/// The type of an array.
fn array_shape(
    alloc: Global,
    tree: &DimsTree,
    ty: &TypeTree,
    scene: &Scene,
) -> Result<ShapeExpr, NoMemory>
    ensures { IfOk result (λ shape. shape ≡ record { dims = declarations.dims_core scene.now tree.now; item = declarations.item_core scene.now ty.now }) }
{
    let dims = Boxed::new(alloc, dims(alloc, tree, scene)?)?;
    let item = item(alloc, ty, scene)?;
    Ok(ShapeExpr {
        dims: dims.into_inner(),
        item,
    })
}

/// The type of a variable whose name has no dimensions.
fn bare_shape(alloc: Global, ty: &TypeTree, scene: &Scene) -> Result<ShapeExpr, NoMemory>
    ensures { IfOk result (λ shape. shape ≡ declarations.shape_expr scene.now None ty.now) }
{
    match ty {
        TypeTree::Array {
            dims: tree,
            item: inner,
            ..
        } => array_shape(alloc, tree, inner.get(), scene),
        _ => {
            let item = item(alloc, ty, scene)?;
            Ok(ShapeExpr {
                dims: DimsExpr::None,
                item,
            })
        }
    }
}

/// The type of a variable. Its dimensions stand with the name or in the type.
fn shape_expr(
    alloc: Global,
    written: &Option<DimsTree>,
    ty: &TypeTree,
    scene: &Scene,
) -> Result<ShapeExpr, NoMemory>
    ensures { IfOk result (λ shape. shape ≡ declarations.shape_expr scene.now written.now ty.now) }
{
    match written {
        None => bare_shape(alloc, ty, scene),
        Some(tree) => array_shape(alloc, tree, ty, scene),
    }
}

/// The number of a variable of the component or of the process.
pub fn var_number(scene: &Scene, scope: Scope, spot: Spot) -> Result<u32, NoMemory>
    ensures { IfOk result (λ var. var ≡ declarations.var_number scene.now scope spot) }
{
    match scope {
        Scope::Own => own_number(scene, spot),
        Scope::Shared => match scene.tables.shared.get(spot) {
            None => Ok(0),
            Some(variable) => Ok(variable.var),
        },
    }
}

/// The declaration of one name.
fn declare(scope: Scope, place: Place, var: u32, setup: Setup) -> Statement
    ensures { result ≡ statements.Declare place (record { scope = scope; var = var; setup = setup }) }
{
    Statement::Declare {
        place,
        declaration: Declaration { scope, var, setup },
    }
}

/// The type and the bounds of the declaration at a spot.
fn shape_at(alloc: Global, scene: &Scene, spot: Spot) -> Result<Shape, NoMemory>
    ensures { IfOk result (λ shape. shape ≡ shape_of_type scene.now.tables.shapes (type_at scene.now.facts spot)) }
{
    let ty = Boxed::new(alloc, type_at(alloc, &scene.facts, spot)?)?;
    shape_of_type(alloc, ty.get(), &scene.tables.shapes)
}

/// Without a type a variable or constant has the type and the bounds of its value.
fn untyped(alloc: Global, scene: &Scene, spot: Spot, value: &Expr) -> Result<Setup, NoMemory>
    ensures { IfOk result (λ setup. setup ≡ declarations.untyped scene.now spot value.now) }
{
    let shape = Boxed::new(alloc, shape_at(alloc, scene, spot)?)?;
    let value = core_value(alloc, value, scene)?;
    Ok(Setup::Untyped {
        shape: shape.into_inner(),
        value,
    })
}

/// The value that a variable is given, if it is given one.
fn given_value(
    alloc: Global,
    given: Option<&Expr>,
    scene: &Scene,
) -> Result<Option<sr_core::Expr>, NoMemory>
    ensures { IfOk result (λ value. value ≡ option_map (exprs.core_value scene.now) (option_copied given.entry)) }
{
    match given {
        None => Ok(None),
        Some(value) => Ok(Some(core_value(alloc, value, scene)?)),
    }
}

/// With a type a variable has the bounds that are written.
fn typed(
    alloc: Global,
    scene: &Scene,
    decl: &Decl,
    ty: &TypeTree,
    value: Option<&Expr>,
) -> Result<Setup, NoMemory>
    ensures { IfOk result (λ setup. setup ≡ declarations.typed scene.now decl.now ty.now (option_copied value.entry)) }
{
    let shape = Boxed::new(alloc, shape_expr(alloc, &decl.dims, ty, scene)?)?;
    let value = given_value(alloc, value, scene)?;
    Ok(Setup::Typed {
        shape: shape.into_inner(),
        value,
    })
}

/// The first of values.
fn first_of(values: &[Expr]) -> Option<&Expr>
    ensures { option_copied result ≡ declarations.first_of values.now }
{
    match values {
        [] => None,
        [value, ..] => Some(value),
    }
}

/// The values after the first.
fn after_first(values: &[Expr]) -> &[Expr]
    ensures { result.now ≡ declarations.after_first values.now }
{
    match values {
        [] => &[],
        [_, others @ ..] => others,
    }
}

/// Each name has its value, where there are values.
fn typed_vars(
    alloc: Global,
    scene: &Scene,
    scope: Scope,
    variables: &VarDecl,
    ty: &TypeTree,
    code: &mut Row<Statement>,
) -> Result<(), NoMemory>
    ensures { OnOk result (code.new ≡ code.old ++ declarations.typed_vars scene.now scope (line_of variables.now.span) ty.now variables.now.decls variables.now.values) }
{
    let place = line_of(variables.span);
    let mut values = variables.values.as_slice();
    for decl in variables.decls.as_slice() {
        let var = var_number(scene, scope, spot_named(&decl.name))?;
        let setup = typed(alloc, scene, decl, ty, first_of(values))?;
        code.push(declare(scope, place, var, setup))?;
        values = after_first(values);
    }
    Ok(())
}

/// Each name that has a value.
#[tactic(auto, using(crate::proofs::Rest::no_values))]
fn untyped_vars(
    alloc: Global,
    scene: &Scene,
    scope: Scope,
    variables: &VarDecl,
    code: &mut Row<Statement>,
) -> Result<(), NoMemory>
    ensures { OnOk result (code.new ≡ code.old ++ declarations.untyped_vars scene.now scope (line_of variables.now.span) variables.now.decls variables.now.values) }
{
    let place = line_of(variables.span);
    let mut values = variables.values.as_slice();
    for decl in variables.decls.as_slice() {
        match values {
            [] => return Ok(()),
            [value, others @ ..] => {
                let spot = spot_named(&decl.name);
                let var = var_number(scene, scope, spot)?;
                let setup = untyped(alloc, scene, spot, value)?;
                code.push(declare(scope, place, var, setup))?;
                values = others;
            }
        }
    }
    Ok(())
}

/// Appends the declarations of variables to other statements.
pub fn push_vars(
    alloc: Global,
    scene: &Scene,
    scope: Scope,
    variables: &VarDecl,
    code: &mut Row<Statement>,
) -> Result<(), NoMemory>
    ensures { OnOk result (code.new ≡ code.old ++ declarations.var_core scene.now scope variables.now) }
{
    match &variables.ty {
        Some(ty) => typed_vars(alloc, scene, scope, variables, ty, code),
        None => untyped_vars(alloc, scene, scope, variables, code),
    }
}

/// Appends the declaration of a constant that isn't static to other statements.
pub fn push_const(
    alloc: Global,
    scene: &Scene,
    scope: Scope,
    constant: &ConstDecl,
    code: &mut Row<Statement>,
) -> Result<(), NoMemory>
    ensures { OnOk result (code.new ≡ code.old ++ declarations.const_core scene.now scope constant.now) }
{
    let spot = spot_named(&constant.name);
    if is_constant(&scene.facts, spot) {
        return Ok(());
    }
    let var = var_number(scene, scope, spot)?;
    let setup = untyped(alloc, scene, spot, &constant.value)?;
    code.push(declare(scope, line_of(constant.span), var, setup))
}
