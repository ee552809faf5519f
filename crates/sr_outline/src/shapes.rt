//! What places of a type can hold: types with their bounds and the lengths of their strings.
#![tactic(auto, using(crate::proofs::Appends::types_append))]

ghost use Rattle.std.specs.Prelude.{◌≡◌, ◌++◌, IfOk, OnOk, None, flat_map, fold, map, pos, unwrap_or};
ghost use Rattle.std.specs.Option.{option_and_then, option_map};
ghost use Rattle.sr_check_expr.specs.Infos.{info_at};
ghost use Rattle.sr_check_expr.specs.Meanings.{known};
ghost use Rattle.sr_outline.specs.Shapes as shapes;
ghost use Rattle.sr_tables.specs.Lists.{lists};
ghost use Rattle.sr_tables.specs.Parts.{in_item, in_component};
ghost use Rattle.sr_tables.specs.Tables.{with_entry};
ghost use Rattle.sr_tree.specs.Nested.{formal_types, signature_types, types_within, written_types};
ghost use Rattle.sr_value.specs.Operands.{int_in};

use crate::weights::{STAND_IN, Weights};
use sr_check_expr::{Facts, Info, infer, meant_by};
use sr_core::FormalShape;
use sr_names::Spot;
use sr_tables::{MOST_BYTES, SpotMap, deciding, shape_at, spot_named};
use sr_tree::{
    Component, Decl, DimsTree, Expr, Formal, Item, QualifiedName, RangeTree, Returned, Signature,
    SpecItem, TypeDecl, TypeTree,
};
use sr_types::Static;
use sr_value::{
    Boxed, Dims, Duplicate, NoMemory, Row, Shape, Shared, has_few_cells, has_strings_in_range,
};
use std::alloc::Global;

/// The number that a value is; 0 where it isn't known.
fn known_number(value: &Static) -> i32
    ensures { result ≡ unwrap_or (option_and_then int_in (known value.now)) (pos 0) }
{
    match value {
        Static::Known(value) => value.as_int().unwrap_or(0),
        _ => 0,
    }
}

/// The number that a static expression is; 0 where it isn't known.
fn fixed_number(alloc: Global, tree: &Expr, facts: &Facts) -> Result<i32, NoMemory>
    ensures { IfOk result (λ number. number ≡ shapes.fixed_number facts.now tree.now) }
{
    let typed_expr = infer(alloc, tree, facts)?;
    Ok(known_number(&typed_expr.typed.value))
}

/// The number as a length; 0 below 0.
fn natural(number: i32) -> u32
    ensures { result ≡ shapes.natural number }
{
    u32::try_from(number).unwrap_or(0)
}

fn string_shape(alloc: Global, length: &Option<Expr>, facts: &Facts) -> Result<Shape, NoMemory>
    ensures { IfOk result (λ shape. shape ≡ shapes.string_shape facts.now length.now) }
{
    let most = match length {
        None => MOST_BYTES,
        Some(length) => natural(fixed_number(alloc, length, facts)?),
    };
    Ok(Shape::Str { most })
}

/// The bounds of one dimension; `*` is none.
#[derive(Clone, Copy, PartialEq, Eq)]
pub struct Ends {
    pub lo: i32,
    pub hi: Option<i32>,
}

/// The bounds that a range says; `[n]` is `[1:n]`.
fn ends_of(alloc: Global, range: &RangeTree, facts: &Facts) -> Result<Ends, NoMemory>
    ensures { IfOk result (λ ends. ends ≡ shapes.ends_of facts.now range.now) }
{
    match range {
        RangeTree::Length { length, .. } => Ok(Ends {
            lo: 1,
            hi: Some(fixed_number(alloc, length, facts)?),
        }),
        RangeTree::Bounds { low, high, .. } => {
            let lo = fixed_number(alloc, low, facts)?;
            let hi = fixed_number(alloc, high, facts)?;
            Ok(Ends { lo, hi: Some(hi) })
        }
        RangeTree::From { low, .. } => Ok(Ends {
            lo: fixed_number(alloc, low, facts)?,
            hi: None,
        }),
        RangeTree::Any { .. } => Ok(Ends { lo: 1, hi: None }),
    }
}

/// A formal that is an array of one dimension: `*` follows the length of the argument.
fn line_shape(alloc: Global, ends: Ends, item: Shape) -> Result<FormalShape, NoMemory>
    ensures { IfOk result (λ shape. shape ≡ shapes.line_shape ends item) }
{
    match ends.hi {
        Some(hi) => Ok(FormalShape::Fixed(Shape::Arr {
            dims: Dims::One { lo: ends.lo, hi },
            item: Shared::new(alloc, item)?,
        })),
        None => Ok(FormalShape::Open { lo: ends.lo, item }),
    }
}

/// A formal that is an array of two dimensions.
fn table_shape(
    alloc: Global,
    rows: Ends,
    columns: Ends,
    item: Shape,
) -> Result<FormalShape, NoMemory>
    ensures { IfOk result (λ shape. shape ≡ shapes.table_shape rows columns item) }
{
    if let Some(hi) = rows.hi {
        if let Some(hi2) = columns.hi {
            return Ok(FormalShape::Fixed(Shape::Arr {
                dims: Dims::Two {
                    lo: rows.lo,
                    hi,
                    lo2: columns.lo,
                    hi2,
                },
                item: Shared::new(alloc, item)?,
            }));
        }
    }
    Ok(FormalShape::Open2 {
        lo: rows.lo,
        hi: rows.hi,
        lo2: columns.lo,
        hi2: columns.hi,
        item,
    })
}

/// The bounds of the second dimension, where there is one.
fn second_ends(alloc: Global, dims: &DimsTree, facts: &Facts) -> Result<Option<Ends>, NoMemory>
    ensures { IfOk result (λ ends. ends ≡ option_map (shapes.ends_of facts.now) dims.now.second) }
{
    match &dims.second {
        None => Ok(None),
        Some(second) => Ok(Some(ends_of(alloc, second, facts)?)),
    }
}

/// A formal that is an array of one dimension or of two.
fn array_shape(
    alloc: Global,
    rows: Ends,
    columns: Option<Ends>,
    item: Shape,
) -> Result<FormalShape, NoMemory>
    ensures { IfOk result (λ shape. shape ≡ shapes.array_shape rows columns item) }
{
    match columns {
        None => line_shape(alloc, rows, item),
        Some(columns) => table_shape(alloc, rows, columns, item),
    }
}

/// A formal that is an array of items of this type.
fn array_formal(
    alloc: Global,
    dims: &DimsTree,
    ty: &TypeTree,
    facts: &Facts,
    table: &SpotMap<Shape>,
) -> Result<FormalShape, NoMemory>
    ensures { IfOk result (λ shape. shape ≡ shapes.array_formal facts.now dims.now (shapes.type_shape facts.now table.now ty.now)) }
{
    let rows = ends_of(alloc, &dims.first, facts)?;
    let columns = second_ends(alloc, dims, facts)?;
    let item = type_shape(alloc, ty, facts, table)?;
    array_shape(alloc, rows, columns, item)
}

/// The highest index, which is written where a program isn't refused.
fn last_of(ends: Ends) -> i32
    ensures { result ≡ shapes.last_of ends }
{
    ends.hi.unwrap_or(ends.lo)
}

fn fixed_dims(alloc: Global, dims: &DimsTree, facts: &Facts) -> Result<Dims, NoMemory>
    ensures { IfOk result (λ found. found ≡ shapes.fixed_dims facts.now dims.now) }
{
    let rows = ends_of(alloc, &dims.first, facts)?;
    let columns = second_ends(alloc, dims, facts)?;
    Ok(dims_of(rows, columns))
}

/// The bounds of an array.
fn dims_of(rows: Ends, columns: Option<Ends>) -> Dims
    ensures { result ≡ shapes.dims_of rows columns }
{
    match columns {
        None => Dims::One {
            lo: rows.lo,
            hi: last_of(rows),
        },
        Some(columns) => Dims::Two {
            lo: rows.lo,
            hi: last_of(rows),
            lo2: columns.lo,
            hi2: last_of(columns),
        },
    }
}

/// The shape of a declared name, with or without dims of its own.
pub fn decl_shape(
    alloc: Global,
    dims: &Option<DimsTree>,
    item: Shape,
    facts: &Facts,
) -> Result<Shape, NoMemory>
    ensures { IfOk result (λ shape. shape ≡ shapes.decl_shape facts.now dims.now item) }
{
    match dims {
        None => Ok(item),
        Some(dims) => {
            let item = Shared::new(alloc, item)?;
            let dims = fixed_dims(alloc, dims, facts)?;
            Ok(Shape::Arr { dims, item })
        }
    }
}

/// The shape of the type that a name means.
fn named_shape(
    alloc: Global,
    name: &QualifiedName,
    facts: &Facts,
    table: &SpotMap<Shape>,
) -> Result<Shape, NoMemory>
    ensures { IfOk result (λ shape. shape ≡ shapes.named_shape facts.now table.now name.now) }
{
    shape_at(alloc, table, meant_by(facts, deciding(name)))
}

/// Appends the shapes of what is declared with items of one shape to others.
fn push_decls(
    alloc: Global,
    decls: &[Decl],
    item: &Boxed<Shape>,
    facts: &Facts,
    all: &mut Row<Shape>,
) -> Result<(), NoMemory>
    ensures { OnOk result (all.new ≡ all.old ++ map (λ decl. shapes.decl_shape facts.now decl.dims item.now) decls.now) }
{
    for decl in decls {
        let shape = item.get().copy(alloc)?;
        all.push(decl_shape(alloc, &decl.dims, shape, facts)?)?;
    }
    Ok(())
}

/// Appends the shapes of fields of one type to others.
#[cycle(type_shapes)]
fn push_fields(
    alloc: Global,
    fields: &Formal,
    facts: &Facts,
    table: &SpotMap<Shape>,
    all: &mut Row<Shape>,
) -> Result<(), NoMemory>
    ensures { OnOk result (all.new ≡ all.old ++ shapes.fields_in facts.now table.now fields.now) }
{
    let item = Boxed::new(alloc, type_shape(alloc, &fields.ty, facts, table)?)?;
    push_decls(alloc, fields.decls.as_slice(), &item, facts, all)
}

/// The shapes of the fields of a record.
#[cycle(type_shapes)]
fn field_shapes(
    alloc: Global,
    fields: &[Formal],
    facts: &Facts,
    table: &SpotMap<Shape>,
) -> Result<Row<Shape>, NoMemory>
    ensures { IfOk result (λ all. all ≡ lists (map (shapes.fields_in facts.now table.now) fields.now)) }
{
    let mut all = Row::new(alloc);
    for formal in fields {
        push_fields(alloc, formal, facts, table, &mut all)?;
    }
    Ok(all)
}

/// The shape of a type as it is written, by the shapes of the types declared before it.
#[cycle(type_shapes)]
pub fn type_shape(
    alloc: Global,
    tree: &TypeTree,
    facts: &Facts,
    table: &SpotMap<Shape>,
) -> Result<Shape, NoMemory>
    ensures { IfOk result (λ shape. shape ≡ shapes.type_shape facts.now table.now tree.now) }
{
    match tree {
        TypeTree::Int { .. } => Ok(Shape::Int),
        TypeTree::Enum { span, .. } => Ok(enumeration_shape(facts, Spot::of(*span))),
        TypeTree::Bool { .. } => Ok(Shape::Bool),
        TypeTree::Char { .. } => Ok(Shape::Char),
        TypeTree::Str { length, .. } => string_shape(alloc, length, facts),
        TypeTree::Rec { fields, .. } => {
            let fields = field_shapes(alloc, fields.as_slice(), facts, table)?;
            Ok(Shape::Rec(Shared::new(alloc, fields)?))
        }
        TypeTree::CapOf { .. } | TypeTree::CapMachine { .. } | TypeTree::CapOperation { .. } => {
            Ok(Shape::Capa)
        }
        TypeTree::Array { dims, item, .. } => {
            let dims = fixed_dims(alloc, dims, facts)?;
            let item = Shared::new(alloc, type_shape(alloc, item.get(), facts, table)?)?;
            Ok(Shape::Arr { dims, item })
        }
        TypeTree::Named { name, .. } => named_shape(alloc, name, facts, table),
    }
}

/// What a formal can hold whose type is written so.
fn written_formal(
    alloc: Global,
    ty: &TypeTree,
    facts: &Facts,
    table: &SpotMap<Shape>,
) -> Result<FormalShape, NoMemory>
    ensures { IfOk result (λ shape. shape ≡ shapes.formal_shape facts.now table.now None ty.now) }
{
    match ty {
        TypeTree::Array { dims, item, .. } => {
            array_formal(alloc, dims, item.get(), facts, table)
        }
        _ => Ok(FormalShape::Fixed(type_shape(alloc, ty, facts, table)?)),
    }
}

/// What a formal can hold that is declared with or without dims.
pub fn formal_shape(
    alloc: Global,
    dims: &Option<DimsTree>,
    ty: &TypeTree,
    facts: &Facts,
    table: &SpotMap<Shape>,
) -> Result<FormalShape, NoMemory>
    ensures { IfOk result (λ shape. shape ≡ shapes.formal_shape facts.now table.now dims.now ty.now) }
{
    match dims {
        None => written_formal(alloc, ty, facts, table),
        Some(dims) => array_formal(alloc, dims, ty, facts, table),
    }
}

/// The shape of the enumeration that is declared at a spot.
fn enumeration_shape(facts: &Facts, spot: Spot) -> Shape
    ensures { result ≡ shapes.enumeration_shape (info_at facts.now.infos spot) }
{
    match facts.infos.get(spot) {
        Some(Info::Enumeration { number, literals }) => Shape::Enum {
            ty: *number,
            count: *literals,
        },
        _ => Shape::Int,
    }
}

/// The shape of a declared type, and whether it is the one that is written.
struct Kept {
    shape: Shape,
    whole: bool,
}

/// A shape that no variable can have, of more than 1,048,576 cells; with a string that is too long where it is to have one.
fn too_large(alloc: Global, has_strings_in_range: bool) -> Result<Shape, NoMemory>
    ensures { IfOk result (λ shape. shape ≡ shapes.too_large has_strings_in_range) }
{
    let item = Shared::new(alloc, Shape::Int)?;
    let dims = Dims::One {
        lo: 1,
        hi: 1_048_577,
    };
    let most = if has_strings_in_range {
        0
    } else {
        MOST_BYTES + 1
    };
    let mut fields = Row::new(alloc);
    fields.push(Shape::Arr { dims, item })?;
    fields.push(Shape::Str { most })?;
    Ok(Shape::Rec(Shared::new(alloc, fields)?))
}

/// The shape that is kept for a declared type of this shape.
fn kept_shape(alloc: Global, shape: Shape) -> Result<Kept, NoMemory>
    ensures { IfOk result (λ kept. kept.shape ≡ shapes.kept_shape shape) }
{
    if has_few_cells(&shape) {
        return Ok(Kept { shape, whole: true });
    }
    Ok(Kept {
        shape: too_large(alloc, has_strings_in_range(&shape))?,
        whole: false,
    })
}

/// Puts in the shape of a type as it is written.
fn insert_shape(
    alloc: Global,
    spot: Spot,
    tree: &TypeTree,
    facts: &Facts,
    weights: &mut Weights,
    table: &mut SpotMap<Shape>,
) -> Result<(), NoMemory>
    ensures { OnOk result (table.new ≡ with_entry table.old spot (shapes.declared_shape facts.now table.old tree.now)) }
{
    let weight = weights.weigh(tree, facts)?;
    let Kept { shape, whole } = kept_shape(alloc, type_shape(alloc, tree, facts, table)?)?;
    table.insert(spot, shape)?;
    weights.insert(spot, if whole { weight } else { STAND_IN })
}

/// Puts in the shapes of the enumerations and records that are written in a type, by the places of their words.
#[cycle(within)]
fn declare_within(
    alloc: Global,
    tree: &TypeTree,
    facts: &Facts,
    weights: &mut Weights,
    table: &mut SpotMap<Shape>,
) -> Result<(), NoMemory>
    ensures { OnOk result (table.new ≡ fold (shapes.with_written facts.now) table.old (types_within tree.now)) }
{
    match tree {
        TypeTree::Enum { span, .. } => {
            insert_shape(alloc, Spot::of(*span), tree, facts, weights, table)
        }
        TypeTree::Rec { span, fields } => {
            insert_shape(alloc, Spot::of(*span), tree, facts, weights, table)?;
            declare_within_formals(alloc, fields.as_slice(), facts, weights, table)
        }
        TypeTree::CapOperation { signature, .. } => {
            declare_within_signature(alloc, signature, facts, weights, table)
        }
        TypeTree::Array { item, .. } => declare_within(alloc, item.get(), facts, weights, table),
        TypeTree::Int { .. }
        | TypeTree::Bool { .. }
        | TypeTree::Char { .. }
        | TypeTree::Str { .. }
        | TypeTree::CapOf { .. }
        | TypeTree::CapMachine { .. }
        | TypeTree::Named { .. } => Ok(()),
    }
}

#[cycle(within)]
fn declare_within_formals(
    alloc: Global,
    formals: &[Formal],
    facts: &Facts,
    weights: &mut Weights,
    table: &mut SpotMap<Shape>,
) -> Result<(), NoMemory>
    ensures { OnOk result (table.new ≡ fold (shapes.with_written facts.now) table.old (flat_map formal_types formals.now)) }
{
    for formal in formals {
        declare_within(alloc, &formal.ty, facts, weights, table)?;
    }
    Ok(())
}

#[cycle(within)]
fn declare_within_returned(
    alloc: Global,
    returned: &Option<Returned>,
    facts: &Facts,
    weights: &mut Weights,
    table: &mut SpotMap<Shape>,
) -> Result<(), NoMemory>
    ensures { OnOk result (table.new ≡ fold (shapes.with_written facts.now) table.old (written_types returned.now)) }
{
    match returned {
        Some(written) => declare_within(alloc, written.ty.get(), facts, weights, table),
        None => Ok(()),
    }
}

#[cycle(within)]
fn declare_within_signature(
    alloc: Global,
    signature: &Signature,
    facts: &Facts,
    weights: &mut Weights,
    table: &mut SpotMap<Shape>,
) -> Result<(), NoMemory>
    ensures { OnOk result (table.new ≡ fold (shapes.with_written facts.now) table.old (signature_types signature.now)) }
{
    declare_within_formals(alloc, signature.formals.as_slice(), facts, weights, table)?;
    declare_within_returned(alloc, &signature.returned, facts, weights, table)
}

/// Puts in the shape of a declared type, and of those that are written in it.
fn declare_type(
    alloc: Global,
    named: &TypeDecl,
    facts: &Facts,
    weights: &mut Weights,
    table: &mut SpotMap<Shape>,
) -> Result<(), NoMemory>
    ensures { OnOk result (table.new ≡ shapes.with_type facts.now table.old named.now) }
{
    declare_within(alloc, &named.ty, facts, weights, table)?;
    insert_shape(
        alloc,
        spot_named(&named.name),
        &named.ty,
        facts,
        weights,
        table,
    )
}

fn declare_spec_item(
    alloc: Global,
    item: &SpecItem,
    facts: &Facts,
    weights: &mut Weights,
    table: &mut SpotMap<Shape>,
) -> Result<(), NoMemory>
    ensures { OnOk result (table.new ≡ shapes.with_types facts.now table.old (shapes.spec_item_types item.now)) }
{
    match item {
        SpecItem::Type(named) => declare_type(alloc, named, facts, weights, table),
        _ => Ok(()),
    }
}

fn declare_spec(
    alloc: Global,
    items: &[SpecItem],
    facts: &Facts,
    weights: &mut Weights,
    table: &mut SpotMap<Shape>,
) -> Result<(), NoMemory>
    ensures { OnOk result (table.new ≡ shapes.with_types facts.now table.old (flat_map shapes.spec_item_types items.now)) }
{
    for item in items {
        declare_spec_item(alloc, item, facts, weights, table)?;
    }
    Ok(())
}

fn declare_body(
    alloc: Global,
    items: &[Item],
    facts: &Facts,
    weights: &mut Weights,
    table: &mut SpotMap<Shape>,
) -> Result<(), NoMemory>
    ensures { OnOk result (table.new ≡ shapes.with_types facts.now table.old (flat_map (in_item shapes.spec_item_types) items.now)) }
{
    for item in items {
        if let Item::Spec(inner) = item {
            declare_spec_item(alloc, inner, facts, weights, table)?;
        }
    }
    Ok(())
}

/// Puts in the shapes of the types that a component declares.
pub fn declare_types(
    alloc: Global,
    component: &Component,
    facts: &Facts,
    weights: &mut Weights,
    table: &mut SpotMap<Shape>,
) -> Result<(), NoMemory>
    ensures { OnOk result (table.new ≡ shapes.with_types facts.now table.old (in_component shapes.spec_item_types component.now)) }
{
    declare_spec(alloc, component.spec(), facts, weights, table)?;
    declare_body(alloc, component.body(), facts, weights, table)
}
