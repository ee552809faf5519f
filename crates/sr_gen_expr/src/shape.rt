ghost use Rattle.std.specs.Prelude.{OnOk};
ghost use Rattle.sr_code.specs.Operands.{put_shape};
ghost use Rattle.sr_core.specs.declared.statement.DimsExpr.TheVariants.{One as one_range, Two as two_ranges};
ghost use Rattle.sr_meaning.specs.Statements.{dims_shape, item_shape, shape_meaning};
ghost use Rattle.sr_gen_expr.specs.Emitting.{Gives};

use crate::emitting::emit;
use crate::typed::gen_number;
use sr_code::{Coded, Instruction};
use sr_core::{Core, DimsExpr, ItemShape, Range, ShapeExpr};
use sr_value::{Duplicate, NoMemory, Place, Row};
use std::alloc::Global;

/// Emits the code of a type: its bounds from left to right, and then the length of a string.
pub fn gen_shape(
    alloc: Global,
    core: &Core,
    place: Place,
    shape: &ShapeExpr,
    out: &mut Row<Coded>,
) -> Result<(), NoMemory>
    ensures { OnOk result (Gives put_shape core.now place (shape_meaning shape.now) out.old out.new) }
{
    match &shape.dims {
        DimsExpr::None => gen_item(alloc, core, place, &shape.item, out),
        DimsExpr::One(range) => gen_one(alloc, core, place, range, &shape.item, out),
        DimsExpr::Two(range, range2) => {
            gen_two(alloc, core, place, range, range2, &shape.item, out)
        }
    }
}

fn gen_one(
    alloc: Global,
    core: &Core,
    place: Place,
    range: &Range,
    item: &ItemShape,
    out: &mut Row<Coded>,
) -> Result<(), NoMemory>
    ensures { OnOk result (Gives put_shape core.now place (dims_shape (one_range range.now) item.now) out.old out.new) }
{
    emit(place, Instruction::OneDimension, out)?;
    gen_item(alloc, core, place, item, out)?;
    gen_number(alloc, core, place, &range.hi, out)?;
    gen_number(alloc, core, place, &range.lo, out)?;
    Ok(())
}

fn gen_two(
    alloc: Global,
    core: &Core,
    place: Place,
    range: &Range,
    range2: &Range,
    item: &ItemShape,
    out: &mut Row<Coded>,
) -> Result<(), NoMemory>
    ensures { OnOk result (Gives put_shape core.now place (dims_shape (two_ranges range.now range2.now) item.now) out.old out.new) }
{
    emit(place, Instruction::TwoDimensions, out)?;
    gen_item(alloc, core, place, item, out)?;
    gen_number(alloc, core, place, &range2.hi, out)?;
    gen_number(alloc, core, place, &range2.lo, out)?;
    gen_number(alloc, core, place, &range.hi, out)?;
    gen_number(alloc, core, place, &range.lo, out)?;
    Ok(())
}

fn gen_item(
    alloc: Global,
    core: &Core,
    place: Place,
    item: &ItemShape,
    out: &mut Row<Coded>,
) -> Result<(), NoMemory>
    ensures { OnOk result (Gives put_shape core.now place (item_shape item.now) out.old out.new) }
{
    match item {
        ItemShape::Fixed(shape) => {
            let copied = shape.copy(alloc)?;
            emit(place, Instruction::FixedShape(copied), out)?;
            Ok(())
        }
        ItemShape::Str { most } => {
            emit(place, Instruction::StringShape, out)?;
            gen_number(alloc, core, place, most, out)?;
            Ok(())
        }
    }
}
