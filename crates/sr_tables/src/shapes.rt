//! The shapes of declared types.
ghost use Rattle.std.specs.Prelude.{◌≡◌, IfOk};
ghost use Rattle.sr_tables.specs.Shapes as shapes;

use crate::tables::SpotMap;
use sr_names::Spot;
use sr_value::{Duplicate, NoMemory, Shape};
use std::alloc::Global;

/// So many bytes a string place holds without a length.
pub const MOST_BYTES: u32 = 65_535;

/// A copy of a shape, where there is one.
pub fn copy_shape(alloc: Global, shape: &Option<Shape>) -> Result<Option<Shape>, NoMemory>
    ensures { IfOk result (λ copy. copy ≡ shape.now) }
{
    match shape {
        None => Ok(None),
        Some(shape) => Ok(Some(shape.copy(alloc)?)),
    }
}

/// The shape of a declared type.
pub fn shape_at(alloc: Global, table: &SpotMap<Shape>, spot: Spot) -> Result<Shape, NoMemory>
    ensures { IfOk result (λ shape. shape ≡ shapes.shape_at table.now spot) }
{
    match table.get(spot) {
        Some(shape) => shape.copy(alloc),
        None => Ok(Shape::Int),
    }
}
