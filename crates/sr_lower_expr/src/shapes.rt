//! The shapes of types, which have no bounds of their own.
ghost use Rattle.std.specs.Prelude.{◌≡◌, IfOk};
ghost use Rattle.sr_lower_expr.specs.Shapes as shapes;

use sr_check_expr::name_spot;
use sr_tables::{MOST_BYTES, SpotMap, shape_at};
use sr_types::Ty;
use sr_value::{Dims, NoMemory, Shape, Shared};
use std::alloc::Global;

/// The shape of a type. It has no bounds: its strings have 65,535 bytes, and its arrays no items.
pub fn shape_of_type(alloc: Global, ty: &Ty, table: &SpotMap<Shape>) -> Result<Shape, NoMemory>
    ensures { IfOk result (λ shape. shape ≡ shapes.shape_of_type table.now ty.now) }
{
    match ty {
        Ty::Int => Ok(Shape::Int),
        Ty::Bool => Ok(Shape::Bool),
        Ty::Char => Ok(Shape::Char),
        Ty::Str => Ok(Shape::Str { most: MOST_BYTES }),
        Ty::Enum(spot) | Ty::Rec(spot) => shape_at(alloc, table, name_spot(*spot)),
        Ty::Vector(item) => Ok(Shape::Arr {
            dims: Dims::One { lo: 1, hi: 0 },
            item: Shared::new(alloc, shape_of_type(alloc, item.get(), table)?)?,
        }),
        Ty::Matrix(item) => Ok(Shape::Arr {
            dims: Dims::Two {
                lo: 1,
                hi: 0,
                lo2: 1,
                hi2: 0,
            },
            item: Shared::new(alloc, shape_of_type(alloc, item.get(), table)?)?,
        }),
        Ty::Resource(_) | Ty::Op(_) | Ty::Vm | Ty::NullCap | Ty::Untyped => Ok(Shape::Capa),
    }
}
