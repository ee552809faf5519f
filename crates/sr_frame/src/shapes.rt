ghost use Rattle.std.specs.Prelude.{◌≡◌, IfOk};
ghost use Rattle.sr_core.specs.Values.{bounded_by};

use sr_value::{Duplicate, NoMemory, Shape, Value};
use std::alloc::Global;

/// The type of a value, with the value's bounds.
pub fn bounded_by(alloc: Global, shape: &Shape, value: &Value) -> Result<Shape, NoMemory>
    ensures { IfOk result (λ s. s ≡ bounded_by shape.now value.now) }
{
    match shape {
        Shape::Arr { dims: _, item } => match value {
            Value::Arr { dims, items: _ } => Ok(Shape::Arr {
                dims: *dims,
                item: item.copy(alloc)?,
            }),
            _ => shape.copy(alloc),
        },
        _ => shape.copy(alloc),
    }
}
