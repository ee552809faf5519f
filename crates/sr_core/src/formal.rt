ghost use Rattle.std.specs.Prelude.{◌≡◌, IfOk};

use sr_value::{Duplicate, NoMemory, Shape};
use std::alloc::Global;

/// How an argument goes to its formal.
#[derive(Clone, Copy, Debug, PartialEq, Eq)]
pub enum Mode {
    /// It is copied in.
    Val,
    /// It is copied in, and back with the reply.
    Var,
    /// It is copied back with the reply.
    Res,
}

/// What a formal can hold. A bound that is `*` follows the length of the argument.
#[derive(Debug, Drop)]
pub enum FormalShape {
    Fixed(Shape),
    /// `[lo:*]`.
    Open {
        lo: i32,
        item: Shape,
    },
    /// Two dimensions. At least one has `*`, which is `None`.
    Open2 {
        lo: i32,
        hi: Option<i32>,
        lo2: i32,
        hi2: Option<i32>,
        item: Shape,
    },
}

impl Duplicate for FormalShape {
    fn copy(&self, alloc: Global) -> Result<FormalShape, NoMemory> {
        match self {
            FormalShape::Fixed(shape) => Ok(FormalShape::Fixed(shape.copy(alloc)?)),
            FormalShape::Open { lo, item } => Ok(FormalShape::Open {
                lo: *lo,
                item: item.copy(alloc)?,
            }),
            FormalShape::Open2 {
                lo,
                hi,
                lo2,
                hi2,
                item,
            } => Ok(FormalShape::Open2 {
                lo: *lo,
                hi: *hi,
                lo2: *lo2,
                hi2: *hi2,
                item: item.copy(alloc)?,
            }),
        }
    }
}

/// A formal of an operation, as a proc or an arm names it, or of a component.
#[derive(Debug, Drop)]
pub struct Formal {
    /// The variable that holds it: an own one, or for a component a shared one.
    pub var: u32,
    pub mode: Mode,
    pub shape: FormalShape,
}

/// The name of the returned value, as a proc or an arm gives it.
#[derive(Debug, Drop)]
pub struct Returned {
    /// The own variable that holds it.
    pub var: u32,
    pub shape: Shape,
}
