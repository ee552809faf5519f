ghost use Rattle.sr_value.specs.Operators.{Answers};
ghost use Rattle.sr_value.specs.Parts.{with_ok};
ghost use Rattle.sr_value.specs.Shapes.{default_value};

use sr_value::{Duplicate, NoMemory, Shape, Value, ValueFail, default_of};
use std::alloc::Global;

/// A shared variable: what it can hold, and what it holds.
#[derive(Drop)]
pub struct Variable {
    pub shape: Shape,
    pub value: Value,
}

/// A variable of this shape with its default value, or the fault of a shape that no variable has.
pub(crate) fn new_variable(alloc: Global, shape: &Shape) -> Result<Variable, ValueFail>
    ensures { Answers result (with_ok (default_value shape.now) (λ value. Ok (record { shape = shape.now; value = value }))) }
{
    let value = default_of(alloc, shape)?;
    match shape.copy(alloc) {
        Ok(shape) => Ok(Variable { shape, value }),
        Err(_) => Err(ValueFail::NoMemory),
    }
}

impl Duplicate for Variable {
    fn copy(&self, alloc: Global) -> Result<Variable, NoMemory> {
        let value = self.value.copy(alloc)?;
        let shape = self.shape.copy(alloc)?;
        Ok(Variable { shape, value })
    }
}
