ghost use Rattle.std.specs.Prelude.{◌≡◌, IfOk};
ghost use Rattle.sr_types.specs.Outcomes.{found, unknown_if, refused_typed};

use crate::ty::Ty;
use sr_value::{Duplicate, Fault, NoMemory, Value};
use std::alloc::Global;

/// What is known before the run of the value of an expression.
#[derive(Drop)]
pub enum Static {
    /// Nothing: the expression isn't static.
    Unknown,
    /// Its value.
    Known(Value),
    /// That to evaluate it is a fault.
    Faults(Fault),
}

/// What an expression is.
#[derive(Drop)]
pub struct Typed {
    pub ty: Ty,
    /// Whether it is a place, which can be stored to.
    pub is_place: bool,
    pub value: Static,
}

/// What a rule says of a construct.
#[derive(Drop)]
pub enum Outcome {
    /// The rule isn't met: S6.
    Broken,
    /// The rule is met, and this is what the whole is.
    Met(Typed),
}

/// What is known of a static expression that was evaluated.
pub(crate) fn found_value(evaluated: Result<Value, Fault>) -> Static
    ensures { result ≡ found evaluated }
{
    match evaluated {
        Ok(value) => Static::Known(value),
        Err(fault) => Static::Faults(fault),
    }
}

/// What is no place and isn't static, where its rule is met.
pub(crate) fn unknown(met: bool, ty: Ty) -> Outcome
    ensures { result ≡ unknown_if met ty }
{
    if met {
        Outcome::Met(Typed {
            ty,
            is_place: false,
            value: Static::Unknown,
        })
    } else {
        Outcome::Broken
    }
}

/// What stands for an expression that was refused. It may be of any type, and a place, so that it
/// breaks no other rule.
pub fn refused() -> Typed
    ensures { result ≡ refused_typed }
{
    Typed {
        ty: Ty::Untyped,
        is_place: true,
        value: Static::Unknown,
    }
}

impl Duplicate for Static {
    fn copy(&self, alloc: Global) -> Result<Static, NoMemory>
        ensures { IfOk result (λ c. c ≡ self.now) }
    {
        match self {
            Static::Unknown => Ok(Static::Unknown),
            Static::Known(value) => Ok(Static::Known(value.copy(alloc)?)),
            Static::Faults(fault) => Ok(Static::Faults(*fault)),
        }
    }
}

impl Duplicate for Typed {
    fn copy(&self, alloc: Global) -> Result<Typed, NoMemory>
        ensures { IfOk result (λ c. c ≡ self.now) }
    {
        Ok(Typed {
            ty: self.ty.copy(alloc)?,
            is_place: self.is_place,
            value: self.value.copy(alloc)?,
        })
    }
}
