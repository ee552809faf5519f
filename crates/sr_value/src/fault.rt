ghost use Rattle.std.specs.Prelude.{◌≡◌};
ghost use Rattle.sr_value.specs.declared.fault.ValueFail.TheVariants.{NoMemory as out_of_memory};

use crate::compare::Compare;
use crate::memory::NoMemory;
use std::alloc::{AllocError, AllocFailed};
use std::error::Error;
use std::fmt;

/// A fault of a running program. It ends the run.
#[derive(Clone, Copy, Debug, PartialEq, Eq)]
pub enum Fault {
    /// E1: an `int` result out of range.
    Overflow,
    /// E2: `/`, `%` or `mod` by 0.
    ZeroDivisor,
    /// E3: an index out of the bounds of an array or a string.
    Index,
    /// E4: arrays of different lengths.
    Shape,
    /// E5: a string longer than its place.
    StringLength,
    /// E6: a conversion, step, bound, length or count out of range.
    Range,
    /// E7: an invocation of `null`, or a machine that is none.
    NullCap,
    /// E8: an invocation of something that is gone.
    Gone,
    /// E9: a status that `stop` doesn't take.
    BadStatus,
    /// E10: a variable of too many cells, or a string place that is too long.
    TooLarge,
    /// E11: a variable used before its declaration was reached.
    Early,
}

impl Compare for Fault {
    fn same(&self, other: &Self) -> bool {
        *self == *other
    }
}

/// Why there is no value: a fault of the program, or out of memory.
#[derive(Clone, Copy, Debug, PartialEq, Eq)]
pub enum ValueFail {
    Fault(Fault),
    NoMemory,
}

impl Compare for ValueFail {
    fn same(&self, other: &Self) -> bool {
        *self == *other
    }
}

impl fmt::Display for ValueFail {
    fn fmt<W: fmt::Write>(&self, f: &mut fmt::Formatter<W>) -> fmt::Result {
        match self {
            ValueFail::Fault(fault) => write!(f, "{fault:?}"),
            ValueFail::NoMemory => write!(f, "no memory"),
        }
    }
}

impl Error for ValueFail {}

impl From<NoMemory> for ValueFail {
    ghost from_gives = { λ _ e. e ≡ out_of_memory };

    fn from(_: NoMemory) -> Self {
        ValueFail::NoMemory
    }
}

impl From<AllocError> for ValueFail {
    ghost from_gives = { λ _ e. e ≡ out_of_memory };

    fn from(_: AllocError) -> Self {
        ValueFail::NoMemory
    }
}

impl<T: Drop> From<AllocFailed<T>> for ValueFail {
    ghost from_gives = { λ _ e. e ≡ out_of_memory };

    fn from(_: AllocFailed<T>) -> Self {
        ValueFail::NoMemory
    }
}
