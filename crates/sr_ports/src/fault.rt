ghost use Rattle.std.specs.Prelude.{◌≡◌};
ghost use Rattle.sr_ports.specs.declared.fault.PortFail.TheVariants as variants;

use std::alloc::{AllocError, AllocFailed};
use std::error::Error;
use std::fmt;

/// Why a call on a device gave no answer.
#[derive(Clone, Copy, Debug, PartialEq, Eq)]
pub enum PortFail {
    /// The device failed in this call, and its count of faults rose.
    Failed,
    /// Memory ran out, which is no fault of the device.
    NoMemory,
}

/// A source failed in this call, and its count of faults rose.
#[derive(Clone, Copy, Debug, PartialEq, Eq)]
pub struct TakeFailed;

impl fmt::Display for PortFail {
    fn fmt<W: fmt::Write>(&self, f: &mut fmt::Formatter<W>) -> fmt::Result {
        match self {
            PortFail::Failed => write!(f, "the device failed"),
            PortFail::NoMemory => write!(f, "no memory"),
        }
    }
}

impl Error for PortFail {}

impl fmt::Display for TakeFailed {
    fn fmt<W: fmt::Write>(&self, f: &mut fmt::Formatter<W>) -> fmt::Result {
        write!(f, "the source failed")
    }
}

impl Error for TakeFailed {}

impl From<sr_value::NoMemory> for PortFail {
    ghost from_gives = { λ _ fail. fail ≡ variants.NoMemory };

    fn from(_: sr_value::NoMemory) -> Self {
        PortFail::NoMemory
    }
}

impl From<AllocError> for PortFail {
    ghost from_gives = { λ _ fail. fail ≡ variants.NoMemory };

    fn from(_: AllocError) -> Self {
        PortFail::NoMemory
    }
}

impl<T: Drop> From<AllocFailed<T>> for PortFail {
    ghost from_gives = { λ _ fail. fail ≡ variants.NoMemory };

    fn from(_: AllocFailed<T>) -> Self {
        PortFail::NoMemory
    }
}
