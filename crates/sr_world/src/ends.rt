use sr_value::{Fault, Place};

/// How a run ends.
#[derive(Clone, Copy, PartialEq, Eq)]
pub enum End {
    /// No process can make a step, and no `stop` has fixed a status.
    Quiet,
    /// A `stop` with this status.
    Stopped(u8),
    /// A fault, and the line of the statement that met it.
    Failed { fault: Fault, place: Place },
}
