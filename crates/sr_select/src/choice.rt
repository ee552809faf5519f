use sr_value::Fault;

/// What an `in` statement does.
#[derive(Clone, Copy, PartialEq, Eq)]
pub enum Choice {
    /// It services the invocation at a place of the queue by an arm.
    Service { place: u32, arm: u32 },
    /// Its `else` runs.
    Else,
    /// The process waits.
    Nothing,
    /// A guard of an arm faults.
    Bad { fault: Fault, arm: u32 },
}
