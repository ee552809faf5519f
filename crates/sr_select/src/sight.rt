use sr_core::{Arm, Me, Named};
use sr_value::Value;
use std::alloc::Global;

/// What the guards of a statement see of its process.
#[derive(Clone, Copy)]
pub struct Scene<'a> {
    pub alloc: Global,
    pub me: Me,
    /// What the guards name of the process.
    pub names: &'a [Named],
    /// The values of these names.
    pub env: &'a [Value],
}

/// What the guards of an arm see of its process and of an invocation.
#[derive(Clone, Copy)]
pub struct Sight<'a> {
    pub scene: Scene<'a>,
    pub arm: &'a Arm,
    /// The arguments of the invocation.
    pub args: &'a [Value],
}
