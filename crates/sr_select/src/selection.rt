use crate::sight::Scene;
use sr_core::Arm;
use sr_queue::Queue;
use sr_value::Owner;

/// What a statement chooses from.
#[derive(Clone, Copy)]
pub struct Selection<'a> {
    pub scene: Scene<'a>,
    pub queue: &'a Queue,
    pub arms: &'a [Arm],
    /// Whose invocations it services.
    pub owner: Owner,
}
