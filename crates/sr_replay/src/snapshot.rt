use sr_ask::{Asks, Role};
use sr_instances::State;
use sr_queue::Pending;
use sr_value::Row;
use sr_world::End;

/// An instance, as a snapshot shows it.
#[derive(Clone, Copy)]
pub struct ShownInstance {
    pub name: u32,
    pub component: u32,
    pub state: State,
}

/// A living process, as a snapshot shows it.
#[derive(Drop)]
pub struct ShownProcess {
    pub process: u32,
    /// The instance whose code it runs; 0 for the boot process.
    pub instance: u32,
    pub role: Role,
    pub asks: Asks,
}

/// What is to be seen of a run after some of its items.
#[derive(Drop)]
pub struct Snapshot {
    /// How many items were made.
    pub items: u32,
    /// How the run has ended, where it has.
    pub ending: Option<End>,
    pub moment: u32,
    /// How many bytes were written.
    pub output: u64,
    /// The instances, in the order of their making.
    pub instances: Row<ShownInstance>,
    /// The living processes, in the order of their making.
    pub processes: Row<ShownProcess>,
    /// The invocations that nobody services yet, the oldest first.
    pub pending: Row<Pending>,
}
