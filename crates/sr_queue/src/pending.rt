ghost use Rattle.std.specs.Prelude.{◌≡◌};
ghost use Rattle.sr_queue.specs.Queues.{is_of};

use sr_value::{Compare, Duplicate, NoMemory, Owner, Row, Value};
use std::alloc::Global;

/// An invocation that no process has taken over yet.
#[derive(Drop)]
pub struct Pending {
    /// The number of the invocation.
    pub id: u32,
    /// The operation that it invokes.
    pub op: u32,
    /// Whose operation that is.
    pub owner: Owner,
    pub args: Row<Value>,
    /// The process that waits for the reply, or 0.
    pub back: u32,
    /// The number under which that process waits.
    pub back_id: u32,
}

impl Pending {
    /// Whether it invokes this operation of this owner.
    pub fn is_of(&self, owner: Owner, op: u32) -> bool
        ensures { result ≡ is_of owner op self.now }
    {
        self.op == op && self.owner.same(&owner)
    }
}

impl Duplicate for Pending {
    fn copy(&self, alloc: Global) -> Result<Pending, NoMemory> {
        Ok(Pending {
            id: self.id,
            op: self.op,
            owner: self.owner,
            args: self.args.copy(alloc)?,
            back: self.back,
            back_id: self.back_id,
        })
    }
}
