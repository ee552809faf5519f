ghost use Rattle.std.specs.Prelude.{◌≡◌, []};
ghost use Rattle.std.specs.FinMap as map;

use crate::world::World;
use sr_calls::Calls;
use sr_queue::Queue;
use sr_store::Blocks;
use std::mem;

/// What of a world comes apart: its variables, its pending invocations, and who holds what and has which replies.
#[derive(Drop)]
pub struct Loan {
    pub blocks: Blocks,
    pub queue: Queue,
    pub calls: Calls,
}

impl World {
    /// Lends what comes apart. The world has none of it meanwhile. It takes no memory.
    pub fn lend(&mut self) -> Loan
        ensures variables { result.blocks.variables ≡ self.old.variables }
        ensures pending { result.queue.items ≡ self.old.pending }
        ensures held { result.calls.held ≡ self.old.held }
        ensures replies { result.calls.replies ≡ self.old.replies }
        ensures world { self.new ≡ record self.old { variables = map.empty; pending = []; held = map.empty; replies = map.empty } }
    {
        let blocks = mem::replace(&mut self.blocks, Blocks::new(self.alloc));
        let queue = mem::replace(&mut self.queue, Queue::new(self.alloc));
        let calls = mem::replace(&mut self.calls, Calls::new(self.alloc));
        Loan {
            blocks,
            queue,
            calls,
        }
    }

    /// Takes back what it lent, as it is now. It takes no memory.
    pub fn take_back(&mut self, loan: Loan)
        ensures { self.new ≡ record self.old { variables = loan.blocks.variables; pending = loan.queue.items; held = loan.calls.held; replies = loan.calls.replies } }
    {
        let Loan {
            blocks,
            queue,
            calls,
        } = loan;
        self.blocks = blocks;
        self.queue = queue;
        self.calls = calls;
    }
}
