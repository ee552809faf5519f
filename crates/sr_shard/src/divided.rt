ghost use Rattle.std.specs.Prelude.{◌≡◌, ◌<◌, ℕ, IfOk, Some, length, map, slice_get, slice_set};
ghost use Rattle.sr_classes.specs.Classes.{class_of};
ghost use Rattle.sr_queue.specs.Dividing.{AreInOrder};
ghost use Rattle.sr_shard.specs.Dividing.{AreInPlace, HasPartsFrom, IsTaken, KeepsOthers, Moved, line_of, moved_by, with_portion};

use crate::portion::Portion;
use sr_buckets::PARTS;
use sr_calls::Calls;
use sr_core::Classes;
use sr_queue::Queue;
use sr_store::Blocks;
use sr_touch::line_home;
use sr_value::{NoMemory, Row};
use sr_world::Loan;
use std::alloc::Global;
use std::{array, mem};

/// What was moved out of a world, by part.
#[derive(Drop)]
pub struct Divided {
    pub blocks: [sr_store::Bucket; PARTS],
    pub calls: [sr_calls::Bucket; PARTS],
    pub queues: [Queue; PARTS],
}

impl Divided {
    /// Nothing, in all parts. It takes no memory.
    pub fn empty(alloc: Global) -> Self
        ensures blocks { length result.blocks ≡ 32 }
        ensures calls { length result.calls ≡ 32 }
        ensures queues { length result.queues ≡ 32 }
    {
        Divided {
            blocks: array::from_fn(|_: usize| -> sr_store::Bucket { sr_store::Bucket::new(alloc) }),
            calls: array::from_fn(|_: usize| -> sr_calls::Bucket { sr_calls::Bucket::new(alloc) }),
            queues: array::from_fn(|_: usize| -> Queue { Queue::new(alloc) }),
        }
    }

    /// What a world lends, by part. Only the pending invocations are moved one by one.
    pub fn of(alloc: Global, classes: &Classes, loan: Loan) -> Result<Self, NoMemory>
        ensures { IfOk result (HasPartsFrom 0 (class_of classes.now.of) (moved_by loan)) }
    {
        let Loan {
            blocks,
            queue,
            calls,
        } = loan;
        let numbers = lines_of(alloc, classes, &queue)?;
        let queues = queue.divide(&numbers)?;
        Ok(Divided {
            blocks: blocks.divide(),
            calls: calls.divide(),
            queues,
        })
    }

    /// All parts together, as a world takes them back.
    pub fn into_loan(self, alloc: Global) -> Result<Loan, NoMemory>
        requires { AreInPlace self }
        ensures { IfOk result (λ loan. (class : ℕ → ℕ) (moved : Moved) → AreInOrder moved.pending → HasPartsFrom 0 class moved self → moved_by loan ≡ moved) }
    {
        let Divided {
            blocks,
            calls,
            queues,
        } = self;
        let queue = Queue::join(alloc, queues)?;
        Ok(Loan {
            blocks: Blocks::join(blocks),
            queue,
            calls: Calls::join(calls),
        })
    }

    /// Takes a part out. It takes no memory.
    pub fn take(&mut self, alloc: Global, number: usize) -> Portion
        requires { number < PARTS }
        ensures taken { IsTaken self.old number result }
        ensures others { KeepsOthers number self.old self.new }
    {
        let blocks = replace(&mut self.blocks, number, sr_store::Bucket::new(alloc));
        let calls = replace(&mut self.calls, number, sr_calls::Bucket::new(alloc));
        let queue = replace(&mut self.queues, number, Queue::new(alloc));
        Portion {
            number,
            blocks,
            calls,
            queue,
        }
    }

    /// Puts a part in its place. It takes no memory.
    pub fn put(&mut self, portion: Portion)
        requires { portion.number < PARTS }
        ensures { self.new ≡ with_portion portion self.old }
    {
        let Portion {
            number,
            blocks,
            calls,
            queue,
        } = portion;
        set(&mut self.blocks, number, blocks);
        set(&mut self.calls, number, calls);
        set(&mut self.queues, number, queue);
    }
}

/// Puts an item in a place, and gives back what stood there.
fn replace<T: Drop>(all: &mut [T; PARTS], at: usize, item: T) -> T
    requires { at < PARTS }
    ensures item { slice_get all.old at ≡ Some result }
    ensures others { all.new ≡ slice_set all.old at item }
{
    mem::replace(&mut all[at], item)
}

/// Puts an item in a place.
fn set<T: Drop>(all: &mut [T; PARTS], at: usize, item: T)
    requires { at < PARTS }
    ensures { all.new ≡ slice_set all.old at item }
{
    all[at] = item;
}

/// The part of each pending invocation.
fn lines_of(alloc: Global, classes: &Classes, queue: &Queue) -> Result<Row<u32>, NoMemory>
    ensures { IfOk result (λ numbers. numbers ≡ map (line_of (class_of classes.now.of)) queue.now.items) }
{
    let mut numbers = Row::new(alloc);
    for place in 0..queue.len() {
        let invocation = queue.at(place);
        let line = line_home(classes, invocation.owner, invocation.op);
        numbers.push(line as u32)?;
    }
    Ok(numbers)
}
