ghost use Rattle.std.specs.Prelude.{◌≡◌, ◌<◌, ◌∷◌, ◌++◌, ℕ, [], IfOk, List, OnOk, Some, length, slice_get};
ghost use Rattle.sr_queue.specs.Dividing.{AreInOrder, AreParts, IsFirst, earlier_of, first_id, items_in};
ghost use Rattle.sr_queue.specs.Queues.{Queued};
ghost use Rattle.sr_queue.specs.declared.pending.Pending.{Pending};

use crate::pending::Pending;
use crate::queue::{MOST_PENDING, Queue, take_out};
use sr_buckets::{PARTS, home};
use sr_line::Line;
use sr_value::{NoMemory, Row};
use std::alloc::Global;
use std::array;

/// The oldest invocation of a queue: its number, and the place of the queue.
#[derive(Clone, Copy)]
pub struct Head {
    pub id: u32,
    pub place: usize,
}

impl Queue {
    /// The parts of the queue. Each invocation goes to the part of the number that stands at its place.
    pub fn divide(self, numbers: &Row<u32>) -> Result<[Queue; PARTS], NoMemory>
        requires { length numbers.now ≡ length self.items }
        ensures { IfOk result (λ queues. AreParts queues numbers.now self.items) }
    {
        let mut queues = no_queues(self.alloc);
        let mut pending = self.pending;
        deal(&mut pending, numbers.as_slice(), &mut queues)?;
        Ok(queues)
    }

    /// What queues have that are the parts of one: all invocations, in the order of their numbers.
    pub fn join(alloc: Global, queues: [Queue; PARTS]) -> Result<Queue, NoMemory>
        ensures { IfOk result (λ queue. (numbers : List ℕ) (items : List Pending) → AreInOrder items → AreParts queues numbers items → queue.items ≡ items) }
    {
        let mut queues = queues;
        let mut joined = Queue::new(alloc);
        merge(&mut queues, &mut joined)?;
        Ok(joined)
    }

    /// The number of the oldest invocation.
    fn first_id(&self) -> Option<u32>
        ensures { result ≡ first_id self.now }
    {
        let first = self.pending.get(0)?;
        Some(first.id)
    }

    /// Adds an invocation as the youngest. Where it can't, the invocation goes.
    fn append(&mut self, invocation: Pending) -> Result<(), NoMemory>
        ensures { OnOk result (self.new.items ≡ self.old.items ++ invocation ∷ []) }
    {
        if self.pending.len() >= MOST_PENDING {
            return Err(NoMemory);
        }
        match self.push(invocation) {
            Ok(()) => Ok(()),
            Err((no_memory, _)) => Err(no_memory),
        }
    }
}

/// Queues of no invocations.
fn no_queues(alloc: Global) -> [Queue; PARTS]
    ensures { (i : ℕ) (queue : Queued) → slice_get result i ≡ Some queue → queue.items ≡ [] }
{
    array::from_fn(
        |_: usize| -> Queue
            ensures { result.items ≡ [] }
        { Queue::new(alloc) },
    )
}

/// Puts each invocation into the queue of its part.
fn deal(
    pending: &mut Line<Pending>,
    numbers: &[u32],
    queues: &mut [Queue; PARTS],
) -> Result<(), NoMemory>
    requires all { length numbers.now ≡ length pending.old.items }
    requires none { (i : ℕ) (queue : Queued) → slice_get queues.old i ≡ Some queue → queue.items ≡ [] }
    ensures { OnOk result (AreParts queues.new numbers.now pending.old.items) }
{
    for number in numbers {
        let invocation = take_out(pending, 0);
        let queue = &mut queues[home(*number)];
        queue.append(invocation)?;
    }
    Ok(())
}

/// Puts the invocations of queues into one, in the order of their numbers.
fn merge(queues: &mut [Queue; PARTS], joined: &mut Queue) -> Result<(), NoMemory>
    requires { joined.old.items ≡ [] }
    ensures { OnOk result ((numbers : List ℕ) (items : List Pending) → AreInOrder items → AreParts queues.old numbers items → joined.new.items ≡ items) }
{
    'merging: while let Some(head) = first_of(queues) {
        let queue = &mut queues[head.place];
        let invocation = queue.remove_at(0);
        joined.append(invocation)?;
    }
    Ok(())
}

/// The oldest invocation of all queues, by its number.
fn first_of(queues: &[Queue; PARTS]) -> Option<Head>
    ensures first { IsFirst 32 queues.now result }
    ensures all { length queues.now ≡ 32 }
{
    let mut first = None;
    for place in 0..PARTS {
        if let Some(id) = queues[place].first_id() {
            first = Some(earlier_of(first, Head { id, place }));
        }
    }
    first
}

/// The one of the lesser number.
fn earlier_of(first: Option<Head>, head: Head) -> Head
    ensures { result ≡ earlier_of first head }
{
    match first {
        Some(first) if first.id <= head.id => first,
        _ => head,
    }
}
