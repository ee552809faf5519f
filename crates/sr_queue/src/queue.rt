ghost use Rattle.std.specs.Prelude.{◌≡◌, ◌^◌, ◌<◌, ◌≤◌, [], ◌∷◌, ◌++◌, length, remove, slice_get, IfErr, IfOk, IfSome, IsOk, List, OnErr, OnOk};
ghost use Rattle.std.specs.Option.{option_map};
ghost use Rattle.sr_queue.specs.Queues.{waiting};
ghost use Rattle.sr_queue.specs.Classes.{class_in, next_waiting};
ghost use Rattle.sr_queue.specs.Indexed.{IsIndexed};
ghost use Rattle.sr_queue.specs.declared.pending.Pending.{Pending};

use crate::class::{Class, class_of};
use crate::index::Index;
use crate::pending::Pending;
use sr_line::Line;
use sr_value::{Duplicate, NoMemory, Owner};
use std::alloc::Global;
use std::marker::Model;

/// The greatest number of invocations that a queue holds.
pub const MOST_PENDING: usize = 2_100_000_000;

/// How many invocations get an index. Fewer are looked at one after the other.
const LEAST_INDEXED: usize = 16;

/// Pending invocations in the order in which they arrived.
#[derive(Drop)]
pub struct Queue {
    pub(crate) alloc: Global,
    pub(crate) pending: Line<Pending>,
    /// Where those of each operation stand. It begins when `LEAST_INDEXED` are pending and ends when none is left.
    /// Where memory for it runs out, it ends too, and the next power of two that are pending begins another.
    index: Option<Index>,
}

impl Model for Queue {
    ghost use Rattle.std.specs.Prelude.{◌≤◌, length};
    ghost use Rattle.std.specs.Coded.{codes};
    ghost use Rattle.sr_value.specs.contracts.value.Value as value;
    ghost use Rattle.sr_queue.specs.declared.queue.TheConstants.{MOST_PENDING};
    ghost use Rattle.sr_queue.specs.Queues.{Queued};
    ghost use Rattle.sr_queue.specs.Indexed.{IsIndexed};

    ghost Value = { Queued };

    ghost coded = { Prim.hlevel (codes, value.the_row.coded) };

    ghost view = { λ queue. record { items = queue.pending.items; room = queue.pending.room } };

    ghost invariant = { λ queue. (length queue.pending.items ≤ MOST_PENDING) × IsIndexed queue.pending.items queue.index };
}

impl Queue {
    /// No invocations. It takes no memory.
    pub fn new(alloc: Global) -> Self
        ensures { result.items ≡ [] }
    {
        Queue {
            alloc,
            pending: Line::new(alloc),
            index: None,
        }
    }

    /// The number of invocations.
    pub fn len(&self) -> u32
        ensures { result ≡ length self.now.items }
    {
        self.pending.len() as u32
    }

    /// How many invocations of an operation of an owner there are.
    pub fn count(&self, owner: Owner, op: u32) -> u32
        ensures { result ≡ waiting owner op self.now.items }
    {
        match &self.index {
            Some(index) => index.count(class_of(owner, op)) as u32,
            None => counted(&self.pending, owner, op) as u32,
        }
    }

    /// The place of the first invocation of an operation at or after a place.
    pub fn next_of(&self, owner: Owner, op: u32, from: u32) -> Option<u32>
        ensures { result ≡ next_waiting owner op from self.now.items }
    {
        let place = self.next_place(owner, op, from as usize)?;
        Some(place as u32)
    }

    /// The same, among places as lists count them.
    fn next_place(&self, owner: Owner, op: u32, from: usize) -> Option<usize>
        ensures next { result ≡ next_waiting owner op from self.now.items }
        ensures small { IfSome result (λ place. place < 2 ^ 32) }
    {
        match &self.index {
            Some(index) => index.next_of(class_of(owner, op), from),
            None => found(&self.pending, owner, op, from),
        }
    }

    /// The invocation at a place, counted from the oldest.
    pub fn at(&self, i: u32) -> &Pending
        requires { i < length self.now.items }
        ensures { slice_get self.now.items i ≡ Some result.now }
    {
        self.pending.at(i as usize)
    }

    /// Makes room for one more invocation.
    pub fn reserve(&mut self) -> Result<(), NoMemory>
        requires { length self.old.items < MOST_PENDING }
        ensures room { OnOk result (0 < self.new.room) }
        ensures items { self.new.items ≡ self.old.items }
        ensures err { OnErr result (self.new ≡ self.old) }
    {
        self.make_room()
    }

    /// Makes room for one more invocation.
    fn make_room(&mut self) -> Result<(), NoMemory>
        ensures items { self.new.items ≡ self.old.items }
        ensures room { OnOk result (0 < self.new.room) }
        ensures succeeds { 0 < self.old.room → IsOk result }
        ensures err { OnErr result (self.new ≡ self.old) }
    {
        self.pending.reserve()?;
        Ok(())
    }

    /// Adds an invocation as the youngest, or hands it back.
    pub fn push(&mut self, pending: Pending) -> Result<(), (NoMemory, Pending)>
        requires { length self.old.items < MOST_PENDING }
        ensures ok { OnOk result (self.new.items ≡ self.old.items ++ pending ∷ []) }
        ensures succeeds { 0 < self.old.room → IsOk result }

        // Where memory ran out the invocation comes back, and the queue is as before.
        ensures back { IfErr result (λ refused. refused.1 ≡ pending) }
        ensures err { OnErr result (self.new ≡ self.old) }
    {
        match self.make_room() {
            Ok(()) => {
                let class = class_of(pending.owner, pending.op);
                self.pending.push_reserved(pending);
                note_last(self.alloc, &mut self.index, &self.pending, class);
                Ok(())
            }
            Err(no_memory) => Err((no_memory, pending)),
        }
    }

    /// Takes the invocation at a place out. Younger ones move up.
    pub fn remove_at(&mut self, i: u32) -> Pending
        requires { i < length self.old.items }
        ensures item { slice_get self.old.items i ≡ Some result }
        ensures others { self.new.items ≡ remove self.old.items i }
        ensures room { self.old.room ≤ self.new.room }
    {
        let taken = take_out(&mut self.pending, i);
        forget(&mut self.index, i as usize);
        end_empty(&mut self.index, self.pending.len());
        taken
    }

    /// A queue of equal invocations in the same order. It has its index at once, unless memory for that runs out.
    pub fn copy(&self, alloc: Global) -> Result<Queue, NoMemory>
        ensures { IfOk result (λ c. c.items ≡ self.now.items) }
    {
        let mut pending = Line::new(alloc);
        for place in 0..self.pending.len() {
            let invocation = self.pending.at(place);
            let copy = invocation.copy(alloc)?;
            add(&mut pending, copy)?;
        }
        let index = index_of(alloc, &pending);
        Ok(Queue {
            alloc,
            pending,
            index,
        })
    }
}

/// Puts an invocation after all others.
fn add(pending: &mut Line<Pending>, invocation: Pending) -> Result<(), NoMemory>
    ensures { OnOk result (pending.new.items ≡ pending.old.items ++ invocation ∷ []) }
{
    pending.reserve()?;
    pending.push_reserved(invocation);
    Ok(())
}

/// How many invocations of an operation there are.
fn counted(pending: &Line<Pending>, owner: Owner, op: u32) -> usize
    ensures { result ≡ waiting owner op pending.now.items }
{
    let mut count = 0;
    for place in 0..pending.len() {
        if pending.at(place).is_of(owner, op) {
            count += 1;
        }
    }
    count
}

/// The place of the first invocation of an operation at or after a place.
fn found(pending: &Line<Pending>, owner: Owner, op: u32, from: usize) -> Option<usize>
    ensures { result ≡ next_waiting owner op from pending.now.items }
{
    for place in from..pending.len() {
        if pending.at(place).is_of(owner, op) {
            return Some(place);
        }
    }
    None
}

/// Notes the last of all that is pending where there is an index. Otherwise it may begin one.
fn note_last(alloc: Global, index: &mut Option<Index>, pending: &Line<Pending>, class: Class)
    ensures { (items : List Pending) (p : Pending) → pending.now.items ≡ items ++ p ∷ [] → class_in p ≡ class → IsIndexed items index.old → IsIndexed pending.now.items index.new }
{
    if index.is_some() {
        note(index, class);
    } else if begins_index(pending.len()) {
        *index = index_of(alloc, pending);
    }
}

/// Whether an index begins at so many. By powers of two, all tries together cost each invocation the same.
fn begins_index(count: usize) -> bool {
    count >= LEAST_INDEXED && count.is_power_of_two()
}

/// Adds one to an index, or gives the index up.
fn note(index: &mut Option<Index>, class: Class)
    ensures { (items : List Pending) (p : Pending) → class_in p ≡ class → IsIndexed items index.old → IsIndexed (items ++ p ∷ []) index.new }
{
    if let Some(whole) = index
        && whole.push(class).is_err()
    {
        *index = None;
    }
}

/// The index of all that is pending, unless memory for it runs out.
fn index_of(alloc: Global, pending: &Line<Pending>) -> Option<Index>
    ensures { IsIndexed pending.now.items result }
{
    let mut index = Some(Index::new(alloc));
    for place in 0..pending.len() {
        let invocation = pending.at(place);
        note(&mut index, class_of(invocation.owner, invocation.op));
    }
    index
}

/// Takes the one at a place out of an index.
fn forget(index: &mut Option<Index>, place: usize)
    requires { IfSome index.old (λ classes. place < length classes) }
    ensures { index.new ≡ option_map (λ classes. remove classes place) index.old }
{
    if let Some(index) = index {
        index.remove_at(place);
    }
}

/// Ends an index where nothing is left to be in it.
fn end_empty(index: &mut Option<Index>, left: usize)
    ensures { (items : List Pending) → IsIndexed items index.old → IsIndexed items index.new }
{
    if left == 0 && index.is_some() {
        let _ = index.take();
    }
}

/// Takes the invocation at a place out of a list.
pub(crate) fn take_out(pending: &mut Line<Pending>, i: u32) -> Pending
    requires { i < length pending.old.items }
    ensures item { slice_get pending.old.items i ≡ Some result }
    ensures others { pending.new.items ≡ remove pending.old.items i }
    ensures room { pending.old.room ≤ pending.new.room }
{
    match pending.remove(i as usize) {
        Some(taken) => taken,
        None => unreachable!(),
    }
}
