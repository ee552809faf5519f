ghost use Rattle.std.specs.HashSet.{spare};
ghost use Rattle.std.specs.Prelude.{◌≡◌, ◌<◌, ◌≤◌, IfNone, IfSome, OnOk, remove, length};
ghost use Rattle.sr_calls.specs.Calls.{CanHold, without_first};
ghost use Rattle.sr_processes.specs.Living.{IsLive};
ghost use Rattle.sr_store.specs.Variables.{CanPlace};
ghost use Rattle.sr_world.specs.Worlds as worlds;
ghost use Rattle.sr_shard.specs.Changes.{all_changed, is_numbered};
ghost use Rattle.sr_shard.specs.Dividing.{moved_to, with_moved};
ghost use Rattle.sr_shard.specs.Presents.{AreApart, AreNewcomers, AreReady, IsBase, IsNewcomer, IsReady, IsSame, KeepsAllReady, Makes, has_stayed, present_in};

use crate::change::Change;
use crate::portion::Portion;
use indexmap::IndexSet;
use sr_ask::{SharedNumbers, Start};
use sr_buckets::home;
use sr_calls::Held;
use sr_processes::Processes;
use sr_queue::{MOST_PENDING, Pending, Queue};
use sr_value::{NoMemory, Owner, Row, Sel, Shape, Value};
use sr_world::World;
use std::alloc::Global;

/// What one part has now: what was moved into it, who has begun there since, and who has ended.
#[derive(Drop)]
pub struct Present {
    pub portion: Portion,
    pub born: Processes,
    pub ended: IndexSet<u32>,
}

/// The place of the invocation of an operation with a number.
fn place_of(queue: &Queue, owner: Owner, op: u32, id: u32) -> Option<u32>
    ensures within { IfSome result (λ place. place < length queue.now.items) }
    ensures found { IfSome result (λ place. without_first (is_numbered owner op id) queue.now.items ≡ remove queue.now.items place) }
    ensures none { IfNone result (without_first (is_numbered owner op id) queue.now.items ≡ queue.now.items) }
{
    // The length is what says that a place can be passed.
    let _len = queue.len();
    let mut from = 0;
    'seeking: while let Some(place) = queue.next_of(owner, op, from) {
        if queue.at(place).id == id {
            return Some(place);
        }
        from = place + 1;
    }
    None
}

/// Takes the invocation of an operation with a number out, if it is pending.
fn take_out(queue: &mut Queue, owner: Owner, op: u32, id: u32)
    ensures items { queue.new.items ≡ without_first (is_numbered owner op id) queue.old.items }
    ensures few { length queue.new.items ≤ length queue.old.items }
    ensures room { queue.old.room ≤ queue.new.room }
{
    if let Some(place) = place_of(queue, owner, op, id) {
        let _ = queue.remove_at(place);
    }
}

impl Present {
    /// What a part has at first: what was moved into it. It takes no memory.
    pub fn new(alloc: Global, portion: Portion) -> Self
        ensures portion { result.portion ≡ portion }
        ensures present { (base : worlds.World) → present_in base result ≡ with_moved (moved_to portion) base }
    {
        Present {
            portion,
            born: Processes::new(alloc),
            ended: IndexSet::new(alloc),
        }
    }

    /// Whether a process lives in the part. `standing` has those who lived when the world was divided.
    pub fn is_live(&self, standing: &World, process: u32) -> bool
        ensures { (base : worlds.World) → IsBase self.now.portion.number standing.now base → result ≡ worlds.is_live (present_in base self.now) process }
    {
        self.born.is_live(process) || self.has_stayed(standing, process)
    }

    /// Whether a process lived in the part when the world was divided, and hasn't ended.
    fn has_stayed(&self, standing: &World, process: u32) -> bool
        ensures { result ≡ has_stayed self.now.portion.number self.now.ended.keys standing.now.live process }
    {
        home(process) == self.portion.number
            && !self.ended.contains(&process)
            && standing.started(process).is_some()
    }

    /// Makes a variable of a block.
    fn declare(&mut self, block: u32, var: u32, shape: Shape, value: Value)
        requires { CanPlace self.old.portion.blocks block }
        ensures { (standing : worlds.World) → Makes standing (Change.Declare block var shape value) self.old self.new }
    {
        self.portion.blocks.place(block, var, shape, value);
    }

    /// Puts a value into a variable; where it can't stand there, all stays.
    fn store(&mut self, block: u32, var: u32, path: Row<Sel>, value: Value)
        ensures { (standing : worlds.World) → Makes standing (Change.Store block var path value) self.old self.new }
    {
        let _ = self
            .portion
            .blocks
            .store(block, var, path.as_slice(), value);
    }

    /// Adds an invocation to those that are pending.
    fn arrive(&mut self, invocation: Pending)
        requires few { length self.old.portion.queue.items < MOST_PENDING }
        requires room { 0 < self.old.portion.queue.room }
        ensures { (standing : worlds.World) → Makes standing (Change.Arrive invocation) self.old self.new }
    {
        let _ = self.portion.queue.push(invocation);
    }

    /// Takes an invocation out of those that are pending.
    fn depart(&mut self, owner: Owner, op: u32, id: u32)
        ensures { (standing : worlds.World) → Makes standing (Change.Depart owner op id) self.old self.new }
    {
        take_out(&mut self.portion.queue, owner, op, id);
    }

    /// Has a process hold an invocation.
    fn hold(&mut self, process: u32, held: Held)
        requires { CanHold self.old.portion.calls process }
        ensures { (standing : worlds.World) → Makes standing (Change.Hold process held) self.old self.new }
    {
        let _ = self
            .portion
            .calls
            .hold(process, held.id, held.back, held.back_id);
    }

    /// Has a process hold an invocation no longer.
    fn free(&mut self, process: u32, id: u32)
        ensures { (standing : worlds.World) → Makes standing (Change.Free process id) self.old self.new }
    {
        let _ = self.portion.calls.release(process, id);
    }

    /// Gives a process a reply, if it lives.
    fn answer(&mut self, standing: &World, process: u32, id: u32, results: Option<Row<Value>>)
        requires { (base : worlds.World) → IsBase self.old.portion.number standing.now base → IsReady base self.old (Change.Answer process id results) }
        ensures { Makes standing.now (Change.Answer process id results) self.old self.new }
    {
        if self.is_live(standing, process) {
            let _ = self.portion.calls.answer(process, id, results);
        }
    }

    /// Takes a reply from a process.
    fn take(&mut self, process: u32, ids: SharedNumbers)
        ensures { (standing : worlds.World) → Makes standing (Change.Take process ids) self.old self.new }
    {
        let _ = self.portion.calls.take(process, &ids);
    }

    /// Has a process begin.
    fn begin(&mut self, start: Start)
        requires room { 0 < self.old.born.room }
        requires new { ¬ IsLive self.old.born.starts start.process }
        ensures { (standing : worlds.World) → Makes standing (Change.Begin start) self.old self.new }
    {
        self.born.add(start);
    }

    /// Has a process end.
    fn end(&mut self, process: u32)
        requires { 0 < spare self.old.ended }
        ensures { (standing : worlds.World) → Makes standing (Change.End process) self.old self.new }
    {
        self.born.end(process);
        let _ = self.ended.insert_full(process);
        self.portion.calls.forget(process);
    }

    /// Makes a change. It takes no memory.
    pub fn make(&mut self, standing: &World, change: Change)
        requires { (base : worlds.World) → IsBase self.old.portion.number standing.now base → IsReady base self.old change }
        ensures { Makes standing.now change self.old self.new }
    {
        match change {
            Change::Declare {
                block,
                var,
                shape,
                value,
            } => self.declare(block, var, shape, value),
            Change::Store {
                block,
                var,
                path,
                value,
            } => self.store(block, var, path, value),
            Change::Arrive { invocation } => self.arrive(invocation),
            Change::Depart { owner, op, id } => self.depart(owner, op, id),
            Change::Hold { process, held } => self.hold(process, held),
            Change::Free { process, id } => self.free(process, id),
            Change::Answer {
                process,
                id,
                results,
            } => self.answer(standing, process, id, results),
            Change::Take { process, ids } => self.take(process, ids),
            Change::Begin { start } => self.begin(start),
            Change::End { process } => self.end(process),
        }
    }

    /// Makes changes, one after another. It takes no memory.
    pub fn make_all(&mut self, standing: &World, changes: Row<Change>)
        requires ready { (base : worlds.World) → IsBase self.old.portion.number standing.now base → AreReady base self.old changes }
        requires apart { AreApart changes }
        ensures number { self.new.portion.number ≡ self.old.portion.number }
        ensures present { (base : worlds.World) → IsBase self.old.portion.number standing.now base → present_in base self.new ≡ all_changed changes (present_in base self.old) }
    {
        let mut changes = changes;
        'making: while !changes.is_empty() {
            let change = changes.remove(0);
            self.make(standing, change);
        }
    }

    /// Makes room for an invocation, unless as many as there may be are pending.
    fn make_way(&mut self) -> Result<(), NoMemory>
        ensures room { OnOk result ((length self.new.portion.queue.items < MOST_PENDING) × (0 < self.new.portion.queue.room)) }
        ensures same { IsSame self.old self.new }
        ensures kept { KeepsAllReady self.old self.new }
    {
        if self.portion.queue.len() as usize >= MOST_PENDING {
            return Err(NoMemory);
        }
        self.portion.queue.reserve()
    }

    /// Makes room for one more process that ends.
    fn keep_end(&mut self) -> Result<(), NoMemory>
        ensures room { OnOk result (0 < spare self.new.ended) }
        ensures same { IsSame self.old self.new }
        ensures kept { KeepsAllReady self.old self.new }
    {
        self.ended.reserve(1)?;
        Ok(())
    }

    /// Makes room for a change. Nothing else changes, and no room is lost.
    pub fn reserve(&mut self, change: &Change) -> Result<(), NoMemory>
        requires { IsNewcomer self.old.born.starts change.now }
        ensures ready { OnOk result ((base : worlds.World) → IsReady base self.new change.now) }
        ensures same { IsSame self.old self.new }
        ensures kept { KeepsAllReady self.old self.new }
    {
        match change {
            Change::Declare { block, .. } => self.portion.blocks.reserve(*block),
            Change::Arrive { .. } => self.make_way(),
            Change::Hold { process, .. } => self.portion.calls.reserve(*process),
            Change::Answer { process, .. } => self.portion.calls.reserve(*process),
            Change::Begin { .. } => self.born.reserve(),
            Change::End { .. } => self.keep_end(),
            _ => Ok(()),
        }
    }

    /// Makes room for changes. Nothing else changes.
    pub fn reserve_all(&mut self, changes: &[Change]) -> Result<(), NoMemory>
        requires { AreNewcomers self.old.born.starts changes.now }
        ensures ready { OnOk result ((base : worlds.World) → AreReady base self.new changes.now) }
        ensures same { IsSame self.old self.new }
    {
        for change in changes {
            self.reserve(change)?;
        }
        Ok(())
    }
}
