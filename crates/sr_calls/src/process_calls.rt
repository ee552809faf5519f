ghost use Rattle.std.specs.Prelude.{◌≡◌, ◌+◌, ◌<◌, ◌≤◌, [], ◌∷◌, ◌++◌, IfNone, IfOk, IsOk, OnErr, OnOk, OnSome, Some, find, is_some, option_copied, position, remove, slice_index_or};
ghost use Rattle.std.specs.List.{list_any};
ghost use Rattle.sr_calls.specs.Calls.{answers_one, is_held_as, without_first};
ghost use Rattle.sr_calls.specs.PerProcess.{KeepsRoom};
ghost use Rattle.sr_calls.specs.declared.held.Reply.{Reply};
ghost use Rattle.std.specs.VecDeque.{deque_capacity, deque_len};

use crate::held::{Held, Reply};
use sr_ask::SharedNumbers;
use sr_value::{Duplicate, NoMemory};
use std::alloc::Global;
use std::collections::VecDeque;
use std::marker::Model;

/// How many replies the first room is for.
const LEAST_ROOM: usize = 4;

/// The invocations that one process holds, and the replies to it.
#[derive(Drop)]
pub struct ProcessCalls {
    held: Vec<Held>,
    replies: VecDeque<Reply>,
}

impl Model for ProcessCalls {
    ghost use Rattle.std.specs.Prelude.{◌-◌, length};
    ghost use Rattle.std.specs.Vec.{vec_capacity};
    ghost use Rattle.std.specs.VecDeque.{deque_capacity};
    ghost use Rattle.std.specs.Coded.{codes};
    ghost use Rattle.sr_value.specs.contracts.value.Value as value;
    ghost use Rattle.sr_calls.specs.PerProcess.{ProcessCalled};

    ghost Value = { ProcessCalled };

    ghost coded = { Prim.hlevel (codes, value.the_row.coded) };

    ghost view = { λ process_calls. record {
      held = process_calls.held.items;
      replies = process_calls.replies.items;
      room = record {
        holds = vec_capacity process_calls.held - length process_calls.held.items;
        answers = deque_capacity process_calls.replies - length process_calls.replies.items;
      };
    } };
}

impl ProcessCalls {
    /// It holds nothing, and nothing was replied. It takes no memory.
    pub fn new(alloc: Global) -> Self
        ensures held { result.held ≡ [] }
        ensures replies { result.replies ≡ [] }
    {
        ProcessCalls {
            held: Vec::new(alloc),
            replies: VecDeque::new(alloc),
        }
    }

    /// Makes room for one more hold and one more reply.
    pub fn reserve(&mut self) -> Result<(), NoMemory>
        ensures held { self.new.held ≡ self.old.held }
        ensures replies { self.new.replies ≡ self.old.replies }
        ensures holds { OnOk result (0 < self.new.room.holds) }
        ensures answers { OnOk result (0 < self.new.room.answers) }
        ensures kept { KeepsRoom self.old.room self.new.room }
    {
        self.held.try_reserve(1)?;
        self.reserve_reply()
    }

    /// Puts an invocation after those that it holds.
    pub fn hold(&mut self, held: Held) -> Result<(), NoMemory>
        ensures ok { OnOk result (self.new.held ≡ self.old.held ++ held ∷ []) }
        ensures replies { self.new.replies ≡ self.old.replies }
        ensures answers { self.new.room.answers ≡ self.old.room.answers }
        ensures succeeds { 0 < self.old.room.holds → IsOk result }
        ensures err { OnErr result (self.new ≡ self.old) }
    {
        self.held.try_reserve(1)?;
        self.held.push_reserved(held);
        Ok(())
    }

    /// Takes an invocation out of those that it holds, where it is there.
    pub fn release(&mut self, id: u32) -> Option<Held>
        ensures found { result ≡ find (is_held_as id) self.old.held }
        ensures held { self.new.held ≡ without_first (is_held_as id) self.old.held }
        ensures replies { self.new.replies ≡ self.old.replies }
        ensures none { IfNone result (self.new ≡ self.old) }
        ensures kept { KeepsRoom self.old.room self.new.room }
    {
        let at = place_of(self.held.as_slice(), id)?;
        Some(self.held.remove(at))
    }

    /// What it holds under a number.
    pub fn holding(&self, id: u32) -> Option<Held>
        ensures { result ≡ find (is_held_as id) self.now.held }
    {
        held_in(self.held.as_slice(), id)
    }

    /// Puts a reply after the others.
    pub fn answer(&mut self, reply: Reply) -> Result<(), NoMemory>
        ensures ok { OnOk result (self.new.replies ≡ self.old.replies ++ reply ∷ []) }
        ensures held { self.new.held ≡ self.old.held }
        ensures holds { self.new.room.holds ≡ self.old.room.holds }
        ensures succeeds { 0 < self.old.room.answers → IsOk result }
        ensures err { OnErr result (self.new ≡ self.old) }
    {
        self.reserve_reply()?;
        self.replies.push_back_reserved(reply);
        Ok(())
    }

    /// Makes room for one more reply. The room doubles where there is none.
    fn reserve_reply(&mut self) -> Result<(), NoMemory>
        ensures held { self.new.held ≡ self.old.held }
        ensures replies { self.new.replies ≡ self.old.replies }
        ensures holds { self.new.room.holds ≡ self.old.room.holds }
        ensures ok { OnOk result (0 < self.new.room.answers) }
        ensures kept { self.old.room.answers ≤ self.new.room.answers }
        ensures succeeds { 0 < self.old.room.answers → IsOk result }
        ensures err { OnErr result (self.new ≡ self.old) }
    {
        if self.replies.len() == self.replies.capacity() {
            let more = self.replies.len().max(LEAST_ROOM);
            self.replies.reserve_exact(more)?;
        }
        Ok(())
    }

    /// Whether there is a reply whose number is among `ids`.
    #[tactic(auto, using(crate::proofs::FirstLemmas::some_found))]
    pub fn has_reply(&self, ids: &SharedNumbers) -> bool
        ensures { result ≡ is_some (find (answers_one ids.now) self.now.replies) }
    {
        is_any_among(&self.replies, ids)
    }

    /// The earliest reply whose number is among `ids`.
    pub fn earliest(&self, ids: &SharedNumbers) -> Option<&Reply>
        ensures { option_copied result ≡ find (answers_one ids.now) self.now.replies }
    {
        earliest_among(&self.replies, ids)
    }

    /// Takes the earliest reply out whose number is among `ids`.
    pub fn take(&mut self, ids: &SharedNumbers) -> Option<Reply>
        ensures found { result ≡ find (answers_one ids.now) self.old.replies }
        ensures replies { self.new.replies ≡ without_first (answers_one ids.now) self.old.replies }
        ensures held { self.new.held ≡ self.old.held }
        ensures none { IfNone result (self.new ≡ self.old) }
        ensures kept { KeepsRoom self.old.room self.new.room }
    {
        let at = place_among(&self.replies, ids)?;
        take_at(&mut self.replies, at)
    }

    /// A copy, without the room.
    pub fn copy(&self, alloc: Global) -> Result<ProcessCalls, NoMemory>
        ensures held { IfOk result (λ copy. copy.held ≡ self.now.held) }
        ensures replies { IfOk result (λ copy. copy.replies ≡ self.now.replies) }
    {
        let held = copied_holds(alloc, self.held.as_slice())?;
        let replies = copied_replies(alloc, &self.replies)?;
        Ok(ProcessCalls { held, replies })
    }
}

/// A copy of invocations that are held.
fn copied_holds(alloc: Global, held: &[Held]) -> Result<Vec<Held>, NoMemory>
    ensures { IfOk result (λ copies. copies.items ≡ held.now) }
{
    let mut copies = Vec::new(alloc);
    for invocation in held {
        copies.push(*invocation)?;
    }
    Ok(copies)
}

/// A copy of replies.
fn copied_replies(alloc: Global, replies: &VecDeque<Reply>) -> Result<VecDeque<Reply>, NoMemory>
    ensures { IfOk result (λ copies. copies.items ≡ replies.now.items) }
{
    let mut copies = VecDeque::new(alloc);
    for reply in replies {
        let copy = reply.copy(alloc)?;
        copies.push_back(copy)?;
    }
    Ok(copies)
}

/// An invocation among those that are held.
fn held_in(held: &[Held], id: u32) -> Option<Held>
    ensures { result ≡ find (is_held_as id) held.now }
{
    let mut rest = held;
    while let [first, others @ ..] = rest {
        if first.id == id {
            return Some(*first);
        }
        rest = others;
    }
    None
}

/// Where an invocation stands among those that are held.
fn place_of(held: &[Held], id: u32) -> Option<usize>
    ensures { result ≡ position (is_held_as id) held.now }
{
    held.iter().position(|held| held.id == id)
}

/// The earliest reply whose number is among `ids`.
fn earliest_among<'a>(replies: &'a VecDeque<Reply>, ids: &SharedNumbers) -> Option<&'a Reply>
    ensures { option_copied result ≡ find (answers_one ids.now) replies.now.items }
{
    replies.iter().find(|reply| ids.contains(reply.id))
}

/// Where the earliest reply stands whose number is among `ids`.
fn place_among(replies: &VecDeque<Reply>, ids: &SharedNumbers) -> Option<usize>
    ensures { result ≡ position (answers_one ids.now) replies.now.items }
{
    replies.iter().position(|reply| ids.contains(reply.id))
}

/// Takes the reply at a place out. The first leaves without a move of the others.
fn take_at(replies: &mut VecDeque<Reply>, place: usize) -> Option<Reply>
    ensures items { OnSome result (replies.new.items ≡ remove replies.old.items place) }
    ensures succeeds { (other : Reply) → place < deque_len replies.old → result ≡ Some (slice_index_or replies.old.items place other) }
    ensures len { OnSome result (deque_len replies.new + 1 ≡ deque_len replies.old) }
    ensures unchanged { IfNone result (replies.new.items ≡ replies.old.items) }
    ensures capacity { deque_capacity replies.new ≡ deque_capacity replies.old }
{
    if place == 0 {
        return replies.pop_front();
    }
    replies.remove(place)
}

/// Whether the number of a reply is among `ids`.
fn is_any_among(replies: &VecDeque<Reply>, ids: &SharedNumbers) -> bool
    ensures { result ≡ list_any (answers_one ids.now) replies.now.items }
{
    replies.iter().any(|reply| ids.contains(reply.id))
}
