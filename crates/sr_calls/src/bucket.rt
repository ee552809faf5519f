ghost use Rattle.std.specs.Prelude.{◌≡◌, IfNone, IfOk, IsOk, OnErr, OnOk, is_some, option_copied};
ghost use Rattle.std.specs.Option.{option_map};
ghost use Rattle.std.specs.FinMap as map;
ghost use Rattle.sr_calls.specs.Calls.{CanAnswer, CanHold, KeepsAnswers, KeepsHolds, KeepsOtherAnswers, KeepsOtherHolds, earliest_reply, held_as, with_item, with_items, without_held, without_reply};

use crate::held::{Held, Reply};
use crate::process_calls::ProcessCalls;
use sr_ask::SharedNumbers;
use sr_value::{NoMemory, Row, Value};
use std::alloc::Global;
use std::collections::HashMap;
use std::marker::Model;

/// The invocations that processes of one part hold, and the replies that wait for them.
#[derive(Drop)]
pub struct Bucket {
    alloc: Global,
    /// By process. An empty one keeps its room.
    by_process: HashMap<u32, ProcessCalls>,
}

impl Model for Bucket {
    ghost use Rattle.std.specs.Prelude.{List, refl};
    ghost use Rattle.std.specs.Coded.{code_by, coded×, coded_list, coded_ℕ};
    ghost use Rattle.std.specs.FinMap as map;
    ghost use Rattle.sr_calls.specs.Calls.{ByProcess, Called, Room, room_code};
    ghost use Rattle.sr_calls.specs.declared.held.Held.{Held};
    ghost use Rattle.sr_calls.specs.declared.held.Reply.{Reply};
    ghost use Rattle.sr_calls.specs.contracts.held.Held as held;
    ghost use Rattle.sr_calls.specs.contracts.held.Reply as reply;

    ghost Value = { Called };

    ghost coded = { code_by (ByProcess (List Held) × (ByProcess (List Reply) × ByProcess Room))
        (coded× (map.code coded_ℕ (coded_list held.the_row.coded)) (coded× (map.code coded_ℕ (coded_list reply.the_row.coded)) (map.code coded_ℕ room_code)))
        (λ c. (c.held, (c.replies, c.room))) (λ p. record { held = p.0; replies = p.1.0; room = p.1.1 }) (λ _. refl) };

    ghost use Rattle.sr_calls.specs.PerProcess.{called_on};

    ghost view = { λ bucket. called_on bucket.by_process.entries };
}

impl Bucket {
    /// Nothing is held, and there are no replies. It takes no memory.
    pub fn new(alloc: Global) -> Self
        ensures held { result.held ≡ map.empty }
        ensures replies { result.replies ≡ map.empty }
    {
        Bucket {
            alloc,
            by_process: HashMap::new(alloc),
        }
    }

    /// Makes room for one more hold by a process, and for one more reply to it.
    pub fn reserve(&mut self, process: u32) -> Result<(), NoMemory>
        ensures can_hold { OnOk result (CanHold self.new process) }
        ensures can_answer { OnOk result (CanAnswer self.new process) }

        // Whether or not there is memory, all else stays, and no room is lost.
        ensures held { self.new.held ≡ self.old.held }
        ensures replies { self.new.replies ≡ self.old.replies }
        ensures holds { KeepsHolds self.old self.new }
        ensures answers { KeepsAnswers self.old self.new }
    {
        if let Some(process_calls) = self.by_process.get_mut(&process) {
            return process_calls.reserve();
        }
        let mut process_calls = ProcessCalls::new(self.alloc);
        process_calls.reserve()?;
        self.by_process.insert(process, process_calls)?;
        Ok(())
    }

    /// Notes that a process has taken over an invocation, and who waits for the reply.
    pub fn hold(&mut self, actor: u32, id: u32, back: u32, back_id: u32) -> Result<(), NoMemory>
        ensures held { OnOk result (self.new.held ≡ with_item self.old.held actor (record { id = id; back = back; back_id = back_id })) }
        ensures replies { self.new.replies ≡ self.old.replies }
        ensures succeeds { CanHold self.old actor → IsOk result }
        ensures holds { KeepsOtherHolds self.old self.new actor }
        ensures answers { KeepsAnswers self.old self.new }
        ensures err { OnErr result (self.new ≡ self.old) }
    {
        let held = Held { id, back, back_id };
        if let Some(process_calls) = self.by_process.get_mut(&actor) {
            return process_calls.hold(held);
        }
        let mut process_calls = ProcessCalls::new(self.alloc);
        process_calls.hold(held)?;
        self.by_process.insert(actor, process_calls)?;
        Ok(())
    }

    /// What a process holds under a number.
    pub fn holding(&self, actor: u32, id: u32) -> Option<Held>
        ensures { result ≡ held_as self.now.held actor id }
    {
        match self.by_process.get(&actor) {
            Some(process_calls) => process_calls.holding(id),
            None => None,
        }
    }

    /// Takes an invocation from a process that holds it, and says who waits for the reply.
    pub fn release(&mut self, actor: u32, id: u32) -> Option<(u32, u32)>
        ensures found { result ≡ option_map (λ held. (held.back, held.back_id)) (held_as self.old.held actor id) }
        ensures held { self.new.held ≡ without_held self.old.held actor id }
        ensures replies { self.new.replies ≡ self.old.replies }
        ensures none { IfNone result (self.new ≡ self.old) }
        ensures holds { KeepsHolds self.old self.new }
        ensures answers { KeepsAnswers self.old self.new }
    {
        let held = self.released(actor, id)?;
        Some((held.back, held.back_id))
    }

    fn released(&mut self, actor: u32, id: u32) -> Option<Held>
        ensures found { result ≡ held_as self.old.held actor id }
        ensures held { self.new.held ≡ without_held self.old.held actor id }
        ensures replies { self.new.replies ≡ self.old.replies }
        ensures none { IfNone result (self.new ≡ self.old) }
        ensures holds { KeepsHolds self.old self.new }
        ensures answers { KeepsAnswers self.old self.new }
    {
        let process_calls = self.by_process.get_mut(&actor)?;
        process_calls.release(id)
    }

    /// Adds a reply to a caller as the latest to it.
    pub fn answer(
        &mut self,
        caller: u32,
        id: u32,
        results: Option<Row<Value>>,
    ) -> Result<(), NoMemory>
        ensures replies { OnOk result (self.new.replies ≡ with_item self.old.replies caller (record { id = id; results = results })) }
        ensures held { self.new.held ≡ self.old.held }
        ensures succeeds { CanAnswer self.old caller → IsOk result }
        ensures holds { KeepsHolds self.old self.new }
        ensures answers { KeepsOtherAnswers self.old self.new caller }
        ensures err { OnErr result (self.new ≡ self.old) }
    {
        let reply = Reply { id, results };
        if let Some(process_calls) = self.by_process.get_mut(&caller) {
            return process_calls.answer(reply);
        }
        let mut process_calls = ProcessCalls::new(self.alloc);
        process_calls.answer(reply)?;
        self.by_process.insert(caller, process_calls)?;
        Ok(())
    }

    /// Whether there is a reply to a caller whose number is among `ids`.
    pub fn has_reply(&self, caller: u32, ids: &SharedNumbers) -> bool
        ensures { result ≡ is_some (earliest_reply self.now.replies caller ids.now) }
    {
        match self.by_process.get(&caller) {
            Some(process_calls) => process_calls.has_reply(ids),
            None => false,
        }
    }

    /// The earliest reply to a caller whose number is among `ids`.
    pub fn earliest(&self, caller: u32, ids: &SharedNumbers) -> Option<&Reply>
        ensures { option_copied result ≡ earliest_reply self.now.replies caller ids.now }
    {
        match self.by_process.get(&caller) {
            Some(process_calls) => process_calls.earliest(ids),
            None => None,
        }
    }

    /// Takes the earliest reply to a caller whose number is among `ids`.
    pub fn take(&mut self, caller: u32, ids: &SharedNumbers) -> Option<(u32, Option<Row<Value>>)>
        ensures found { result ≡ option_map (λ reply. (reply.id, reply.results)) (earliest_reply self.old.replies caller ids.now) }
        ensures replies { self.new.replies ≡ without_reply self.old.replies caller ids.now }
        ensures held { self.new.held ≡ self.old.held }
        ensures none { IfNone result (self.new ≡ self.old) }
        ensures holds { KeepsHolds self.old self.new }
        ensures answers { KeepsAnswers self.old self.new }
    {
        let Reply { id, results } = self.taken(caller, ids)?;
        Some((id, results))
    }

    fn taken(&mut self, caller: u32, ids: &SharedNumbers) -> Option<Reply>
        ensures found { result ≡ earliest_reply self.old.replies caller ids.now }
        ensures replies { self.new.replies ≡ without_reply self.old.replies caller ids.now }
        ensures held { self.new.held ≡ self.old.held }
        ensures none { IfNone result (self.new ≡ self.old) }
        ensures holds { KeepsHolds self.old self.new }
        ensures answers { KeepsAnswers self.old self.new }
    {
        let process_calls = self.by_process.get_mut(&caller)?;
        process_calls.take(ids)
    }

    /// Drops what a process held, and the replies to it.
    pub fn forget(&mut self, process: u32)
        ensures held { self.new.held ≡ map.remove self.old.held process }
        ensures replies { self.new.replies ≡ map.remove self.old.replies process }
        ensures holds { KeepsOtherHolds self.old self.new process }
        ensures answers { KeepsOtherAnswers self.old self.new process }
    {
        self.by_process.remove(&process);
    }

    /// A copy of what is held and of the replies, without the room.
    pub fn copy(&self, alloc: Global) -> Result<Bucket, NoMemory>
        ensures held { IfOk result (λ copy. copy.held ≡ self.now.held) }
        ensures replies { IfOk result (λ copy. copy.replies ≡ self.now.replies) }
    {
        let mut copy = Bucket::new(alloc);
        copy.add_copies(self)?;
        Ok(copy)
    }

    /// Adds copies of what the processes of another hold, and of the replies to them.
    fn add_copies(&mut self, other: &Bucket) -> Result<(), NoMemory>
        requires held { self.old.held ≡ map.empty }
        requires replies { self.old.replies ≡ map.empty }
        ensures held { OnOk result (self.new.held ≡ other.now.held) }
        ensures replies { OnOk result (self.new.replies ≡ other.now.replies) }
    {
        for (process, process_calls) in &other.by_process {
            let copy = process_calls.copy(self.alloc)?;
            self.add(*process, copy)?;
        }
        Ok(())
    }

    /// Gives a process these calls, in place of all that it had.
    fn add(&mut self, process: u32, process_calls: ProcessCalls) -> Result<(), NoMemory>
        ensures held { OnOk result (self.new.held ≡ with_items self.old.held process process_calls.held) }
        ensures replies { OnOk result (self.new.replies ≡ with_items self.old.replies process process_calls.replies) }
    {
        self.by_process.insert(process, process_calls)?;
        Ok(())
    }
}
