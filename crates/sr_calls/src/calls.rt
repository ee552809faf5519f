ghost use Rattle.std.specs.Prelude.{◌≡◌, ◌<◌, ℕ, IfNone, IfOk, IsOk, OnErr, OnOk, Some, is_some, length, slice_get};
ghost use Rattle.std.specs.Option.{option_map};
ghost use Rattle.std.specs.FinMap as map;
ghost use Rattle.sr_buckets.specs.Parts.{home, part};
ghost use Rattle.sr_calls.specs.Buckets.{AreBuckets};
ghost use Rattle.sr_calls.specs.Calls.{Called, CanAnswer, CanHold, KeepsAnswers, KeepsHolds, KeepsOtherAnswers, KeepsOtherHolds, earliest_reply, held_as, with_item, without_held, without_reply};

use crate::bucket::Bucket;
use crate::held::Held;
use sr_ask::SharedNumbers;
use sr_buckets::{PARTS, home};
use sr_value::{NoMemory, Row, Value};
use std::alloc::Global;
use std::array;
use std::marker::Model;

/// The invocations that processes hold, and the replies that wait for processes. Those of a process stand in the bucket
/// of its number.
#[derive(Drop)]
pub struct Calls {
    buckets: [Bucket; PARTS],
}

impl Model for Calls {
    ghost use Rattle.std.specs.Prelude.{List, refl};
    ghost use Rattle.std.specs.Coded.{code_by, coded×, coded_list, coded_ℕ};
    ghost use Rattle.std.specs.FinMap as map;
    ghost use Rattle.sr_calls.specs.Buckets.{AreBuckets, called_in};
    ghost use Rattle.sr_calls.specs.Calls.{ByProcess, Called, Room, room_code};
    ghost use Rattle.sr_calls.specs.declared.held.Held.{Held};
    ghost use Rattle.sr_calls.specs.declared.held.Reply.{Reply};
    ghost use Rattle.sr_calls.specs.contracts.held.Held as held;
    ghost use Rattle.sr_calls.specs.contracts.held.Reply as reply;

    ghost Value = { Called };

    ghost coded = { code_by (ByProcess (List Held) × (ByProcess (List Reply) × ByProcess Room))
        (coded× (map.code coded_ℕ (coded_list held.the_row.coded)) (coded× (map.code coded_ℕ (coded_list reply.the_row.coded)) (map.code coded_ℕ room_code)))
        (λ c. (c.held, (c.replies, c.room))) (λ p. record { held = p.0; replies = p.1.0; room = p.1.1 }) (λ _. refl) };

    ghost view = { λ calls. called_in calls.buckets };

    ghost invariant = { λ calls. AreBuckets calls.buckets };
}

impl Calls {
    /// Nothing is held, and there are no replies. It takes no memory.
    pub fn new(alloc: Global) -> Self
        ensures held { result.held ≡ map.empty }
        ensures replies { result.replies ≡ map.empty }
    {
        Calls {
            buckets: no_calls(alloc),
        }
    }

    /// Makes room for one more hold by a process, and for one more reply to it.
    pub fn reserve(&mut self, process: u32) -> Result<(), NoMemory>
        ensures can_hold { OnOk result (CanHold self.new process) }
        ensures can_answer { OnOk result (CanAnswer self.new process) }

        // Whether or not there is memory, all else stays, and no room is lost.
        ensures held { self.new.held ≡ self.old.held }
        ensures replies { self.new.replies ≡ self.old.replies }
        ensures holds { KeepsHolds self.old self.new }
        ensures answers { KeepsAnswers self.old self.new }
    {
        let bucket = &mut self.buckets[home(process)];
        bucket.reserve(process)
    }

    /// Notes that a process has taken over an invocation, and who waits for the reply.
    pub fn hold(&mut self, actor: u32, id: u32, back: u32, back_id: u32) -> Result<(), NoMemory>
        ensures held { OnOk result (self.new.held ≡ with_item self.old.held actor (record { id = id; back = back; back_id = back_id })) }
        ensures replies { self.new.replies ≡ self.old.replies }
        ensures succeeds { CanHold self.old actor → IsOk result }
        ensures holds { KeepsOtherHolds self.old self.new actor }
        ensures answers { KeepsAnswers self.old self.new }
        ensures err { OnErr result (self.new ≡ self.old) }
    {
        let bucket = &mut self.buckets[home(actor)];
        bucket.hold(actor, id, back, back_id)
    }

    /// What a process holds under a number.
    pub fn holding(&self, actor: u32, id: u32) -> Option<Held>
        ensures { result ≡ held_as self.now.held actor id }
    {
        let bucket = &self.buckets[home(actor)];
        bucket.holding(actor, id)
    }

    /// Takes an invocation from a process that holds it, and says who waits for the reply.
    pub fn release(&mut self, actor: u32, id: u32) -> Option<(u32, u32)>
        ensures found { result ≡ option_map (λ held. (held.back, held.back_id)) (held_as self.old.held actor id) }
        ensures held { self.new.held ≡ without_held self.old.held actor id }
        ensures replies { self.new.replies ≡ self.old.replies }
        ensures none { IfNone result (self.new ≡ self.old) }
        ensures holds { KeepsHolds self.old self.new }
        ensures answers { KeepsAnswers self.old self.new }
    {
        let bucket = &mut self.buckets[home(actor)];
        bucket.release(actor, id)
    }

    /// Adds a reply to a caller as the latest to it.
    pub fn answer(
        &mut self,
        caller: u32,
        id: u32,
        results: Option<Row<Value>>,
    ) -> Result<(), NoMemory>
        ensures replies { OnOk result (self.new.replies ≡ with_item self.old.replies caller (record { id = id; results = results })) }
        ensures held { self.new.held ≡ self.old.held }
        ensures succeeds { CanAnswer self.old caller → IsOk result }
        ensures holds { KeepsHolds self.old self.new }
        ensures answers { KeepsOtherAnswers self.old self.new caller }
        ensures err { OnErr result (self.new ≡ self.old) }
    {
        let bucket = &mut self.buckets[home(caller)];
        bucket.answer(caller, id, results)
    }

    /// Whether there is a reply to a caller whose number is among `ids`.
    pub fn has_reply(&self, caller: u32, ids: &SharedNumbers) -> bool
        ensures { result ≡ is_some (earliest_reply self.now.replies caller ids.now) }
    {
        let bucket = &self.buckets[home(caller)];
        bucket.has_reply(caller, ids)
    }

    /// Takes the earliest reply to a caller whose number is among `ids`.
    pub fn take(&mut self, caller: u32, ids: &SharedNumbers) -> Option<(u32, Option<Row<Value>>)>
        ensures found { result ≡ option_map (λ reply. (reply.id, reply.results)) (earliest_reply self.old.replies caller ids.now) }
        ensures replies { self.new.replies ≡ without_reply self.old.replies caller ids.now }
        ensures held { self.new.held ≡ self.old.held }
        ensures none { IfNone result (self.new ≡ self.old) }
        ensures holds { KeepsHolds self.old self.new }
        ensures answers { KeepsAnswers self.old self.new }
    {
        let bucket = &mut self.buckets[home(caller)];
        bucket.take(caller, ids)
    }

    /// Drops what a process held, and the replies to it.
    pub fn forget(&mut self, process: u32)
        ensures held { self.new.held ≡ map.remove self.old.held process }
        ensures replies { self.new.replies ≡ map.remove self.old.replies process }
        ensures holds { KeepsOtherHolds self.old self.new process }
        ensures answers { KeepsOtherAnswers self.old self.new process }
    {
        let bucket = &mut self.buckets[home(process)];
        bucket.forget(process);
    }

    /// A copy of what is held and of the replies, without the room.
    pub fn copy(&self, alloc: Global) -> Result<Calls, NoMemory>
        ensures held { IfOk result (λ copy. copy.held ≡ self.now.held) }
        ensures replies { IfOk result (λ copy. copy.replies ≡ self.now.replies) }
    {
        let mut buckets = no_calls(alloc);
        add_copies(alloc, &self.buckets, &mut buckets)?;
        Ok(Calls { buckets })
    }

    /// The buckets: each has what is of its part. It takes no memory.
    pub fn divide(self) -> [Bucket; PARTS]
        ensures buckets { AreBuckets result }
        ensures held { (i : ℕ) (bucket : Called) → slice_get result i ≡ Some bucket → bucket.held ≡ part i self.held }
        ensures replies { (i : ℕ) (bucket : Called) → slice_get result i ≡ Some bucket → bucket.replies ≡ part i self.replies }
        ensures holds { (p : ℕ) (bucket : Called) → slice_get result (home p) ≡ Some bucket → CanHold self p → CanHold bucket p }
        ensures answers { (p : ℕ) (bucket : Called) → slice_get result (home p) ≡ Some bucket → CanAnswer self p → CanAnswer bucket p }
    {
        self.buckets
    }

    /// What all buckets have, each of which has only what is of its part. It takes no memory.
    pub fn join(buckets: [Bucket; PARTS]) -> Self
        requires { AreBuckets buckets }
        ensures held { (i : ℕ) (bucket : Called) → slice_get buckets i ≡ Some bucket → part i result.held ≡ bucket.held }
        ensures replies { (i : ℕ) (bucket : Called) → slice_get buckets i ≡ Some bucket → part i result.replies ≡ bucket.replies }
        ensures holds { (p : ℕ) (bucket : Called) → slice_get buckets (home p) ≡ Some bucket → CanHold bucket p → CanHold result p }
        ensures answers { (p : ℕ) (bucket : Called) → slice_get buckets (home p) ≡ Some bucket → CanAnswer bucket p → CanAnswer result p }
    {
        Calls { buckets }
    }
}

/// Buckets in which nothing is held, and no replies are.
fn no_calls(alloc: Global) -> [Bucket; PARTS]
    ensures all { length result ≡ 32 }
    ensures none { (i : ℕ) (bucket : Called) → slice_get result i ≡ Some bucket → (bucket.held ≡ map.empty) × (bucket.replies ≡ map.empty) }
{
    array::from_fn(
        |_: usize| -> Bucket
            ensures held { result.held ≡ map.empty }
            ensures replies { result.replies ≡ map.empty }
        { Bucket::new(alloc) },
    )
}

/// Puts a copy of each bucket in its place.
fn add_copies(
    alloc: Global,
    from: &[Bucket; PARTS],
    to: &mut [Bucket; PARTS],
) -> Result<(), NoMemory>
    ensures long { length to.new ≡ length to.old }
    ensures copied { OnOk result ((i : ℕ) (bucket copy : Called) → slice_get from.now i ≡ Some bucket → slice_get to.new i ≡ Some copy → (copy.held ≡ bucket.held) × (copy.replies ≡ bucket.replies)) }
{
    for place in 0..PARTS {
        let bucket = from[place].copy(alloc)?;
        to[place] = bucket;
    }
    Ok(())
}
