ghost use Rattle.std.specs.Prelude.{◌≡◌, ◌<◌, [], IsOk, None, OnErr, OnOk, Some, true};
ghost use Rattle.sr_ask.specs.declared.answer.Answer.{Answer};
ghost use Rattle.sr_calls.specs.Calls.{CanHold, KeepsAnswers, KeepsHolds, with_item};
ghost use Rattle.sr_world.specs.Acting.{Acts};
ghost use Rattle.sr_world.specs.Answering.{answer_held, answer as answer_of, duty_held as duty_in, held_of};
ghost use Rattle.sr_world.specs.Does.{Did};
ghost use Rattle.sr_world.specs.Invoking.{instance_of_process as instance_for};
ghost use Rattle.sr_world.specs.Parts.{CanReply, held_with, held_without, let_go as let_go_of, replies_after, replies_unless};
ghost use Rattle.sr_world.specs.Steps.{ready_after as ready_after_of, reply as reply_of, take as take_of};
ghost use Rattle.sr_world.specs.Updates.{use_name};

use crate::acted::Acted;
use crate::duty::{Duty, Forwarded, Sending};
use crate::places::ready_own;
use crate::world::World;
use sr_ask::{Answer, Role, SharedNumbers};
use sr_calls::Calls;
use sr_processes::Processes;
use sr_value::{Duplicate, NoMemory, Row, Value};

/// Answers whoever waits, where it lives.
pub fn answer(
    processes: &Processes,
    calls: &mut Calls,
    duty: Duty,
    results: Option<Row<Value>>,
) -> Result<(), NoMemory>
    ensures replies { OnOk result (calls.new.replies ≡ replies_after processes.now.starts duty results calls.old.replies) }
    ensures held { calls.new.held ≡ calls.old.held }
    ensures succeeds { CanReply processes.now.starts calls.old duty.back → IsOk result }
    ensures err { OnErr result (calls.new ≡ calls.old) }
{
    if processes.is_live(duty.back) {
        return calls.answer(duty.back, duty.back_id, results);
    }
    Ok(())
}

/// Answers whoever waits, where it lives. It takes no memory.
pub fn answer_reserved(
    processes: &Processes,
    calls: &mut Calls,
    duty: Duty,
    results: Option<Row<Value>>,
)
    requires { CanReply processes.now.starts calls.old duty.back }
    ensures replies { calls.new.replies ≡ replies_after processes.now.starts duty results calls.old.replies }
    ensures held { calls.new.held ≡ calls.old.held }
{
    let _ = answer(processes, calls, duty, results);
}

/// Answers whoever waits, where it lives and hasn't been answered. It takes no memory.
pub fn answer_unless(
    processes: &Processes,
    calls: &mut Calls,
    answered: bool,
    duty: Duty,
    results: Row<Value>,
)
    requires { CanReply processes.now.starts calls.old duty.back }
    ensures replies { calls.new.replies ≡ replies_unless answered processes.now.starts duty (Some results) calls.old.replies }
    ensures held { calls.new.held ≡ calls.old.held }
{
    if !answered {
        answer_reserved(processes, calls, duty, Some(results));
    }
}

/// Notes that a process holds an invocation. It takes no memory.
pub fn hold(calls: &mut Calls, process: u32, duty: Duty)
    requires { CanHold calls.old process }
    ensures held { calls.new.held ≡ with_item calls.old.held process (held_of process duty) }
    ensures replies { calls.new.replies ≡ calls.old.replies }
{
    let _ = calls.hold(process, process, duty.back, duty.back_id);
}

/// Notes that a new process holds its invocation, where somebody waits. It takes no memory.
pub fn hold_for(calls: &mut Calls, process: u32, duty: Option<Duty>)
    requires { CanHold calls.old process }
    ensures held { calls.new.held ≡ held_with process duty calls.old.held }
    ensures replies { calls.new.replies ≡ calls.old.replies }
{
    if let Some(duty) = duty {
        hold(calls, process, duty);
    }
}

/// Takes the invocation that is handed on from its process. It takes no memory.
pub fn let_go(calls: &mut Calls, forwarded: Option<Forwarded>)
    ensures held { calls.new.held ≡ held_without forwarded calls.old.held }
    ensures replies { calls.new.replies ≡ calls.old.replies }
    ensures holds { KeepsHolds calls.old calls.new }
    ensures answers { KeepsAnswers calls.old calls.new }
{
    if let Some(Forwarded { process, id }) = forwarded {
        let _ = calls.release(process, id);
    }
}

impl World {
    /// Who waits for the answer to an invocation that a process holds.
    pub(crate) fn duty_held(&self, process: u32, id: u32) -> Duty
        ensures { result ≡ duty_in self.now process id }
    {
        match self.calls.holding(process, id) {
            Some(held) => Duty {
                back: held.back,
                back_id: held.back_id,
            },
            None => Duty {
                back: 0,
                back_id: id,
            },
        }
    }

    /// The instance that a process runs the code of; 0 for one that doesn't live.
    pub(crate) fn instance_of_process(&self, process: u32) -> u32
        ensures { result ≡ instance_for self.now process }
    {
        match self.processes.start(process) {
            Some(start) => start.instance,
            None => 0,
        }
    }

    /// Answers an invocation that a process holds, which holds it no longer.
    #[tactic(auto, using(crate::proofs::PartLemmas::answer_is))]
    fn answer_held(&mut self, process: u32, id: u32, results: Row<Value>) -> Result<(), NoMemory>
        ensures ok { OnOk result (self.new ≡ answer_held process id results self.old) }
        ensures err { OnErr result (self.new ≡ self.old) }
    {
        let duty = self.duty_held(process, id);
        answer(&self.processes, &mut self.calls, duty, Some(results))?;
        let _ = self.calls.release(process, id);
        Ok(())
    }

    /// A process answers an invocation. Initial code that answers its `create` is ready from then on.
    #[inline(never)]
    pub(crate) fn reply(
        &mut self,
        role: Role,
        actor: u32,
        held: u32,
        results: &Row<Value>,
    ) -> Result<Acted, NoMemory>
        ensures { Acts (Did (reply_of role actor held results.now self.old) Answer.Done) self.old self.new result }
    {
        let results = results.copy(self.alloc)?;
        self.answer_held(actor, held, results)?;
        self.note_answered(role, actor, held == actor);
        Ok(Acted::Done(Answer::Done))
    }

    /// Initial code that answered its `create` is ready from then on. The instance of any other process isn't looked for.
    #[tactic(auto, using(crate::proofs::PartLemmas::ready_after_is, crate::proofs::PartLemmas::ready_kept))]
    fn note_answered(&mut self, role: Role, actor: u32, own: bool)
        ensures { self.new ≡ ready_after_of role own actor self.old }
    {
        match role {
            Role::Initial => {
                let instance = self.instance_of_process(actor);
                ready_own(&mut self.places, role, own, instance);
            }
            _ => {}
        }
    }

    /// The earliest reply to one of these invocations.
    #[inline(never)]
    pub(crate) fn take(&mut self, actor: u32, ids: &SharedNumbers) -> Result<Acted, NoMemory>
        ensures { Acts (take_of actor ids.now self.old) self.old self.new result }
    {
        match self.calls.take(actor, ids) {
            Some((id, results)) => Ok(Acted::Done(Answer::Took { id, results })),
            None => Ok(Acted::Cannot),
        }
    }

    /// Answers a `destroy` of `noop` at once.
    #[tactic(auto, using(crate::proofs::PartLemmas::answer_is))]
    pub(crate) fn answer_empty(&mut self, name: u32, duty: Duty) -> Result<(), NoMemory>
        ensures ok { OnOk result (self.new ≡ answer_of duty (Some []) (use_name name self.old)) }
        ensures err { OnErr result (self.new ≡ self.old) }
    {
        self.used.reserve()?;
        let results = Some(Row::new(self.alloc));
        answer(&self.processes, &mut self.calls, duty, results)?;
        self.used.push(name);
        Ok(())
    }

    /// Answers at once, without results, in place of an invocation.
    #[tactic(auto, using(crate::proofs::PartLemmas::answer_is))]
    pub(crate) fn answer_noop(&mut self, sending: Sending) -> Result<(), NoMemory>
        ensures ok { OnOk result (self.new ≡ answer_of sending.duty None (use_name sending.name (let_go_of sending.forwarded self.old))) }
        ensures err { OnErr result (self.new ≡ self.old) }
    {
        self.used.reserve()?;
        answer(&self.processes, &mut self.calls, sending.duty, None)?;
        let_go(&mut self.calls, sending.forwarded);
        self.used.push(sending.name);
        Ok(())
    }
}
