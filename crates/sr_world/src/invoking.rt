ghost use Rattle.std.specs.Prelude.{◌≡◌, ◌++◌, ◌∷◌, [], None, OnErr, OnOk};
ghost use Rattle.sr_processes.specs.Living.{IsLive};
ghost use Rattle.sr_queue.specs.Queues.{waiting as waiting_in};
ghost use Rattle.sr_world.specs.Acting.{Acts, NeedsNew};
ghost use Rattle.sr_world.specs.Invoking.{arrive as arrive_of, invoke as invoke_of, invoke_found, is_gone as gone_in, owner_instance as instance_of_owner, owner_for as owner_in, wait};
ghost use Rattle.sr_world.specs.Making.{run_proc as proc_run};
ghost use Rattle.sr_world.specs.Parts.{let_go as let_go_of};
ghost use Rattle.sr_world.specs.Steps.{count as count_of, count_found};

use crate::acted::Acted;
use crate::answering::{hold, let_go};
use crate::duty::Sending;
use crate::ends::End;
use crate::places::is_gone_at;
use crate::starting::Running;
use crate::world::World;
use sr_ask::{Answer, Role};
use sr_core::{Core, Scope};
use sr_queue::{MOST_PENDING, Pending};
use sr_value::{Cap, Duplicate, Fault, NoMemory, Owner, Place, Row, Value};

/// An operation of its owner.
#[derive(Clone, Copy)]
pub struct Invoked {
    pub owner: Owner,
    pub op: u32,
}

impl World {
    /// Whether an owner has ended, or never was.
    pub fn is_gone(&self, owner: Owner) -> bool
        ensures { result ≡ gone_in self.now owner }
    {
        match owner {
            Owner::Inst(instance) => is_gone_at(&self.places, instance),
            Owner::Proc(process) => !self.processes.is_live(process),
        }
    }

    /// The instance that an owner belongs to.
    fn owner_instance(&self, owner: Owner) -> u32
        ensures { result ≡ instance_of_owner self.now owner }
    {
        match owner {
            Owner::Inst(instance) => instance,
            Owner::Proc(process) => self.instance_of_process(process),
        }
    }

    /// The owner that a process means by an operation of this scope.
    fn owner_for(&self, process: u32, scope: Scope) -> Owner
        ensures { result ≡ owner_in self.now process scope }
    {
        match scope {
            Scope::Shared => Owner::Inst(self.instance_of_process(process)),
            Scope::Own => Owner::Proc(process),
        }
    }

    /// Makes a process that runs a proc for an invocation, which it holds.
    fn run_proc(
        &mut self,
        core: &Core,
        instance: u32,
        proc: u32,
        args: &Row<Value>,
        sending: Sending,
    ) -> Result<(), NoMemory>
        requires { ¬ IsLive self.old.live sending.name }
        ensures ok { OnOk result (self.new ≡ proc_run core.now sending.name instance proc args.now sending.duty (let_go_of sending.forwarded self.old)) }
        ensures err { OnErr result (self.new ≡ self.old) }
    {
        self.processes.reserve()?;
        self.used.reserve()?;
        self.calls.reserve(sending.name)?;
        let running = Running {
            name: sending.name,
            instance,
            role: Role::Proc,
            code: proc,
            back: sending.duty.back,
        };
        let start = self.start_in(core, running, args)?;
        let_go(&mut self.calls, sending.forwarded);
        self.used.push(sending.name);
        self.processes.add(start);
        hold(&mut self.calls, sending.name, sending.duty);
        Ok(())
    }

    /// An invocation arrives after all that are pending.
    fn add_pending(
        &mut self,
        invoked: Invoked,
        args: &Row<Value>,
        sending: Sending,
    ) -> Result<(), NoMemory>
        ensures ok { OnOk result (self.new ≡ wait sending.name invoked.owner invoked.op args.now sending.duty (let_go_of sending.forwarded self.old)) }
        ensures err { OnErr result (self.new ≡ self.old) }
    {
        if self.queue.len() as usize >= MOST_PENDING {
            return Err(NoMemory);
        }
        self.used.reserve()?;
        let pending = Pending {
            id: sending.name,
            op: invoked.op,
            owner: invoked.owner,
            args: args.copy(self.alloc)?,
            back: sending.duty.back,
            back_id: sending.duty.back_id,
        };
        if self.queue.push(pending).is_err() {
            return Err(NoMemory);
        }
        let_go(&mut self.calls, sending.forwarded);
        self.used.push(sending.name);
        Ok(())
    }

    /// An invocation makes a process where its operation has a proc, and else it waits.
    fn arrive(
        &mut self,
        core: &Core,
        invoked: Invoked,
        proc: Option<u32>,
        args: &Row<Value>,
        sending: Sending,
    ) -> Result<(), NoMemory>
        requires { ¬ IsLive self.old.live sending.name }
        ensures ok { OnOk result (self.new ≡ arrive_of core.now sending.name invoked.owner invoked.op args.now sending.duty proc (let_go_of sending.forwarded self.old)) }
        ensures err { OnErr result (self.new ≡ self.old) }
    {
        match proc {
            Some(proc) => {
                let instance = self.owner_instance(invoked.owner);
                self.run_proc(core, instance, proc, args, sending)
            }
            None => self.add_pending(invoked, args, sending),
        }
    }

    fn invoke_operation(
        &mut self,
        core: &Core,
        place: Place,
        invoked: Invoked,
        proc: Option<u32>,
        args: &Row<Value>,
        sending: Sending,
    ) -> Result<Acted, NoMemory>
        requires { NeedsNew (invoke_found core.now place sending.name invoked.owner invoked.op args.now sending.duty (let_go_of sending.forwarded self.old) proc) self.old sending.name }
        ensures { Acts (invoke_found core.now place sending.name invoked.owner invoked.op args.now sending.duty (let_go_of sending.forwarded self.old) proc) self.old self.new result }
    {
        if self.is_gone(invoked.owner) {
            let fault = Fault::Gone;
            return Ok(Acted::Ends(End::Failed { fault, place }));
        }
        self.arrive(core, invoked, proc, args, sending)?;
        Ok(Acted::Done(Answer::Made(sending.name)))
    }

    /// Invokes an operation.
    #[inline(never)]
    pub(crate) fn invoke(
        &mut self,
        core: &Core,
        place: Place,
        target: Cap,
        args: &Row<Value>,
        sending: Sending,
    ) -> Result<Acted, NoMemory>
        requires { NeedsNew (invoke_of core.now place sending.name target args.now sending.duty (let_go_of sending.forwarded self.old)) self.old sending.name }
        ensures { Acts (invoke_of core.now place sending.name target args.now sending.duty (let_go_of sending.forwarded self.old)) self.old self.new result }
    {
        match target {
            Cap::Null => Ok(Acted::Ends(End::Failed {
                fault: Fault::NullCap,
                place,
            })),
            Cap::Noop => {
                self.answer_noop(sending)?;
                Ok(Acted::Done(Answer::Made(sending.name)))
            }
            Cap::Op { owner, op } => match core.operations.get(op as usize) {
                Some(operation) => {
                    let invoked = Invoked { owner, op };
                    self.invoke_operation(core, place, invoked, operation.proc, args, sending)
                }
                None => Ok(Acted::Cannot),
            },
            _ => Ok(Acted::Cannot),
        }
    }

    /// How many invocations of an operation of this scope are pending, as a process sees them.
    pub(crate) fn waiting(&self, process: u32, op: u32, scope: Scope) -> u32
        ensures { result ≡ waiting_in (owner_in self.now process scope) op self.now.pending }
    {
        let owner = self.owner_for(process, scope);
        self.queue.count(owner, op)
    }

    /// Tells how many invocations of an operation are pending.
    #[inline(never)]
    pub(crate) fn count(&mut self, core: &Core, actor: u32, op: u32) -> Result<Acted, NoMemory>
        ensures { Acts (count_of core.now actor op self.old) self.old self.new result }
    {
        match core.operations.get(op as usize) {
            Some(operation) => self.count_in(actor, op, operation.scope),
            None => Ok(Acted::Cannot),
        }
    }

    /// Tells how many invocations of an operation of this scope are pending. Where their number isn't an
    /// `int`, it is as if memory ran out.
    fn count_in(&mut self, actor: u32, op: u32, scope: Scope) -> Result<Acted, NoMemory>
        ensures { Acts (count_found actor op scope self.old) self.old self.new result }
    {
        match i32::try_from(self.waiting(actor, op, scope)) {
            Ok(number) => Ok(Acted::Done(Answer::Number(number))),
            Err(_) => Err(NoMemory),
        }
    }
}
