ghost use Rattle.std.specs.Prelude.{◌≡◌, ◌==◌, ◌≤◌, [], IfOk, OnErr, OnOk, Some, filter, not};
ghost use Rattle.sr_ask.specs.declared.answer.Answer.{Answer};
ghost use Rattle.sr_processes.specs.Living.{IsLive, numbers_in};
ghost use Rattle.sr_world.specs.Acting.{Acts, NeedsNew};
ghost use Rattle.sr_world.specs.Answering.{answer as answer_of};
ghost use Rattle.sr_world.specs.Does.{Did};
ghost use Rattle.sr_world.specs.Endings.{close as close_of, destroy as destroy_of, destroy_open as destroy_of_open, finish as finish_of};
ghost use Rattle.sr_world.specs.Invoking.{instance_of_process as instance_for};
ghost use Rattle.sr_world.specs.Making.{has_final_code as final_code_in};
ghost use Rattle.sr_world.specs.Parts.{CanReply, KeepsReplies, numbers_after, people_of, places_after, without_all, without_one};
ghost use Rattle.sr_world.specs.Updates.{end_instance as end_instance_of, use_name};

use crate::acted::Acted;
use crate::answering::{answer_reserved, answer_unless, hold};
use crate::duty::Duty;
use crate::ends::End;
use crate::places::{component_at, is_open, make_ready, set_state, state_at};
use crate::starting::Running;
use crate::world::World;
use sr_ask::{Answer, Role};
use sr_calls::Calls;
use sr_core::Core;
use sr_instances::{Places, State};
use sr_processes::Processes;
use sr_value::{Cap, Duplicate, Fault, NoMemory, Place, Row, Value};
use std::alloc::{AllocError, Global};

/// Whether a component has final code.
pub fn has_final_code(core: &Core, component: usize) -> bool
    ensures { result ≡ final_code_in core.now component }
{
    match core.components.get(component) {
        Some(found) => found.final_code.is_some(),
        None => false,
    }
}

/// Makes room for a reply to whoever waits, where it lives. For one that has ended nothing is kept.
fn reserve_reply(processes: &Processes, calls: &mut Calls, caller: u32) -> Result<(), NoMemory>
    ensures can { OnOk result (CanReply processes.now.starts calls.new caller) }
    ensures held { calls.new.held ≡ calls.old.held }
    ensures replies { calls.new.replies ≡ calls.old.replies }
{
    if processes.is_live(caller) {
        return calls.reserve(caller);
    }
    Ok(())
}

/// Ends a process. It takes no memory.
fn end_process(processes: &mut Processes, calls: &mut Calls, process: u32)
    ensures people { people_of processes.new calls.new ≡ without_one (people_of processes.old calls.old) process }
    ensures room { processes.old.room ≤ processes.new.room }
    ensures replies { KeepsReplies processes.old calls.old processes.new calls.new }
{
    processes.end(process);
    calls.forget(process);
}

/// Ends processes one after another. It takes no memory.
fn end_processes(processes: &mut Processes, calls: &mut Calls, numbers: &[u32])
    ensures people { people_of processes.new calls.new ≡ without_all (people_of processes.old calls.old) numbers.now }
    ensures room { processes.old.room ≤ processes.new.room }
    ensures replies { KeepsReplies processes.old calls.old processes.new calls.new }
{
    for process in numbers {
        end_process(processes, calls, *process);
    }
}

/// How far the instance of a process that ends has come then.
#[tactic(auto, using(crate::proofs::EndLemmas::kept_place, crate::proofs::EndLemmas::final_kept, crate::proofs::EndLemmas::final_gone))]
fn set_after(places: &mut Places, role: Role, instance: u32, back: u32)
    ensures { places.new ≡ places_after role back instance places.old }
{
    match role {
        Role::Initial => make_ready(places, instance),
        Role::Final => {
            if back > 0 {
                set_state(places, instance, State::Gone);
            }
        }
        _ => {}
    }
}

/// All numbers but one.
fn all_but(alloc: Global, numbers: &[u32], number: u32) -> Result<Vec<u32>, AllocError>
    ensures { IfOk result (λ others. others.items ≡ filter (λ n. not (number == n)) numbers.now) }
{
    numbers
        .iter()
        .copied()
        .filter(|other| number != *other)
        .collect(alloc)
}

impl World {
    /// The processes that end after `process` has ended, because their instance does.
    #[tactic(auto, using(crate::proofs::EndLemmas::no_numbers, crate::proofs::EndLemmas::no_caller, crate::proofs::EndLemmas::some_caller))]
    fn ending_with(&self, role: Role, process: u32, back: u32) -> Result<Vec<u32>, NoMemory>
        ensures { IfOk result (λ numbers. numbers.items ≡ numbers_after role process back self.now) }
    {
        match role {
            Role::Final => {
                if back == 0 {
                    return Ok(Vec::new(self.alloc));
                }
                self.others_of_instance(process)
            }
            _ => Ok(Vec::new(self.alloc)),
        }
    }

    /// The other processes of the instance of a process.
    fn others_of_instance(&self, process: u32) -> Result<Vec<u32>, NoMemory>
        ensures { IfOk result (λ others. others.items ≡ filter (λ n. not (process == n)) (numbers_in self.now.live (instance_for self.now process))) }
    {
        let instance = self.instance_of_process(process);
        let numbers = self.processes.of_instance(self.alloc, instance)?;
        Ok(all_but(self.alloc, numbers.as_slice(), process)?)
    }

    /// A process ends. The invocation that it was started for is answered, unless it has been.
    #[inline(never)]
    pub(crate) fn finish(
        &mut self,
        role: Role,
        actor: u32,
        answered: bool,
        back: u32,
        results: &Row<Value>,
    ) -> Result<Acted, NoMemory>
        ensures { Acts (Did (finish_of role actor answered back results.now self.old) Answer.Done) self.old self.new result }
    {
        let duty = self.duty_held(actor, actor);
        let instance = self.instance_of_process(actor);
        reserve_reply(&self.processes, &mut self.calls, duty.back)?;
        let others = self.ending_with(role, actor, back)?;
        let results = results.copy(self.alloc)?;
        end_process(&mut self.processes, &mut self.calls, actor);
        set_after(&mut self.places, role, instance, back);
        end_processes(&mut self.processes, &mut self.calls, others.as_slice());
        answer_unless(&self.processes, &mut self.calls, answered, duty, results);
        Ok(Acted::Done(Answer::Done))
    }

    /// An instance closes, and a process runs its final code with the duty to answer.
    fn close(&mut self, core: &Core, name: u32, instance: u32, duty: Duty) -> Result<(), NoMemory>
        requires { ¬ IsLive self.old.live name }
        ensures ok { OnOk result (self.new ≡ close_of core.now name instance duty self.old) }
        ensures err { OnErr result (self.new ≡ self.old) }
    {
        self.processes.reserve()?;
        self.used.reserve()?;
        self.calls.reserve(name)?;
        let running = Running {
            name,
            instance,
            role: Role::Final,
            code: component_at(&self.places, instance),
            back: duty.back,
        };
        let start = self.start_in(core, running, &Row::new(self.alloc))?;
        self.used.push(name);
        set_state(&mut self.places, instance, State::Closing);
        self.processes.add(start);
        hold(&mut self.calls, name, duty);
        Ok(())
    }

    /// An instance without final code ends at once.
    fn end_instance(&mut self, name: u32, instance: u32, duty: Duty) -> Result<(), NoMemory>
        ensures ok { OnOk result (self.new ≡ answer_of duty (Some []) (end_instance_of instance (use_name name self.old))) }
        ensures err { OnErr result (self.new ≡ self.old) }
    {
        self.used.reserve()?;
        reserve_reply(&self.processes, &mut self.calls, duty.back)?;
        let numbers = self.processes.of_instance(self.alloc, instance)?;
        self.used.push(name);
        set_state(&mut self.places, instance, State::Gone);
        end_processes(&mut self.processes, &mut self.calls, numbers.as_slice());
        let results = Some(Row::new(self.alloc));
        answer_reserved(&self.processes, &mut self.calls, duty, results);
        Ok(())
    }

    fn destroy_open(
        &mut self,
        core: &Core,
        name: u32,
        instance: u32,
        duty: Duty,
    ) -> Result<Acted, NoMemory>
        requires { NeedsNew (destroy_of_open core.now name instance duty self.old) self.old name }
        ensures { Acts (destroy_of_open core.now name instance duty self.old) self.old self.new result }
    {
        let component = component_at(&self.places, instance);
        if has_final_code(core, component as usize) {
            self.close(core, name, instance, duty)?;
            return Ok(Acted::Done(Answer::Made(name)));
        }
        self.end_instance(name, instance, duty)?;
        Ok(Acted::Done(Answer::Made(name)))
    }

    /// Ends an instance.
    #[inline(never)]
    pub(crate) fn destroy(
        &mut self,
        core: &Core,
        place: Place,
        name: u32,
        target: Cap,
        duty: Duty,
    ) -> Result<Acted, NoMemory>
        requires { NeedsNew (destroy_of core.now place name target duty self.old) self.old name }
        ensures { Acts (destroy_of core.now place name target duty self.old) self.old self.new result }
    {
        match target {
            Cap::Null => Ok(Acted::Ends(End::Failed {
                fault: Fault::NullCap,
                place,
            })),
            Cap::Noop => {
                self.answer_empty(name, duty)?;
                Ok(Acted::Done(Answer::Made(name)))
            }
            Cap::Res(instance) => {
                if !is_open(state_at(&self.places, instance)) {
                    return Ok(Acted::Ends(End::Failed {
                        fault: Fault::Gone,
                        place,
                    }));
                }
                self.destroy_open(core, name, instance, duty)
            }
            _ => Ok(Acted::Cannot),
        }
    }
}
