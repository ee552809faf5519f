ghost use Rattle.std.specs.Prelude.{◌≡◌, ◌<◌, ◌∷◌, ◌++◌, ℕ, [], List, IfNone, IfOk, IsSome, IsTrue, None, OnErr, OnOk, false, is_some, true};
ghost use Rattle.sr_plain.specs.Crew.{member_of};
ghost use Rattle.sr_plain.specs.Turns.{turn, turn_of};
ghost use Rattle.sr_plain.specs.Waiting.{is_ready, turns_len};
ghost use Rattle.sr_world.specs.Runs.{State, Event, Closes, Gives, first, no_step, with_input, without_more};
ghost use Rattle.sr_world.specs.Worlds.{started};

use crate::aside::{note, set_aside};
use crate::carrying::{carry_out, new_name};
use crate::change::Woken;
use crate::crew::let_go;
use crate::member::hear;
use crate::plainly::Plainly;
use crate::tried::Tried;
use crate::waiters::Waiters;
use crate::waking::wake_up;
use sr_actor::{Actor, Member, begin_once};
use sr_ask::{Asks, Item};
use sr_core::Me;
use sr_value::{NoMemory, Text};
use sr_world::{Acted, World};
use std::alloc::Global;
use std::collections::HashMap;

/// A run as far as it has come.
#[derive(Drop)]
pub struct Plain<A> {
    pub(crate) alloc: Global,
    pub(crate) world: World,
    /// How many statements a process may begin between two answers.
    pub(crate) ticks: u32,
    /// The processes that have begun, by number.
    pub(crate) crew: HashMap<u32, Member<A>>,
    /// Who made the last step, or 0.
    pub(crate) last: u32,
    /// Who is asked in turn, and where the others wait.
    pub(crate) waiters: Waiters,
    /// Whom the last step woke, until they are made ready.
    pub(crate) woken: Option<Woken>,
}

impl<A: Actor> Plain<A> {
    ghost use Rattle.sr_plain.specs.Engine.{IfAsked, IfUnbegun, IsEngine, Steps, Tries, TriesIfBegun, last_in};

    /// The beginning of a run, in which a process may begin `ticks` statements between two answers.
    pub fn begin(alloc: Global, ticks: u32) -> Result<Self, NoMemory>
        ensures { IfOk result (λ plain. (program : A.Program) → IsEngine (A.asks_after program) A.can_feed (A.core_of program) ticks first [] plain) }
    {
        let world = World::begin(alloc)?;
        Ok(Plain {
            alloc,
            world,
            ticks,
            crew: HashMap::new(alloc),
            last: 0,
            waiters: Waiters::new(alloc),
            woken: Some(Woken::everyone()),
        })
    }

    /// Adds bytes to the input, where it hasn't ended.
    pub fn give(&mut self, bytes: &[u8]) -> Result<(), NoMemory>
        ensures ok { OnOk result ((program : A.Program) (limit : ℕ) (state : State) (events : List Event) → IsEngine (A.asks_after program) A.can_feed (A.core_of program) limit state events self.old → state.world.ended ≡ false → IsEngine (A.asks_after program) A.can_feed (A.core_of program) limit (record state { world = with_input bytes.now state.world }) (events ++ Gives bytes.now ∷ []) self.new) }
        ensures err { OnErr result (self.new ≡ self.old) }
    {
        self.world.give(bytes)
    }

    /// Says that no more input will come, where it hasn't ended.
    pub fn end_input(&mut self)
        ensures { (program : A.Program) (limit : ℕ) (state : State) (events : List Event) → IsEngine (A.asks_after program) A.can_feed (A.core_of program) limit state events self.old → state.world.ended ≡ false → IsEngine (A.asks_after program) A.can_feed (A.core_of program) limit (record state { world = without_more state.world }) (events ++ Closes ∷ []) self.new }
    {
        self.world.end_input();
    }

    /// The world as it is.
    pub fn world(&self) -> &World
        ensures { result.now ≡ self.now.world }
    {
        &self.world
    }

    /// Makes the next item of the run. After an error, and after the end of the run, no further call is allowed.
    // With what it calls it is a part of the loop of the run.
    #[inline(always)]
    pub fn step(&mut self, program: &A::Program) -> Result<Plainly, NoMemory>
        ensures { (limit : ℕ) (state : State) (events : List Event) → IsEngine (A.asks_after program.now) A.can_feed (A.core_of program.now) limit state events self.old → Steps (A.asks_after program.now) A.can_feed (A.core_of program.now) limit state events (turn (A.core_of program.now) limit state (last_in events)) result self.new }
    {
        let settles = self.may_wait();
        self.wake_up()?;
        self.settle(program, settles)?;
        self.take_turn(program)
    }

    /// Whether the last step was one after which its process often waits: a call, or the answer to one.
    pub(crate) fn may_wait(&self) -> bool {
        match self.woken {
            Some(woken) => woken.caller != 0 || woken.change.is_arrival(),
            None => false,
        }
    }

    /// Sets the last actor aside where it is to settle, and waits for a reply or an invocation that isn't there. It would be
    /// asked in vain.
    #[inline(always)]
    pub(crate) fn settle(&mut self, program: &A::Program, settles: bool) -> Result<(), NoMemory>
        requires { self.old.woken ≡ None }
        ensures engine { OnOk result ((limit : ℕ) (state : State) (events : List Event) → IsEngine (A.asks_after program.now) A.can_feed (A.core_of program.now) limit state events self.old → IsEngine (A.asks_after program.now) A.can_feed (A.core_of program.now) limit state events self.new) }
        ensures awake { OnOk result (self.new.woken ≡ None) }
        ensures world { self.new.world ≡ self.old.world }
    {
        if !settles {
            return Ok(());
        }
        let process = self.last;
        match self.crew.get_mut(&process) {
            Some(member) => {
                let me = Me {
                    process,
                    instance: member.instance,
                };
                member.look(program)?;
                match member.actor.asked() {
                    Asks::Asked(ask) => {
                        set_aside(&mut self.waiters, &self.world, A::core(program), me, ask)
                    }
                    Asks::OverTicks => Ok(()),
                }
            }
            None => Ok(()),
        }
    }

    /// Makes ready whom the last step woke, and lets go of those whom it ended.
    pub(crate) fn wake_up(&mut self) -> Result<(), NoMemory>
        ensures engine { OnOk result ((program : A.Program) (limit : ℕ) (state : State) (events : List Event) → IsEngine (A.asks_after program) A.can_feed (A.core_of program) limit state events self.old → IsEngine (A.asks_after program) A.can_feed (A.core_of program) limit state events self.new) }
        ensures awake { OnOk result (self.new.woken ≡ None) }
        ensures world { self.new.world ≡ self.old.world }
    {
        match self.woken {
            Some(woken) => {
                let_go(&mut self.crew, &self.world, woken);
                wake_up(&mut self.waiters, &self.world, woken)?;
                self.woken = None;
                Ok(())
            }
            None => Ok(()),
        }
    }

    /// Asks in turn those who may be able to make a step.
    #[inline(always)]
    fn take_turn(&mut self, program: &A::Program) -> Result<Plainly, NoMemory>
        requires { self.old.woken ≡ None }
        ensures { (limit : ℕ) (state : State) (events : List Event) → IsEngine (A.asks_after program.now) A.can_feed (A.core_of program.now) limit state events self.old → Steps (A.asks_after program.now) A.can_feed (A.core_of program.now) limit state events (turn (A.core_of program.now) limit state (last_in events)) result self.new }
    {
        while let Some(process) = self.waiters.next_after(self.last) {
            self.waiters.promote(process)?;
            if let Some(plainly) = self.try_ready(program, process)? {
                return Ok(plainly);
            }
        }
        self.come_to_rest(program)
    }

    /// Asks a process that is ready. It begins first, where it hasn't. It is ready no more where it makes no step.
    #[inline(always)]
    pub(crate) fn try_ready(
        &mut self,
        program: &A::Program,
        process: u32,
    ) -> Result<Option<Plainly>, NoMemory>
        requires ready { is_ready self.old.waiters process ≡ true }
        requires awake { self.old.woken ≡ None }
        ensures tries { (limit : ℕ) (state : State) (events : List Event) → IsEngine (A.asks_after program.now) A.can_feed (A.core_of program.now) limit state events self.old → Tries (A.asks_after program.now) A.can_feed (A.core_of program.now) limit state events (turn_of (A.core_of program.now) limit state (started state.world process)) result self.new }
        ensures less { IfOk result (λ tried. IfNone tried (turns_len self.new.waiters < turns_len self.old.waiters)) }
        ensures awake { IfOk result (λ tried. IfNone tried (self.new.woken ≡ None)) }
    {
        loop {
            let tried = self.try_member(program, process)?;
            match tried {
                Tried::Asked(came) => return Ok(came),
                Tried::Unbegun => {
                    let lives = self.begin_process(process)?;
                    if !lives {
                        self.waiters.take_out(process);
                        return Ok(None);
                    }
                }
            }
        }
    }

    /// Has a process begin, where it lives, and says whether it does.
    #[cold]
    #[inline(never)]
    pub(crate) fn begin_process(&mut self, process: u32) -> Result<bool, NoMemory>
        ensures lives { IfOk result (λ lives. lives ≡ is_some (started self.old.world process)) }
        ensures begun { IfOk result (λ lives. IsTrue lives → IsSome (member_of self.new.crew process)) }
        ensures engine { OnOk result ((program : A.Program) (limit : ℕ) (state : State) (events : List Event) → IsEngine (A.asks_after program) A.can_feed (A.core_of program) limit state events self.old → IsEngine (A.asks_after program) A.can_feed (A.core_of program) limit state events self.new) }
        ensures world { self.new.world ≡ self.old.world }
        ensures waiters { self.new.waiters ≡ self.old.waiters }
        ensures woken { self.new.woken ≡ self.old.woken }
    {
        match self.world.started(process) {
            Some(start) => {
                begin_once(&mut self.crew, self.alloc, start, self.ticks)?;
                Ok(true)
            }
            None => Ok(false),
        }
    }

    /// Has the machine carry out what a process asks, where it has begun.
    #[inline(always)]
    fn try_member(&mut self, program: &A::Program, process: u32) -> Result<Tried, NoMemory>
        ensures tries { (limit : ℕ) (state : State) (events : List Event) → IsEngine (A.asks_after program.now) A.can_feed (A.core_of program.now) limit state events self.old → is_ready self.old.waiters process ≡ true → self.old.woken ≡ None → TriesIfBegun (A.asks_after program.now) A.can_feed (A.core_of program.now) limit state events (turn_of (A.core_of program.now) limit state (started state.world process)) result self.new }
        ensures unbegun { IfOk result (λ tried. IfUnbegun tried ((self.new ≡ self.old) × (member_of self.old.crew process ≡ None))) }
        ensures less { is_ready self.old.waiters process ≡ true → IfOk result (λ tried. IfAsked tried (λ came. IfNone came (turns_len self.new.waiters < turns_len self.old.waiters))) }
        ensures awake { IfOk result (λ tried. IfAsked tried (λ came. IfNone came (self.new.woken ≡ None))) }
    {
        match self.crew.get_mut(&process) {
            Some(member) => {
                let me = Me {
                    process,
                    instance: member.instance,
                };
                member.look(program)?;
                match member.actor.asked() {
                    Asks::Asked(ask) => {
                        let core = A::core(program);
                        let carried = carry_out(self.alloc, &mut self.world, core, process, ask)?;
                        self.woken = note(&mut self.waiters, core, me, ask, &carried)?;
                        Ok(Tried::Asked(hear(member, process, carried, &mut self.last)))
                    }
                    Asks::OverTicks => Ok(Tried::Asked(Some(Plainly::Over(process)))),
                }
            }
            None => Ok(Tried::Unbegun),
        }
    }

    /// No process can make a step: main's final code begins, or the run ends.
    #[cold]
    #[inline(never)]
    fn come_to_rest(&mut self, program: &A::Program) -> Result<Plainly, NoMemory>
        ensures { (limit : ℕ) (state : State) (events : List Event) → IsEngine (A.asks_after program.now) A.can_feed (A.core_of program.now) limit state events self.old → no_step (A.core_of program.now) limit state ≡ true → Steps (A.asks_after program.now) A.can_feed (A.core_of program.now) limit state events None result self.new }
    {
        let name = new_name(&self.world)?;
        self.woken = Some(Woken::everyone());
        match self.world.quiesce(A::core(program), name)? {
            Acted::Done(_) => Ok(Plainly::Stepped {
                item: Item::Quiesce { name },
                output: Text::new(self.alloc),
            }),
            Acted::Ends(end) => Ok(Plainly::Ended {
                item: Item::Quiesce { name: 0 },
                end,
            }),
            Acted::Cannot | Acted::Undecided => unreachable!(),
        }
    }
}
