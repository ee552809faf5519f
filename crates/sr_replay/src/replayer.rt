ghost use Rattle.std.specs.Prelude.{◌≡◌, ◌++◌, ◌<◌, ◌≤◌, ℕ, IfOk, IfSome, IsSome, IsTrue, OnOk, Some, flat_map, is_some, length, true};
ghost use Rattle.sr_actor.specs.Crew.{member_of};
ghost use Rattle.sr_ask.specs.declared.item.Item.TheVariants as items;
ghost use Rattle.sr_replay.specs.Snapshots.{shown};
ghost use Rattle.sr_world.specs.Runs as runs;
ghost use Rattle.sr_world.specs.Worlds.{started};

use crate::carrying::{carry_out, come_to, hear};
use crate::crew::sweep;
use crate::names::{first_names, is_unused, note};
use crate::naming::{copied_ask, number_of, where_legal};
use crate::shown::show;
use crate::snapshot::Snapshot;
use crate::waiting::may_pass;
use sr_actor::{Actor, Member, begin_once};
use sr_ask::{Ask, Asks, Item};
use sr_value::{Duplicate, NoMemory, Row, Text};
use sr_world::{End, World};
use std::alloc::Global;
use std::collections::{HashMap, HashSet};

/// A run that is replayed, as far as it has come.
#[derive(Drop)]
pub struct Replayer<A> {
    pub(crate) alloc: Global,
    pub(crate) world: World,
    /// How many statements a process may begin between two answers.
    pub(crate) ticks: u32,
    /// The numbers that were given out.
    pub(crate) names: HashSet<u32>,
    /// The processes that have begun, by number.
    pub(crate) crew: HashMap<u32, Member<A>>,
    /// How the run has ended, where it has.
    pub(crate) ending: Option<End>,
}

/// The world in which a run begins that has all of its input.
fn world_with(alloc: Global, input: &Text) -> Result<World, NoMemory>
    ensures { IfOk result (λ world. world ≡ (runs.begun input.now).world) }
{
    let mut world = World::begin(alloc)?;
    world.give(input.as_bytes())?;
    world.end_input();
    Ok(world)
}

impl<A: Actor> Replayer<A> {
    ghost use Rattle.sr_replay.specs.Naming.{asked_in, named_at};
    ghost use Rattle.sr_replay.specs.Replaying.{Follows, FollowsAll, IsAt, StandsAt, asked_by};
    ghost use Rattle.sr_world.specs.Runs.{Goes, Next, State, and_then, asks_in, begun, next, no_step};

    /// The beginning of a run with this input, in which a process may begin `ticks` statements between two answers.
    pub fn begin(alloc: Global, ticks: u32, input: &Text) -> Result<Self, NoMemory>
        ensures { IfOk result (λ replayer. (program : A.Program) → IsAt (A.asks_after program) (A.core_of program) ticks (Goes (begun input.now)) replayer) }
    {
        let names = first_names(alloc)?;
        let world = world_with(alloc, input)?;
        Ok(Replayer {
            alloc,
            world,
            ticks,
            names,
            crew: HashMap::new(alloc),
            ending: None,
        })
    }

    /// The world as it is.
    pub fn world(&self) -> &World
        ensures { result.now ≡ self.now.world }
    {
        &self.world
    }

    /// Makes an item, where there is such an item here, and says whether there is. After an error, and where there is
    /// none, nothing more is known of it.
    pub fn step(&mut self, program: &A::Program, item: Item) -> Result<bool, NoMemory>
        ensures { (limit : ℕ) (now : Next) → IsAt (A.asks_after program.now) (A.core_of program.now) limit now self.old → IfOk result (λ legal. Follows (A.asks_after program.now) (A.core_of program.now) limit (and_then now (λ state. next (A.core_of program.now) limit state item)) legal self.new) }
    {
        let named = self.step_named(program, item)?;
        Ok(named.is_some())
    }

    /// As `step`. Where there is such an item here, answers the number of the invocation that it services, or to which it
    /// takes a reply; for any other item 0.
    pub fn step_named(&mut self, program: &A::Program, item: Item) -> Result<Option<u32>, NoMemory>
        ensures follows { (limit : ℕ) (now : Next) → IsAt (A.asks_after program.now) (A.core_of program.now) limit now self.old → IfOk result (λ named. Follows (A.asks_after program.now) (A.core_of program.now) limit (and_then now (λ state. next (A.core_of program.now) limit state item)) (is_some named) self.new) }
        ensures named { (limit : ℕ) (state : State) → IsAt (A.asks_after program.now) (A.core_of program.now) limit (Goes state) self.old → IfOk result (λ named. IfSome named (λ number. number ≡ named_at (A.core_of program.now) limit state item)) }
    {
        if self.ending.is_some() {
            return Ok(None);
        }
        sweep(&mut self.crew, &self.world);
        match item {
            Item::Step { actor, name } => self.step_by(program, actor, name),
            Item::Quiesce { name } => {
                let legal = self.quiesce(program, name)?;
                Ok(where_legal(legal, 0))
            }
            Item::Tick { to } => {
                let legal = self.tick(program, to)?;
                Ok(where_legal(legal, 0))
            }
        }
    }

    /// What a process asks that lives, unless it has begun more statements than it may.
    pub fn asked(&mut self, program: &A::Program, process: u32) -> Result<Option<Ask>, NoMemory>
        ensures asks { (limit : ℕ) (state : State) → StandsAt (A.asks_after program.now) (A.core_of program.now) limit state self.old → IfOk result (λ asked. asked ≡ asked_in (A.core_of program.now) limit state process) }
        ensures stands { OnOk result ((limit : ℕ) (state : State) → StandsAt (A.asks_after program.now) (A.core_of program.now) limit state self.old → StandsAt (A.asks_after program.now) (A.core_of program.now) limit state self.new) }
        ensures ending { self.new.ending ≡ self.old.ending }
        ensures world { self.new.world ≡ self.old.world }
    {
        let lives = self.begin_process(process)?;
        if !lives {
            return Ok(None);
        }
        self.asked_member(program, process)
    }

    /// What a process asks that has begun.
    fn asked_member(&mut self, program: &A::Program, process: u32) -> Result<Option<Ask>, NoMemory>
        requires { IsSome (member_of self.old.crew process) }
        ensures asks { (limit : ℕ) (state : State) → IsSome (started state.world process) → StandsAt (A.asks_after program.now) (A.core_of program.now) limit state self.old → IfOk result (λ asked. asked ≡ asked_in (A.core_of program.now) limit state process) }
        ensures stands { OnOk result ((limit : ℕ) (state : State) → IsSome (started state.world process) → StandsAt (A.asks_after program.now) (A.core_of program.now) limit state self.old → StandsAt (A.asks_after program.now) (A.core_of program.now) limit state self.new) }
        ensures ending { self.new.ending ≡ self.old.ending }
        ensures world { self.new.world ≡ self.old.world }
    {
        match self.crew.get_mut(&process) {
            Some(member) => {
                member.look(program)?;
                copied_ask(self.alloc, member.actor.asked())
            }
            None => Ok(None),
        }
    }

    /// Has a process make the step that it asks for, where it lives.
    fn step_by(
        &mut self,
        program: &A::Program,
        actor: u32,
        name: u32,
    ) -> Result<Option<u32>, NoMemory>
        ensures follows { (limit : ℕ) (state : State) → IsAt (A.asks_after program.now) (A.core_of program.now) limit (Goes state) self.old → IfOk result (λ named. Follows (A.asks_after program.now) (A.core_of program.now) limit (next (A.core_of program.now) limit state (items.Step actor name)) (is_some named) self.new) }
        ensures named { (limit : ℕ) (state : State) → IsAt (A.asks_after program.now) (A.core_of program.now) limit (Goes state) self.old → IfOk result (λ named. IfSome named (λ number. number ≡ named_at (A.core_of program.now) limit state (items.Step actor name))) }
    {
        let lives = self.begin_process(actor)?;
        if !lives {
            return Ok(None);
        }
        self.step_member(program, actor, name)
    }

    /// Has a process begin, where it lives and hasn't, and says whether it lives.
    fn begin_process(&mut self, process: u32) -> Result<bool, NoMemory>
        ensures lives { IfOk result (λ lives. lives ≡ is_some (started self.old.world process)) }
        ensures begun { IfOk result (λ lives. IsTrue lives → IsSome (member_of self.new.crew process)) }
        ensures stands { OnOk result ((program : A.Program) (limit : ℕ) (state : State) → StandsAt (A.asks_after program) (A.core_of program) limit state self.old → StandsAt (A.asks_after program) (A.core_of program) limit state self.new) }
        ensures ending { self.new.ending ≡ self.old.ending }
        ensures world { self.new.world ≡ self.old.world }
    {
        match self.world.started(process) {
            Some(start) => {
                begin_once(&mut self.crew, self.alloc, start, self.ticks)?;
                Ok(true)
            }
            None => Ok(false),
        }
    }

    /// Has a process that has begun make the step that it asks for.
    fn step_member(
        &mut self,
        program: &A::Program,
        actor: u32,
        name: u32,
    ) -> Result<Option<u32>, NoMemory>
        requires { IsSome (member_of self.old.crew actor) }
        ensures follows { (limit : ℕ) (state : State) → IsSome (started state.world actor) → IsAt (A.asks_after program.now) (A.core_of program.now) limit (Goes state) self.old → IfOk result (λ named. Follows (A.asks_after program.now) (A.core_of program.now) limit (next (A.core_of program.now) limit state (items.Step actor name)) (is_some named) self.new) }
        ensures named { (limit : ℕ) (state : State) → IsSome (started state.world actor) → IsAt (A.asks_after program.now) (A.core_of program.now) limit (Goes state) self.old → IfOk result (λ named. IfSome named (λ number. number ≡ named_at (A.core_of program.now) limit state (items.Step actor name))) }
    {
        match self.crew.get_mut(&actor) {
            Some(member) => {
                member.look(program)?;
                match member.actor.asked() {
                    Asks::Asked(ask) => {
                        let core = A::core(program);
                        let acted = carry_out(
                            &mut self.world,
                            &mut self.names,
                            core,
                            actor,
                            ask,
                            name,
                        )?;
                        let number = number_of(&acted);
                        let legal = hear(member, acted, &mut self.ending);
                        Ok(where_legal(legal, number))
                    }
                    Asks::OverTicks => Ok(None),
                }
            }
            None => Ok(None),
        }
    }

    /// Where no process can make a step, has main's final code begin or the run end.
    fn quiesce(&mut self, program: &A::Program, name: u32) -> Result<bool, NoMemory>
        ensures { (limit : ℕ) (state : State) → IsAt (A.asks_after program.now) (A.core_of program.now) limit (Goes state) self.old → IfOk result (λ legal. Follows (A.asks_after program.now) (A.core_of program.now) limit (next (A.core_of program.now) limit state (items.Quiesce name)) legal self.new) }
    {
        let blocked = self.none_can_step(program)?;
        if !blocked {
            return Ok(false);
        }
        self.come_to_rest(program, name)
    }

    fn none_can_step(&mut self, program: &A::Program) -> Result<bool, NoMemory>
        ensures none { (limit : ℕ) (state : State) → StandsAt (A.asks_after program.now) (A.core_of program.now) limit state self.old → IfOk result (λ none. none ≡ no_step (A.core_of program.now) limit state) }
        ensures stands { OnOk result ((limit : ℕ) (state : State) → StandsAt (A.asks_after program.now) (A.core_of program.now) limit state self.old → StandsAt (A.asks_after program.now) (A.core_of program.now) limit state self.new) }
        ensures ending { self.new.ending ≡ self.old.ending }
    {
        let asks = self.all_asks(program)?;
        self.world.none_can_step(A::core(program), &asks)
    }

    /// Main's final code begins, or the run ends.
    fn come_to_rest(&mut self, program: &A::Program, name: u32) -> Result<bool, NoMemory>
        ensures { (limit : ℕ) (state : State) → no_step (A.core_of program.now) limit state ≡ true → IsAt (A.asks_after program.now) (A.core_of program.now) limit (Goes state) self.old → IfOk result (λ legal. Follows (A.asks_after program.now) (A.core_of program.now) limit (next (A.core_of program.now) limit state (items.Quiesce name)) legal self.new) }
    {
        let unused = is_unused(&self.names, name);
        note(&mut self.names, name)?;
        let acted = self.world.quiesce(A::core(program), name)?;
        Ok(come_to(acted, unused, name, &mut self.ending))
    }

    /// Lets time pass, where some process heeds it.
    fn tick(&mut self, program: &A::Program, to: u32) -> Result<bool, NoMemory>
        ensures { (limit : ℕ) (state : State) → IsAt (A.asks_after program.now) (A.core_of program.now) limit (Goes state) self.old → IfOk result (λ legal. Follows (A.asks_after program.now) (A.core_of program.now) limit (next (A.core_of program.now) limit state (items.Tick to)) legal self.new) }
    {
        let asks = self.all_asks(program)?;
        let may = may_pass(self.world.moment(), to, asks.as_slice());
        if !may {
            return Ok(false);
        }
        self.world.advance(to);
        Ok(true)
    }

    /// What each living process asks, in the order of their making.
    fn all_asks(&mut self, program: &A::Program) -> Result<Row<(u32, Asks)>, NoMemory>
        ensures asks { (limit : ℕ) (state : State) → StandsAt (A.asks_after program.now) (A.core_of program.now) limit state self.old → IfOk result (λ asks. asks ≡ asks_in (A.core_of program.now) limit state) }
        ensures stands { OnOk result ((limit : ℕ) (state : State) → StandsAt (A.asks_after program.now) (A.core_of program.now) limit state self.old → StandsAt (A.asks_after program.now) (A.core_of program.now) limit state self.new) }
        ensures ending { self.new.ending ≡ self.old.ending }
        ensures world { self.new.world ≡ self.old.world }
    {
        let processes = self.world.living()?;
        let mut asks = Row::new(self.alloc);
        self.push_all_asks(program, processes.as_slice(), &mut asks)?;
        Ok(asks)
    }

    fn push_all_asks(
        &mut self,
        program: &A::Program,
        processes: &[u32],
        asks: &mut Row<(u32, Asks)>,
    ) -> Result<(), NoMemory>
        ensures asks { OnOk result ((limit : ℕ) (state : State) → StandsAt (A.asks_after program.now) (A.core_of program.now) limit state self.old → asks.new ≡ asks.old ++ flat_map (λ process. asked_by (A.core_of program.now) limit state (started state.world process)) processes.now) }
        ensures stands { OnOk result ((limit : ℕ) (state : State) → StandsAt (A.asks_after program.now) (A.core_of program.now) limit state self.old → StandsAt (A.asks_after program.now) (A.core_of program.now) limit state self.new) }
        ensures ending { self.new.ending ≡ self.old.ending }
        ensures world { self.new.world ≡ self.old.world }
    {
        for process in processes {
            self.push_asks(program, *process, asks)?;
        }
        Ok(())
    }

    /// Adds what a process asks, where it lives.
    fn push_asks(
        &mut self,
        program: &A::Program,
        process: u32,
        asks: &mut Row<(u32, Asks)>,
    ) -> Result<(), NoMemory>
        ensures asks { OnOk result ((limit : ℕ) (state : State) → StandsAt (A.asks_after program.now) (A.core_of program.now) limit state self.old → asks.new ≡ asks.old ++ asked_by (A.core_of program.now) limit state (started state.world process)) }
        ensures stands { OnOk result ((limit : ℕ) (state : State) → StandsAt (A.asks_after program.now) (A.core_of program.now) limit state self.old → StandsAt (A.asks_after program.now) (A.core_of program.now) limit state self.new) }
        ensures ending { self.new.ending ≡ self.old.ending }
        ensures world { self.new.world ≡ self.old.world }
    {
        let lives = self.begin_process(process)?;
        if !lives {
            return Ok(());
        }
        self.push_member_asks(program, process, asks)
    }

    /// Adds what a process asks that has begun.
    fn push_member_asks(
        &mut self,
        program: &A::Program,
        process: u32,
        asks: &mut Row<(u32, Asks)>,
    ) -> Result<(), NoMemory>
        requires { IsSome (member_of self.old.crew process) }
        ensures asks { OnOk result ((limit : ℕ) (state : State) → IsSome (started state.world process) → StandsAt (A.asks_after program.now) (A.core_of program.now) limit state self.old → asks.new ≡ asks.old ++ asked_by (A.core_of program.now) limit state (started state.world process)) }
        ensures stands { OnOk result ((limit : ℕ) (state : State) → IsSome (started state.world process) → StandsAt (A.asks_after program.now) (A.core_of program.now) limit state self.old → StandsAt (A.asks_after program.now) (A.core_of program.now) limit state self.new) }
        ensures ending { self.new.ending ≡ self.old.ending }
        ensures world { self.new.world ≡ self.old.world }
    {
        match self.crew.get_mut(&process) {
            Some(member) => {
                member.look(program)?;
                let copied = member.actor.asked().copy(self.alloc)?;
                asks.push((process, copied))
            }
            None => Ok(()),
        }
    }

    /// Makes the first items, so many, one after the other, up to the first that isn't one, and answers its place, from 0.
    pub(crate) fn follow(
        &mut self,
        program: &A::Program,
        items: &[Item],
        count: u32,
    ) -> Result<Option<u32>, NoMemory>
        requires { count ≤ length items.now }
        ensures follows { (limit : ℕ) (now : Next) → IsAt (A.asks_after program.now) (A.core_of program.now) limit now self.old → IfOk result (λ place. FollowsAll (A.asks_after program.now) (A.core_of program.now) limit now items.now count place self.new) }
        ensures within { IfOk result (λ place. IfSome place (λ p. p < count)) }
    {
        for place in 0..count {
            let legal = self.step(program, items[place as usize])?;
            if !legal {
                return Ok(Some(place));
            }
        }
        Ok(None)
    }

    /// What is to be seen of the run, after so many items.
    pub fn snapshot(&mut self, program: &A::Program, items: u32) -> Result<Snapshot, NoMemory>
        ensures { (limit : ℕ) (now : Next) → IsAt (A.asks_after program.now) (A.core_of program.now) limit now self.old → IfOk result (λ snapshot. shown (A.core_of program.now) limit items now ≡ Some snapshot) }
    {
        let asks = self.all_asks(program)?;
        show(self.alloc, &self.world, asks.as_slice(), items, self.ending)
    }
}
