ghost use Rattle.std.specs.Prelude.{ℕ, ◌≡◌, ◌==◌, ◌+◌, ◌++◌, ◌∷◌, ◌<◌, [], IfOk, OnOk, Some, length, not, slice_get};
ghost use Rattle.sr_ask.specs.declared.ask.Ask as asks;
ghost use Rattle.sr_ask.specs.declared.item.Item.TheVariants as items;
ghost use Rattle.sr_races.specs.Items.{Run, stands_after};
ghost use Rattle.sr_races.specs.Traces.{act_alone, named_at, operation_of as operation_of_subject, resting as resting_of, runs_from};
ghost use Rattle.sr_races.specs.Trails.{alone_row, step_row};
ghost use Rattle.sr_replay.specs.Naming.{asked_in};
ghost use Rattle.sr_world.specs.Runs.{Goes, State};
ghost use Rattle.sr_world.specs.Worlds.{started};

use crate::before::Before;
use crate::origins::{Left, Origins, ends_all};
use sr_actor::Actor;
use sr_ask::{Ask, Item, Request};
use sr_replay::Replayer;
use sr_trace::{Act, Runs, Subject, Traced, act_of, subject_of};
use sr_value::{NoMemory, Row, Text};
use sr_world::World;
use std::alloc::Global;
use std::mem;

/// The walk along a run that is traced.
#[derive(Drop)]
pub(crate) struct Trail<A> {
    pub(crate) replayer: Replayer<A>,
    pub(crate) origins: Origins,
    pub(crate) rows: Row<Traced>,
}

impl<A: Actor> Trail<A> {
    ghost use Rattle.sr_races.specs.Origins.{AreOrigins};
    ghost use Rattle.sr_races.specs.Trails.{IsTrailed, TrailsOn};
    ghost use Rattle.sr_races.specs.Walks.{IsAlone, IsAloneMade, IsStepMade};

    /// The beginning of a run.
    pub fn begin(alloc: Global, ticks: u32, input: &Text) -> Result<Self, NoMemory>
        ensures { (program : A.Program) (r : Run) → r.limit ≡ ticks → r.input ≡ input.now → r.core ≡ A.core_of program → IfOk result (IsTrailed (A.asks_after program) r 0) }
    {
        let replayer = Replayer::begin(alloc, ticks, input)?;
        let origins = Origins::new(alloc);
        let rows = Row::new(alloc);
        Ok(Trail {
            replayer,
            origins,
            rows,
        })
    }

    /// Takes out the rows.
    pub fn take_rows(&mut self, alloc: Global) -> Row<Traced>
        ensures { result ≡ self.old.rows }
    {
        mem::replace(&mut self.rows, Row::new(alloc))
    }

    /// Makes the item at a place, where there is such an item there, and says whether there is.
    pub fn follow(
        &mut self,
        program: &A::Program,
        items: &[Item],
        place: u32,
    ) -> Result<bool, NoMemory>
        requires { place < length items.now }
        ensures { (r : Run) → r.items ≡ items.now → r.core ≡ A.core_of program.now → IsTrailed (A.asks_after program.now) r place self.old → IfOk result (λ legal. TrailsOn (A.asks_after program.now) r (place + 1) legal self.new) }
    {
        let item = items[place as usize];
        match item {
            Item::Step { actor, name } => self.follow_step(program, place, actor, name),
            Item::Quiesce { name } => {
                self.follow_alone(program, place, item, name, resting(name))
            }
            Item::Tick { .. } => self.follow_alone(program, place, item, 0, Act::Tick),
        }
    }

    /// A step of a process.
    fn follow_step(
        &mut self,
        program: &A::Program,
        place: u32,
        process: u32,
        name: u32,
    ) -> Result<bool, NoMemory>
        ensures { (r : Run) → slice_get r.items place ≡ Some (items.Step process name) → r.core ≡ A.core_of program.now → IsTrailed (A.asks_after program.now) r place self.old → IfOk result (λ legal. TrailsOn (A.asks_after program.now) r (place + 1) legal self.new) }
    {
        let asked = self.replayer.asked(program, process)?;
        match asked {
            Some(ask) => self.follow_ask(program, place, process, name, &ask),
            None => Ok(false),
        }
    }

    /// A step of a process that asks this.
    fn follow_ask(
        &mut self,
        program: &A::Program,
        place: u32,
        process: u32,
        name: u32,
        ask: &Ask,
    ) -> Result<bool, NoMemory>
        ensures { (r : Run) → slice_get r.items place ≡ Some (items.Step process name) → r.core ≡ A.core_of program.now → ((state : State) → stands_after r place ≡ Goes state → asked_in r.core r.limit state process ≡ Some ask.now) → IsTrailed (A.asks_after program.now) r place self.old → IfOk result (λ legal. TrailsOn (A.asks_after program.now) r (place + 1) legal self.new) }
    {
        let world = self.replayer.world();
        let before = Before::new(world, process, name, &ask.request);
        let runs = runs_in(world, process);
        let item = Item::Step {
            actor: process,
            name,
        };
        let named = self.replayer.step_named(program, item)?;
        match named {
            Some(answered) => {
                self.push_step(place, process, runs, ask, answered, before.global)?;
                self.note(place, process, name, &ask.request, before)?;
                Ok(true)
            }
            None => Ok(false),
        }
    }

    /// Adds the row of a step.
    fn push_step(
        &mut self,
        place: u32,
        process: u32,
        runs: Runs,
        ask: &Ask,
        answered: u32,
        global: u32,
    ) -> Result<(), NoMemory>
        ensures rows { OnOk result (self.new.rows ≡ self.old.rows ++ step_row self.old.origins self.old.rows place process runs ask.now answered global ∷ []) }
        ensures replayer { self.new.replayer ≡ self.old.replayer }
        ensures origins { self.new.origins ≡ self.old.origins }
    {
        let after = self.origins.after(&ask.request, answered, global);
        let begun_by = self.origins.maker(process);
        let named = operation_at(self.rows.as_slice(), after);
        let act = act_of(&ask.request);
        let subject = subject_of(&ask.request, named);
        self.rows.push(Traced {
            item: place,
            process,
            runs,
            act,
            subject,
            begun_by,
            after,
            place: Some(ask.place),
        })
    }

    /// Notes what a step leaves.
    fn note(
        &mut self,
        place: u32,
        process: u32,
        name: u32,
        request: &Request,
        before: Before,
    ) -> Result<(), NoMemory>
        ensures left { (r : Run) (ask : asks.Ask) (answered : ℕ) → ask.request ≡ request.now → IsStepMade r place process name ask before answered self.old.replayer.world → AreOrigins r place self.old.origins → OnOk result (AreOrigins r (place + 1) self.new.origins) }
        ensures replayer { self.new.replayer ≡ self.old.replayer }
        ensures rows { self.new.rows ≡ self.old.rows }
    {
        let ends = ends_all(name, request);
        let readied = before.readied(self.replayer.world());
        let left = Left {
            process,
            number: name,
            duty: before.duty,
            readied,
            ends,
        };
        self.origins.note(place, left)
    }

    /// A rest or a passing of time.
    fn follow_alone(
        &mut self,
        program: &A::Program,
        place: u32,
        item: Item,
        name: u32,
        act: Act,
    ) -> Result<bool, NoMemory>
        requires alone { IsAlone item name (not (name == 0)) }
        requires act { act ≡ act_alone (Some item) }
        ensures { (r : Run) → slice_get r.items place ≡ Some item → r.core ≡ A.core_of program.now → IsTrailed (A.asks_after program.now) r place self.old → IfOk result (λ legal. TrailsOn (A.asks_after program.now) r (place + 1) legal self.new) }
    {
        let legal = self.replayer.step(program, item)?;
        if !legal {
            return Ok(false);
        }
        self.push_alone(place, act)?;
        self.note_alone(place, name)?;
        Ok(true)
    }

    /// Adds the row of an item of no process.
    fn push_alone(&mut self, place: u32, act: Act) -> Result<(), NoMemory>
        ensures rows { OnOk result (self.new.rows ≡ self.old.rows ++ alone_row place act ∷ []) }
        ensures replayer { self.new.replayer ≡ self.old.replayer }
        ensures origins { self.new.origins ≡ self.old.origins }
    {
        self.rows.push(Traced {
            item: place,
            process: 0,
            runs: Runs::Machine,
            act,
            subject: Subject::Nothing,
            begun_by: None,
            after: None,
            place: None,
        })
    }

    /// Notes what an item of no process leaves.
    fn note_alone(&mut self, place: u32, name: u32) -> Result<(), NoMemory>
        ensures left { (r : Run) → IsAloneMade r place name (not (name == 0)) → AreOrigins r place self.old.origins → OnOk result (AreOrigins r (place + 1) self.new.origins) }
        ensures replayer { self.new.replayer ≡ self.old.replayer }
        ensures rows { self.new.rows ≡ self.old.rows }
    {
        let left = Left {
            process: 0,
            number: name,
            duty: 0,
            readied: 0,
            ends: name != 0,
        };
        self.origins.note(place, left)
    }
}

/// What the machine does where no process can go on.
fn resting(name: u32) -> Act
    ensures { result ≡ resting_of (name == 0) }
{
    if name == 0 { Act::End } else { Act::Close }
}

/// What runs as a process.
fn runs_in(world: &World, process: u32) -> Runs
    ensures { result ≡ runs_from (started world.now process) }
{
    match world.started(process) {
        Some(start) => Runs::Process {
            role: start.role,
            code: start.code,
        },
        None => Runs::Machine,
    }
}

fn operation_of(subject: Subject) -> Option<u32>
    ensures { result ≡ operation_of_subject subject }
{
    match subject {
        Subject::Operation(op) => Some(op),
        _ => None,
    }
}

/// The operation that the row of an item names, counted from 0.
fn operation_at(rows: &[Traced], item: Option<u32>) -> Option<u32>
    ensures { result ≡ named_at rows.now item }
{
    let item = item?;
    match rows.get(item as usize) {
        Some(row) => operation_of(row.subject),
        None => None,
    }
}
