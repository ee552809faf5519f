ghost use Rattle.std.specs.Prelude.{◌≡◌, ◌+◌, ◌++◌, ◌∷◌, ◌<◌, [], IfOk, IsTrue, List, OnOk, Some, length, map, slice_get, unwrap_or};
ghost use Rattle.sr_ask.specs.Items.{actor_of};
ghost use Rattle.sr_ask.specs.declared.ask.Ask as asks;
ghost use Rattle.sr_ask.specs.declared.item.Item.TheVariants as items;
ghost use Rattle.sr_clock_rows.specs.Columns.{AreColumns, column_in};
ghost use Rattle.sr_races.specs.Accesses.{accesses_by as accesses_by_of};
ghost use Rattle.sr_ask.specs.declared.item.Item as item_types;
ghost use Rattle.sr_races.specs.Items.{Run, actors, stands_after};
ghost use Rattle.sr_races.specs.Origins.{listed, origins_in};
ghost use Rattle.sr_replay.specs.Naming.{asked_in};
ghost use Rattle.sr_world.specs.Runs.{Goes, State};

use crate::access::{Access, accesses_by};
use crate::before::Before;
use crate::origins::{Left, Origins, ends_all};
use sr_actor::Actor;
use sr_ask::{Ask, Item, Request};
use sr_clock_rows::{Clocks, Columns};
use sr_core::Core;
use sr_replay::Replayer;
use sr_value::{NoMemory, Place, Row, Text};
use std::alloc::Global;

/// What an item accesses.
#[derive(Drop)]
pub(crate) struct Entry {
    /// The process that makes it, or 0.
    pub process: u32,
    /// The column of its process.
    pub column: u32,
    /// Where its process asks.
    pub place: Place,
    pub accesses: Row<Access>,
}

/// The walk along a run: what its items access, and rows of counts that tell which is before which.
#[derive(Drop)]
pub(crate) struct Walk<A> {
    pub(crate) alloc: Global,
    pub(crate) replayer: Replayer<A>,
    pub(crate) origins: Origins,
    pub(crate) clocks: Clocks,
    pub(crate) entries: Row<Entry>,
}

impl<A: Actor> Walk<A> {
    ghost use Rattle.sr_races.specs.Walks.{CanGrow, CanWalk, Grows, HasGrown, HasLeft, IsAlone, IsAloneMade, IsRowFrom, IsStepMade, IsWalked, WalksTo};

    /// The beginning of a run. Processes that make items have these columns.
    pub fn begin(
        alloc: Global,
        columns: Columns,
        ticks: u32,
        input: &Text,
    ) -> Result<Self, NoMemory>
        ensures can { (items : List item_types.Item) → AreColumns (map actor_of items) columns → IfOk result (CanWalk items 0) }
        ensures walked { (program : A.Program) (r : Run) → r.limit ≡ ticks → r.input ≡ input.now → r.core ≡ A.core_of program → AreColumns (actors r) columns → IfOk result (IsWalked (A.asks_after program) r 0) }
    {
        let replayer = Replayer::begin(alloc, ticks, input)?;
        let clocks = Clocks::new(alloc, columns)?;
        let origins = Origins::new(alloc);
        let entries = Row::new(alloc);
        Ok(Walk {
            alloc,
            replayer,
            origins,
            clocks,
            entries,
        })
    }

    /// Makes the item at a place, where there is such an item there, and says whether there is.
    pub fn follow(
        &mut self,
        program: &A::Program,
        items: &[Item],
        place: u32,
    ) -> Result<bool, NoMemory>
        requires within { place < length items.now }
        requires room { place < 4294967295 }
        requires can { CanWalk items.now place self.old }
        ensures can { IfOk result (λ legal. IsTrue legal → CanWalk items.now (place + 1) self.new) }
        ensures walks { (r : Run) → r.items ≡ items.now → r.core ≡ A.core_of program.now → IsWalked (A.asks_after program.now) r place self.old → IfOk result (λ legal. WalksTo (A.asks_after program.now) r (place + 1) legal self.new) }
    {
        let item = items[place as usize];
        match item {
            Item::Step { actor, name } => self.follow_step(program, place, actor, name),
            Item::Quiesce { name } => self.follow_alone(program, place, item, name, name != 0),
            Item::Tick { .. } => self.follow_alone(program, place, item, 0, false),
        }
    }

    /// A step of a process.
    fn follow_step(
        &mut self,
        program: &A::Program,
        place: u32,
        process: u32,
        name: u32,
    ) -> Result<bool, NoMemory>
        requires { CanGrow process self.old.clocks }
        ensures grows { IfOk result (λ legal. IsTrue legal → Grows process self.old self.new) }
        ensures walks { (r : Run) → slice_get r.items place ≡ Some (items.Step process name) → r.core ≡ A.core_of program.now → IsWalked (A.asks_after program.now) r place self.old → IfOk result (λ legal. WalksTo (A.asks_after program.now) r (place + 1) legal self.new) }
    {
        let asked = self.replayer.asked(program, process)?;
        match asked {
            Some(ask) => self.follow_ask(program, place, process, name, &ask),
            None => Ok(false),
        }
    }

    /// A step of a process that asks this.
    fn follow_ask(
        &mut self,
        program: &A::Program,
        place: u32,
        process: u32,
        name: u32,
        ask: &Ask,
    ) -> Result<bool, NoMemory>
        requires { CanGrow process self.old.clocks }
        ensures grows { IfOk result (λ legal. IsTrue legal → Grows process self.old self.new) }
        ensures walks { (r : Run) → slice_get r.items place ≡ Some (items.Step process name) → r.core ≡ A.core_of program.now → ((state : State) → stands_after r place ≡ Goes state → asked_in r.core r.limit state process ≡ Some ask.now) → IsWalked (A.asks_after program.now) r place self.old → IfOk result (λ legal. WalksTo (A.asks_after program.now) r (place + 1) legal self.new) }
    {
        let before = Before::new(self.replayer.world(), process, name, &ask.request);
        self.push_entry(A::core(program), process, ask)?;
        let item = Item::Step {
            actor: process,
            name,
        };
        let named = self.replayer.step_named(program, item)?;
        match named {
            Some(answered) => {
                self.leave(place, process, name, &ask.request, before, answered)?;
                Ok(true)
            }
            None => Ok(false),
        }
    }

    /// Notes what a process accesses that asks this.
    fn push_entry(&mut self, core: &Core, process: u32, ask: &Ask) -> Result<(), NoMemory>
        ensures entry { OnOk result (self.new.entries ≡ self.old.entries ++ record { process = process; column = unwrap_or (column_in self.old.clocks.columns process) 0; place = ask.now.place; accesses = accesses_by_of core.now self.old.replayer.world process ask.now.request } ∷ []) }
        ensures replayer { self.new.replayer ≡ self.old.replayer }
        ensures clocks { self.new.clocks ≡ self.old.clocks }
        ensures origins { self.new.origins ≡ self.old.origins }
    {
        let accesses = accesses_by(
            self.alloc,
            core,
            self.replayer.world(),
            process,
            &ask.request,
        )?;
        let column = self.clocks.column(process).unwrap_or(0);
        self.entries.push(Entry {
            process,
            column,
            place: ask.place,
            accesses,
        })
    }

    /// Gives a step its row, and notes what it leaves.
    fn leave(
        &mut self,
        place: u32,
        process: u32,
        name: u32,
        request: &Request,
        before: Before,
        answered: u32,
    ) -> Result<(), NoMemory>
        requires { CanGrow process self.old.clocks }
        ensures grows { OnOk result (HasGrown process self.old.clocks self.new.clocks) }
        ensures replayer { self.new.replayer ≡ self.old.replayer }
        ensures entries { self.new.entries ≡ self.old.entries }
        ensures left { (r : Run) (ask : asks.Ask) → ask.request ≡ request.now → IsStepMade r place process name ask before answered self.old.replayer.world → HasLeft r place self.old → OnOk result (HasLeft r (place + 1) self.new) }
    {
        let ends = ends_all(name, request);
        self.give_row(process, request, answered, before.global, ends)?;
        let readied = before.readied(self.replayer.world());
        let left = Left {
            process,
            number: name,
            duty: before.duty,
            readied,
            ends,
        };
        self.origins.note(place, left)
    }

    /// Gives a step its row.
    fn give_row(
        &mut self,
        process: u32,
        request: &Request,
        answered: u32,
        global: u32,
        ends: bool,
    ) -> Result<(), NoMemory>
        requires { CanGrow process self.old.clocks }
        ensures grows { OnOk result (HasGrown process self.old.clocks self.new.clocks) }
        ensures row { OnOk result (IsRowFrom ends (origins_in self.old.origins process request.now answered global) process self.old.clocks self.new.clocks) }
        ensures replayer { self.new.replayer ≡ self.old.replayer }
        ensures entries { self.new.entries ≡ self.old.entries }
        ensures origins { self.new.origins ≡ self.old.origins }
    {
        if ends {
            return self.clocks.push_all(process);
        }
        let origins = self
            .origins
            .of(self.alloc, process, request, answered, global)?;
        self.clocks.push(origins.as_slice(), process)
    }

    /// A rest or a passing of time.
    fn follow_alone(
        &mut self,
        program: &A::Program,
        place: u32,
        item: Item,
        name: u32,
        ends: bool,
    ) -> Result<bool, NoMemory>
        requires alone { IsAlone item name ends }
        requires can { CanGrow 0 self.old.clocks }
        ensures grows { IfOk result (λ legal. IsTrue legal → Grows 0 self.old self.new) }
        ensures walks { (r : Run) → slice_get r.items place ≡ Some item → r.core ≡ A.core_of program.now → IsWalked (A.asks_after program.now) r place self.old → IfOk result (λ legal. WalksTo (A.asks_after program.now) r (place + 1) legal self.new) }
    {
        let legal = self.replayer.step(program, item)?;
        if !legal {
            return Ok(false);
        }
        self.leave_alone(place, name, ends)?;
        Ok(true)
    }

    /// Gives an item of no process its row, and notes what it leaves.
    fn leave_alone(&mut self, place: u32, name: u32, ends: bool) -> Result<(), NoMemory>
        requires { CanGrow 0 self.old.clocks }
        ensures grows { OnOk result (HasGrown 0 self.old.clocks self.new.clocks) }
        ensures replayer { self.new.replayer ≡ self.old.replayer }
        ensures entries { OnOk result (self.new.entries ≡ self.old.entries ++ record { process = 0; column = 0; place = record { file = 0; line = 0 }; accesses = [] } ∷ []) }
        ensures left { (r : Run) → IsAloneMade r place name ends → HasLeft r place self.old → OnOk result (HasLeft r (place + 1) self.new) }
    {
        self.give_row_alone(ends)?;
        self.entries.push(Entry {
            process: 0,
            column: 0,
            place: Place { file: 0, line: 0 },
            accesses: Row::new(self.alloc),
        })?;
        let left = Left {
            process: 0,
            number: name,
            duty: 0,
            readied: 0,
            ends,
        };
        self.origins.note(place, left)
    }

    /// Gives an item of no process its row.
    fn give_row_alone(&mut self, ends: bool) -> Result<(), NoMemory>
        requires { CanGrow 0 self.old.clocks }
        ensures grows { OnOk result (HasGrown 0 self.old.clocks self.new.clocks) }
        ensures row { OnOk result (IsRowFrom ends (listed self.old.origins.closing) 0 self.old.clocks self.new.clocks) }
        ensures replayer { self.new.replayer ≡ self.old.replayer }
        ensures entries { self.new.entries ≡ self.old.entries }
        ensures origins { self.new.origins ≡ self.old.origins }
    {
        if ends {
            return self.clocks.push_all(0);
        }
        let origins = self.origins.closing_only(self.alloc)?;
        self.clocks.push(origins.as_slice(), 0)
    }
}
