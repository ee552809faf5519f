ghost use Rattle.std.specs.Prelude.{◌≡◌, ◌↔◌, ◌<◌, ◌≤◌, ◌++◌, ◌∷◌, [], IfNone, IfOk, IfSome, IsTrue, OnErr, OnOk, length, map, option_copied, slice_get, true};
ghost use Rattle.std.specs.List.{AllPairs, Contains};
ghost use Rattle.std.specs.Option.{option_map};
ghost use Rattle.sr_processes.specs.Living.{IsLive};
ghost use Rattle.sr_world.specs.Acting.{IsNew, NeedsNew};
ghost use Rattle.sr_world.specs.Does.{Does};
ghost use Rattle.sr_world.specs.Names.{AreAllUsed, IsGreatest, IsLeastUnused, made_after as made_after_in};
ghost use Rattle.sr_world.specs.Updates.{pass_to};
ghost use Rattle.sr_world.specs.Worlds as worlds;

use crate::input::Input;
use crate::used::Used;
use sr_ask::{Role, Start};
use sr_calls::Calls;
use sr_instances::Places;
use sr_processes::Processes;
use sr_queue::Queue;
use sr_store::Blocks;
use sr_value::{NoMemory, Row, Text};
use std::alloc::Global;
use std::marker::Model;

/// All that the machine of a run has at one moment.
#[derive(Drop)]
pub struct World {
    pub(crate) alloc: Global,
    pub(crate) processes: Processes,
    pub(crate) places: Places,
    pub(crate) blocks: Blocks,
    pub(crate) queue: Queue,
    pub(crate) calls: Calls,
    pub(crate) input: Input,
    /// Whether no more input will come.
    pub(crate) ended: bool,
    pub(crate) output: Text,
    /// The status that a `stop` fixed.
    pub(crate) fixed: Option<u8>,
    pub(crate) used: Used,
    pub(crate) moment: u32,
}

impl Model for World {
    ghost use Rattle.sr_world.specs.Worlds.{World};

    ghost Value = { World };

    ghost use Rattle.std.specs.Coded.{codes, coded_list, coded_ℕ};
    ghost use Rattle.std.specs.FinMap as map;
    ghost use Rattle.std.specs.Ordering.{nat_cmp};
    ghost use Rattle.sr_calls.specs.contracts.held.Held as held;
    ghost use Rattle.sr_calls.specs.contracts.held.Reply as reply;
    ghost use Rattle.sr_store.specs.contracts.variable.Variable as variable;
    ghost use Rattle.sr_value.specs.contracts.value.Value as value;

    ghost coded = { Prim.hlevel (
      codes,
      value.the_row.coded,
      map.code {R = nat_cmp} coded_ℕ (map.code {R = nat_cmp} coded_ℕ variable.the_row.coded),
      map.code {R = nat_cmp} coded_ℕ (coded_list held.the_row.coded),
      map.code {R = nat_cmp} coded_ℕ (coded_list reply.the_row.coded),
    ) };

    ghost view = { λ world. record {
      live = world.processes.starts;
      places = world.places;
      variables = world.blocks.variables;
      pending = world.queue.items;
      held = world.calls.held;
      replies = world.calls.replies;
      rest = world.input;
      ended = world.ended;
      output = world.output;
      fixed = world.fixed;
      used = world.used.names;
      moment = world.moment;
    } };
}

/// What the boot process is started with. It runs on machine 1.
fn boot(alloc: Global) -> Start
    ensures { result ≡ worlds.boot }
{
    Start {
        process: 1,
        instance: 0,
        vm: 1,
        homes: Row::new(alloc),
        role: Role::Boot,
        code: 0,
        args: Row::new(alloc),
        back: 0,
    }
}

impl World {
    /// The world in which a run of a program begins: machine 1 and the boot process, which makes main.
    pub fn begin(alloc: Global) -> Result<World, NoMemory>
        ensures { IfOk result (λ world. world ≡ worlds.beginning) }
    {
        let mut processes = Processes::new(alloc);
        processes.reserve()?;
        processes.add(boot(alloc));
        let mut places = Places::new(alloc);
        places.add_vm(1)?;
        let mut used = Used::new(alloc);
        used.reserve()?;
        used.push(1);
        Ok(World {
            alloc,
            processes,
            places,
            blocks: Blocks::new(alloc),
            queue: Queue::new(alloc),
            calls: Calls::new(alloc),
            input: Input::new(alloc),
            ended: false,
            output: Text::new(alloc),
            fixed: None,
            used,
            moment: 0,
        })
    }

    /// Adds bytes to the input. Whatever was read already stays so.
    pub fn give(&mut self, bytes: &[u8]) -> Result<(), NoMemory>
        ensures ok { OnOk result (self.new ≡ record self.old { rest = self.old.rest ++ bytes.now }) }
        ensures err { OnErr result (self.new ≡ self.old) }
    {
        self.input.give(bytes)
    }

    /// Says that no more input will come.
    pub fn end_input(&mut self)
        ensures { self.new ≡ record self.old { ended = true } }
    {
        self.ended = true;
    }

    /// How many processes live.
    pub fn len(&self) -> usize
        ensures { result ≡ length self.now.live }
    {
        self.processes.len()
    }

    /// The numbers of all that live, in the order of their making.
    pub fn living(&self) -> Result<Row<u32>, NoMemory>
        ensures { IfOk result (λ numbers. numbers ≡ map (λ s. s.process) self.now.live) }
    {
        self.processes.numbers(self.alloc)
    }

    /// What the process was started with that stands at a place in the order of their making, from 0. Where
    /// some have ended since the last sweep of `Processes`, it takes time by the place.
    pub fn live_at(&self, place: usize) -> Option<&Start>
        ensures { option_copied result ≡ slice_get self.now.live place }
    {
        self.processes.at(place)
    }

    /// What a process was started with, where it lives.
    pub fn started(&self, process: u32) -> Option<&Start>
        ensures { option_copied result ≡ worlds.started self.now process }
    {
        self.processes.start(process)
    }

    /// Whether no process, instance or machine has this number.
    pub fn is_new(&self, name: u32) -> bool
        ensures new { IsTrue result ↔ IsNew self.now name }
        ensures needed { IsTrue result → (meant : Does) → NeedsNew meant self.now name }
    {
        self.is_unused(name)
    }

    fn is_unused(&self, name: u32) -> bool
        ensures { IsTrue result ↔ IsNew self.now name }
    {
        !self.processes.is_live(name)
            && !self.places.is_added(name)
            && !self.places.machines().as_slice().contains(&name)
    }

    /// Whether a process, instance, machine or invocation has got this number. Where the numbers were given out in
    /// ascending order, it is searched by halves; elsewhere the answer says nothing.
    pub fn is_used(&self, name: u32) -> bool
        ensures { AllPairs (λ a b. a < b) self.now.used → (IsTrue result ↔ Contains self.now.used name) }
    {
        self.used.contains(name)
    }

    /// The least number from 1 on that no process, instance, machine or invocation has got; none where each
    /// has been given out. Where a run takes this number at each step, it is found without a search.
    pub fn least_unused(&self) -> Option<u32>
        ensures some { IfSome result (IsLeastUnused self.now.used) }
        ensures none { IfNone result (AreAllUsed self.now.used) }
    {
        self.used.least_unused()
    }

    /// The greatest number that was given out, or 0.
    pub fn greatest_used(&self) -> u32
        ensures { IsGreatest self.now.used result }
    {
        self.used.greatest()
    }

    /// The place in the order of making of the first living process that was made after this one, which may
    /// have ended; how many live, where there is none. All were made after 0. It takes no memory.
    pub fn made_after(&self, process: u32) -> usize
        ensures { result ≡ made_after_in self.now process }
    {
        if process == 0 {
            return 0;
        }
        match self.processes.first_among(self.used.after(process)) {
            Some(place) => place,
            None => self.processes.len(),
        }
    }

    /// The machine's moment, in milliseconds.
    pub fn moment(&self) -> u32
        ensures { result ≡ self.now.moment }
    {
        self.moment
    }

    /// Lets time pass to a later moment. It takes no memory.
    pub fn advance(&mut self, to: u32)
        requires later { self.old.moment < to }
        requires most { to ≤ 2147483647 }
        ensures { self.new ≡ pass_to to self.old }
    {
        self.moment = to;
    }

    /// The instances and machines.
    pub fn places(&self) -> &Places
        ensures { result.now ≡ self.now.places }
    {
        &self.places
    }

    /// The invocations that nobody services yet.
    pub fn queue(&self) -> &Queue
        ensures { result.now.items ≡ self.now.pending }
    {
        &self.queue
    }

    /// What was written.
    pub fn output(&self) -> &Text
        ensures { result.now ≡ self.now.output }
    {
        &self.output
    }
}
