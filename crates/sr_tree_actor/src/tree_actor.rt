ghost use Rattle.std.specs.Prelude.{◌≡◌, ◌++◌, IfOk, IsSome, None, OnOk};
ghost use Rattle.std.specs.Option.{option_to_list};
ghost use Rattle.sr_meaning.specs.Processes.{ask};
ghost use Rattle.sr_tree_actor.specs.Known.{known_or};

use sr_actor::Actor;
use sr_ask::{Answer, Asks, Start};
use sr_core::Core;
use sr_interpreter::tree_ask;
use sr_value::{Duplicate, NoMemory, Row};
use std::alloc::Global;

/// A process with its answers. What it asks is found by running it from its beginning.
#[derive(Drop)]
pub struct TreeActor {
    alloc: Global,
    start: Start,
    ticks: u32,
    answers: Row<Answer>,
    /// The answer to what it asked last, which isn't among the others yet.
    latest: Option<Answer>,
    /// What it asks, where that was found after its latest answer.
    asks: Option<Asks>,
}

impl TreeActor {
    /// Puts the latest answer after the others.
    fn keep_latest(&mut self) -> Result<(), NoMemory>
        ensures answers { self.new.answers ++ option_to_list self.new.latest ≡ self.old.answers ++ option_to_list self.old.latest }
        ensures kept { OnOk result (self.new.latest ≡ None) }
        ensures start { self.new.start ≡ self.old.start }
        ensures ticks { self.new.ticks ≡ self.old.ticks }
        ensures asks { self.new.asks ≡ self.old.asks }
    {
        if let Some(answer) = &self.latest {
            self.answers.push(answer.copy(self.alloc)?)?;
        }
        self.latest = None;
        Ok(())
    }

    /// What it asks after its answers.
    fn found(&self, core: &Core) -> Result<Asks, NoMemory>
        ensures { IfOk result (λ asks. asks ≡ ask core.now self.now.start self.now.ticks self.now.answers) }
    {
        tree_ask(self.alloc, core, &self.start, self.ticks, &self.answers)
    }
}

impl Actor for TreeActor {
    type Program = Core;

    ghost core_of = { λ core. core };

    ghost asks_after = { λ core actor more. known_or actor.asks more (ask core actor.start actor.ticks (actor.answers ++ option_to_list actor.latest ++ more)) };

    ghost can_feed = { λ actor. (actor.latest ≡ None) × IsSome actor.asks };

    fn core(program: &Core) -> &Core {
        program
    }

    fn start(alloc: Global, start: &Start, ticks: u32) -> Result<TreeActor, NoMemory> {
        Ok(TreeActor {
            alloc,
            start: start.copy(alloc)?,
            ticks,
            answers: Row::new(alloc),
            latest: None,
            asks: None,
        })
    }

    fn run(&mut self, program: &Core) -> Result<(), NoMemory> {
        self.keep_latest()?;
        if self.asks.is_none() {
            self.asks = Some(self.found(program)?);
        }
        Ok(())
    }

    fn asked(&self) -> &Asks {
        match &self.asks {
            Some(asks) => asks,
            None => unreachable!(),
        }
    }

    fn feed(&mut self, answer: Answer) {
        self.latest = Some(answer);
        self.asks = None;
    }
}
