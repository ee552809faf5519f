ghost use Rattle.std.specs.Prelude.{◌≡◌, ◌+◌, length};
ghost use Rattle.sr_worker_tests.specs.Scripts.{asks_at, load_of};

use sr_actor::Actor;
use sr_ask::{Answer, Ask, Asks, Request, Role, Start};
use sr_core::Core;
use sr_value::{NoMemory, Place, Row};
use std::alloc::Global;

/// A process that loads one variable after another, and is over its ticks after the last.
#[derive(Drop)]
pub struct Script {
    /// The variable that it loads next.
    pub next: u32,
    /// The first that it doesn't load.
    pub end: u32,
    alloc: Global,
    asks: Asks,
}

/// The request for a variable.
pub fn load_of(alloc: Global, var: u32) -> Ask
    ensures { result ≡ load_of var }
{
    let path = Row::new(alloc);
    Ask {
        place: Place { file: 0, line: 1 },
        role: Role::Proc,
        request: Request::Load {
            block: 1,
            var,
            path,
        },
    }
}

impl Script {
    /// One that loads the variables from `next` on, up to the one before `end`.
    pub fn new(alloc: Global, next: u32, end: u32) -> Self {
        Script {
            next,
            end,
            alloc,
            asks: Asks::OverTicks,
        }
    }
}

impl Actor for Script {
    type Program = Core;

    ghost core_of = { λ core. core };

    ghost asks_after = { λ core script more. asks_at script.end (script.next + length more) };

    ghost can_feed = { λ script. script.asks ≡ asks_at script.end script.next };

    fn core(program: &Core) -> &Core {
        program
    }

    /// A script is made by a test, and not begun from a core.
    fn start(_alloc: Global, _start: &Start, _ticks: u32) -> Result<Self, NoMemory> {
        Err(NoMemory)
    }

    fn run(&mut self, _program: &Core) -> Result<(), NoMemory> {
        self.asks = if self.next < self.end {
            Asks::Asked(load_of(self.alloc, self.next))
        } else {
            Asks::OverTicks
        };
        Ok(())
    }

    fn asked(&self) -> &Asks {
        &self.asks
    }

    fn feed(&mut self, _answer: Answer) {
        if self.next < self.end {
            self.next += 1;
        }
    }
}
