use crate::process::Process;
use sr_actor::Actor;
use sr_ask::{Answer, Asks, Start};
use sr_compiled::Compiled;
use sr_core::Core;
use sr_value::NoMemory;
use std::alloc::Global;

impl Actor for Process {
    ghost use Rattle.std.specs.Prelude.{IsSome};
    ghost use Rattle.sr_process.specs.Processes.{asked_by};
    ghost use Rattle.sr_process.specs.Processes.{asks_after as asks_of_process};

    type Program = Compiled;

    ghost core_of = { λ compiled. compiled.program.core };

    ghost asks_after = { λ compiled process more. asks_of_process compiled.program process more };

    ghost can_feed = { λ process. IsSome (asked_by process) };

    fn core(program: &Compiled) -> &Core {
        &program.program().core
    }

    fn start(alloc: Global, start: &Start, ticks: u32) -> Result<Process, NoMemory> {
        Process::start(alloc, start, ticks)
    }

    fn run(&mut self, program: &Compiled) -> Result<(), NoMemory> {
        self.advance(program.program())
    }

    #[tactic(auto, using(crate::proofs::Moves::known_after))]
    fn asked(&self) -> &Asks {
        match Process::asked(self) {
            Some(asks) => asks,
            None => unreachable!(),
        }
    }

    fn feed(&mut self, answer: Answer) {
        Process::feed(self, answer);
    }
}
