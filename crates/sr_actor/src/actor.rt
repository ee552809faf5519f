ghost use Rattle.std.specs.Prelude.{◌≡◌, [], ◌∷◌, List, IfOk, OnOk};
ghost use Rattle.sr_ask.specs.declared.answer.Answer as answers;
ghost use Rattle.sr_ask.specs.declared.ask.Asks as asking;
ghost use Rattle.sr_core.specs.declared.component.Core as cores;
ghost use Rattle.sr_meaning.specs.Processes.{ask};

use sr_ask::{Answer, Asks, Start};
use sr_core::Core;
use sr_value::NoMemory;
use std::alloc::Global;

/// A process that runs: it asks, is answered and asks again.
pub trait Actor: Drop {
    /// What it is lent to run: a core, or what was made from one.
    type Program;

    ghost core_of: { Self.Program → cores.Core };

    // what it asks after these further answers
    ghost asks_after: { Self.Program → Self → List answers.Answer → asking.Asks };

    // it has asked, and may be answered
    ghost can_feed: { Self → Type 0 };

    /// The core that a program was made from.
    fn core(program: &Self::Program) -> &Core
        ensures { result.now ≡ core_of program.now };

    /// A process with this start, which may begin `ticks` statements between two answers.
    fn start(alloc: Global, start: &Start, ticks: u32) -> Result<Self, NoMemory>
        ensures { IfOk result (λ actor. (program : Self.Program) (more : List answers.Answer) → asks_after program actor more ≡ ask (core_of program) start.now ticks more) };

    /// Runs to what it asks next. Run again without an answer it does nothing more. After an error nothing is known of it.
    fn run(&mut self, program: &Self::Program) -> Result<(), NoMemory>
        ensures same { OnOk result ((more : List answers.Answer) → asks_after program.now self.new more ≡ asks_after program.now self.old more) }
        ensures asked { OnOk result (can_feed self.new) };

    /// What it asks. It is lent, and not copied.
    fn asked(&self) -> &Asks
        requires { can_feed self.now }
        ensures { (program : Self.Program) → result.now ≡ asks_after program self.now [] };

    /// Answers what it asked. It takes no memory.
    fn feed(&mut self, answer: Answer)
        ensures { can_feed self.old → (program : Self.Program) (more : List answers.Answer) → asks_after program self.new more ≡ asks_after program self.old (answer ∷ more) };
}
