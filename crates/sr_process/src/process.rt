ghost use Rattle.std.specs.Prelude.{◌≡◌, ◌≢◌, ◌<◌, ◌-◌, ◌∷◌, ◌++◌, [], IfOk, IsSome, IsErr, List, None, Ok, OnErr, OnOk, Some, ℕ, option_copied};
ghost use Rattle.sr_ask.specs.declared.answer.Answer.{Answer as an_answer};
ghost use Rattle.sr_ask.specs.declared.ask.Asks.TheVariants.{OverTicks as over_ticks};
ghost use Rattle.sr_ask.specs.declared.start.Start.{Start as a_start};
ghost use Rattle.sr_code.specs.Runs.{code_ask};
ghost use Rattle.sr_code.specs.declared.code.Program.{Program as a_program};
ghost use Rattle.sr_process.specs.declared.process.Phase.TheVariants.{New as new_phase, Stopped as stopped_phase, Waiting as waiting_phase};
ghost use Rattle.sr_process.specs.Processes.{Carries, Failed, Ready, Runs, Hears, ReadyIn, SameAsks, StandsFor, asked_by, asks_after, asking, coded_at, left, me_of, stepped};
ghost use Rattle.sr_process.specs.Together.{Does, Puts, TicksTo};

use crate::entry::{entry_address, entry_place, first_frame, no_frame};
use crate::operands::copy_frame;
use crate::together::{
    Assigned, Found, Stretch, decided, instruction_at, store_number, stretch_at,
};
use sr_ask::{Answer, Ask, Asks, Request, Start};
use sr_code::{Coded, Instruction, Program};
use sr_core::Me;
use sr_execute::{Carried, Frame, Step, execute, execute_quickly, resume};
use sr_frame::{Scene, results_now};
use sr_value::{Duplicate, Fault, NoMemory, Place, Value};
use std::alloc::Global;

/// How far a process has come.
#[derive(Clone, Copy, PartialEq, Eq)]
enum Phase {
    /// It hasn't begun.
    New,
    /// It stands at an instruction.
    Running,
    /// It asks, and an answer may lead on.
    Waiting,
    /// It asks this for good.
    Stopped,
    OutOfMemory,
}

/// A process of a program.
///
/// It runs to its next request, and stores no answers: [`Process::feed`] hands it one, and the next run hears it.
#[derive(Drop)]
pub struct Process {
    alloc: Global,
    start: Start,
    limit: u32,
    phase: Phase,
    address: usize,
    frame: Frame,
    asks: Asks,
    fed: Option<Answer>,
}

fn copied_answer(alloc: Global, answer: &Option<Answer>) -> Result<Option<Answer>, NoMemory>
    ensures { IfOk result (λ copy. copy ≡ answer.now) }
{
    match answer {
        Some(answer) => Ok(Some(answer.copy(alloc)?)),
        None => Ok(None),
    }
}

impl Process {
    /// A process that has run nothing yet. It may begin `ticks` statements between two answers.
    pub fn start(alloc: Global, start: &Start, ticks: u32) -> Result<Process, NoMemory>
        ensures { IfOk result (λ process. (program : a_program) → StandsFor program process start.now ticks []) }
    {
        Ok(Process::new(alloc, start.copy(alloc)?, ticks))
    }

    fn new(alloc: Global, start: Start, ticks: u32) -> Process
        ensures alloc { result.alloc ≡ alloc }
        ensures start { result.start ≡ start }
        ensures limit { result.limit ≡ ticks }
        ensures phase { result.phase ≡ new_phase }
    {
        Process {
            alloc,
            start,
            limit: ticks,
            phase: Phase::New,
            address: 0,
            frame: no_frame(alloc),
            asks: Asks::OverTicks,
            fed: None,
        }
    }

    /// The process and its instance.
    pub fn me(&self) -> Me
        ensures { result ≡ me_of self.now }
    {
        Me {
            process: self.start.process,
            instance: self.start.instance,
        }
    }

    /// What it asks, where it ran and no answer was fed since.
    pub fn asked(&self) -> Option<&Asks>
        ensures { option_copied result ≡ asked_by self.now }
    {
        match self.fed {
            Some(_) => None,
            None => match self.phase {
                Phase::Waiting => Some(&self.asks),
                Phase::Stopped => Some(&self.asks),
                _ => None,
            },
        }
    }

    /// Hands it an answer to what it asks. It takes no memory.
    pub fn feed(&mut self, answer: Answer)
        ensures hears { IsSome (asked_by self.old) → (program : a_program) (more : List an_answer) → asks_after program self.new more ≡ asks_after program self.old (answer ∷ more) }
        ensures stands { IsSome (asked_by self.old) → (program : a_program) (start : a_start) (limit : ℕ) (answers : List an_answer) → StandsFor program self.old start limit answers → StandsFor program self.new start limit (answers ++ answer ∷ []) }
    {
        self.fed = Some(answer);
    }

    /// Makes what it holds the same.
    fn copy_held(&self, to: &mut Process) -> Result<(), NoMemory>
        ensures { OnOk result (to.new ≡ record self.now { alloc = to.old.alloc; start = to.old.start; limit = to.old.limit }) }
    {
        copy_frame(self.alloc, &self.frame, &mut to.frame)?;
        to.asks = self.asks.copy(self.alloc)?;
        to.fed = copied_answer(self.alloc, &self.fed)?;
        to.phase = self.phase;
        to.address = self.address;
        Ok(())
    }

    /// A process that goes on as this one would.
    pub fn copy(&self) -> Result<Process, NoMemory>
        ensures { IfOk result (λ copy. copy ≡ self.now) }
    {
        let start = self.start.copy(self.alloc)?;
        let mut copy = Process::new(self.alloc, start, self.limit);
        self.copy_held(&mut copy)?;
        Ok(copy)
    }

    /// Asks at a line.
    #[inline(always)]
    fn ask(&mut self, request: Request, place: Place)
        ensures { self.new ≡ asking request place self.old }
    {
        self.asks = Asks::Asked(Ask {
            place,
            role: self.start.role,
            request,
        });
    }

    /// Asks for good to end the run with a fault.
    // In `take_step` the temporaries of its drop would be filled for each step.
    #[cold]
    #[inline(never)]
    fn fail(&mut self, fault: Fault, place: Place)
        ensures { self.new ≡ stepped (Step.Faults fault) place self.old }
    {
        self.phase = Phase::Stopped;
        self.ask(Request::Fail { fault }, place);
    }

    /// Has no tick left, for good.
    #[cold]
    #[inline(never)]
    fn run_out(&mut self)
        ensures { self.new ≡ record self.old { phase = stopped_phase; asks = over_ticks } }
    {
        self.phase = Phase::Stopped;
        self.asks = Asks::OverTicks;
    }

    /// What an instruction leads to.
    #[inline(always)]
    fn take_step(&mut self, step: Step, place: Place)
        ensures { self.new ≡ stepped step place self.old }
    {
        match step {
            Step::Goes(to) => self.address = to,
            Step::Asks(request) => {
                self.phase = Phase::Waiting;
                self.ask(request, place);
            }
            Step::Faults(fault) => self.fail(fault, place),
            Step::OverTicks => self.run_out(),
        }
    }

    /// Begins the code of its role.
    #[cold]
    #[inline(never)]
    fn begin(&mut self, program: &Program) -> Result<(), NoMemory>
        requires { self.old.phase ≡ new_phase }
        ensures same { OnOk result (SameAsks program.now self.old self.new) }
        ensures runs { OnOk result (Runs self.new) }
    {
        self.frame = first_frame(self.alloc, &program.code, &self.start, self.limit)?;
        self.address = entry_address(&program.code, &self.start);
        self.phase = Phase::Running;
        self.fed = None;
        Ok(())
    }

    /// Puts a number that instructions put, or goes where the condition leads that it begins.
    fn put_found(&mut self, program: &Program, found: Found) -> Result<bool, NoMemory>
        requires runs { Runs self.old }
        requires puts { Puts program.now.code self.old.frame.own self.old.address found }
        ensures { Carries program.now result self.old self.new }
    {
        match decided(&program.code, &self.frame.own, found) {
            Some(to) => self.address = to,
            None => {
                self.frame.operands.values.push(Value::Int(found.number))?;
                self.address = found.after;
            }
        }
        Ok(true)
    }

    /// Stores a number in an own variable or an item of one, and whether it fits there.
    fn assign(&mut self, program: &Program, assigned: Assigned) -> bool
        requires runs { Runs self.old }
        requires assigns { Does program.now.code self.old.frame.own (λ on. on) self.old.address (Stretch.Stores assigned) }
        ensures { Carries program.now (Ok result) self.old self.new }
    {
        match store_number(&mut self.frame.own, assigned.part, assigned.found.number) {
            Ok(()) => {
                self.address = assigned.found.after;
                true
            }
            Err(_) => false,
        }
    }

    /// Instructions on numbers that are carried out together, and whether there were any.
    fn carry_out_together(&mut self, program: &Program) -> Result<bool, NoMemory>
        requires { Runs self.old }
        ensures { Carries program.now result self.old self.new }
    {
        match stretch_at(&program.code, &self.frame.own, self.address) {
            Some(Stretch::Puts(found)) => self.put_found(program, found),
            Some(Stretch::Stores(assigned)) => Ok(self.assign(program, assigned)),
            None => Ok(false),
        }
    }

    /// Takes a tick and goes on there, and whether a tick was left.
    fn tick(&mut self, program: &Program, coded: &Coded, to: usize) -> bool
        requires runs { Runs self.old }
        requires at { coded_at program.now.code.items self.old.address ≡ Some coded.now }
        requires ticks { TicksTo coded.now.instruction (self.old.address - 1) to }
        ensures { Carries program.now (Ok result) self.old self.new }
    {
        match self.frame.ticks.checked_sub(1) {
            Some(left) => {
                self.frame.ticks = left;
                self.address = to;
                true
            }
            None => false,
        }
    }

    /// A jump, or a statement that begins, and whether it was one of these.
    fn go_on(&mut self, program: &Program, coded: &Coded) -> bool
        requires runs { Runs self.old }
        requires at { coded_at program.now.code.items self.old.address ≡ Some coded.now }
        ensures { Carries program.now (Ok result) self.old self.new }
    {
        let next = self.address - 1;
        match coded.instruction {
            Instruction::Tick => self.tick(program, coded, next),
            Instruction::Again { to } => self.tick(program, coded, to),
            Instruction::Jump { to } => {
                self.address = to.min(next);
                true
            }
            _ => false,
        }
    }

    /// One instruction that loops often use, and whether it was one.
    fn carry_out_quickly(&mut self, program: &Program, coded: &Coded) -> Result<bool, NoMemory>
        requires runs { Runs self.old }
        requires at { coded_at program.now.code.items self.old.address ≡ Some coded.now }
        ensures { Carries program.now result self.old self.new }
    {
        let scene = Scene {
            alloc: self.alloc,
            names: &program.core.names,
            start: &self.start,
            limit: self.limit,
            place: coded.place,
        };
        let next = self.address - 1;
        let carried = execute_quickly(&scene, &mut self.frame, &coded.instruction, next)?;
        match carried {
            Carried::Goes(to) => {
                self.address = to;
                Ok(true)
            }
            Carried::Faults(fault) => {
                self.fail(fault, coded.place);
                Ok(true)
            }
            Carried::Left => Ok(false),
        }
    }

    /// One instruction.
    // In `run` its temporaries would be filled for each quick instruction too.
    #[inline(never)]
    fn carry_out(&mut self, program: &Program, coded: &Coded) -> Result<(), NoMemory>
        requires runs { Runs self.old }
        requires at { coded_at program.now.code.items self.old.address ≡ Some coded.now }
        ensures same { OnOk result (SameAsks program.now self.old self.new) }
        ensures ready { OnOk result (Ready self.new) }
        ensures falls { OnOk result (left program.now self.new < left program.now self.old) }
    {
        let scene = Scene {
            alloc: self.alloc,
            names: &program.core.names,
            start: &self.start,
            limit: self.limit,
            place: coded.place,
        };
        let next = self.address - 1;
        let step = execute(&scene, &mut self.frame, &coded.instruction, next)?;
        self.take_step(step, coded.place);
        Ok(())
    }

    /// The end of its code.
    #[cold]
    #[inline(never)]
    fn finish(&mut self, program: &Program) -> Result<(), NoMemory>
        requires runs { Runs self.old }
        requires at { coded_at program.now.code.items self.old.address ≡ None }
        ensures same { OnOk result (SameAsks program.now self.old self.new) }
        ensures ready { OnOk result (Ready self.new) }
        ensures falls { OnOk result (left program.now self.new < left program.now self.old) }
    {
        let place = entry_place(&program.code, &self.start);
        let scene = Scene {
            alloc: self.alloc,
            names: &program.core.names,
            start: &self.start,
            limit: self.limit,
            place,
        };
        let results = results_now(&scene, &self.frame.service.gives, &self.frame.own)?;
        self.phase = Phase::Stopped;
        self.ask(
            Request::Finish {
                answered: self.frame.service.answered,
                back: self.frame.service.back,
                results,
            },
            place,
        );
        Ok(())
    }

    /// One instruction, or the end of its code.
    fn proceed(&mut self, program: &Program) -> Result<(), NoMemory>
        requires { Runs self.old }
        ensures same { OnOk result (SameAsks program.now self.old self.new) }
        ensures ready { OnOk result (Ready self.new) }
        ensures falls { OnOk result (left program.now self.new < left program.now self.old) }
    {
        match instruction_at(&program.code, self.address) {
            Some(coded) => {
                if self.go_on(program, coded) {
                    return Ok(());
                }
                if self.carry_out_together(program)? {
                    return Ok(());
                }
                if self.carry_out_quickly(program, coded)? {
                    return Ok(());
                }
                self.carry_out(program, coded)
            }
            None => self.finish(program),
        }
    }

    /// Hears an answer at the instruction that it waits at.
    fn hear_at(&mut self, coded: &Coded, answer: Answer) -> Result<(), NoMemory>
        requires waits { self.old.phase ≡ waiting_phase }
        requires within { self.old.address ≢ 0 }
        ensures { OnOk result (Hears coded.now answer self.old self.new) }
    {
        let taken = resume(
            self.alloc,
            &mut self.frame,
            &coded.instruction,
            answer,
            self.address - 1,
        )?;
        if let Some(to) = taken {
            self.phase = Phase::Running;
            self.address = to;
            self.frame.ticks = self.limit;
        }
        Ok(())
    }

    /// Drops an answer that nothing waits for.
    #[cold]
    #[inline(never)]
    fn forget(&mut self)
        ensures { self.new ≡ record self.old { fed = None } }
    {
        self.fed = None;
    }

    /// Hears an answer that was fed.
    fn hear(&mut self, program: &Program) -> Result<(), NoMemory>
        requires { ReadyIn self.old.phase }
        ensures same { OnOk result (SameAsks program.now self.old self.new) }
        ensures ready { OnOk result (Ready self.new) }
    {
        if self.fed.is_none() {
            return Ok(());
        }
        match self.phase {
            Phase::Waiting => match instruction_at(&program.code, self.address) {
                Some(coded) => match std::mem::replace(&mut self.fed, None) {
                    Some(answer) => self.hear_at(coded, answer),
                    None => Ok(()),
                },
                None => {
                    self.forget();
                    Ok(())
                }
            },
            _ => {
                self.forget();
                Ok(())
            }
        }
    }

    /// Runs to its next request.
    fn run(&mut self, program: &Program) -> Result<(), NoMemory>
        requires { Ready self.old }
        ensures same { OnOk result (SameAsks program.now self.old self.new) }
        ensures asked { OnOk result (IsSome (asked_by self.new)) }
    {
        while self.phase == Phase::Running {
            self.proceed(program)?;
        }
        Ok(())
    }

    /// Begins, hears what it was fed, and runs to its next request.
    // Apart from the engine, which is inlined into the loop of the run.
    #[inline(never)]
    pub(crate) fn advance(&mut self, program: &Program) -> Result<(), NoMemory>
        ensures same { OnOk result (SameAsks program.now self.old self.new) }
        ensures asked { OnOk result (IsSome (asked_by self.new)) }
        ensures failed { Failed self.old → IsErr result }
    {
        match self.phase {
            Phase::OutOfMemory => return Err(NoMemory),
            Phase::New => self.begin(program)?,
            _ => self.hear(program)?,
        }
        self.run(program)
    }

    /// A copy of what it is known to ask.
    fn copied_asks(&self) -> Result<Asks, NoMemory>
        requires { IsSome (asked_by self.now) }
        ensures { IfOk result (λ asks. asked_by self.now ≡ Some asks) }
    {
        self.asks.copy(self.alloc)
    }

    /// What it asks next, unless memory runs out.
    fn find(&mut self, program: &Program) -> Result<Asks, NoMemory>
        ensures same { OnOk result (SameAsks program.now self.old self.new) }
        ensures known { IfOk result (λ asks. asked_by self.new ≡ Some asks) }
        ensures failed { Failed self.old → IsErr result }
    {
        self.advance(program)?;
        self.copied_asks()
    }

    /// Runs to its next request, and answers it. Asked again without an answer it does nothing more. After
    /// [`NoMemory`] it answers that for good.
    pub fn next(&mut self, program: &Program) -> Result<Asks, NoMemory>
        ensures same { OnOk result (SameAsks program.now self.old self.new) }
        ensures asks { IfOk result (λ asks. asks ≡ asks_after program.now self.old []) }

        // The same of a process that stands for answers.
        ensures stands { OnOk result ((start : a_start) (limit : ℕ) (answers : List an_answer) → StandsFor program.now self.old start limit answers → StandsFor program.now self.new start limit answers) }
        ensures meant { IfOk result (λ asks. (start : a_start) (limit : ℕ) (answers : List an_answer) → StandsFor program.now self.old start limit answers → asks ≡ code_ask program.now.core program.now.code start limit answers) }

        ensures known { IfOk result (λ asks. asked_by self.new ≡ Some asks) }
        ensures failing { Failed self.old → IsErr result }
        ensures failed { OnErr result (Failed self.new) }
    {
        match self.find(program) {
            Ok(asks) => Ok(asks),
            Err(NoMemory) => {
                self.phase = Phase::OutOfMemory;
                Err(NoMemory)
            }
        }
    }
}
