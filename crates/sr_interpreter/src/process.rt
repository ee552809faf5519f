ghost use Rattle.std.specs.Prelude.{◌≡◌, IfOk, reverse};
ghost use Rattle.std.specs.Option.{option_copied};
ghost use Rattle.sr_meaning.specs.Processes.{ask, beginning, boot_meaning, final_meaning, finish, initial_meaning, main_of, proc_meaning, process_meaning, role_meaning};
ghost use Rattle.sr_interpreter_expr.specs.Interpreters.{Agrees, here_of, stage_of};

use crate::role::{
    body_for, component_of, first_line, main_of, own_service, own_variables, proc_at,
};
use crate::statement::run_block;
use sr_ask::{Answer, Asks, Request, Role, Start};
use sr_core::{Body, Component, Core, Proc, Scope};
use sr_interpreter_expr::{
    HasCore, Interpreter, IsMade, Scene, Stop, ask, at_line, ensure, needs, reply_to,
};
use sr_interpreter_parts::{ask_for_good, make_formals, make_returned, results};
use sr_meaning::Ending;
use sr_value::{Cap, Duplicate, NoMemory, Row};
use std::alloc::Global;

/// The number of main as a request has it, as far as memory has numbers for components.
fn main_number(core: &Core) -> Result<u32, NoMemory>
    ensures { IfOk result (λ number. number ≡ main_of core.now) }
{
    match u32::try_from(main_of(core)) {
        Ok(number) => Ok(number),
        Err(_) => Err(NoMemory),
    }
}

/// The boot process makes main's globals and main, and waits for it.
fn boot<C: HasCore>(scene: &Scene<C>, interpreter: &mut Interpreter) -> Result<(), Stop>
    ensures { Agrees (boot_meaning (here_of C.core_of scene.now) (stage_of interpreter.old)) result (stage_of interpreter.new) }
{
    let resource = main_number(scene.program.core())?;
    let vm = Cap::Vm(scene.start.vm);
    ensure(
        scene,
        interpreter,
        needs(scene.program.core(), resource),
        vm,
    )?;
    let request = Request::Create {
        resource,
        args: Row::new(scene.alloc),
        vm,
    };
    let name = ask(scene, interpreter, &IsMade, request)?;
    let _ = reply_to(scene, interpreter, name)?;
    Ok(())
}

/// Makes the formals of the component, which are shared variables, and runs its block.
fn run_initial<C: HasCore>(
    scene: &Scene<C>,
    interpreter: &mut Interpreter,
    component: Option<&Component>,
) -> Result<(), Stop>
    ensures { Agrees (initial_meaning (option_copied component.entry) (here_of C.core_of scene.now) (stage_of interpreter.old)) result (stage_of interpreter.new) }
{
    match component {
        None => Ok(()),
        Some(found) => {
            let args = scene.start.args.as_slice();
            make_formals(
                scene,
                interpreter,
                Scope::Shared,
                found.formals.as_slice(),
                args,
            )?;
            let _ = run_block(scene, interpreter, found.initial.block.as_slice())?;
            Ok(())
        }
    }
}

/// Makes the formals and the returned name of a proc, and runs its block.
fn run_proc<C: HasCore>(
    scene: &Scene<C>,
    interpreter: &mut Interpreter,
    proc: Option<&Proc>,
) -> Result<(), Stop>
    ensures { Agrees (proc_meaning (option_copied proc.entry) (here_of C.core_of scene.now) (stage_of interpreter.old)) result (stage_of interpreter.new) }
{
    match proc {
        None => Ok(()),
        Some(found) => {
            let scene = at_line(scene, found.place);
            let args = scene.start.args.as_slice();
            make_formals(
                &scene,
                interpreter,
                Scope::Own,
                found.formals.as_slice(),
                args,
            )?;
            make_returned(&scene, interpreter, &found.returned)?;
            let _ = run_block(&scene, interpreter, found.body.block.as_slice())?;
            Ok(())
        }
    }
}

/// Runs final code.
fn run_final<C: HasCore>(
    scene: &Scene<C>,
    interpreter: &mut Interpreter,
    body: Option<&Body>,
) -> Result<(), Stop>
    ensures { Agrees (final_meaning (option_copied body.entry) (here_of C.core_of scene.now) (stage_of interpreter.old)) result (stage_of interpreter.new) }
{
    match body {
        None => Ok(()),
        Some(body) => {
            let _ = run_block(scene, interpreter, body.block.as_slice())?;
            Ok(())
        }
    }
}

/// What a process does before its end.
fn run_role<C: HasCore>(scene: &Scene<C>, interpreter: &mut Interpreter) -> Result<(), Stop>
    ensures { Agrees (role_meaning scene.now.start.now.role (here_of C.core_of scene.now) (stage_of interpreter.old)) result (stage_of interpreter.new) }
{
    match scene.start.role {
        Role::Boot => boot(scene, interpreter),
        Role::Initial => run_initial(
            scene,
            interpreter,
            component_of(scene.program.core(), scene.start),
        ),
        Role::Proc => run_proc(
            scene,
            interpreter,
            proc_at(scene.program.core(), scene.start.code),
        ),
        Role::Final => run_final(
            scene,
            interpreter,
            body_for(scene.program.core(), scene.start),
        ),
    }
}

/// The end of a process, which gives the present results, for good.
fn finish<C: HasCore>(scene: &Scene<C>, interpreter: &Interpreter) -> Result<Ending, Stop>
    ensures { Agrees (finish (here_of C.core_of scene.now) (stage_of interpreter.now)) result (stage_of interpreter.now) }
{
    let request = Request::Finish {
        answered: interpreter.service.answered,
        back: interpreter.service.back,
        results: results(scene, interpreter)?,
    };
    ask_for_good(scene, interpreter, request)
}

/// The whole of a process.
fn run_process<C: HasCore>(scene: &Scene<C>, interpreter: &mut Interpreter) -> Result<Ending, Stop>
    ensures { Agrees (process_meaning (here_of C.core_of scene.now) (stage_of interpreter.old)) result (stage_of interpreter.new) }
{
    run_role(scene, interpreter)?;
    finish(scene, interpreter)
}

/// Copies of the answers, the next one last.
fn backwards(alloc: Global, answers: &Row<Answer>) -> Result<Row<Answer>, NoMemory>
    ensures { IfOk result (λ copies. reverse copies ≡ answers.now) }
{
    let mut copies = Row::new(alloc);
    let mut at = answers.len();
    'answers: while at > 0 {
        at -= 1;
        copies.push(answers.as_slice()[at].copy(alloc)?)?;
    }
    Ok(copies)
}

/// How far a process has come as it begins.
fn begin(
    alloc: Global,
    core: &Core,
    start: &Start,
    ticks: u32,
    answers: &Row<Answer>,
) -> Result<Interpreter, NoMemory>
    ensures { IfOk result (λ interpreter. stage_of interpreter ≡ beginning core.now start.now ticks answers.now) }
{
    Ok(Interpreter {
        ticks,
        answers: backwards(alloc, answers)?,
        own: own_variables(alloc, core, start)?,
        service: own_service(alloc, core, start)?,
        out: Row::new(alloc),
    })
}

/// What a process with this start asks after exactly these answers, where it may begin `ticks` statements
/// between two of them.
pub fn tree_ask(
    alloc: Global,
    core: &Core,
    start: &Start,
    ticks: u32,
    answers: &Row<Answer>,
) -> Result<Asks, NoMemory>
    ensures { IfOk result (λ asks. asks ≡ ask core.now start.now ticks answers.now) }
{
    let mut interpreter = begin(alloc, core, start, ticks, answers)?;
    let scene = Scene {
        alloc,
        program: core,
        start,
        limit: ticks,
        place: first_line(component_of(core, start)),
    };
    match run_process(&scene, &mut interpreter) {
        Ok(_) => Ok(Asks::OverTicks),
        Err(Stop::Asks(asks)) => Ok(asks),
        Err(Stop::NoMemory) => Err(NoMemory),
    }
}
