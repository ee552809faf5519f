ghost use Rattle.std.specs.Prelude.{◌≡◌, IfOk, filter, map};
ghost use Rattle.std.specs.Option.{option_copied};
ghost use Rattle.sr_meaning.specs.Here.{settle};
ghost use Rattle.sr_meaning.specs.Statements.{make_formals, make_returned, store_sent};
ghost use Rattle.sr_core.specs.Values.{formal_shape};
ghost use Rattle.sr_interpreter_expr.specs.Interpreters.{Agrees, here_of, stage_of};
ghost use Rattle.sr_core.specs.Formals.{is_back, result_vars};

use crate::declarations::{make, spot_in, store_whole};
use sr_ask::Spot;
use sr_core::{Formal, FormalShape, Mode, Returned, Scope, formal_shape, sent_after, sent_to};
use sr_interpreter_expr::{HasCore, Interpreter, Scene, Stop, failed};
use sr_value::{Duplicate, NoMemory, Row, Shape, Value, ValueFail};
use std::alloc::Global;

/// The type of a formal, or its fault.
fn settle_shape<C: HasCore>(
    scene: &Scene<C>,
    interpreter: &Interpreter,
    shape: &FormalShape,
    sent: Option<&Value>,
) -> Result<Shape, Stop>
    ensures { Agrees (settle (formal_shape shape.now (option_copied sent.entry)) (here_of C.core_of scene.now) (stage_of interpreter.now)) result (stage_of interpreter.now) }
{
    match formal_shape(scene.alloc, shape, sent) {
        Ok(shape) => Ok(shape),
        Err(ValueFail::Fault(fault)) => failed(scene, interpreter, fault),
        Err(ValueFail::NoMemory) => Err(Stop::NoMemory),
    }
}

/// Stores what a formal was sent in it.
fn store_sent<C: HasCore>(
    scene: &Scene<C>,
    interpreter: &mut Interpreter,
    sent: Option<&Value>,
    spot: Spot,
) -> Result<(), Stop>
    ensures { Agrees (store_sent (option_copied sent.entry) spot (here_of C.core_of scene.now) (stage_of interpreter.old)) result (stage_of interpreter.new) }
{
    match sent {
        None => Ok(()),
        Some(value) => store_whole(scene, interpreter, spot, value.copy(scene.alloc)?),
    }
}

/// Makes formals in order, and stores the argument of each in it as it is made.
pub fn make_formals<C: HasCore>(
    scene: &Scene<C>,
    interpreter: &mut Interpreter,
    scope: Scope,
    formals: &[Formal],
    args: &[Value],
) -> Result<(), Stop>
    ensures { Agrees (make_formals scope formals.now args.now (here_of C.core_of scene.now) (stage_of interpreter.old)) result (stage_of interpreter.new) }
{
    match formals {
        [] => Ok(()),
        [formal, rest @ ..] => {
            let sent = sent_to(formal.mode, args);
            let spot = spot_in(scene, scope, formal.var);
            let shape = settle_shape(scene, interpreter, &formal.shape, sent)?;
            make(scene, interpreter, spot, shape)?;
            store_sent(scene, interpreter, sent, spot)?;
            make_formals(
                scene,
                interpreter,
                scope,
                rest,
                sent_after(formal.mode, args),
            )
        }
    }
}

/// Makes the returned name, where there is one.
pub fn make_returned<C: HasCore>(
    scene: &Scene<C>,
    interpreter: &mut Interpreter,
    returned: &Option<Returned>,
) -> Result<(), Stop>
    ensures { Agrees (make_returned returned.now (here_of C.core_of scene.now) (stage_of interpreter.old)) result (stage_of interpreter.new) }
{
    match returned {
        None => Ok(()),
        Some(name) => {
            let shape = name.shape.copy(scene.alloc)?;
            make(scene, interpreter, Spot::Own(name.var), shape)
        }
    }
}

/// Whether a formal's value goes back with the reply.
fn is_back(formal: &Formal) -> bool
    ensures { result ≡ is_back formal.now }
{
    match formal.mode {
        Mode::Val => false,
        Mode::Var => true,
        Mode::Res => true,
    }
}

/// The variables whose values an invocation gives back.
pub fn result_vars(
    alloc: Global,
    formals: &[Formal],
    returned: &Option<Returned>,
) -> Result<Row<u32>, NoMemory>
    ensures { IfOk result (λ vars. vars ≡ result_vars formals.now returned.now) }
{
    let mut vars = backs(alloc, formals)?;
    match returned {
        None => Ok(vars),
        Some(name) => {
            vars.push(name.var)?;
            Ok(vars)
        }
    }
}

/// The variables of the formals whose values go back.
fn backs(alloc: Global, formals: &[Formal]) -> Result<Row<u32>, NoMemory>
    ensures { IfOk result (λ vars. vars ≡ map (λ formal. formal.var) (filter is_back formals.now)) }
{
    let mut vars = Row::new(alloc);
    for formal in formals {
        if is_back(formal) {
            vars.push(formal.var)?;
        }
    }
    Ok(vars)
}
