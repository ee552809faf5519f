ghost use Rattle.sr_core.specs.Applied.{applied};
ghost use Rattle.sr_meaning.specs.Here.{settle};
ghost use Rattle.sr_interpreter_expr.specs.Interpreters.{Agrees, here_of, stage_of};

use crate::interpreter::Interpreter;
use crate::scene::{HasCore, Scene};
use crate::settle::failed;
use crate::stop::Stop;
use sr_core::Function;
use sr_value::{Row, Value, ValueFail};

/// The value of a predefined function, or its fault.
pub fn apply<C: HasCore>(
    scene: &Scene<C>,
    interpreter: &Interpreter,
    function: Function,
    args: Row<Value>,
) -> Result<Value, Stop>
    ensures { Agrees (settle (applied (C.core_of scene.now.program.now).names function args) (here_of C.core_of scene.now) (stage_of interpreter.now)) result (stage_of interpreter.now) }
{
    match sr_core::apply(scene.alloc, &scene.program.core().names, function, args) {
        Ok(value) => Ok(value),
        Err(ValueFail::Fault(fault)) => failed(scene, interpreter, fault),
        Err(ValueFail::NoMemory) => Err(Stop::NoMemory),
    }
}
