ghost use Rattle.sr_meaning.specs.Here.{settle};
ghost use Rattle.sr_core.specs.Values.{array_of};
ghost use Rattle.sr_interpreter_expr.specs.Interpreters.{Agrees, here_of, stage_of};

use crate::interpreter::Interpreter;
use crate::scene::{HasCore, Scene};
use crate::settle::failed;
use crate::stop::Stop;
use sr_core::{Piece, array};
use sr_value::{Value, ValueFail};

/// The array of a bracketed list, or its fault.
pub fn settle_array<C: HasCore>(
    scene: &Scene<C>,
    interpreter: &Interpreter,
    pieces: &[Piece],
) -> Result<Value, Stop>
    ensures { Agrees (settle (array_of pieces.now) (here_of C.core_of scene.now) (stage_of interpreter.now)) result (stage_of interpreter.now) }
{
    match array(scene.alloc, pieces) {
        Ok(value) => Ok(value),
        Err(ValueFail::Fault(fault)) => failed(scene, interpreter, fault),
        Err(ValueFail::NoMemory) => Err(Stop::NoMemory),
    }
}
