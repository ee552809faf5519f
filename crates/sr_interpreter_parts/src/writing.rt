ghost use Rattle.sr_meaning.specs.Here.{settle};
ghost use Rattle.sr_core.specs.Values.{texts_of};
ghost use Rattle.sr_interpreter_expr.specs.Interpreters.{Agrees, here_of, stage_of};

use sr_frame::texts_in;
use sr_interpreter_expr::{HasCore, Interpreter, Scene, Stop, failed};
use sr_value::{Row, Text, Value, ValueFail};

/// The texts of values, or the fault that one has none.
pub fn settle_texts<C: HasCore>(
    scene: &Scene<C>,
    interpreter: &Interpreter,
    values: &[Value],
) -> Result<Row<Text>, Stop>
    ensures { Agrees (settle (texts_of (C.core_of scene.now.program.now).names values.now) (here_of C.core_of scene.now) (stage_of interpreter.now)) result (stage_of interpreter.now) }
{
    match texts_in(scene.alloc, &scene.program.core().names, values) {
        Ok(texts) => Ok(texts),
        Err(ValueFail::Fault(fault)) => failed(scene, interpreter, fault),
        Err(ValueFail::NoMemory) => Err(Stop::NoMemory),
    }
}
