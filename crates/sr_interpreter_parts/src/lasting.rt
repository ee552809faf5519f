ghost use Rattle.sr_ask.specs.Asking.{none_takes};
ghost use Rattle.sr_meaning.specs.Here.{request as ask_by};
ghost use Rattle.sr_interpreter_expr.specs.Interpreters.{Agrees, here_of, stage_of};

use sr_ask::{Ask, Asks, Request};
use sr_interpreter_expr::{HasCore, Interpreter, Scene, Stop};
use sr_meaning::Ending;

/// Asks a request that takes no answer, for good.
pub fn ask_for_good<C: HasCore>(
    scene: &Scene<C>,
    interpreter: &Interpreter,
    request: Request,
) -> Result<Ending, Stop>
    ensures { Agrees (ask_by none_takes request (here_of C.core_of scene.now) (stage_of interpreter.now)) result (stage_of interpreter.now) }
{
    Err(Stop::Asks(Asks::Asked(Ask {
        place: scene.place,
        role: scene.start.role,
        request,
    })))
}
