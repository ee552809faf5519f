ghost use Rattle.std.specs.Prelude.{◌≡◌, ◌^◌, ◌<◌};
ghost use Rattle.sr_ask.specs.Behaviors.{room, tick};
ghost use Rattle.sr_meaning.specs.Here.{at_line};
ghost use Rattle.sr_interpreter_expr.specs.Interpreters.{Agrees, here_of, stage_of};

use crate::interpreter::Interpreter;
use crate::scene::{HasCore, Scene};
use crate::stop::Stop;
use sr_ask::Asks;
use sr_value::Place;

/// One statement begun: a process that has no tick left stops.
pub fn tick(interpreter: &mut Interpreter) -> Result<(), Stop>
    ensures { Agrees (tick (stage_of interpreter.old)) result (stage_of interpreter.new) }
{
    if interpreter.ticks == 0 {
        return Err(Stop::Asks(Asks::OverTicks));
    }
    interpreter.ticks -= 1;
    Ok(())
}

/// The same at another line.
pub fn at_line<'a, C: HasCore>(scene: &Scene<'a, C>, place: Place) -> Scene<'a, C>
    ensures { here_of C.core_of result ≡ at_line place (here_of C.core_of scene.now) }
{
    Scene {
        alloc: scene.alloc,
        program: scene.program,
        start: scene.start,
        limit: scene.limit,
        place,
    }
}

/// How often a process can tick before it stops, whatever it does.
pub fn room<C: HasCore>(scene: &Scene<C>, interpreter: &Interpreter) -> u128
    ensures value { result ≡ room scene.now.limit (stage_of interpreter.now) }
    ensures bound { result < 2 ^ 100 }
{
    u128::from(interpreter.ticks)
        + (u128::from(scene.limit) + 1) * (interpreter.answers.len() as u128)
}
