ghost use Rattle.sr_core.specs.declared.statement.Statement.TheOpen.{Statement-F};
ghost use Rattle.sr_meaning.specs.Statements.{sends, statement_meaning};
ghost use Rattle.sr_interpreter_expr.specs.Interpreters.{Agrees, here_of, stage_of};

use crate::action::send;
use sr_core::Expr;
use sr_interpreter_expr::{HasCore, Interpreter, Scene, Stop, at_line, count, number_of, tick};
use sr_meaning::Ending;
use sr_value::Place;

/// So many sends without arguments, each with its tick.
#[tactic(auto, using(crate::proofs::Steps::sends_step))]
fn send_times<C: HasCore>(
    scene: &Scene<C>,
    interpreter: &mut Interpreter,
    target: &Expr,
    times: u32,
) -> Result<(), Stop>
    ensures { Agrees (sends target.now times (here_of C.core_of scene.now) (stage_of interpreter.old)) result (stage_of interpreter.new) }
{
    let mut left = times;
    'sends: while left > 0 {
        left -= 1;
        tick(interpreter)?;
        let _ = send(scene, interpreter, target, &[])?;
    }
    Ok(())
}

/// The sends of a `sem`, whose number is evaluated first.
pub fn run_sends<C: HasCore>(
    scene: &Scene<C>,
    interpreter: &mut Interpreter,
    place: Place,
    target: &Expr,
    times: &Expr,
) -> Result<Ending, Stop>
    ensures { Agrees (statement_meaning (Statement-F.Sends place target.now times.now) (here_of C.core_of scene.now) (stage_of interpreter.old)) result (stage_of interpreter.new) }
{
    let scene = at_line(scene, place);
    let number = number_of(&scene, interpreter, times)?;
    let times = count(&scene, interpreter, number)?;
    send_times(&scene, interpreter, target, times)?;
    Ok(Ending::Through)
}
