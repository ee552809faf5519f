ghost use Rattle.std.specs.Prelude.{◌≡◌, IfOk};
ghost use Rattle.sr_ask.specs.Behaviors.{Came};
ghost use Rattle.sr_meaning.specs.Statements.{forward_meaning, reply_meaning, results_now};
ghost use Rattle.sr_interpreter_expr.specs.Interpreters.{Agrees, here_of, stage_of};
ghost use Rattle.sr_ask.specs.Replies.{mark_answered};

use sr_ask::{Gives, Request};
use sr_frame::own_copies;
use sr_interpreter_expr::{HasCore, Interpreter, IsDone, IsMade, Scene, Stop, ask};
use sr_value::{Cap, NoMemory, Row, Value};

/// The present results of the invocation in service.
pub fn results<C: HasCore>(
    scene: &Scene<C>,
    interpreter: &Interpreter,
) -> Result<Row<Value>, NoMemory>
    ensures { IfOk result (λ values. values ≡ results_now (here_of C.core_of scene.now) (stage_of interpreter.now)) }
{
    match &interpreter.service.gives {
        Gives::Values(vars) => own_copies(scene.alloc, &interpreter.own, vars.as_slice()),
        Gives::Instance => {
            let mut values = Row::new(scene.alloc);
            values.push(Value::Capa(Cap::Res(scene.start.instance)))?;
            Ok(values)
        }
    }
}

/// From here on a later end gives nothing.
fn mark(interpreter: &mut Interpreter)
    ensures { mark_answered (stage_of interpreter.old) ≡ Came tt (stage_of interpreter.new) }
{
    interpreter.service.answered = true;
}

/// A reply gives the present results, where none was given before.
pub fn reply<C: HasCore>(scene: &Scene<C>, interpreter: &mut Interpreter) -> Result<(), Stop>
    ensures { Agrees (reply_meaning (here_of C.core_of scene.now) (stage_of interpreter.old)) result (stage_of interpreter.new) }
{
    if interpreter.service.answered {
        return Ok(());
    }
    let request = Request::Reply {
        held: interpreter.service.held,
        back: interpreter.service.back,
        results: results(scene, interpreter)?,
    };
    ask(scene, interpreter, &IsDone, request)?;
    mark(interpreter);
    Ok(())
}

/// The duty to answer goes to another operation; where it is answered already, that is only sent to.
pub fn forward<C: HasCore>(
    scene: &Scene<C>,
    interpreter: &mut Interpreter,
    target: Cap,
    args: Row<Value>,
) -> Result<(), Stop>
    ensures { Agrees (forward_meaning target args (here_of C.core_of scene.now) (stage_of interpreter.old)) result (stage_of interpreter.new) }
{
    if interpreter.service.answered {
        let wants = false;
        ask(
            scene,
            interpreter,
            &IsMade,
            Request::Invoke {
                target,
                args,
                wants,
            },
        )?;
        return Ok(());
    }
    let request = Request::Forward {
        held: interpreter.service.held,
        back: interpreter.service.back,
        target,
        args,
    };
    ask(scene, interpreter, &IsMade, request)?;
    mark(interpreter);
    Ok(())
}
