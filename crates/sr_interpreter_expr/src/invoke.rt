ghost use Rattle.std.specs.Prelude.{◌≡◌, drop, MatchResult};
ghost use Rattle.sr_meaning.specs.Expressions.{default_given, taken};
ghost use Rattle.sr_meaning.specs.Places.{store_results};
ghost use Rattle.sr_interpreter_expr.specs.Interpreters.{Agrees, here_of, stage_of};

use crate::interpreter::Interpreter;
use crate::listening::{IsReply, ask};
use crate::places::store;
use crate::scene::{HasCore, Scene};
use crate::settle::failed;
use crate::stop::Stop;
use sr_ask::{Located, Request, SharedNumbers};
use sr_value::{Duplicate, Row, Shape, Value, ValueFail, default_of};
use std::alloc::Global;

/// The reply to one invocation.
pub fn reply_to<C: HasCore>(
    scene: &Scene<C>,
    interpreter: &mut Interpreter,
    id: u32,
) -> Result<Option<Row<Value>>, Stop>
    ensures { Agrees (taken id (here_of C.core_of scene.now) (stage_of interpreter.old)) result (stage_of interpreter.new) }
{
    let ids = SharedNumbers::one(scene.alloc, id)?;
    let reply = ask(scene, interpreter, &IsReply { id }, Request::Take { ids })?;
    Ok(reply.results)
}

/// The default of the returned type, which a call of `noop` gives.
pub fn default_value<C: HasCore>(
    scene: &Scene<C>,
    interpreter: &Interpreter,
    returns: &Option<Shape>,
) -> Result<Value, Stop>
    ensures { Agrees (default_given returns.now (here_of C.core_of scene.now) (stage_of interpreter.now)) result (stage_of interpreter.now) }
{
    match returns {
        None => Ok(Value::Bool(false)),
        Some(shape) => match default_of(scene.alloc, shape) {
            Ok(value) => Ok(value),
            Err(ValueFail::Fault(fault)) => failed(scene, interpreter, fault),
            Err(ValueFail::NoMemory) => Err(Stop::NoMemory),
        },
    }
}

/// Stores results in their places, in order, from one on. Returns copies of the results that are left.
pub fn store_from<C: HasCore>(
    scene: &Scene<C>,
    interpreter: &mut Interpreter,
    places: &[Located],
    results: &[Value],
    at: usize,
) -> Result<Row<Value>, Stop>
    ensures { Agrees (store_results (drop at places.now) (drop at results.now) (here_of C.core_of scene.now) (stage_of interpreter.old)) result (stage_of interpreter.new) }
{
    let mut at = at;
    'places: while let Some(place) = places.get(at) {
        let Some(value) = results.get(at) else {
            break;
        };
        store(scene, interpreter, place, value.copy(scene.alloc)?)?;
        at += 1;
    }
    left_from(scene.alloc, results, at)
}

/// Copies of the results from one on.
fn left_from(alloc: Global, results: &[Value], at: usize) -> Result<Row<Value>, Stop>
    ensures { MatchResult result (λ left. left ≡ drop at results.now) (λ stop. stop ≡ Stop.NoMemory) }
{
    let mut left = Row::new(alloc);
    let mut at = at;
    'results: while let Some(value) = results.get(at) {
        left.push(value.copy(alloc)?)?;
        at += 1;
    }
    Ok(left)
}
