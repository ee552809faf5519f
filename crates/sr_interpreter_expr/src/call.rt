ghost use Rattle.std.specs.Prelude.{◌≡◌, IfOk};
ghost use Rattle.sr_meaning.specs.Expressions.{give_back};
ghost use Rattle.sr_meaning.specs.Laws.{after_arguments};
ghost use Rattle.sr_interpreter_expr.specs.Interpreters.{Agrees, here_of, stage_of};
ghost use Rattle.sr_ask.specs.Invocations.{places_back, values_sent};

use crate::interpreter::Interpreter;
use crate::invoke::{default_value, reply_to, store_from};
use crate::listening::{IsMade, ask};
use crate::scene::{HasCore, Scene};
use crate::stop::Stop;
use sr_ask::{Located, Request, Sent};
use sr_frame::value_after;
use sr_value::{Cap, Duplicate, NoMemory, Row, Shape, Value};
use std::alloc::Global;

/// The values that an invocation sends.
pub fn values_in(alloc: Global, sent: &[Sent]) -> Result<Row<Value>, NoMemory>
    ensures { IfOk result (λ values. values ≡ values_sent sent.now) }
{
    let mut values = Row::new(alloc);
    for one in sent {
        if let Some(value) = &one.value {
            values.push(value.copy(alloc)?)?;
        }
    }
    Ok(values)
}

/// The places that the results of an invocation go to.
pub fn places_in(alloc: Global, sent: &[Sent]) -> Result<Row<Located>, NoMemory>
    ensures { IfOk result (λ places. places ≡ places_back sent.now) }
{
    let mut places = Row::new(alloc);
    for one in sent {
        if let Some(place) = &one.back {
            places.push(place.copy(alloc)?)?;
        }
    }
    Ok(places)
}

/// Stores the results of a reply, and gives the value.
pub fn give_back<C: HasCore>(
    scene: &Scene<C>,
    interpreter: &mut Interpreter,
    places: &[Located],
    returns: &Option<Shape>,
    reply: &Option<Row<Value>>,
) -> Result<Value, Stop>
    ensures { Agrees (give_back places.now returns.now reply.now (here_of C.core_of scene.now) (stage_of interpreter.old)) result (stage_of interpreter.new) }
{
    match reply {
        None => default_value(scene, interpreter, returns),
        Some(results) => {
            let left = store_from(scene, interpreter, places, results.as_slice(), 0)?;
            Ok(value_after(left))
        }
    }
}

/// A call whose target and arguments are there.
pub fn call<C: HasCore>(
    scene: &Scene<C>,
    interpreter: &mut Interpreter,
    target: Cap,
    sent: &Row<Sent>,
    returns: &Option<Shape>,
) -> Result<Value, Stop>
    ensures { Agrees (after_arguments target sent.now returns.now (here_of C.core_of scene.now) (stage_of interpreter.old)) result (stage_of interpreter.new) }
{
    let places = places_in(scene.alloc, sent.as_slice())?;
    let request = Request::Invoke {
        target,
        args: values_in(scene.alloc, sent.as_slice())?,
        wants: true,
    };
    let id = ask(scene, interpreter, &IsMade, request)?;
    let reply = reply_to(scene, interpreter, id)?;
    give_back(scene, interpreter, places.as_slice(), returns, &reply)
}
