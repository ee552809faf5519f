ghost use Rattle.std.specs.Prelude.{◌≡◌, ◌<◌, IfOk, OnOk, map, length, option_map, slice_get};
ghost use Rattle.sr_ask.specs.Behaviors.{Came};
ghost use Rattle.sr_meaning.specs.Statements.{drop_out, optional_place, set_turn, start_call, store_value, turn_now};
ghost use Rattle.sr_interpreter_parts.specs.StatementParts.{take_place, took_place};
ghost use Rattle.sr_frame.specs.Outs.{IsFirstOut};
ghost use Rattle.sr_interpreter_expr.specs.Interpreters.{Agrees, here_of, stage_of};
ghost use Rattle.sr_ask.specs.Replies.{push_out, set_out};
ghost use Rattle.sr_meaning.specs.Pieces.{call_part};

use sr_ask::{Answer, Located, Out, Request, SharedNumbers};
use sr_core::{CoCall, PlaceExpr, Quantifier};
use sr_frame::{number_held, number_own};
use sr_interpreter_expr::{
    HasCore, Interpreter, IsMade, Scene, Stop, Takes, ask, cap_of, evaluate_arguments, locate,
    places_in, put_own, store, values_in,
};
use sr_meaning::Ending;
use sr_value::{Duplicate, NoMemory, Row, Value};
use std::alloc::Global;

/// The place that the value of an invocation goes to, where it goes to one.
fn optional_place<C: HasCore>(
    scene: &Scene<C>,
    interpreter: &mut Interpreter,
    place: &Option<PlaceExpr>,
) -> Result<Option<Located>, Stop>
    ensures { Agrees (optional_place place.now (here_of C.core_of scene.now) (stage_of interpreter.old)) result (stage_of interpreter.new) }
{
    match place {
        None => Ok(None),
        Some(place) => {
            let at = locate(scene, interpreter, place)?;
            Ok(Some(at))
        }
    }
}

/// The values of the quantifiers at this turn.
fn turn_now(
    alloc: Global,
    interpreter: &Interpreter,
    quantifiers: &[Quantifier],
) -> Result<Row<i32>, NoMemory>
    ensures { IfOk result (λ turn. turn_now quantifiers.now (stage_of interpreter.now) ≡ Came turn (stage_of interpreter.now)) }
{
    let mut turn = Row::new(alloc);
    for quantifier in quantifiers {
        turn.push(number_held(&interpreter.own, quantifier.var))?;
    }
    Ok(turn)
}

/// One more invocation is out.
fn push_out(interpreter: &mut Interpreter, out: Out) -> Result<(), NoMemory>
    ensures { OnOk result (push_out out (stage_of interpreter.old) ≡ Came tt (stage_of interpreter.new)) }
{
    interpreter.out.push(out)
}

/// Makes other invocations those that are out, and returns those before.
pub fn set_out(interpreter: &mut Interpreter, out: Row<Out>) -> Row<Out>
    ensures set { set_out out (stage_of interpreter.old) ≡ Came tt (stage_of interpreter.new) }
    ensures before { result ≡ interpreter.old.out }
{
    std::mem::replace(&mut interpreter.out, out)
}

/// One invocation of a `co`: its place, its target, its arguments.
pub fn start_call<C: HasCore>(
    scene: &Scene<C>,
    interpreter: &mut Interpreter,
    arm: u32,
    call: &CoCall,
    quantifiers: &[Quantifier],
) -> Result<Ending, Stop>
    ensures { Agrees (start_call arm (call_part quantifiers.now call.now) (here_of C.core_of scene.now) (stage_of interpreter.old)) result (stage_of interpreter.new) }
{
    let place = optional_place(scene, interpreter, &call.place)?;
    let target = cap_of(scene, interpreter, &call.target)?;
    let sent = evaluate_arguments(scene, interpreter, call.args.as_slice())?;
    let request = Request::Invoke {
        target,
        args: values_in(scene.alloc, sent.as_slice())?,
        wants: true,
    };
    let id = ask(scene, interpreter, &IsMade, request)?;
    let out = Out {
        id,
        arm,
        place,
        backs: places_in(scene.alloc, sent.as_slice())?,
        turn: turn_now(scene.alloc, interpreter, quantifiers)?,
    };
    push_out(interpreter, out)?;
    Ok(Ending::Through)
}

/// A reply that was taken, by the place of its invocation among those that are out.
#[derive(Drop)]
pub struct PlacedReply {
    pub at: usize,
    pub results: Option<Row<Value>>,
}

/// `Took`, of one of the invocations that are out.
#[derive(Drop)]
struct IsReplyToAny {
    ids: SharedNumbers,
}

impl Takes<PlacedReply> for IsReplyToAny {
    ghost takes = { λ form. took_place form.ids };

    fn take(&self, answer: Answer) -> Option<PlacedReply> {
        match answer {
            Answer::Took { id, results } => placed(&self.ids, id, results),
            _ => None,
        }
    }
}

/// A reply by the place of its invocation, where that is out.
fn placed(ids: &SharedNumbers, id: u32, results: Option<Row<Value>>) -> Option<PlacedReply>
    ensures { result ≡ took_place ids.now (Answer.Took id results) }
{
    match ids.position(id) {
        Some(at) => Some(PlacedReply { at, results }),
        None => None,
    }
}

/// The numbers of the invocations that are out.
fn ids_out(alloc: Global, outs: &[Out]) -> Result<SharedNumbers, NoMemory>
    ensures { IfOk result (λ ids. ids ≡ map (λ out. out.id) outs.now) }
{
    let mut ids = SharedNumbers::new(alloc);
    for out in outs {
        ids.push(alloc, out.id)?;
    }
    Ok(ids)
}

/// Takes the earliest reply to one of the invocations that are out.
pub fn take_reply<C: HasCore>(
    scene: &Scene<C>,
    interpreter: &mut Interpreter,
) -> Result<PlacedReply, Stop>
    ensures taken { Agrees (take_place (here_of C.core_of scene.now) (stage_of interpreter.old)) result (stage_of interpreter.new) }
    ensures first { IfOk result (λ reply. IsFirstOut interpreter.new.out reply.at) }
{
    let ids = ids_out(scene.alloc, interpreter.out.as_slice())?;
    let request = Request::Take {
        ids: ids.copy(scene.alloc)?,
    };
    ask(scene, interpreter, &IsReplyToAny { ids }, request)
}

/// The arm of an invocation that is out.
pub fn arm_out(interpreter: &Interpreter, at: usize) -> u32
    requires { at < length interpreter.now.out }
    ensures { option_map (λ out. out.arm) (slice_get interpreter.now.out at) ≡ Some result }
{
    interpreter.out.as_slice()[at].arm
}

/// Takes out an invocation, the first of its number.
pub fn take_out(interpreter: &mut Interpreter, at: usize) -> Out
    requires { IsFirstOut interpreter.old.out at }
    ensures dropped { drop_out result.id (stage_of interpreter.old) ≡ Came tt (stage_of interpreter.new) }
    ensures out { slice_get interpreter.old.out at ≡ Some result }
{
    interpreter.out.remove(at)
}

/// Gives quantifiers the values of an invocation again.
pub fn set_turn(interpreter: &mut Interpreter, quantifiers: &[Quantifier], turn: &[i32])
    ensures { set_turn quantifiers.now turn.now (stage_of interpreter.old) ≡ Came tt (stage_of interpreter.new) }
{
    match quantifiers {
        [] => {}
        [quantifier, others @ ..] => match turn {
            [] => {}
            [value, rest @ ..] => {
                put_own(interpreter, quantifier.var, number_own(*value));
                set_turn(interpreter, others, rest);
            }
        },
    }
}

/// Stores the value of an invocation, where it goes to a place.
pub fn store_value<C: HasCore>(
    scene: &Scene<C>,
    interpreter: &mut Interpreter,
    place: &Option<Located>,
    value: Value,
) -> Result<(), Stop>
    ensures { Agrees (store_value place.now value (here_of C.core_of scene.now) (stage_of interpreter.old)) result (stage_of interpreter.new) }
{
    match place {
        None => Ok(()),
        Some(place) => store(scene, interpreter, place, value),
    }
}
