ghost use Rattle.std.specs.Prelude.{◌≡◌};
ghost use Rattle.sr_meaning.specs.Here.{settle};
ghost use Rattle.sr_meaning.specs.Statements.{action_meaning, bump_operator, status_meaning, time_of, wake_at};
ghost use Rattle.sr_interpreter_expr.specs.Interpreters.{Agrees, here_of, stage_of};

use sr_ask::Request;
use sr_core::{Action, Argument, Bump, Expr, PlaceExpr};
use sr_frame::joined;
use sr_interpreter_expr::{
    HasCore, Interpreter, IsDone, IsMade, IsMoment, Scene, Stop, ask, cap_of, evaluate,
    evaluate_all, evaluate_arguments, failed, load, locate, number_of, operated, reply_to, store,
    values_in,
};
use sr_interpreter_parts::{ask_for_good, forward, reply, settle_texts};
use sr_meaning::Ending;
use sr_value::{Fault, Operator, Value};

/// What a statement without blocks asks, and how it ends.
pub fn act<C: HasCore>(
    scene: &Scene<C>,
    interpreter: &mut Interpreter,
    action: &Action,
) -> Result<Ending, Stop>
    ensures { Agrees (action_meaning action.now (here_of C.core_of scene.now) (stage_of interpreter.old)) result (stage_of interpreter.new) }
{
    match action {
        Action::Skip => Ok(Ending::Through),
        Action::Evaluate(expr) => evaluate_only(scene, interpreter, expr),
        Action::Send { target, args } => send(scene, interpreter, target, args.as_slice()),
        Action::Forward { target, args } => forward_to(scene, interpreter, target, args.as_slice()),
        Action::Assign { place, value } => assign(scene, interpreter, place, value),
        Action::Swap { left, right } => swap(scene, interpreter, left, right),
        Action::Bump { place, bump } => bump_by_one(scene, interpreter, place, *bump),
        Action::Write { args, line } => write(scene, interpreter, args.as_slice(), *line),
        Action::Stop { status } => stop_run(scene, interpreter, status),
        Action::Destroy { target } => destroy(scene, interpreter, target),
        Action::Until { time } => wait(scene, interpreter, time),
        Action::Exit => Ok(Ending::Left),
        Action::Next => Ok(Ending::Turned),
        Action::Return => Ok(Ending::Returned),
        Action::Reply => reply_now(scene, interpreter),
    }
}

/// A call, `create` or `read` whose value isn't used.
fn evaluate_only<C: HasCore>(
    scene: &Scene<C>,
    interpreter: &mut Interpreter,
    expr: &Expr,
) -> Result<Ending, Stop>
    ensures { Agrees (action_meaning (Action.Evaluate expr.now) (here_of C.core_of scene.now) (stage_of interpreter.old)) result (stage_of interpreter.new) }
{
    let _ = evaluate(scene, interpreter, expr)?;
    Ok(Ending::Through)
}

/// `send`, with its arguments from left to right.
pub fn send<C: HasCore>(
    scene: &Scene<C>,
    interpreter: &mut Interpreter,
    target: &Expr,
    args: &[Argument],
) -> Result<Ending, Stop>
    ensures { Agrees (action_meaning (Action.Send target.now args.now) (here_of C.core_of scene.now) (stage_of interpreter.old)) result (stage_of interpreter.new) }
{
    let target = cap_of(scene, interpreter, target)?;
    let sent = evaluate_arguments(scene, interpreter, args)?;
    let request = Request::Invoke {
        target,
        args: values_in(scene.alloc, sent.as_slice())?,
        wants: false,
    };
    let _ = ask(scene, interpreter, &IsMade, request)?;
    Ok(Ending::Through)
}

fn forward_to<C: HasCore>(
    scene: &Scene<C>,
    interpreter: &mut Interpreter,
    target: &Expr,
    args: &[Argument],
) -> Result<Ending, Stop>
    ensures { Agrees (action_meaning (Action.Forward target.now args.now) (here_of C.core_of scene.now) (stage_of interpreter.old)) result (stage_of interpreter.new) }
{
    let target = cap_of(scene, interpreter, target)?;
    let sent = evaluate_arguments(scene, interpreter, args)?;
    let values = values_in(scene.alloc, sent.as_slice())?;
    forward(scene, interpreter, target, values)?;
    Ok(Ending::Through)
}

/// The place, then the value, then the store.
fn assign<C: HasCore>(
    scene: &Scene<C>,
    interpreter: &mut Interpreter,
    place: &PlaceExpr,
    value: &Expr,
) -> Result<Ending, Stop>
    ensures { Agrees (action_meaning (Action.Assign place.now value.now) (here_of C.core_of scene.now) (stage_of interpreter.old)) result (stage_of interpreter.new) }
{
    let at = locate(scene, interpreter, place)?;
    let x = evaluate(scene, interpreter, value)?;
    store(scene, interpreter, &at, x)?;
    Ok(Ending::Through)
}

/// Both places, the left value, the right value, and the stores, left and then right.
fn swap<C: HasCore>(
    scene: &Scene<C>,
    interpreter: &mut Interpreter,
    left: &PlaceExpr,
    right: &PlaceExpr,
) -> Result<Ending, Stop>
    ensures { Agrees (action_meaning (Action.Swap left.now right.now) (here_of C.core_of scene.now) (stage_of interpreter.old)) result (stage_of interpreter.new) }
{
    let at = locate(scene, interpreter, left)?;
    let to = locate(scene, interpreter, right)?;
    let x = load(scene, interpreter, &at)?;
    let y = load(scene, interpreter, &to)?;
    store(scene, interpreter, &at, y)?;
    store(scene, interpreter, &to, x)?;
    Ok(Ending::Through)
}

fn operator_of(bump: Bump) -> Operator
    ensures { result ≡ bump_operator bump }
{
    match bump {
        Bump::Increase => Operator::Add,
        Bump::Decrease => Operator::Sub,
    }
}

/// `++` and `--`.
fn bump_by_one<C: HasCore>(
    scene: &Scene<C>,
    interpreter: &mut Interpreter,
    place: &PlaceExpr,
    bump: Bump,
) -> Result<Ending, Stop>
    ensures { Agrees (action_meaning (Action.Bump place.now bump) (here_of C.core_of scene.now) (stage_of interpreter.old)) result (stage_of interpreter.new) }
{
    let at = locate(scene, interpreter, place)?;
    let x = load(scene, interpreter, &at)?;
    let y = operated(scene, interpreter, operator_of(bump), &x, &Value::Int(1))?;
    store(scene, interpreter, &at, y)?;
    Ok(Ending::Through)
}

/// `write`, or `writes` where it isn't a line.
fn write<C: HasCore>(
    scene: &Scene<C>,
    interpreter: &mut Interpreter,
    args: &[Expr],
    line: bool,
) -> Result<Ending, Stop>
    ensures { Agrees (action_meaning (Action.Write args.now line) (here_of C.core_of scene.now) (stage_of interpreter.old)) result (stage_of interpreter.new) }
{
    let values = evaluate_all(scene, interpreter, args)?;
    let texts = settle_texts(scene, interpreter, values.as_slice())?;
    let request = Request::Write {
        bytes: joined(scene.alloc, texts.as_slice(), line)?,
    };
    ask(scene, interpreter, &IsDone, request)?;
    Ok(Ending::Through)
}

/// The status of a `stop`, which is 0 where none is written.
fn status_of<C: HasCore>(
    scene: &Scene<C>,
    interpreter: &mut Interpreter,
    status: &Option<Expr>,
) -> Result<i32, Stop>
    ensures { Agrees (status_meaning status.now (here_of C.core_of scene.now) (stage_of interpreter.old)) result (stage_of interpreter.new) }
{
    match status {
        None => Ok(0),
        Some(expr) => number_of(scene, interpreter, expr),
    }
}

fn stop_run<C: HasCore>(
    scene: &Scene<C>,
    interpreter: &mut Interpreter,
    status: &Option<Expr>,
) -> Result<Ending, Stop>
    ensures { Agrees (action_meaning (Action.Stop status.now) (here_of C.core_of scene.now) (stage_of interpreter.old)) result (stage_of interpreter.new) }
{
    let status = status_of(scene, interpreter, status)?;
    ask_for_good(scene, interpreter, Request::Stop { status })
}

/// Ends an instance, and waits for its end.
fn destroy<C: HasCore>(
    scene: &Scene<C>,
    interpreter: &mut Interpreter,
    target: &Expr,
) -> Result<Ending, Stop>
    ensures { Agrees (action_meaning (Action.Destroy target.now) (here_of C.core_of scene.now) (stage_of interpreter.old)) result (stage_of interpreter.new) }
{
    let target = cap_of(scene, interpreter, target)?;
    let name = ask(scene, interpreter, &IsMade, Request::Destroy { target })?;
    let _ = reply_to(scene, interpreter, name)?;
    Ok(Ending::Through)
}

/// A time to wait; E6 below 0.
fn time_of<C: HasCore>(scene: &Scene<C>, interpreter: &Interpreter, time: i32) -> Result<i32, Stop>
    ensures { Agrees (settle (time_of time) (here_of C.core_of scene.now) (stage_of interpreter.now)) result (stage_of interpreter.now) }
{
    if time < 0 {
        failed(scene, interpreter, Fault::Range)
    } else {
        Ok(time)
    }
}

/// The moment to wake at; E1 past the last.
fn wake_at<C: HasCore>(
    scene: &Scene<C>,
    interpreter: &Interpreter,
    now: i32,
    time: i32,
) -> Result<u32, Stop>
    ensures { Agrees (settle (wake_at now time) (here_of C.core_of scene.now) (stage_of interpreter.now)) result (stage_of interpreter.now) }
{
    let until = i64::from(now) + i64::from(time);
    if until < 0 || until > 2_147_483_647 {
        failed(scene, interpreter, Fault::Overflow)
    } else {
        Ok(until as u32)
    }
}

/// Waits until as many milliseconds have gone by.
fn wait<C: HasCore>(
    scene: &Scene<C>,
    interpreter: &mut Interpreter,
    time: &Expr,
) -> Result<Ending, Stop>
    ensures { Agrees (action_meaning (Action.Until time.now) (here_of C.core_of scene.now) (stage_of interpreter.old)) result (stage_of interpreter.new) }
{
    let time = number_of(scene, interpreter, time)?;
    let time = time_of(scene, interpreter, time)?;
    let now = ask(scene, interpreter, &IsMoment, Request::Age)?;
    let until = wake_at(scene, interpreter, now, time)?;
    ask(scene, interpreter, &IsDone, Request::Wake { until })?;
    Ok(Ending::Through)
}

/// `reply`.
fn reply_now<C: HasCore>(scene: &Scene<C>, interpreter: &mut Interpreter) -> Result<Ending, Stop>
    ensures { Agrees (action_meaning Action.Reply (here_of C.core_of scene.now) (stage_of interpreter.old)) result (stage_of interpreter.new) }
{
    reply(scene, interpreter)?;
    Ok(Ending::Through)
}
