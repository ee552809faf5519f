ghost use Rattle.std.specs.Prelude.{◌≡◌, ◌++◌, ◌∷◌, [], OnOk, true};
ghost use Rattle.sr_ask.specs.declared.request.Request.TheVariants as request;
ghost use Rattle.sr_code.specs.Operands.{cap_on, call_on, drop_call, join_argument, join_place, name_on, put_targets};
ghost use Rattle.sr_frame.specs.Scenes.{here_of};
ghost use Rattle.sr_execute.specs.Executes.{Does, begun, waits};
ghost use Rattle.sr_code.specs.declared.instruction.Instruction.TheVariants as instruction;

use crate::frame::Frame;
use crate::places::{copied_place, take_place};
use crate::putting::put_value;
use crate::step::Step;
use crate::tops::top_or;
use sr_ask::{Located, Request, SharedNumbers, Spot};
use sr_code::{Call, Fifo, Operands};
use sr_core::capability;
use sr_frame::{Scene, own_value};
use sr_value::{Cap, NoMemory, Row, Shape, Value, ValueFail, default_of};
use std::alloc::Global;

/// Takes the call on top.
pub fn take_call(alloc: Global, operands: &mut Operands) -> Call
    ensures call { result ≡ call_on operands.old }
    ensures others { operands.new ≡ drop_call operands.old }
{
    match operands.calls.pop() {
        Some(call) => call,
        None => Call {
            target: Cap::Null,
            values: Row::new(alloc),
            places: Row::new(alloc),
        },
    }
}

/// A value becomes a call of that capability, without arguments.
pub fn to_call(scene: &Scene, frame: &mut Frame, next: usize) -> Result<Step, NoMemory>
    ensures { Does result frame.new (begun scene.now.names.now instruction.ToCall (here_of scene.now) next frame.old.operands frame.old) }
{
    let value = frame.operands.values.take(Value::Bool(false));
    match capability(&value) {
        Ok(target) => {
            frame.operands.calls.push(Call {
                target,
                values: Row::new(scene.alloc),
                places: Row::new(scene.alloc),
            })?;
            Ok(Step::Goes(next))
        }
        Err(ValueFail::Fault(fault)) => Ok(Step::Faults(fault)),
        Err(ValueFail::NoMemory) => Err(NoMemory),
    }
}

/// A value joins the call as an argument.
pub fn pass_value(scene: &Scene, frame: &mut Frame, next: usize) -> Result<Step, NoMemory>
    ensures { Does result frame.new (begun scene.now.names.now instruction.PassValue (here_of scene.now) next frame.old.operands frame.old) }
{
    let value = frame.operands.values.take(Value::Bool(false));
    let mut call = take_call(scene.alloc, &mut frame.operands);
    call.values.push(value)?;
    frame.operands.calls.push(call)?;
    Ok(Step::Goes(next))
}

/// A place joins the call for the result.
pub fn pass_res(scene: &Scene, frame: &mut Frame, next: usize) -> Result<Step, NoMemory>
    ensures { Does result frame.new (begun scene.now.names.now instruction.PassRes (here_of scene.now) next frame.old.operands frame.old) }
{
    let place = take_place(scene.alloc, &mut frame.operands);
    let mut call = take_call(scene.alloc, &mut frame.operands);
    call.places.push(place)?;
    frame.operands.calls.push(call)?;
    Ok(Step::Goes(next))
}

fn add_both(call: &mut Call, value: Value, place: Located) -> Result<(), NoMemory>
    ensures target { OnOk result (call.new.target ≡ call.old.target) }
    ensures values { OnOk result (call.new.values ≡ call.old.values ++ value ∷ []) }
    ensures places { OnOk result (call.new.places ≡ call.old.places ++ place ∷ []) }
{
    call.values.push(value)?;
    call.places.push(place)?;
    Ok(())
}

/// A value joins the call as an argument, and a place for the result.
pub fn pass_both(
    alloc: Global,
    operands: &mut Operands,
    value: Value,
    place: Located,
) -> Result<(), NoMemory>
    ensures { OnOk result (operands.new ≡ join_place place (join_argument value operands.old)) }
{
    let mut call = take_call(alloc, operands);
    add_both(&mut call, value, place)?;
    operands.calls.push(call)?;
    Ok(())
}

/// What a place holds joins the call, and the place for the result. A shared place is asked for, and stays.
pub fn pass_var(scene: &Scene, frame: &mut Frame, next: usize) -> Result<Step, NoMemory>
    ensures { Does result frame.new (begun scene.now.names.now instruction.PassVar (here_of scene.now) next frame.old.operands frame.old) }
{
    let place = copied_place(scene.alloc, &frame.operands)?;
    match place.spot {
        Spot::Own(var) => match own_value(scene.alloc, &frame.own, var, &place.path) {
            Ok(value) => {
                let _ = frame.operands.places.pop();
                pass_both(scene.alloc, &mut frame.operands, value, place)?;
                Ok(Step::Goes(next))
            }
            Err(ValueFail::Fault(fault)) => Ok(Step::Faults(fault)),
            Err(ValueFail::NoMemory) => Err(NoMemory),
        },
        Spot::Shared { block, var } => Ok(Step::Asks(Request::Load {
            block,
            var,
            path: place.path,
        })),
    }
}

/// Asks for the invocation of a call; the places for its results stay.
pub fn invoke(alloc: Global, frame: &mut Frame) -> Result<Step, NoMemory>
    ensures { Does result frame.new (waits (request.Invoke (call_on frame.old.operands).target (call_on frame.old.operands).values true) (put_targets (call_on frame.old.operands).places (drop_call frame.old.operands)) frame.old) }
{
    let Call {
        target,
        values,
        places,
    } = take_call(alloc, &mut frame.operands);
    frame.operands.targets.push(Fifo::from_row(places))?;
    Ok(Step::Asks(Request::Invoke {
        target,
        args: values,
        wants: true,
    }))
}

/// The number on top of those whose replies are wanted.
pub fn wanted(frame: &Frame) -> u32
    ensures { result ≡ name_on frame.now.operands }
{
    *top_or(&frame.operands.names, &0)
}

/// Asks for the reply to an invocation, whose number stays.
pub fn take_reply_to(alloc: Global, frame: &mut Frame) -> Result<Step, NoMemory>
    ensures { Does result frame.new (waits (request.Take (name_on frame.old.operands ∷ [])) frame.old.operands frame.old) }
{
    let ids = SharedNumbers::one(alloc, wanted(frame))?;
    Ok(Step::Asks(Request::Take { ids }))
}

/// Asks for the invocation of a call, for whose reply nobody waits.
pub fn send(scene: &Scene, frame: &mut Frame, next: usize) -> Result<Step, NoMemory>
    ensures { Does result frame.new (begun scene.now.names.now instruction.Send (here_of scene.now) next frame.old.operands frame.old) }
{
    let Call { target, values, .. } = take_call(scene.alloc, &mut frame.operands);
    Ok(Step::Asks(Request::Invoke {
        target,
        args: values,
        wants: false,
    }))
}

/// Asks for a new instance.
pub fn create(
    scene: &Scene,
    frame: &mut Frame,
    resource: u32,
    next: usize,
) -> Result<Step, NoMemory>
    ensures { Does result frame.new (begun scene.now.names.now (instruction.Create resource) (here_of scene.now) next frame.old.operands frame.old) }
{
    let args = frame.operands.lists.take(Fifo::new(scene.alloc)).into_row();
    let vm = frame.operands.caps.take(Cap::Null);
    Ok(Step::Asks(Request::Create { resource, args, vm }))
}

/// Asks to end an instance.
pub fn destroy(scene: &Scene, frame: &mut Frame, next: usize) -> Result<Step, NoMemory>
    ensures { Does result frame.new (begun scene.now.names.now instruction.Destroy (here_of scene.now) next frame.old.operands frame.old) }
{
    let target = frame.operands.caps.take(Cap::Null);
    Ok(Step::Asks(Request::Destroy { target }))
}

/// The capability on top.
fn cap_on(frame: &Frame) -> Cap
    ensures { result ≡ cap_on frame.now.operands }
{
    *top_or(&frame.operands.caps, &Cap::Null)
}

/// Asks for a global; the capability of the machine stays.
pub fn ensure_global(
    scene: &Scene,
    frame: &mut Frame,
    global: u32,
    next: usize,
) -> Result<Step, NoMemory>
    ensures { Does result frame.new (begun scene.now.names.now (instruction.EnsureGlobal global) (here_of scene.now) next frame.old.operands frame.old) }
{
    let vm = cap_on(frame);
    Ok(Step::Asks(Request::EnsureGlobal { global, vm }))
}

/// Puts the default of what a call of `noop` returns.
pub fn put_default(
    scene: &Scene,
    frame: &mut Frame,
    returns: &Option<Shape>,
    next: usize,
) -> Result<Step, NoMemory>
    ensures { Does result frame.new (begun scene.now.names.now (instruction.Default returns.now) (here_of scene.now) next frame.old.operands frame.old) }
{
    match returns {
        None => put_value(frame, Value::Bool(false), next),
        Some(shape) => match default_of(scene.alloc, shape) {
            Ok(value) => put_value(frame, value, next),
            Err(ValueFail::Fault(fault)) => Ok(Step::Faults(fault)),
            Err(ValueFail::NoMemory) => Err(NoMemory),
        },
    }
}
