ghost use Rattle.sr_frame.specs.Scenes.{here_of};
ghost use Rattle.sr_execute.specs.Executes.{Does, begun, loads, makes, stores};
ghost use Rattle.sr_code.specs.Operands.{put_value};
ghost use Rattle.sr_code.specs.declared.instruction.Instruction.TheVariants as instruction;

use crate::frame::Frame;
use crate::places::{copied_place, copied_second, take_place};
use crate::putting::put_value;
use crate::step::Step;
use crate::tops::take_value;
use sr_ask::{Located, Own, Request, Spot};
use sr_frame::{Scene, own_stored, own_value, set_own};
use sr_value::{NoMemory, Row, Sel, Shape, Value, ValueFail, default_of};
use std::alloc::Global;

/// A value goes to a place; a shared one is asked for.
#[inline(always)]
pub fn store_at(
    frame: &mut Frame,
    spot: Spot,
    path: Row<Sel>,
    value: Value,
    next: usize,
) -> Result<Step, NoMemory>
    ensures { Does result frame.new (stores spot path value next frame.old.operands frame.old) }
{
    match spot {
        Spot::Own(var) => match own_stored(&mut frame.own, var, path.as_slice(), value) {
            Ok(()) => Ok(Step::Goes(next)),
            Err(fault) => Ok(Step::Faults(fault)),
        },
        Spot::Shared { block, var } => Ok(Step::Asks(Request::Store {
            block,
            var,
            path,
            value,
        })),
    }
}

/// A variable is made; a shared one is asked for.
pub fn make_at(
    alloc: Global,
    frame: &mut Frame,
    spot: Spot,
    shape: Shape,
    next: usize,
) -> Result<Step, NoMemory>
    ensures { Does result frame.new (makes spot shape next frame.old.operands frame.old) }
{
    match spot {
        Spot::Own(var) => match default_of(alloc, &shape) {
            Ok(value) => {
                set_own(&mut frame.own, var, Own { shape, value });
                Ok(Step::Goes(next))
            }
            Err(ValueFail::Fault(fault)) => Ok(Step::Faults(fault)),
            Err(ValueFail::NoMemory) => Err(NoMemory),
        },
        Spot::Shared { block, var } => Ok(Step::Asks(Request::Declare { block, var, shape })),
    }
}

/// What a place holds goes on the operands; a shared one is asked for.
#[inline(always)]
fn load_place(
    alloc: Global,
    frame: &mut Frame,
    place: Located,
    next: usize,
) -> Result<Step, NoMemory>
    ensures { Does result frame.new (loads place.spot place.path (λ v. put_value v frame.old.operands) next frame.old.operands frame.old) }
{
    match place.spot {
        Spot::Own(var) => match own_value(alloc, &frame.own, var, &place.path) {
            Ok(value) => put_value(frame, value, next),
            Err(ValueFail::Fault(fault)) => Ok(Step::Faults(fault)),
            Err(ValueFail::NoMemory) => Err(NoMemory),
        },
        Spot::Shared { block, var } => Ok(Step::Asks(Request::Load {
            block,
            var,
            path: place.path,
        })),
    }
}

/// A place becomes what it holds.
#[inline(always)]
pub fn load(scene: &Scene, frame: &mut Frame, next: usize) -> Result<Step, NoMemory>
    ensures { Does result frame.new (begun scene.now.names.now instruction.Load (here_of scene.now) next frame.old.operands frame.old) }
{
    let place = take_place(scene.alloc, &mut frame.operands);
    load_place(scene.alloc, frame, place, next)
}

/// What a place holds goes on the operands, and the place stays.
pub fn load_again(scene: &Scene, frame: &mut Frame, next: usize) -> Result<Step, NoMemory>
    ensures { Does result frame.new (begun scene.now.names.now instruction.LoadAgain (here_of scene.now) next frame.old.operands frame.old) }
{
    let place = copied_place(scene.alloc, &frame.operands)?;
    load_place(scene.alloc, frame, place, next)
}

/// A value goes to the place on top.
#[inline(always)]
pub fn store(scene: &Scene, frame: &mut Frame, next: usize) -> Result<Step, NoMemory>
    ensures { Does result frame.new (begun scene.now.names.now instruction.Store (here_of scene.now) next frame.old.operands frame.old) }
{
    let value = take_value(&mut frame.operands.values);
    let Located { spot, path } = take_place(scene.alloc, &mut frame.operands);
    store_at(frame, spot, path, value, next)
}

/// What the second place holds goes on the operands, and both stay.
pub fn load_second(scene: &Scene, frame: &mut Frame, next: usize) -> Result<Step, NoMemory>
    ensures { Does result frame.new (begun scene.now.names.now instruction.LoadSecond (here_of scene.now) next frame.old.operands frame.old) }
{
    let place = copied_second(scene.alloc, &mut frame.operands)?;
    load_place(scene.alloc, frame, place, next)
}

/// A value goes to the second place, which goes.
pub fn store_second(scene: &Scene, frame: &mut Frame, next: usize) -> Result<Step, NoMemory>
    ensures { Does result frame.new (begun scene.now.names.now instruction.StoreSecond (here_of scene.now) next frame.old.operands frame.old) }
{
    let first = take_place(scene.alloc, &mut frame.operands);
    let Located { spot, path } = take_place(scene.alloc, &mut frame.operands);
    frame.operands.places.push(first)?;
    let value = take_value(&mut frame.operands.values);
    store_at(frame, spot, path, value, next)
}
