ghost use Rattle.std.specs.Prelude.{◌≢◌, [], IfOk};
ghost use Rattle.sr_frame.specs.Scenes.{here_of};
ghost use Rattle.sr_execute.specs.Executes.{begun, makes};
ghost use Rattle.sr_execute.specs.Quick.{DoesOrLeaves};
ghost use Rattle.sr_code.specs.declared.instruction.Instruction.TheVariants as instruction;
ghost use Rattle.sr_ask.specs.declared.environment.Spot.TheVariants as spot;

use crate::frame::Frame;
use crate::quick::Carried;
use crate::shapes::{formal_found, take_sent};
use crate::ticks::next_number;
use crate::tops::{take_shape, take_value};
use sr_ask::Own;
use sr_code::Fifo;
use sr_core::{FormalShape, Mode, Scope};
use sr_frame::{Scene, own_stored, set_number, set_own};
use sr_value::{NoMemory, Shape, Value, ValueFail, default_of};
use std::alloc::Global;

/// An own variable is made. Numbers are 0 at first.
fn quick_made(
    alloc: Global,
    frame: &mut Frame,
    var: u32,
    shape: Shape,
    next: usize,
) -> Result<Carried, NoMemory>
    ensures made { DoesOrLeaves result frame.old frame.new (makes (spot.Own var) shape next frame.old.operands frame.old) }
    ensures not_left { IfOk result (λ carried. carried ≢ Carried.Left) }
{
    match shape {
        Shape::Int => {
            set_number(&mut frame.own, var, 0);
            Ok(Carried::Goes(next))
        }
        _ => quick_made_of(alloc, frame, var, shape, next),
    }
}

/// An own variable of any shape is made.
// In `quick_made` its temporaries would be filled for numbers too.
#[inline(never)]
fn quick_made_of(
    alloc: Global,
    frame: &mut Frame,
    var: u32,
    shape: Shape,
    next: usize,
) -> Result<Carried, NoMemory>
    ensures made { DoesOrLeaves result frame.old frame.new (makes (spot.Own var) shape next frame.old.operands frame.old) }
    ensures not_left { IfOk result (λ carried. carried ≢ Carried.Left) }
{
    match default_of(alloc, &shape) {
        Ok(value) => {
            set_own(&mut frame.own, var, Own { shape, value });
            Ok(Carried::Goes(next))
        }
        Err(ValueFail::Fault(fault)) => Ok(Carried::Faults(fault)),
        Err(ValueFail::NoMemory) => Err(NoMemory),
    }
}

/// Makes an own variable of a shape.
#[inline(always)]
pub fn quick_make(
    scene: &Scene,
    frame: &mut Frame,
    var: u32,
    next: usize,
) -> Result<Carried, NoMemory>
    ensures { DoesOrLeaves result frame.old frame.new (begun scene.now.names.now (instruction.Make Scope.Own var) (here_of scene.now) next frame.old.operands frame.old) }
{
    let shape = take_shape(&mut frame.operands.shapes);
    quick_made(scene.alloc, frame, var, shape, next)
}

/// Stores a value in a whole own variable.
#[inline(never)]
pub fn quick_store_in(
    scene: &Scene,
    frame: &mut Frame,
    var: u32,
    next: usize,
) -> Result<Carried, NoMemory>
    ensures { DoesOrLeaves result frame.old frame.new (begun scene.now.names.now (instruction.StoreIn Scope.Own var) (here_of scene.now) next frame.old.operands frame.old) }
{
    let value = take_value(&mut frame.operands.values);
    match own_stored(&mut frame.own, var, &[], value) {
        Ok(()) => Ok(Carried::Goes(next)),
        Err(fault) => Ok(Carried::Faults(fault)),
    }
}

/// Makes a formal that is an own variable.
#[inline(always)]
pub fn quick_make_formal(
    scene: &Scene,
    frame: &mut Frame,
    var: u32,
    mode: Mode,
    shape: &FormalShape,
    next: usize,
) -> Result<Carried, NoMemory>
    ensures { DoesOrLeaves result frame.old frame.new (begun scene.now.names.now (instruction.MakeFormal Scope.Own var mode shape.now) (here_of scene.now) next frame.old.operands frame.old) }
{
    match formal_found(scene.alloc, &frame.operands, mode, shape) {
        Ok(found) => quick_made(scene.alloc, frame, var, found, next),
        Err(ValueFail::Fault(fault)) => Ok(Carried::Faults(fault)),
        Err(ValueFail::NoMemory) => Err(NoMemory),
    }
}

/// Stores the next argument of the list in its formal, which is an own variable.
#[inline(always)]
pub fn quick_store_formal(
    scene: &Scene,
    frame: &mut Frame,
    var: u32,
    mode: Mode,
    next: usize,
) -> Result<Carried, NoMemory>
    ensures { DoesOrLeaves result frame.old frame.new (begun scene.now.names.now (instruction.StoreFormal Scope.Own var mode) (here_of scene.now) next frame.old.operands frame.old) }
{
    let mut args = frame.operands.lists.take(Fifo::new(scene.alloc));
    let sent = take_sent(mode, &mut args);
    frame.operands.lists.push(args)?;
    match sent {
        None => Ok(Carried::Goes(next)),
        Some(value) => match own_stored(&mut frame.own, var, &[], value) {
            Ok(()) => Ok(Carried::Goes(next)),
            Err(fault) => Ok(Carried::Faults(fault)),
        },
    }
}

/// The variable of a quantifier gets its next value, where a tick is left.
pub fn quick_each(
    scene: &Scene,
    frame: &mut Frame,
    var: u32,
    head: usize,
    next: usize,
) -> Result<Carried, NoMemory>
    ensures { DoesOrLeaves result frame.old frame.new (begun scene.now.names.now (instruction.Each var head) (here_of scene.now) next frame.old.operands frame.old) }
{
    if frame.ticks == 0 {
        return Ok(Carried::Left);
    }
    let Some((number, rest)) = next_number(&mut frame.operands.loops) else {
        return Ok(Carried::Goes(next));
    };
    frame.ticks -= 1;
    set_number(&mut frame.own, var, number);
    frame.operands.loops.push(rest)?;
    Ok(Carried::Goes(head))
}
