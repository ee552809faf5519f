ghost use Rattle.std.specs.Prelude.{◌≡◌, IfOk, OnOk};
ghost use Rattle.sr_code.specs.Operands.{drop_reading, no_reading, one_read, reading_on};
ghost use Rattle.sr_code.specs.Stacks.{first};
ghost use Rattle.sr_code.specs.Owners.{kind_asked};
ghost use Rattle.sr_frame.specs.Scenes.{here_of};
ghost use Rattle.sr_execute.specs.Executes.{Does, begun};
ghost use Rattle.sr_code.specs.declared.instruction.Instruction.TheVariants as instruction;

use crate::frame::Frame;
use crate::places::take_place;
use crate::putting::put_value;
use crate::step::Step;
use crate::tops::top_or;
use crate::variables::store_at;
use sr_ask::{ReadKind, ReadTarget, Request};
use sr_code::{Fifo, Operands, Reading};
use sr_core::Readable;
use sr_frame::Scene;
use sr_value::{Fault, NoMemory, Value};
use std::alloc::Global;

/// How an item is asked for.
fn kind_asked(kind: Readable) -> ReadKind
    ensures { result ≡ kind_asked kind }
{
    match kind {
        Readable::Int => ReadKind::Int,
        Readable::Bool => ReadKind::Bool,
        Readable::Char => ReadKind::Char,
        Readable::Str => ReadKind::Str,
    }
}

fn no_reading(alloc: Global) -> Reading
    ensures { result ≡ no_reading }
{
    Reading {
        targets: Fifo::new(alloc),
        count: 0,
    }
}

/// Takes the `read` on top.
fn take_reading(alloc: Global, operands: &mut Operands) -> Reading
    ensures reading { result ≡ reading_on operands.old }
    ensures others { operands.new ≡ drop_reading operands.old }
{
    operands.readings.take(no_reading(alloc))
}

/// Begins a `read`.
pub fn begin_reading(scene: &Scene, frame: &mut Frame, next: usize) -> Result<Step, NoMemory>
    ensures { Does result frame.new (begun scene.now.names.now instruction.NoReadings (here_of scene.now) next frame.old.operands frame.old) }
{
    frame.operands.readings.push(no_reading(scene.alloc))?;
    Ok(Step::Goes(next))
}

/// A place joins the `read`.
pub fn add_reading(
    scene: &Scene,
    frame: &mut Frame,
    kind: Readable,
    next: usize,
) -> Result<Step, NoMemory>
    ensures { Does result frame.new (begun scene.now.names.now (instruction.AddReading kind) (here_of scene.now) next frame.old.operands frame.old) }
{
    let place = take_place(scene.alloc, &mut frame.operands);
    let Reading { mut targets, count } = take_reading(scene.alloc, &mut frame.operands);
    targets.push(ReadTarget {
        kind: kind_asked(kind),
        place,
    })?;
    frame.operands.readings.push(Reading { targets, count })?;
    Ok(Step::Goes(next))
}

/// Asks for the next item, where a place is left.
#[tactic(auto, using(crate::proofs::Firsts::reads_none, crate::proofs::Firsts::reads_some))]
pub fn read_next(
    scene: &Scene,
    frame: &mut Frame,
    store: usize,
    end: usize,
    next: usize,
) -> Result<Step, NoMemory>
    ensures { Does result frame.new (begun scene.now.names.now (instruction.ReadNext store end) (here_of scene.now) next frame.old.operands frame.old) }
{
    let none = no_reading(scene.alloc);
    match top_or(&frame.operands.readings, &none).targets.first() {
        None => Ok(Step::Goes(next)),
        Some(target) => Ok(Step::Asks(Request::Read { kind: target.kind })),
    }
}

/// Takes the next place of the `read`, for which an item came.
fn take_target(alloc: Global, operands: &mut Operands) -> Result<Option<ReadTarget>, NoMemory>
    ensures next { IfOk result (λ target. target ≡ first (reading_on operands.old).targets) }
    ensures others { OnOk result (operands.new ≡ one_read operands.old) }
{
    let Reading { mut targets, count } = take_reading(alloc, operands);
    let first = targets.take_first();
    let Some(count) = count.checked_add(1) else {
        return Err(NoMemory);
    };
    operands.readings.push(Reading { targets, count })?;
    Ok(first)
}

/// Stores an item in the next place of the `read`.
pub fn store_read(scene: &Scene, frame: &mut Frame, next: usize) -> Result<Step, NoMemory>
    ensures { Does result frame.new (begun scene.now.names.now instruction.StoreRead (here_of scene.now) next frame.old.operands frame.old) }
{
    let value = frame.operands.values.take(Value::Bool(false));
    match take_target(scene.alloc, &mut frame.operands)? {
        None => Ok(Step::Goes(next)),
        Some(ReadTarget { place, .. }) => store_at(frame, place.spot, place.path, value, next),
    }
}

/// A `read` becomes the number of its items.
pub fn number_read(scene: &Scene, frame: &mut Frame, next: usize) -> Result<Step, NoMemory>
    ensures { Does result frame.new (begun scene.now.names.now instruction.NumberRead (here_of scene.now) next frame.old.operands frame.old) }
{
    let reading = take_reading(scene.alloc, &mut frame.operands);
    match i32::try_from(reading.count) {
        Ok(number) => put_value(frame, Value::Int(number), next),
        Err(_) => Ok(Step::Faults(Fault::Overflow)),
    }
}

/// A `read` at the end of the input becomes the number of its items, or -1 where it has none.
pub fn end_read(scene: &Scene, frame: &mut Frame, next: usize) -> Result<Step, NoMemory>
    ensures { Does result frame.new (begun scene.now.names.now instruction.EndRead (here_of scene.now) next frame.old.operands frame.old) }
{
    let reading = take_reading(scene.alloc, &mut frame.operands);
    if reading.count == 0 {
        return put_value(frame, Value::Int(-1), next);
    }
    match i32::try_from(reading.count) {
        Ok(number) => put_value(frame, Value::Int(number), next),
        Err(_) => Ok(Step::Faults(Fault::Overflow)),
    }
}
