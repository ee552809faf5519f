ghost use Rattle.std.specs.Prelude.{◌≡◌, OnOk};

use crate::copies::{copied_outs, copied_stack};
use sr_code::Operands;
use sr_execute::Frame;
use sr_frame::{copied_service, copied_variables};
use sr_value::{Duplicate, NoMemory};
use std::alloc::Global;

/// Copies the operands that hold a value each.
fn copy_single(alloc: Global, from: &Operands, to: &mut Operands) -> Result<(), NoMemory>
    ensures { OnOk result (to.new ≡ record to.old { values = from.now.values; numbers = from.now.numbers; caps = from.now.caps; names = from.now.names; places = from.now.places; shapes = from.now.shapes }) }
{
    to.values = from.values.copy(alloc)?;
    to.numbers = from.numbers.copy(alloc)?;
    to.caps = from.caps.copy(alloc)?;
    to.names = from.names.copy(alloc)?;
    to.places = from.places.copy(alloc)?;
    to.shapes = from.shapes.copy(alloc)?;
    Ok(())
}

/// Copies the operands that are lists, calls or reads.
fn copy_lists(alloc: Global, from: &Operands, to: &mut Operands) -> Result<(), NoMemory>
    ensures { OnOk result (to.new ≡ record to.old { lists = from.now.lists; pieces = from.now.pieces; calls = from.now.calls; targets = from.now.targets; readings = from.now.readings }) }
{
    to.lists = from.lists.copy(alloc)?;
    to.pieces = copied_stack(alloc, &from.pieces)?;
    to.calls = from.calls.copy(alloc)?;
    to.targets = from.targets.copy(alloc)?;
    to.readings = copied_stack(alloc, &from.readings)?;
    Ok(())
}

/// Copies the operands that loops, services and `co`s leave there.
fn copy_hidden(alloc: Global, from: &Operands, to: &mut Operands) -> Result<(), NoMemory>
    ensures { OnOk result (to.new ≡ record to.old { loops = from.now.loops; counts = from.now.counts; picks = from.now.picks; services = from.now.services; outs = from.now.outs; completed = from.now.completed }) }
{
    to.loops = from.loops.copy(alloc)?;
    to.counts = from.counts.copy(alloc)?;
    to.picks = copied_stack(alloc, &from.picks)?;
    to.services = copied_stack(alloc, &from.services)?;
    to.outs = copied_stack(alloc, &from.outs)?;
    to.completed = copied_stack(alloc, &from.completed)?;
    Ok(())
}

/// Makes all operands the same.
fn copy_operands(alloc: Global, from: &Operands, to: &mut Operands) -> Result<(), NoMemory>
    ensures { OnOk result (to.new ≡ from.now) }
{
    copy_single(alloc, from, to)?;
    copy_lists(alloc, from, to)?;
    copy_hidden(alloc, from, to)
}

/// Makes all that a process holds the same.
pub fn copy_frame(alloc: Global, from: &Frame, to: &mut Frame) -> Result<(), NoMemory>
    ensures { OnOk result (to.new ≡ from.now) }
{
    copy_operands(alloc, &from.operands, &mut to.operands)?;
    to.own = copied_variables(alloc, &from.own)?;
    to.service = copied_service(alloc, &from.service)?;
    to.out = copied_outs(alloc, &from.out)?;
    to.ticks = from.ticks;
    Ok(())
}
