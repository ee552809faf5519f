ghost use Rattle.sr_code.specs.Operands.{drop_list, put_list};
ghost use Rattle.sr_frame.specs.Scenes.{here_of};
ghost use Rattle.sr_execute.specs.Executes.{begun, went};
ghost use Rattle.sr_execute.specs.Quick.{DoesOrLeaves};
ghost use Rattle.sr_code.specs.declared.instruction.Instruction.TheVariants as instruction;

use crate::calls::take_call;
use crate::frame::Frame;
use crate::quick::Carried;
use crate::tops::{take_value, top_or};
use sr_ask::{Gives, Pick, Service};
use sr_code::{Call, Fifo};
use sr_core::capability;
use sr_frame::{Scene, value_after};
use sr_value::{Duplicate, NoMemory, Row, Value, ValueFail};

/// The arguments of the process go on the operands.
#[inline(never)]
pub fn quick_arguments(scene: &Scene, frame: &mut Frame, next: usize) -> Result<Carried, NoMemory>
    ensures { DoesOrLeaves result frame.old frame.new (begun scene.now.names.now instruction.Arguments (here_of scene.now) next frame.old.operands frame.old) }
{
    quick_list(
        frame,
        Fifo::from_row(scene.start.args.copy(scene.alloc)?),
        next,
    )
}

/// A list without values goes on the operands.
#[inline(always)]
pub fn quick_no_values(scene: &Scene, frame: &mut Frame, next: usize) -> Result<Carried, NoMemory>
    ensures { DoesOrLeaves result frame.old frame.new (begun scene.now.names.now instruction.NoValues (here_of scene.now) next frame.old.operands frame.old) }
{
    quick_list(frame, Fifo::new(scene.alloc), next)
}

/// The list on top goes.
#[inline(always)]
pub fn quick_drop_list(frame: &mut Frame, next: usize) -> Result<Carried, NoMemory>
    ensures { DoesOrLeaves result frame.old frame.new (went next (drop_list frame.old.operands) frame.old) }
{
    let _ = frame.operands.lists.pop();
    Ok(Carried::Goes(next))
}

/// A list goes on the operands.
#[inline(always)]
fn quick_list(frame: &mut Frame, list: Fifo<Value>, next: usize) -> Result<Carried, NoMemory>
    ensures { DoesOrLeaves result frame.old frame.new (went next (put_list list frame.old.operands) frame.old) }
{
    frame.operands.lists.push(list)?;
    Ok(Carried::Goes(next))
}

/// A value joins the list on top.
#[inline(never)]
pub fn quick_collect(scene: &Scene, frame: &mut Frame, next: usize) -> Result<Carried, NoMemory>
    ensures { DoesOrLeaves result frame.old frame.new (begun scene.now.names.now instruction.Collect (here_of scene.now) next frame.old.operands frame.old) }
{
    let value = take_value(&mut frame.operands.values);
    let mut list = frame.operands.lists.take(Fifo::new(scene.alloc));
    list.push(value)?;
    frame.operands.lists.push(list)?;
    Ok(Carried::Goes(next))
}

/// A value becomes a call of that capability, without arguments.
#[inline(never)]
pub fn quick_to_call(scene: &Scene, frame: &mut Frame, next: usize) -> Result<Carried, NoMemory>
    ensures { DoesOrLeaves result frame.old frame.new (begun scene.now.names.now instruction.ToCall (here_of scene.now) next frame.old.operands frame.old) }
{
    let value = take_value(&mut frame.operands.values);
    match capability(&value) {
        Ok(target) => {
            frame.operands.calls.push(Call {
                target,
                values: Row::new(scene.alloc),
                places: Row::new(scene.alloc),
            })?;
            Ok(Carried::Goes(next))
        }
        Err(ValueFail::Fault(fault)) => Ok(Carried::Faults(fault)),
        Err(ValueFail::NoMemory) => Err(NoMemory),
    }
}

/// A value joins the call as an argument.
#[inline(never)]
pub fn quick_pass_value(scene: &Scene, frame: &mut Frame, next: usize) -> Result<Carried, NoMemory>
    ensures { DoesOrLeaves result frame.old frame.new (begun scene.now.names.now instruction.PassValue (here_of scene.now) next frame.old.operands frame.old) }
{
    let value = take_value(&mut frame.operands.values);
    let mut call = take_call(scene.alloc, &mut frame.operands);
    call.values.push(value)?;
    frame.operands.calls.push(call)?;
    Ok(Carried::Goes(next))
}

/// The value of a reply goes on the operands, where no place gets a result.
#[inline(never)]
pub fn quick_store_results(
    scene: &Scene,
    frame: &mut Frame,
    to: usize,
    next: usize,
) -> Result<Carried, NoMemory>
    ensures { DoesOrLeaves result frame.old frame.new (begun scene.now.names.now (instruction.StoreResults to) (here_of scene.now) next frame.old.operands frame.old) }
{
    let none = Fifo::new(scene.alloc);
    if !top_or(&frame.operands.targets, &none).is_empty() {
        return Ok(Carried::Left);
    }
    let _ = frame.operands.targets.pop();
    let values = frame.operands.lists.take(Fifo::new(scene.alloc)).into_row();
    frame.operands.values.push(value_after(values))?;
    Ok(Carried::Goes(to.min(next)))
}

/// Begins to service the invocation that was chosen.
#[inline(never)]
pub fn quick_open_service(
    scene: &Scene,
    frame: &mut Frame,
    gives: &Row<u32>,
    next: usize,
) -> Result<Carried, NoMemory>
    ensures { DoesOrLeaves result frame.old frame.new (begun scene.now.names.now (instruction.OpenService gives.now) (here_of scene.now) next frame.old.operands frame.old) }
{
    let gives = gives.copy(scene.alloc)?;
    let Pick { id, args, back, .. } = frame.operands.picks.take(Pick {
        id: 0,
        arm: 0,
        args: Row::new(scene.alloc),
        back: 0,
    });
    frame.operands.lists.push(Fifo::from_row(args))?;
    let service = Service {
        held: id,
        back,
        answered: false,
        gives: Gives::Values(gives),
    };
    let around = std::mem::replace(&mut frame.service, service);
    frame.operands.services.push(around)?;
    Ok(Carried::Goes(next))
}

/// Goes back to the service around.
#[inline(never)]
pub fn quick_end_service(scene: &Scene, frame: &mut Frame, next: usize) -> Result<Carried, NoMemory>
    ensures { DoesOrLeaves result frame.old frame.new (begun scene.now.names.now instruction.EndService (here_of scene.now) next frame.old.operands frame.old) }
{
    frame.service = frame.operands.services.take(Service {
        held: 0,
        back: 0,
        answered: true,
        gives: Gives::Values(Row::new(scene.alloc)),
    });
    Ok(Carried::Goes(next))
}

/// Goes on where the results were given.
#[inline(always)]
pub fn quick_reply(scene: &Scene, frame: &Frame, next: usize) -> Result<Carried, NoMemory>
    ensures { DoesOrLeaves result frame.now frame.now (begun scene.now.names.now instruction.Reply (here_of scene.now) next frame.now.operands frame.now) }
{
    if frame.service.answered {
        Ok(Carried::Goes(next))
    } else {
        Ok(Carried::Left)
    }
}
