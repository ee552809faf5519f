ghost use Rattle.sr_ask.specs.declared.request.Request.TheVariants as request;
ghost use Rattle.sr_code.specs.Operands.{drop_list, join_value, list_on};
ghost use Rattle.sr_frame.specs.Scenes.{here_of};
ghost use Rattle.sr_execute.specs.Executes.{Does, begun, waits, went};
ghost use Rattle.sr_code.specs.declared.instruction.Instruction.TheVariants as instruction;

use crate::calls::take_call;
use crate::frame::Frame;
use crate::places::home_at;
use crate::putting::put_list;
use crate::step::Step;
use sr_ask::{Gives, Pick, Request, Service};
use sr_code::{Call, Fifo};
use sr_core::Named;
use sr_frame::{Scene, own_value, results_now};
use sr_value::{Cap, Duplicate, NoMemory, Row, Value, ValueFail};
use std::alloc::Global;

/// Asks for an invocation to service; the list of what guards name goes with it.
pub fn select(alloc: Global, frame: &mut Frame, site: u32) -> Result<Step, NoMemory>
    ensures { Does result frame.new (waits (request.Select site (list_on frame.old.operands)) (drop_list frame.old.operands) frame.old) }
{
    let env = frame.operands.lists.take(Fifo::new(alloc)).into_row();
    Ok(Step::Asks(Request::Select { site, env }))
}

/// Gives the present results, where none were given.
pub fn reply(scene: &Scene, frame: &mut Frame, next: usize) -> Result<Step, NoMemory>
    ensures { Does result frame.new (begun scene.now.names.now instruction.Reply (here_of scene.now) next frame.old.operands frame.old) }
{
    if frame.service.answered {
        return Ok(Step::Goes(next));
    }
    let results = results_now(scene, &frame.service.gives, &frame.own)?;
    Ok(Step::Asks(Request::Reply {
        held: frame.service.held,
        back: frame.service.back,
        results,
    }))
}

/// Hands the duty to answer to a call, or only sends it where the service has answered.
pub fn forward(scene: &Scene, frame: &mut Frame, next: usize) -> Result<Step, NoMemory>
    ensures { Does result frame.new (begun scene.now.names.now instruction.Forward (here_of scene.now) next frame.old.operands frame.old) }
{
    let Call { target, values, .. } = take_call(scene.alloc, &mut frame.operands);
    if frame.service.answered {
        Ok(Step::Asks(Request::Invoke {
            target,
            args: values,
            wants: false,
        }))
    } else {
        Ok(Step::Asks(Request::Forward {
            held: frame.service.held,
            back: frame.service.back,
            target,
            args: values,
        }))
    }
}

/// A value joins the list.
pub fn join_list(
    scene: &Scene,
    frame: &mut Frame,
    value: Value,
    next: usize,
) -> Result<Step, NoMemory>
    ensures { Does result frame.new (went next (join_value value frame.old.operands) frame.old) }
{
    let mut list = frame.operands.lists.take(Fifo::new(scene.alloc));
    list.push(value)?;
    put_list(frame, list, next)
}

/// A value joins the list on top.
pub fn collect(scene: &Scene, frame: &mut Frame, next: usize) -> Result<Step, NoMemory>
    ensures { Does result frame.new (begun scene.now.names.now instruction.Collect (here_of scene.now) next frame.old.operands frame.old) }
{
    let value = frame.operands.values.take(Value::Bool(false));
    join_list(scene, frame, value, next)
}

/// What a guard names of the process joins the list.
pub fn add_named(
    scene: &Scene,
    frame: &mut Frame,
    named: Named,
    next: usize,
) -> Result<Step, NoMemory>
    ensures { Does result frame.new (begun scene.now.names.now (instruction.AddNamed named) (here_of scene.now) next frame.old.operands frame.old) }
{
    match named {
        Named::Own(var) => {
            match own_value(scene.alloc, &frame.own, var, &Row::new(scene.alloc)) {
                Ok(value) => join_list(scene, frame, value, next),
                Err(ValueFail::Fault(fault)) => Ok(Step::Faults(fault)),
                Err(ValueFail::NoMemory) => Err(NoMemory),
            }
        }
        Named::Home(at) => join_list(
            scene,
            frame,
            Value::Capa(Cap::Res(home_at(scene, at))),
            next,
        ),
        Named::Machine => join_list(scene, frame, Value::Capa(Cap::Vm(scene.start.vm)), next),
    }
}

/// Begins to service the invocation that was chosen.
pub fn open_service(
    scene: &Scene,
    frame: &mut Frame,
    gives: &Row<u32>,
    next: usize,
) -> Result<Step, NoMemory>
    ensures { Does result frame.new (begun scene.now.names.now (instruction.OpenService gives.now) (here_of scene.now) next frame.old.operands frame.old) }
{
    let gives = gives.copy(scene.alloc)?;
    let Pick { id, args, back, .. } = frame.operands.picks.take(Pick {
        id: 0,
        arm: 0,
        args: Row::new(scene.alloc),
        back: 0,
    });
    frame.operands.lists.push(Fifo::from_row(args))?;
    let service = Service {
        held: id,
        back,
        answered: false,
        gives: Gives::Values(gives),
    };
    let around = std::mem::replace(&mut frame.service, service);
    frame.operands.services.push(around)?;
    Ok(Step::Goes(next))
}

/// Goes back to the service around.
pub fn end_service(scene: &Scene, frame: &mut Frame, next: usize) -> Result<Step, NoMemory>
    ensures { Does result frame.new (begun scene.now.names.now instruction.EndService (here_of scene.now) next frame.old.operands frame.old) }
{
    frame.service = frame.operands.services.take(Service {
        held: 0,
        back: 0,
        answered: true,
        gives: Gives::Values(Row::new(scene.alloc)),
    });
    Ok(Step::Goes(next))
}
