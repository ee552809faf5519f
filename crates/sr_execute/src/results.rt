ghost use Rattle.std.specs.Prelude.{◌≡◌, OnOk};
ghost use Rattle.sr_code.specs.Operands.{put_list, put_targets};
ghost use Rattle.sr_frame.specs.Scenes.{here_of};
ghost use Rattle.sr_execute.specs.Executes.{Does, begun, storing};
ghost use Rattle.sr_code.specs.declared.instruction.Instruction.TheVariants as instruction;

use crate::frame::Frame;
use crate::putting::put_value;
use crate::step::Step;
use sr_ask::{Located, Request, Spot};
use sr_code::{Fifo, Operands};
use sr_frame::{Scene, own_stored, value_after};
use sr_value::{NoMemory, Value};

/// Places that results still go to, and the results.
fn put_left(
    operands: &mut Operands,
    places: Fifo<Located>,
    values: Fifo<Value>,
) -> Result<(), NoMemory>
    ensures { OnOk result (operands.new ≡ put_targets places (put_list values operands.old)) }
{
    operands.lists.push(values)?;
    operands.targets.push(places)?;
    Ok(())
}

/// Stores results in their places, up to a store that has to be asked for.
fn store_some(
    frame: &mut Frame,
    places: Fifo<Located>,
    values: Fifo<Value>,
    to: usize,
    next: usize,
) -> Result<Step, NoMemory>
    ensures { Does result frame.new (storing places values to next frame.old.operands frame.old) }
{
    let mut places = places;
    let mut values = values;
    'results: loop {
        let Some(Located { spot, path }) = places.take_first() else {
            return put_value(frame, value_after(values.into_row()), to.min(next));
        };
        let Some(value) = values.take_first() else {
            return put_value(frame, Value::Bool(false), to.min(next));
        };
        match spot {
            Spot::Own(var) => {
                if let Err(fault) = own_stored(&mut frame.own, var, path.as_slice(), value) {
                    return Ok(Step::Faults(fault));
                }
            }
            Spot::Shared { block, var } => {
                put_left(&mut frame.operands, places, values)?;
                return Ok(Step::Asks(Request::Store {
                    block,
                    var,
                    path,
                    value,
                }));
            }
        }
    }
}

/// Stores the results of a reply.
pub fn store_results(
    scene: &Scene,
    frame: &mut Frame,
    to: usize,
    next: usize,
) -> Result<Step, NoMemory>
    ensures { Does result frame.new (begun scene.now.names.now (instruction.StoreResults to) (here_of scene.now) next frame.old.operands frame.old) }
{
    let places = frame.operands.targets.take(Fifo::new(scene.alloc));
    let values = frame.operands.lists.take(Fifo::new(scene.alloc));
    store_some(frame, places, values, to, next)
}
