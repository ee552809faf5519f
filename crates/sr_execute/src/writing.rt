ghost use Rattle.sr_frame.specs.Scenes.{here_of};
ghost use Rattle.sr_execute.specs.Executes.{Does, begun};
ghost use Rattle.sr_code.specs.declared.instruction.Instruction.TheVariants as instruction;

use crate::frame::Frame;
use crate::step::Step;
use sr_ask::Request;
use sr_code::Fifo;
use sr_frame::{Scene, joined, texts_in};
use sr_value::{NoMemory, ValueFail};

/// Asks to write a list.
pub fn write(scene: &Scene, frame: &mut Frame, line: bool, next: usize) -> Result<Step, NoMemory>
    ensures { Does result frame.new (begun scene.now.names.now (instruction.Write line) (here_of scene.now) next frame.old.operands frame.old) }
{
    let values = frame.operands.lists.take(Fifo::new(scene.alloc)).into_row();
    match texts_in(scene.alloc, scene.names, values.as_slice()) {
        Ok(texts) => {
            let bytes = joined(scene.alloc, texts.as_slice(), line)?;
            Ok(Step::Asks(Request::Write { bytes }))
        }
        Err(ValueFail::Fault(fault)) => Ok(Step::Faults(fault)),
        Err(ValueFail::NoMemory) => Err(NoMemory),
    }
}
