ghost use Rattle.sr_code.specs.Operands.{drop_value, join_piece, value_on};
ghost use Rattle.sr_value.specs.Parts.{part_of};
ghost use Rattle.sr_frame.specs.Scenes.{here_of};
ghost use Rattle.sr_execute.specs.Executes.{Does, begun, puts, went};
ghost use Rattle.sr_code.specs.declared.instruction.Instruction.TheVariants as instruction;

use crate::frame::Frame;
use crate::putting::{put_pieces, put_value};
use crate::step::Step;
use sr_core::{Piece, array, count};
use sr_frame::Scene;
use sr_value::{NoMemory, Row, Sel, Value, ValueFail, part_of};

/// A part of a value goes on the operands.
fn put_part(scene: &Scene, frame: &mut Frame, step: Sel, next: usize) -> Result<Step, NoMemory>
    ensures { Does result frame.new (puts (part_of (value_on frame.old.operands) step) next (drop_value frame.old.operands) frame.old) }
{
    let value = frame.operands.values.take(Value::Bool(false));
    match part_of(scene.alloc, &value, step) {
        Ok(part) => put_value(frame, part, next),
        Err(ValueFail::Fault(fault)) => Ok(Step::Faults(fault)),
        Err(ValueFail::NoMemory) => Err(NoMemory),
    }
}

/// A value becomes its part at a number.
pub fn part_at(scene: &Scene, frame: &mut Frame, next: usize) -> Result<Step, NoMemory>
    ensures { Does result frame.new (begun scene.now.names.now instruction.PartAt (here_of scene.now) next frame.old.operands frame.old) }
{
    let index = frame.operands.numbers.take(0);
    put_part(scene, frame, Sel::At(index), next)
}

/// A value becomes its part at two numbers.
pub fn part_at2(scene: &Scene, frame: &mut Frame, next: usize) -> Result<Step, NoMemory>
    ensures { Does result frame.new (begun scene.now.names.now instruction.PartAt2 (here_of scene.now) next frame.old.operands frame.old) }
{
    let column = frame.operands.numbers.take(0);
    let row = frame.operands.numbers.take(0);
    put_part(scene, frame, Sel::At2(row, column), next)
}

/// A value becomes one of its fields.
pub fn part_field(
    scene: &Scene,
    frame: &mut Frame,
    field: u32,
    next: usize,
) -> Result<Step, NoMemory>
    ensures { Does result frame.new (begun scene.now.names.now (instruction.PartField field) (here_of scene.now) next frame.old.operands frame.old) }
{
    put_part(scene, frame, Sel::Field(field), next)
}

/// A part joins the bracketed list.
fn add(scene: &Scene, frame: &mut Frame, piece: Piece, next: usize) -> Result<Step, NoMemory>
    ensures { Does result frame.new (went next (join_piece piece frame.old.operands) frame.old) }
{
    let mut pieces = frame.operands.pieces.take(Row::new(scene.alloc));
    pieces.push(piece)?;
    put_pieces(frame, pieces, next)
}

/// A value joins the bracketed list.
pub fn add_piece(scene: &Scene, frame: &mut Frame, next: usize) -> Result<Step, NoMemory>
    ensures { Does result frame.new (begun scene.now.names.now instruction.AddPiece (here_of scene.now) next frame.old.operands frame.old) }
{
    let value = frame.operands.values.take(Value::Bool(false));
    add(scene, frame, Piece { count: 1, value }, next)
}

/// A value joins the bracketed list, as often as a number says.
pub fn add_repeated(scene: &Scene, frame: &mut Frame, next: usize) -> Result<Step, NoMemory>
    ensures { Does result frame.new (begun scene.now.names.now instruction.AddRepeated (here_of scene.now) next frame.old.operands frame.old) }
{
    let number = frame.operands.numbers.take(0);
    match count(number) {
        Ok(count) => {
            let value = frame.operands.values.take(Value::Bool(false));
            add(scene, frame, Piece { count, value }, next)
        }
        Err(ValueFail::Fault(fault)) => Ok(Step::Faults(fault)),
        Err(ValueFail::NoMemory) => Err(NoMemory),
    }
}

/// A bracketed list becomes an array.
pub fn make_array(scene: &Scene, frame: &mut Frame, next: usize) -> Result<Step, NoMemory>
    ensures { Does result frame.new (begun scene.now.names.now instruction.MakeArray (here_of scene.now) next frame.old.operands frame.old) }
{
    let pieces = frame.operands.pieces.take(Row::new(scene.alloc));
    match array(scene.alloc, pieces.as_slice()) {
        Ok(value) => put_value(frame, value, next),
        Err(ValueFail::Fault(fault)) => Ok(Step::Faults(fault)),
        Err(ValueFail::NoMemory) => Err(NoMemory),
    }
}
