ghost use Rattle.sr_code.specs.Operands.{put_list, put_number, put_pieces, put_place, put_shape, put_value};
ghost use Rattle.sr_execute.specs.Executes.{Does, went};

use crate::frame::Frame;
use crate::step::Step;
use sr_ask::Located;
use sr_code::Fifo;
use sr_core::Piece;
use sr_value::{NoMemory, Row, Shape, Value};

/// A value goes on the operands.
pub fn put_value(frame: &mut Frame, value: Value, next: usize) -> Result<Step, NoMemory>
    ensures { Does result frame.new (went next (put_value value frame.old.operands) frame.old) }
{
    frame.operands.values.push(value)?;
    Ok(Step::Goes(next))
}

/// A number goes on the operands.
pub fn put_number(frame: &mut Frame, number: i32, next: usize) -> Result<Step, NoMemory>
    ensures { Does result frame.new (went next (put_number number frame.old.operands) frame.old) }
{
    frame.operands.numbers.push(number)?;
    Ok(Step::Goes(next))
}

/// A list goes on the operands.
pub fn put_list(frame: &mut Frame, list: Fifo<Value>, next: usize) -> Result<Step, NoMemory>
    ensures { Does result frame.new (went next (put_list list frame.old.operands) frame.old) }
{
    frame.operands.lists.push(list)?;
    Ok(Step::Goes(next))
}

/// A bracketed list goes on the operands.
pub fn put_pieces(frame: &mut Frame, pieces: Row<Piece>, next: usize) -> Result<Step, NoMemory>
    ensures { Does result frame.new (went next (put_pieces pieces frame.old.operands) frame.old) }
{
    frame.operands.pieces.push(pieces)?;
    Ok(Step::Goes(next))
}

/// A place goes on the operands.
pub fn put_place(frame: &mut Frame, place: Located, next: usize) -> Result<Step, NoMemory>
    ensures { Does result frame.new (went next (put_place place frame.old.operands) frame.old) }
{
    frame.operands.places.push(place)?;
    Ok(Step::Goes(next))
}

/// A shape goes on the operands.
pub fn put_shape(frame: &mut Frame, shape: Shape, next: usize) -> Result<Step, NoMemory>
    ensures { Does result frame.new (went next (put_shape shape frame.old.operands) frame.old) }
{
    frame.operands.shapes.push(shape)?;
    Ok(Step::Goes(next))
}
