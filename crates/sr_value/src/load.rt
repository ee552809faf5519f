ghost use Rattle.std.specs.Prelude.{drop};
ghost use Rattle.sr_value.specs.Operators.{Answers};
ghost use Rattle.sr_value.specs.Parts.{loaded_at, part_of};

use crate::copies::Duplicate;
use crate::fault::{Fault, ValueFail};
use crate::part::{Part, selected, step_at};
use crate::shape::Sel;
use crate::value::Value;
use std::alloc::Global;

/// A copy of the value at the end of a path; E3 where the path leads nowhere.
pub fn loaded(alloc: Global, value: &Value, path: &[Sel]) -> Result<Value, ValueFail>
    ensures { Answers result (loaded_at value.now path.now) }
{
    loaded_from(alloc, value, path, 0)
}

/// A copy of the value that the rest of a path leads to, from this step on.
fn loaded_from(alloc: Global, value: &Value, path: &[Sel], at: usize) -> Result<Value, ValueFail>
    ensures { Answers result (loaded_at value.now (drop at path.now)) }
{
    match step_at(path, at) {
        None => Ok(value.copy(alloc)?),
        Some(step) => match selected(value, step) {
            Some(Part::Whole(inner)) => loaded_from(alloc, inner, path, at + 1),
            Some(Part::Byte(byte)) => char_at_end(byte, path, at + 1),
            None => Err(ValueFail::Fault(Fault::Index)),
        },
    }
}

/// A char has no parts.
fn char_at_end(byte: u8, path: &[Sel], at: usize) -> Result<Value, ValueFail>
    ensures { Answers result (loaded_at (Value.Char byte) (drop at path.now)) }
{
    match step_at(path, at) {
        None => Ok(Value::Char(byte)),
        Some(_) => Err(ValueFail::Fault(Fault::Index)),
    }
}

/// A copy of the part of a value that one step selects; E3 where there is none.
pub fn part_of(alloc: Global, value: &Value, step: Sel) -> Result<Value, ValueFail>
    ensures { Answers result (part_of value.now step) }
{
    match selected(value, step) {
        Some(Part::Whole(inner)) => Ok(inner.copy(alloc)?),
        Some(Part::Byte(byte)) => Ok(Value::Char(byte)),
        None => Err(ValueFail::Fault(Fault::Index)),
    }
}
