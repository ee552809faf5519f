ghost use Rattle.std.specs.Prelude.{◌≡◌, ◌+◌, drop};
ghost use Rattle.sr_meaning.specs.Expressions.{at_end, number_read, read_all, kind_of};
ghost use Rattle.sr_interpreter_expr.specs.Interpreters.{Agrees, here_of, stage_of};

use crate::interpreter::Interpreter;
use crate::listening::{IsItem, ask};
use crate::places::store;
use crate::scene::{HasCore, Scene};
use crate::settle::failed;
use crate::stop::Stop;
use sr_ask::{InputItem, ReadKind, ReadTarget, Request};
use sr_core::Readable;
use sr_value::{Fault, Value};

/// What an item is read as.
pub fn kind_of(kind: Readable) -> ReadKind
    ensures { result ≡ kind_of kind }
{
    match kind {
        Readable::Int => ReadKind::Int,
        Readable::Bool => ReadKind::Bool,
        Readable::Char => ReadKind::Char,
        Readable::Str => ReadKind::Str,
    }
}

/// The number of items read.
fn number_read<C: HasCore>(
    scene: &Scene<C>,
    interpreter: &Interpreter,
    count: usize,
) -> Result<Value, Stop>
    ensures { Agrees (number_read count (here_of C.core_of scene.now) (stage_of interpreter.now)) result (stage_of interpreter.now) }
{
    match i32::try_from(count) {
        Ok(number) => Ok(Value::Int(number)),
        Err(_) => failed(scene, interpreter, Fault::Overflow),
    }
}

/// The number of items read, or -1 where the input had ended before the first.
fn number_at_end<C: HasCore>(
    scene: &Scene<C>,
    interpreter: &Interpreter,
    count: usize,
) -> Result<Value, Stop>
    ensures { Agrees (at_end count (here_of C.core_of scene.now) (stage_of interpreter.now)) result (stage_of interpreter.now) }
{
    if count == 0 {
        Ok(Value::Int(-1))
    } else {
        number_read(scene, interpreter, count)
    }
}

/// Reads and stores items from one on, up to the first that isn't there or doesn't fit.
pub fn read_from<C: HasCore>(
    scene: &Scene<C>,
    interpreter: &mut Interpreter,
    read_targets: &[ReadTarget],
    at: usize,
) -> Result<Value, Stop>
    ensures { Agrees (read_all at (drop at read_targets.now) (here_of C.core_of scene.now) (stage_of interpreter.old)) result (stage_of interpreter.new) }
{
    let mut at = at;
    'targets: while let Some(read_target) = read_targets.get(at) {
        let request = Request::Read {
            kind: read_target.kind,
        };
        match ask(scene, interpreter, &IsItem, request)? {
            InputItem::Value(value) => store(scene, interpreter, &read_target.place, value)?,
            InputItem::NotOfKind => return number_read(scene, interpreter, at),
            InputItem::NoMore => return number_at_end(scene, interpreter, at),
        }
        at += 1;
    }
    number_read(scene, interpreter, at)
}
