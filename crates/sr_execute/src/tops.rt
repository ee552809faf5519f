ghost use Rattle.std.specs.Prelude.{◌≡◌, option_copied};
ghost use Rattle.sr_ask.specs.Places.{nothing};
ghost use Rattle.sr_core.specs.Formals.{sent_to};
ghost use Rattle.sr_code.specs.Stacks.{below, first_or};

use sr_code::{Fifo, Stack};
use sr_core::Mode;
use sr_value::{Shape, Value};

/// The top of a stack, or a default where there is none.
pub fn top_or<'a, T>(stack: &'a Stack<T>, otherwise: &'a T) -> &'a T
    ensures { result.now ≡ first_or otherwise.now stack.now }
{
    match stack.top() {
        Some(item) => item,
        None => otherwise,
    }
}

/// Takes the value on top. Where there is none, a value that nobody uses.
// `Stack::take` drops a default for each value that it takes.
pub fn take_value(values: &mut Stack<Value>) -> Value
    ensures value { result ≡ first_or nothing values.old }
    ensures rest { values.new ≡ below values.old }
{
    match values.pop() {
        Some(value) => value,
        None => Value::Bool(false),
    }
}

/// Takes the shape on top. Where there is none, that of a number.
pub fn take_shape(shapes: &mut Stack<Shape>) -> Shape
    ensures shape { result ≡ first_or Shape.Int shapes.old }
    ensures rest { shapes.new ≡ below shapes.old }
{
    match shapes.pop() {
        Some(shape) => shape,
        None => Shape::Int,
    }
}

/// What a formal is sent.
#[tactic(auto, using(crate::proofs::Firsts::first_sent))]
pub fn sent(mode: Mode, args: &Fifo<Value>) -> Option<&Value>
    ensures { option_copied result ≡ sent_to mode args.now }
{
    match mode {
        Mode::Val => args.first(),
        Mode::Var => args.first(),
        Mode::Res => None,
    }
}
