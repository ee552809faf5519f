ghost use Rattle.std.specs.Prelude.{◌≡◌};
ghost use Rattle.sr_value.specs.Operators.{Answers};
ghost use Rattle.sr_core.specs.Formals.{sent_after, sent_to};
ghost use Rattle.sr_core.specs.Values.{formal_shape};
ghost use Rattle.sr_code.specs.Operands.{list_on};
ghost use Rattle.sr_frame.specs.Scenes.{here_of};
ghost use Rattle.sr_execute.specs.Executes.{Does, begun};
ghost use Rattle.sr_code.specs.declared.instruction.Instruction.TheVariants as instruction;

use crate::frame::Frame;
use crate::places::variable_in;
use crate::putting::put_shape;
use crate::step::Step;
use crate::tops::{sent, top_or};
use crate::variables::{make_at, store_at};
use sr_code::{Fifo, Operands};
use sr_core::{FormalShape, Mode, Scope, formal_shape};
use sr_frame::{Scene, bounded_by};
use sr_value::{Dims, Fault, NoMemory, Row, Shape, Shared, Value, ValueFail};
use std::alloc::Global;

/// A number becomes the shape of strings of that length.
pub fn string_shape(scene: &Scene, frame: &mut Frame, next: usize) -> Result<Step, NoMemory>
    ensures { Does result frame.new (begun scene.now.names.now instruction.StringShape (here_of scene.now) next frame.old.operands frame.old) }
{
    let number = frame.operands.numbers.take(0);
    if number < 0 {
        return Ok(Step::Faults(Fault::Range));
    }
    let most = number as u32;
    put_shape(frame, Shape::Str { most }, next)
}

/// A shape becomes that of arrays of one dimension.
pub fn one_dimension(scene: &Scene, frame: &mut Frame, next: usize) -> Result<Step, NoMemory>
    ensures { Does result frame.new (begun scene.now.names.now instruction.OneDimension (here_of scene.now) next frame.old.operands frame.old) }
{
    let hi = frame.operands.numbers.take(0);
    let lo = frame.operands.numbers.take(0);
    let item = Shared::new(scene.alloc, frame.operands.shapes.take(Shape::Int))?;
    let dims = Dims::One { lo, hi };
    put_shape(frame, Shape::Arr { dims, item }, next)
}

/// A shape becomes that of arrays of two dimensions.
pub fn two_dimensions(scene: &Scene, frame: &mut Frame, next: usize) -> Result<Step, NoMemory>
    ensures { Does result frame.new (begun scene.now.names.now instruction.TwoDimensions (here_of scene.now) next frame.old.operands frame.old) }
{
    let hi2 = frame.operands.numbers.take(0);
    let lo2 = frame.operands.numbers.take(0);
    let hi = frame.operands.numbers.take(0);
    let lo = frame.operands.numbers.take(0);
    let item = Shared::new(scene.alloc, frame.operands.shapes.take(Shape::Int))?;
    let dims = Dims::Two { lo, hi, lo2, hi2 };
    put_shape(frame, Shape::Arr { dims, item }, next)
}

/// Makes a variable of a shape.
pub fn make(
    scene: &Scene,
    frame: &mut Frame,
    scope: Scope,
    var: u32,
    next: usize,
) -> Result<Step, NoMemory>
    ensures { Does result frame.new (begun scene.now.names.now (instruction.Make scope var) (here_of scene.now) next frame.old.operands frame.old) }
{
    let shape = frame.operands.shapes.take(Shape::Int);
    make_at(
        scene.alloc,
        frame,
        variable_in(scene, scope, var),
        shape,
        next,
    )
}

/// Makes a variable of a shape with the bounds of a value, which stays.
pub fn make_like(
    scene: &Scene,
    frame: &mut Frame,
    scope: Scope,
    var: u32,
    shape: &Shape,
    next: usize,
) -> Result<Step, NoMemory>
    ensures { Does result frame.new (begun scene.now.names.now (instruction.MakeLike scope var shape.now) (here_of scene.now) next frame.old.operands frame.old) }
{
    let none = Value::Bool(false);
    let found = bounded_by(scene.alloc, shape, top_or(&frame.operands.values, &none))?;
    make_at(
        scene.alloc,
        frame,
        variable_in(scene, scope, var),
        found,
        next,
    )
}

/// Stores a value in a whole variable.
pub fn store_in(
    scene: &Scene,
    frame: &mut Frame,
    scope: Scope,
    var: u32,
    next: usize,
) -> Result<Step, NoMemory>
    ensures { Does result frame.new (begun scene.now.names.now (instruction.StoreIn scope var) (here_of scene.now) next frame.old.operands frame.old) }
{
    let value = frame.operands.values.take(Value::Bool(false));
    store_at(
        frame,
        variable_in(scene, scope, var),
        Row::new(scene.alloc),
        value,
        next,
    )
}

/// The type of a formal, by the next of the list.
pub fn formal_found(
    alloc: Global,
    operands: &Operands,
    mode: Mode,
    shape: &FormalShape,
) -> Result<Shape, ValueFail>
    ensures { Answers result (formal_shape shape.now (sent_to mode (list_on operands.now))) }
{
    let none = Fifo::new(alloc);
    formal_shape(alloc, shape, sent(mode, top_or(&operands.lists, &none)))
}

/// Makes a formal, whose argument is the next of the list.
pub fn make_formal(
    scene: &Scene,
    frame: &mut Frame,
    scope: Scope,
    var: u32,
    mode: Mode,
    shape: &FormalShape,
    next: usize,
) -> Result<Step, NoMemory>
    ensures { Does result frame.new (begun scene.now.names.now (instruction.MakeFormal scope var mode shape.now) (here_of scene.now) next frame.old.operands frame.old) }
{
    match formal_found(scene.alloc, &frame.operands, mode, shape) {
        Ok(found) => make_at(
            scene.alloc,
            frame,
            variable_in(scene, scope, var),
            found,
            next,
        ),
        Err(ValueFail::Fault(fault)) => Ok(Step::Faults(fault)),
        Err(ValueFail::NoMemory) => Err(NoMemory),
    }
}

/// Takes what a formal is sent, where it is sent something.
pub fn take_sent(mode: Mode, args: &mut Fifo<Value>) -> Option<Value>
    ensures sent { result ≡ sent_to mode args.old }
    ensures others { args.new ≡ sent_after mode args.old }
{
    match mode {
        Mode::Val => args.take_first(),
        Mode::Var => args.take_first(),
        Mode::Res => None,
    }
}

/// Stores the next argument of the list in its formal.
pub fn store_formal(
    scene: &Scene,
    frame: &mut Frame,
    scope: Scope,
    var: u32,
    mode: Mode,
    next: usize,
) -> Result<Step, NoMemory>
    ensures { Does result frame.new (begun scene.now.names.now (instruction.StoreFormal scope var mode) (here_of scene.now) next frame.old.operands frame.old) }
{
    let mut args = frame.operands.lists.take(Fifo::new(scene.alloc));
    let sent = take_sent(mode, &mut args);
    frame.operands.lists.push(args)?;
    match sent {
        None => Ok(Step::Goes(next)),
        Some(value) => store_at(
            frame,
            variable_in(scene, scope, var),
            Row::new(scene.alloc),
            value,
            next,
        ),
    }
}
