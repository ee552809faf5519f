ghost use Rattle.std.specs.Prelude.{◌≡◌, Ok};
ghost use Rattle.sr_ask.specs.declared.request.Request.TheVariants as request;
ghost use Rattle.sr_code.specs.Operands.{drop_list, drop_numbers, drop_value, number_on};
ghost use Rattle.sr_frame.specs.Scenes.{here_of};
ghost use Rattle.sr_execute.specs.Executes.{Does, begun, went};
ghost use Rattle.sr_code.specs.declared.instruction.Instruction.TheVariants as instruction;

use crate::frame::Frame;
use crate::places::{extend, owner_in, root_in};
use crate::putting::{put_list, put_pieces, put_place, put_shape, put_value};
use crate::step::Step;
use crate::ticks::number_on;
use sr_ask::Request;
use sr_code::Fifo;
use sr_core::{OperationOwner, Root};
use sr_frame::{Scene, whole};
use sr_value::{Cap, Duplicate, NoMemory, Row, Sel, Shape, Value};

/// A constant goes on the operands.
pub fn put_constant(
    scene: &Scene,
    frame: &mut Frame,
    value: &Value,
    next: usize,
) -> Result<Step, NoMemory>
    ensures { Does result frame.new (begun scene.now.names.now (instruction.Constant value.now) (here_of scene.now) next frame.old.operands frame.old) }
{
    put_value(frame, value.copy(scene.alloc)?, next)
}

/// The capability of an operation goes on the operands.
pub fn put_operation(
    scene: &Scene,
    frame: &mut Frame,
    whose: OperationOwner,
    op: u32,
    next: usize,
) -> Result<Step, NoMemory>
    ensures { Does result frame.new (begun scene.now.names.now (instruction.Operation whose op) (here_of scene.now) next frame.old.operands frame.old) }
{
    let owner = owner_in(scene, whose);
    put_value(frame, Value::Capa(Cap::Op { owner, op }), next)
}

/// The capability of the instance goes on the operands.
pub fn put_resource(scene: &Scene, frame: &mut Frame, next: usize) -> Result<Step, NoMemory>
    ensures { Does result frame.new (begun scene.now.names.now instruction.MyResource (here_of scene.now) next frame.old.operands frame.old) }
{
    put_value(frame, Value::Capa(Cap::Res(scene.start.instance)), next)
}

/// The capability of the machine goes on the operands.
pub fn put_machine(scene: &Scene, frame: &mut Frame, next: usize) -> Result<Step, NoMemory>
    ensures { Does result frame.new (begun scene.now.names.now instruction.MyMachine (here_of scene.now) next frame.old.operands frame.old) }
{
    put_value(frame, Value::Capa(Cap::Vm(scene.start.vm)), next)
}

/// A list without values goes on the operands.
pub fn put_no_values(scene: &Scene, frame: &mut Frame, next: usize) -> Result<Step, NoMemory>
    ensures { Does result frame.new (begun scene.now.names.now instruction.NoValues (here_of scene.now) next frame.old.operands frame.old) }
{
    put_list(frame, Fifo::new(scene.alloc), next)
}

/// A bracketed list without pieces goes on the operands.
pub fn put_no_pieces(scene: &Scene, frame: &mut Frame, next: usize) -> Result<Step, NoMemory>
    ensures { Does result frame.new (begun scene.now.names.now instruction.NoPieces (here_of scene.now) next frame.old.operands frame.old) }
{
    put_pieces(frame, Row::new(scene.alloc), next)
}

/// The place of a variable goes on the operands.
pub fn put_spot(scene: &Scene, frame: &mut Frame, root: Root, next: usize) -> Result<Step, NoMemory>
    ensures { Does result frame.new (begun scene.now.names.now (instruction.Spot root) (here_of scene.now) next frame.old.operands frame.old) }
{
    put_place(frame, whole(scene.alloc, root_in(scene, root)), next)
}

/// A place becomes its field.
pub fn place_field(
    scene: &Scene,
    frame: &mut Frame,
    field: u32,
    next: usize,
) -> Result<Step, NoMemory>
    ensures { Does result frame.new (begun scene.now.names.now (instruction.Field field) (here_of scene.now) next frame.old.operands frame.old) }
{
    extend(scene, frame, Sel::Field(field), next)
}

/// A shape that is fixed goes on the operands.
pub fn put_fixed(
    scene: &Scene,
    frame: &mut Frame,
    shape: &Shape,
    next: usize,
) -> Result<Step, NoMemory>
    ensures { Does result frame.new (begun scene.now.names.now (instruction.FixedShape shape.now) (here_of scene.now) next frame.old.operands frame.old) }
{
    put_shape(frame, shape.copy(scene.alloc)?, next)
}

/// The arguments of the process go on the operands.
pub fn put_arguments(scene: &Scene, frame: &mut Frame, next: usize) -> Result<Step, NoMemory>
    ensures { Does result frame.new (begun scene.now.names.now instruction.Arguments (here_of scene.now) next frame.old.operands frame.old) }
{
    put_list(
        frame,
        Fifo::from_row(scene.start.args.copy(scene.alloc)?),
        next,
    )
}

/// The list on top goes.
pub fn drop_list(frame: &mut Frame, next: usize) -> Result<Step, NoMemory>
    ensures { Does result frame.new (went next (drop_list frame.old.operands) frame.old) }
{
    let _ = frame.operands.lists.pop();
    Ok(Step::Goes(next))
}

/// The value on top goes.
pub fn drop_value(frame: &mut Frame, next: usize) -> Result<Step, NoMemory>
    ensures { Does result frame.new (went next (drop_value frame.old.operands) frame.old) }
{
    let _ = frame.operands.values.pop();
    Ok(Step::Goes(next))
}

/// The numbers of a quantifier go.
pub fn drop_numbers(frame: &mut Frame, next: usize) -> Result<Step, NoMemory>
    ensures { Does result frame.new (went next (drop_numbers frame.old.operands) frame.old) }
{
    let _ = frame.operands.loops.pop();
    Ok(Step::Goes(next))
}

/// Asks how many invocations of an operation are pending.
pub fn count(op: u32) -> Result<Step, NoMemory>
    ensures { result ≡ Ok (Step.Asks (request.Count op)) }
{
    Ok(Step::Asks(Request::Count { op }))
}

/// Asks for a new machine.
pub fn make_machine() -> Result<Step, NoMemory>
    ensures { result ≡ Ok (Step.Asks request.MakeVm) }
{
    Ok(Step::Asks(Request::MakeVm))
}

/// Asks for the moment.
pub fn moment() -> Result<Step, NoMemory>
    ensures { result ≡ Ok (Step.Asks request.Age) }
{
    Ok(Step::Asks(Request::Age))
}

/// Asks to end the run with the status on top.
pub fn stop(frame: &Frame) -> Result<Step, NoMemory>
    ensures { result ≡ Ok (Step.Asks (request.Stop (number_on frame.now.operands))) }
{
    Ok(Step::Asks(Request::Stop {
        status: number_on(frame),
    }))
}
