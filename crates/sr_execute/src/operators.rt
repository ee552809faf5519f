ghost use Rattle.sr_value.specs.Operators.{Answers};
ghost use Rattle.sr_core.specs.Values.{truth_of};
ghost use Rattle.sr_code.specs.Operands.{value_on};
ghost use Rattle.sr_frame.specs.Scenes.{here_of};
ghost use Rattle.sr_execute.specs.Executes.{Does, begun};
ghost use Rattle.sr_code.specs.declared.instruction.Instruction.TheVariants as instruction;

use crate::frame::Frame;
use crate::putting::{put_number, put_value};
use crate::step::Step;
use crate::tops::top_or;
use sr_code::Fifo;
use sr_core::{Function, apply, capability, count, member, number, truth};
use sr_frame::Scene;
use sr_value::{Cap, Fault, NoMemory, Operator, Value, ValueFail, arith, unary};

/// A value becomes the result of an operator.
pub fn operate_one(
    scene: &Scene,
    frame: &mut Frame,
    op: Operator,
    next: usize,
) -> Result<Step, NoMemory>
    ensures { Does result frame.new (begun scene.now.names.now (instruction.OperateOne op) (here_of scene.now) next frame.old.operands frame.old) }
{
    let x = frame.operands.values.take(Value::Bool(false));
    match unary(scene.alloc, op, &x) {
        Ok(value) => put_value(frame, value, next),
        Err(ValueFail::Fault(fault)) => Ok(Step::Faults(fault)),
        Err(ValueFail::NoMemory) => Err(NoMemory),
    }
}

/// Two values become the result of an operator.
pub fn operate(
    scene: &Scene,
    frame: &mut Frame,
    op: Operator,
    next: usize,
) -> Result<Step, NoMemory>
    ensures { Does result frame.new (begun scene.now.names.now (instruction.Operate op) (here_of scene.now) next frame.old.operands frame.old) }
{
    let y = frame.operands.values.take(Value::Bool(false));
    let x = frame.operands.values.take(Value::Bool(false));
    match arith(scene.alloc, op, &x, &y) {
        Ok(value) => put_value(frame, value, next),
        Err(ValueFail::Fault(fault)) => Ok(Step::Faults(fault)),
        Err(ValueFail::NoMemory) => Err(NoMemory),
    }
}

/// The truth of the value on top, which stays.
fn truth_on(frame: &Frame) -> Result<bool, ValueFail>
    ensures { Answers result (truth_of (value_on frame.now.operands)) }
{
    truth(top_or(&frame.operands.values, &Value::Bool(false)))
}

/// Goes on with a true value, or to `to` with false.
pub fn and_skip(scene: &Scene, frame: &mut Frame, to: usize, next: usize) -> Result<Step, NoMemory>
    ensures { Does result frame.new (begun scene.now.names.now (instruction.AndSkip to) (here_of scene.now) next frame.old.operands frame.old) }
{
    match truth_on(frame) {
        Ok(true) => Ok(Step::Goes(next)),
        Ok(false) => {
            let _ = frame.operands.values.pop();
            put_value(frame, Value::Bool(false), to.min(next))
        }
        Err(ValueFail::Fault(fault)) => Ok(Step::Faults(fault)),
        Err(ValueFail::NoMemory) => Err(NoMemory),
    }
}

/// Goes on with a false value, or to `to` with true.
pub fn or_skip(scene: &Scene, frame: &mut Frame, to: usize, next: usize) -> Result<Step, NoMemory>
    ensures { Does result frame.new (begun scene.now.names.now (instruction.OrSkip to) (here_of scene.now) next frame.old.operands frame.old) }
{
    match truth_on(frame) {
        Ok(true) => {
            let _ = frame.operands.values.pop();
            put_value(frame, Value::Bool(true), to.min(next))
        }
        Ok(false) => Ok(Step::Goes(next)),
        Err(ValueFail::Fault(fault)) => Ok(Step::Faults(fault)),
        Err(ValueFail::NoMemory) => Err(NoMemory),
    }
}

/// Goes on where a value is true, or to `to`.
pub fn jump_unless(
    scene: &Scene,
    frame: &mut Frame,
    to: usize,
    next: usize,
) -> Result<Step, NoMemory>
    ensures { Does result frame.new (begun scene.now.names.now (instruction.JumpUnless to) (here_of scene.now) next frame.old.operands frame.old) }
{
    let value = frame.operands.values.take(Value::Bool(false));
    match truth(&value) {
        Ok(true) => Ok(Step::Goes(next)),
        Ok(false) => Ok(Step::Goes(to.min(next))),
        Err(ValueFail::Fault(fault)) => Ok(Step::Faults(fault)),
        Err(ValueFail::NoMemory) => Err(NoMemory),
    }
}

/// A value becomes a number.
pub fn to_number(scene: &Scene, frame: &mut Frame, next: usize) -> Result<Step, NoMemory>
    ensures { Does result frame.new (begun scene.now.names.now instruction.ToNumber (here_of scene.now) next frame.old.operands frame.old) }
{
    let value = frame.operands.values.take(Value::Bool(false));
    match number(&value) {
        Ok(number) => put_number(frame, number, next),
        Err(ValueFail::Fault(fault)) => Ok(Step::Faults(fault)),
        Err(ValueFail::NoMemory) => Err(NoMemory),
    }
}

/// A value becomes a capability.
pub fn to_cap(scene: &Scene, frame: &mut Frame, next: usize) -> Result<Step, NoMemory>
    ensures { Does result frame.new (begun scene.now.names.now instruction.ToCap (here_of scene.now) next frame.old.operands frame.old) }
{
    let value = frame.operands.values.take(Value::Bool(false));
    match capability(&value) {
        Ok(cap) => {
            frame.operands.caps.push(cap)?;
            Ok(Step::Goes(next))
        }
        Err(ValueFail::Fault(fault)) => Ok(Step::Faults(fault)),
        Err(ValueFail::NoMemory) => Err(NoMemory),
    }
}

/// A list becomes the result of a predefined function.
pub fn apply_to_list(
    scene: &Scene,
    frame: &mut Frame,
    function: Function,
    next: usize,
) -> Result<Step, NoMemory>
    ensures { Does result frame.new (begun scene.now.names.now (instruction.Apply function) (here_of scene.now) next frame.old.operands frame.old) }
{
    let args = frame.operands.lists.take(Fifo::new(scene.alloc)).into_row();
    match apply(scene.alloc, scene.names, function, args) {
        Ok(value) => put_value(frame, value, next),
        Err(ValueFail::Fault(fault)) => Ok(Step::Faults(fault)),
        Err(ValueFail::NoMemory) => Err(NoMemory),
    }
}

/// A capability becomes that of an operation of its instance.
pub fn member_of(scene: &Scene, frame: &mut Frame, op: u32, next: usize) -> Result<Step, NoMemory>
    ensures { Does result frame.new (begun scene.now.names.now (instruction.Member op) (here_of scene.now) next frame.old.operands frame.old) }
{
    let cap = frame.operands.caps.take(Cap::Null);
    match member(op, cap) {
        Ok(value) => put_value(frame, value, next),
        Err(ValueFail::Fault(fault)) => Ok(Step::Faults(fault)),
        Err(ValueFail::NoMemory) => Err(NoMemory),
    }
}

/// A number becomes a count.
pub fn to_count(scene: &Scene, frame: &mut Frame, next: usize) -> Result<Step, NoMemory>
    ensures { Does result frame.new (begun scene.now.names.now instruction.ToCount (here_of scene.now) next frame.old.operands frame.old) }
{
    let number = frame.operands.numbers.take(0);
    match count(number) {
        Ok(count) => {
            frame.operands.counts.push(count)?;
            Ok(Step::Goes(next))
        }
        Err(ValueFail::Fault(fault)) => Ok(Step::Faults(fault)),
        Err(ValueFail::NoMemory) => Err(NoMemory),
    }
}

/// A number becomes a time to wait.
pub fn to_wait(scene: &Scene, frame: &mut Frame, next: usize) -> Result<Step, NoMemory>
    ensures { Does result frame.new (begun scene.now.names.now instruction.ToWait (here_of scene.now) next frame.old.operands frame.old) }
{
    let number = frame.operands.numbers.take(0);
    if number < 0 {
        return Ok(Step::Faults(Fault::Range));
    }
    put_number(frame, number, next)
}
