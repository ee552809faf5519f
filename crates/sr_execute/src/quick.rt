ghost use Rattle.std.specs.Prelude.{◌≡◌, IfSome, Ok, Some};
ghost use Rattle.sr_value.specs.Operators.{Answers, int_result, value_of};
ghost use Rattle.sr_code.specs.Operands.{drop_value, put_place, put_value};
ghost use Rattle.sr_code.specs.Stacks.{below, first};
ghost use Rattle.sr_frame.specs.Scenes.{here_of};
ghost use Rattle.sr_frame.specs.Variables.{own_value};
ghost use Rattle.sr_execute.specs.Executes.{begun, ticking, went};
ghost use Rattle.sr_execute.specs.Quick.{DoesOrLeaves};
ghost use Rattle.sr_code.specs.declared.instruction.Instruction.TheVariants as instruction;

use crate::frame::Frame;
use crate::places::{owner_in, root_in, take_place};
use crate::quick_calls::{
    quick_arguments, quick_collect, quick_drop_list, quick_end_service, quick_no_values,
    quick_open_service, quick_pass_value, quick_reply, quick_store_results, quick_to_call,
};
use crate::quick_variables::{
    quick_each, quick_make, quick_make_formal, quick_store_formal, quick_store_in,
};
use crate::tops::{take_value, top_or};
use sr_ask::{Located, Own, Spot};
use sr_code::{Instruction, Stack};
use sr_core::{OperationOwner, Scope, number, truth};
use sr_frame::{Scene, own_stored, own_value, whole};
use sr_value::{
    Cap, Duplicate, Fault, NoMemory, Operator, Row, Sel, Shape, Value, ValueFail, arith, modulo,
    remainder,
};
use std::alloc::Global;

/// Where an instruction leads that loops often use. It is smaller than a `Step`, which may hold a request.
#[derive(Clone, Copy)]
pub enum Carried {
    /// The process goes on at an address.
    Goes(usize),
    /// It has found a fault.
    Faults(Fault),
    /// The instruction isn't one of these, or it asks. Nothing has changed.
    Left,
}

/// Carries out an instruction that loops or rendezvous often use, where it asks nothing.
// Of the arms from `quick_constant` on those are calls that aren't inlined whose temporaries would be filled for each
// instruction.
pub fn execute_quickly(
    scene: &Scene,
    frame: &mut Frame,
    instruction: &Instruction,
    next: usize,
) -> Result<Carried, NoMemory>
    ensures { DoesOrLeaves result frame.old frame.new (begun scene.now.names.now instruction.now (here_of scene.now) next frame.old.operands frame.old) }
{
    match instruction {
        Instruction::Constant(Value::Int(number)) => quick_value(frame, Value::Int(*number), next),
        Instruction::Constant(Value::Bool(truth)) => quick_value(frame, Value::Bool(*truth), next),
        Instruction::Spot(root) => quick_place(
            frame,
            whole(scene.alloc, root_in(scene, *root)),
            next,
        ),
        Instruction::Load => quick_load(scene, frame, next),
        Instruction::LoadAgain => quick_load_again(scene, frame, next),
        Instruction::Store => quick_store(scene, frame, next),
        Instruction::Operate(op) => quick_operate(scene, frame, *op, next),
        Instruction::ToNumber => quick_number(scene, frame, next),
        Instruction::At => quick_at(scene, frame, next),
        Instruction::Tick => quick_tick(frame, next),
        Instruction::Again { to } => quick_tick(frame, *to),
        Instruction::Jump { to } => Ok(Carried::Goes((*to).min(next))),
        Instruction::JumpUnless { to } => quick_jump_unless(scene, frame, *to, next),
        Instruction::Each { var, head } => quick_each(scene, frame, *var, *head, next),
        Instruction::Constant(value) => quick_constant(scene, frame, value, next),
        Instruction::FixedShape(shape) => quick_fixed_shape(scene, frame, shape, next),
        Instruction::Make {
            scope: Scope::Own,
            var,
        } => quick_make(scene, frame, *var, next),
        Instruction::StoreIn {
            scope: Scope::Own,
            var,
        } => quick_store_in(scene, frame, *var, next),
        Instruction::MakeFormal {
            scope: Scope::Own,
            var,
            mode,
            shape,
        } => quick_make_formal(scene, frame, *var, *mode, shape, next),
        Instruction::StoreFormal {
            scope: Scope::Own,
            var,
            mode,
        } => quick_store_formal(scene, frame, *var, *mode, next),
        Instruction::Operation { whose, op } => quick_operation(scene, frame, *whose, *op, next),
        Instruction::ToCall => quick_to_call(scene, frame, next),
        Instruction::PassValue => quick_pass_value(scene, frame, next),
        Instruction::StoreResults { to } => quick_store_results(scene, frame, *to, next),
        Instruction::DropValue => quick_drop_value(frame, next),
        Instruction::Arguments => quick_arguments(scene, frame, next),
        Instruction::NoValues => quick_no_values(scene, frame, next),
        Instruction::Collect => quick_collect(scene, frame, next),
        Instruction::DropList => quick_drop_list(frame, next),
        Instruction::OpenService { gives } => quick_open_service(scene, frame, gives, next),
        Instruction::EndService => quick_end_service(scene, frame, next),
        Instruction::Reply => quick_reply(scene, frame, next),
        _ => Ok(Carried::Left),
    }
}

/// A value goes on the operands.
// A call of it would have temporaries that are filled for each instruction.
#[inline(always)]
pub fn quick_value(frame: &mut Frame, value: Value, next: usize) -> Result<Carried, NoMemory>
    ensures { DoesOrLeaves result frame.old frame.new (went next (put_value value frame.old.operands) frame.old) }
{
    frame.operands.values.push(value)?;
    Ok(Carried::Goes(next))
}

/// A place goes on the operands.
fn quick_place(frame: &mut Frame, place: Located, next: usize) -> Result<Carried, NoMemory>
    ensures { DoesOrLeaves result frame.old frame.new (went next (put_place place frame.old.operands) frame.old) }
{
    frame.operands.places.push(place)?;
    Ok(Carried::Goes(next))
}

/// A constant goes on the operands.
#[inline(never)]
fn quick_constant(
    scene: &Scene,
    frame: &mut Frame,
    value: &Value,
    next: usize,
) -> Result<Carried, NoMemory>
    ensures { DoesOrLeaves result frame.old frame.new (begun scene.now.names.now (instruction.Constant value.now) (here_of scene.now) next frame.old.operands frame.old) }
{
    quick_value(frame, value.copy(scene.alloc)?, next)
}

/// A shape that is fixed goes on the operands.
#[inline(always)]
fn quick_fixed_shape(
    scene: &Scene,
    frame: &mut Frame,
    shape: &Shape,
    next: usize,
) -> Result<Carried, NoMemory>
    ensures { DoesOrLeaves result frame.old frame.new (begun scene.now.names.now (instruction.FixedShape shape.now) (here_of scene.now) next frame.old.operands frame.old) }
{
    let shape = shape.copy(scene.alloc)?;
    frame.operands.shapes.push(shape)?;
    Ok(Carried::Goes(next))
}

/// The capability of an operation goes on the operands.
#[inline(always)]
fn quick_operation(
    scene: &Scene,
    frame: &mut Frame,
    whose: OperationOwner,
    op: u32,
    next: usize,
) -> Result<Carried, NoMemory>
    ensures { DoesOrLeaves result frame.old frame.new (begun scene.now.names.now (instruction.Operation whose op) (here_of scene.now) next frame.old.operands frame.old) }
{
    let owner = owner_in(scene, whose);
    quick_value(frame, Value::Capa(Cap::Op { owner, op }), next)
}

/// The value on top goes.
#[inline(never)]
fn quick_drop_value(frame: &mut Frame, next: usize) -> Result<Carried, NoMemory>
    ensures { DoesOrLeaves result frame.old frame.new (went next (drop_value frame.old.operands) frame.old) }
{
    let _ = frame.operands.values.pop();
    Ok(Carried::Goes(next))
}

/// What a part of an own variable holds. A whole number is looked at first.
fn value_at(
    alloc: Global,
    own: &Row<Option<Own>>,
    var: u32,
    path: &Row<Sel>,
) -> Result<Value, ValueFail>
    ensures { Answers result (own_value own.now var path.now) }
{
    match path.as_slice() {
        [] => match own.get(var as usize) {
            Some(Some(held)) => match held.value {
                Value::Int(number) => Ok(Value::Int(number)),
                _ => own_value(alloc, own, var, path),
            },
            _ => Err(ValueFail::Fault(Fault::Early)),
        },
        _ => own_value(alloc, own, var, path),
    }
}

/// A place in an own variable becomes what it holds.
fn quick_load(scene: &Scene, frame: &mut Frame, next: usize) -> Result<Carried, NoMemory>
    ensures { DoesOrLeaves result frame.old frame.new (begun scene.now.names.now instruction.Load (here_of scene.now) next frame.old.operands frame.old) }
{
    let none = whole(scene.alloc, Spot::Own(0));
    let place = top_or(&frame.operands.places, &none);
    let Spot::Own(var) = place.spot else {
        return Ok(Carried::Left);
    };
    match value_at(scene.alloc, &frame.own, var, &place.path) {
        Ok(value) => {
            let _ = frame.operands.places.pop();
            frame.operands.values.push(value)?;
            Ok(Carried::Goes(next))
        }
        Err(ValueFail::Fault(fault)) => Ok(Carried::Faults(fault)),
        Err(ValueFail::NoMemory) => Err(NoMemory),
    }
}

/// What a place in an own variable holds goes on the operands, and the place stays.
fn quick_load_again(scene: &Scene, frame: &mut Frame, next: usize) -> Result<Carried, NoMemory>
    ensures { DoesOrLeaves result frame.old frame.new (begun scene.now.names.now instruction.LoadAgain (here_of scene.now) next frame.old.operands frame.old) }
{
    let none = whole(scene.alloc, Spot::Own(0));
    let place = top_or(&frame.operands.places, &none);
    let Spot::Own(var) = place.spot else {
        return Ok(Carried::Left);
    };
    match value_at(scene.alloc, &frame.own, var, &place.path) {
        Ok(value) => quick_value(frame, value, next),
        Err(ValueFail::Fault(fault)) => Ok(Carried::Faults(fault)),
        Err(ValueFail::NoMemory) => Err(NoMemory),
    }
}

/// A value goes to the place on top, which is in an own variable.
fn quick_store(scene: &Scene, frame: &mut Frame, next: usize) -> Result<Carried, NoMemory>
    ensures { DoesOrLeaves result frame.old frame.new (begun scene.now.names.now instruction.Store (here_of scene.now) next frame.old.operands frame.old) }
{
    let none = whole(scene.alloc, Spot::Own(0));
    let Spot::Own(var) = top_or(&frame.operands.places, &none).spot else {
        return Ok(Carried::Left);
    };
    let value = take_value(&mut frame.operands.values);
    let place = take_place(scene.alloc, &mut frame.operands);
    match own_stored(&mut frame.own, var, place.path.as_slice(), value) {
        Ok(()) => Ok(Carried::Goes(next)),
        Err(fault) => Ok(Carried::Faults(fault)),
    }
}

/// The value of an operator between two numbers, where it is one that loops often use and no fault.
#[inline(always)]
fn value_of_numbers(op: Operator, x: i32, y: i32) -> Option<Value>
    ensures { IfSome result (λ value. value_of op (Value.Int x) (Value.Int y) ≡ Ok value) }
{
    match op {
        Operator::Add => Some(Value::Int(as_int(i64::from(x) + i64::from(y))?)),
        Operator::Sub => Some(Value::Int(as_int(i64::from(x) - i64::from(y))?)),
        Operator::Mul => Some(Value::Int(as_int(i64::from(x) * i64::from(y))?)),
        Operator::Mod if y != 0 => Some(Value::Int(modulo(x, y))),
        Operator::Rem if y != 0 => Some(Value::Int(remainder(x, y))),
        Operator::Eq => Some(Value::Bool(x == y)),
        Operator::Ne => Some(Value::Bool(x != y)),
        Operator::Lt => Some(Value::Bool(x < y)),
        Operator::Le => Some(Value::Bool(x <= y)),
        Operator::Gt => Some(Value::Bool(x > y)),
        Operator::Ge => Some(Value::Bool(x >= y)),
        _ => None,
    }
}

/// A whole number, where it is an `int`.
fn as_int(exact: i64) -> Option<i32>
    ensures { IfSome result (λ number. int_result exact ≡ Ok (Value.Int number)) }
{
    match i32::try_from(exact) {
        Ok(number) => Some(number),
        Err(_) => None,
    }
}

/// The two values on top, where both are numbers. The one on top comes second.
fn numbers_on(values: &Stack<Value>) -> Option<(i32, i32)>
    ensures last { IfSome result (λ numbers. first values.now ≡ Some (Value.Int numbers.1)) }
    ensures before { IfSome result (λ numbers. first (below values.now) ≡ Some (Value.Int numbers.0)) }
{
    match values.as_slice() {
        [.., Value::Int(x), Value::Int(y)] => Some((*x, *y)),
        _ => None,
    }
}

/// Two values become the result of an operator. Two numbers are looked at first.
fn quick_operate(
    scene: &Scene,
    frame: &mut Frame,
    op: Operator,
    next: usize,
) -> Result<Carried, NoMemory>
    ensures { DoesOrLeaves result frame.old frame.new (begun scene.now.names.now (instruction.Operate op) (here_of scene.now) next frame.old.operands frame.old) }
{
    if let Some((x, y)) = numbers_on(&frame.operands.values)
        && let Some(value) = value_of_numbers(op, x, y)
    {
        let _ = frame.operands.values.pop();
        let _ = frame.operands.values.pop();
        frame.operands.values.push(value)?;
        return Ok(Carried::Goes(next));
    }
    quick_operate_any(scene, frame, op, next)
}

/// Two values of any types become the result of an operator.
// In `quick_operate` its temporaries would be filled for numbers too.
#[inline(never)]
fn quick_operate_any(
    scene: &Scene,
    frame: &mut Frame,
    op: Operator,
    next: usize,
) -> Result<Carried, NoMemory>
    ensures { DoesOrLeaves result frame.old frame.new (begun scene.now.names.now (instruction.Operate op) (here_of scene.now) next frame.old.operands frame.old) }
{
    let y = take_value(&mut frame.operands.values);
    let x = take_value(&mut frame.operands.values);
    match arith(scene.alloc, op, &x, &y) {
        Ok(value) => {
            frame.operands.values.push(value)?;
            Ok(Carried::Goes(next))
        }
        Err(ValueFail::Fault(fault)) => Ok(Carried::Faults(fault)),
        Err(ValueFail::NoMemory) => Err(NoMemory),
    }
}

/// A value becomes a number.
fn quick_number(scene: &Scene, frame: &mut Frame, next: usize) -> Result<Carried, NoMemory>
    ensures { DoesOrLeaves result frame.old frame.new (begun scene.now.names.now instruction.ToNumber (here_of scene.now) next frame.old.operands frame.old) }
{
    let value = take_value(&mut frame.operands.values);
    match number(&value) {
        Ok(number) => {
            frame.operands.numbers.push(number)?;
            Ok(Carried::Goes(next))
        }
        Err(ValueFail::Fault(fault)) => Ok(Carried::Faults(fault)),
        Err(ValueFail::NoMemory) => Err(NoMemory),
    }
}

/// A place becomes its part at a number.
fn quick_at(scene: &Scene, frame: &mut Frame, next: usize) -> Result<Carried, NoMemory>
    ensures { DoesOrLeaves result frame.old frame.new (begun scene.now.names.now instruction.At (here_of scene.now) next frame.old.operands frame.old) }
{
    let index = frame.operands.numbers.take(0);
    let Located { spot, mut path } = take_place(scene.alloc, &mut frame.operands);
    path.push(Sel::At(index))?;
    frame.operands.places.push(Located { spot, path })?;
    Ok(Carried::Goes(next))
}

/// One statement begun, where a tick is left.
fn quick_tick(frame: &mut Frame, to: usize) -> Result<Carried, NoMemory>
    ensures { DoesOrLeaves result frame.old frame.new (ticking frame.old.ticks (λ f. went to frame.old.operands f) frame.old) }
{
    if frame.ticks == 0 {
        return Ok(Carried::Left);
    }
    frame.ticks -= 1;
    Ok(Carried::Goes(to))
}

/// Goes on where a value is true, or to `to`.
fn quick_jump_unless(
    scene: &Scene,
    frame: &mut Frame,
    to: usize,
    next: usize,
) -> Result<Carried, NoMemory>
    ensures { DoesOrLeaves result frame.old frame.new (begun scene.now.names.now (instruction.JumpUnless to) (here_of scene.now) next frame.old.operands frame.old) }
{
    let value = take_value(&mut frame.operands.values);
    match truth(&value) {
        Ok(true) => Ok(Carried::Goes(next)),
        Ok(false) => Ok(Carried::Goes(to.min(next))),
        Err(ValueFail::Fault(fault)) => Ok(Carried::Faults(fault)),
        Err(ValueFail::NoMemory) => Err(NoMemory),
    }
}
