ghost use Rattle.std.specs.Prelude.{OnOk, map};
ghost use Rattle.sr_code.specs.Operands.{join_piece, join_sel, join_target, put_list, put_place, put_value};
ghost use Rattle.sr_core.specs.declared.expression.Argument.TheOpen.{Expr-F};
ghost use Rattle.sr_meaning.specs.Expressions.{argument_of, expr_meaning, in_order, node_meaning, part_of_expr, place_of_expr, reading_of, step_of_expr};
ghost use Rattle.sr_gen_expr.specs.Emitting.{Gives, Takes, and_meaning, call_meaning, join_all, join_sent, operand_meaning, or_meaning, part_meaning_of, put_only};

use crate::call::gen_answer;
use crate::create::gen_created;
use crate::emitting::emit;
use crate::leaf::gen_leaf;
use crate::reading::gen_reads;
use sr_code::{Coded, Instruction};
use sr_core::{Argument, Core, Expr, Function, Part, PlaceExpr, Reading, Step};
use sr_value::{NoMemory, Operator, Place, Row, Shape};
use std::alloc::Global;

/// Emits the code of an expression, which puts its value.
#[cycle(expression)]
pub fn gen_expr(
    alloc: Global,
    core: &Core,
    place: Place,
    expr: &Expr,
    out: &mut Row<Coded>,
) -> Result<(), NoMemory>
    ensures { OnOk result (Gives put_value core.now place (expr_meaning expr.now) out.old out.new) }
{
    match expr {
        Expr::Leaf(leaf) => {
            gen_leaf(alloc, place, leaf, out)?;
            Ok(())
        }
        Expr::Load(at) => gen_load(alloc, core, place, at, out),
        Expr::Unary { op, operand } => gen_unary(alloc, core, place, *op, operand.get(), out),
        Expr::Binary { op, left, right } => {
            gen_right(alloc, core, place, *op, right.get(), out)?;
            gen_expr(alloc, core, place, left.get(), out)?;
            Ok(())
        }
        Expr::And { left, right } => {
            gen_and_right(alloc, core, place, right.get(), out)?;
            gen_expr(alloc, core, place, left.get(), out)?;
            Ok(())
        }
        Expr::Or { left, right } => {
            gen_or_right(alloc, core, place, right.get(), out)?;
            gen_expr(alloc, core, place, left.get(), out)?;
            Ok(())
        }
        Expr::Apply { function, args } => {
            gen_apply(alloc, core, place, *function, args.as_slice(), out)
        }
        Expr::Array(parts) => gen_array(alloc, core, place, parts.as_slice(), out),
        Expr::Of { whole, step } => {
            gen_selected(alloc, core, place, step.get(), out)?;
            gen_expr(alloc, core, place, whole.get(), out)?;
            Ok(())
        }
        Expr::Member { of, op } => gen_member(alloc, core, place, *op, of.get(), out),
        Expr::Call {
            target,
            args,
            returns,
        } => {
            gen_called(alloc, core, place, args.as_slice(), returns, out)?;
            gen_expr(alloc, core, place, target.get(), out)?;
            Ok(())
        }
        Expr::Create {
            resource,
            args,
            machine,
        } => {
            gen_created(core, place, *resource, out)?;
            gen_expr(alloc, core, place, machine.get(), out)?;
            gen_list(alloc, core, place, args.as_slice(), out)?;
            Ok(())
        }
        Expr::Read(readings) => gen_read(alloc, core, place, readings.as_slice(), out),
    }
}

#[cycle(expression)]
fn gen_load(
    alloc: Global,
    core: &Core,
    place: Place,
    at: &PlaceExpr,
    out: &mut Row<Coded>,
) -> Result<(), NoMemory>
    ensures { OnOk result (Gives put_value core.now place (node_meaning (Expr-F.Load (place_of_expr at.now))) out.old out.new) }
{
    emit(place, Instruction::Load, out)?;
    gen_place(alloc, core, place, at, out)?;
    Ok(())
}

#[cycle(expression)]
fn gen_unary(
    alloc: Global,
    core: &Core,
    place: Place,
    op: Operator,
    operand: &Expr,
    out: &mut Row<Coded>,
) -> Result<(), NoMemory>
    ensures { OnOk result (Gives put_value core.now place (node_meaning (Expr-F.Unary op (expr_meaning operand.now))) out.old out.new) }
{
    emit(place, Instruction::OperateOne(op), out)?;
    gen_expr(alloc, core, place, operand, out)?;
    Ok(())
}

/// Emits the right side of an operator, and the operator.
#[cycle(expression)]
fn gen_right(
    alloc: Global,
    core: &Core,
    place: Place,
    op: Operator,
    right: &Expr,
    out: &mut Row<Coded>,
) -> Result<(), NoMemory>
    ensures { OnOk result (Takes put_value (put_only put_value) core.now place (operand_meaning op (expr_meaning right.now)) out.old out.new) }
{
    emit(place, Instruction::Operate(op), out)?;
    gen_expr(alloc, core, place, right, out)?;
    Ok(())
}

/// Emits the right side of `and`, and the jump over it.
#[cycle(expression)]
fn gen_and_right(
    alloc: Global,
    core: &Core,
    place: Place,
    right: &Expr,
    out: &mut Row<Coded>,
) -> Result<(), NoMemory>
    ensures { OnOk result (Takes put_value (put_only put_value) core.now place (and_meaning (expr_meaning right.now)) out.old out.new) }
{
    let to = out.len();
    emit(place, Instruction::Operate(Operator::And), out)?;
    gen_expr(alloc, core, place, right, out)?;
    emit(place, Instruction::AndSkip { to }, out)?;
    Ok(())
}

/// Emits the right side of `or`, and the jump over it.
#[cycle(expression)]
fn gen_or_right(
    alloc: Global,
    core: &Core,
    place: Place,
    right: &Expr,
    out: &mut Row<Coded>,
) -> Result<(), NoMemory>
    ensures { OnOk result (Takes put_value (put_only put_value) core.now place (or_meaning (expr_meaning right.now)) out.old out.new) }
{
    let to = out.len();
    emit(place, Instruction::Operate(Operator::Or), out)?;
    gen_expr(alloc, core, place, right, out)?;
    emit(place, Instruction::OrSkip { to }, out)?;
    Ok(())
}

#[cycle(expression)]
fn gen_apply(
    alloc: Global,
    core: &Core,
    place: Place,
    function: Function,
    args: &[Expr],
    out: &mut Row<Coded>,
) -> Result<(), NoMemory>
    ensures { OnOk result (Gives put_value core.now place (node_meaning (Expr-F.Apply function (map expr_meaning args.now))) out.old out.new) }
{
    emit(place, Instruction::Apply(function), out)?;
    gen_list(alloc, core, place, args, out)?;
    Ok(())
}

/// Emits expressions from left to right, whose values become a list.
#[cycle(expression)]
pub fn gen_list(
    alloc: Global,
    core: &Core,
    place: Place,
    exprs: &[Expr],
    out: &mut Row<Coded>,
) -> Result<(), NoMemory>
    ensures { OnOk result (Gives put_list core.now place (in_order (map expr_meaning exprs.now)) out.old out.new) }
{
    let mut at = exprs.len();
    while at > 0 {
        at -= 1;
        emit(place, Instruction::Collect, out)?;
        gen_expr(alloc, core, place, &exprs[at], out)?;
    }
    emit(place, Instruction::NoValues, out)?;
    Ok(())
}

#[cycle(expression)]
fn gen_array(
    alloc: Global,
    core: &Core,
    place: Place,
    parts: &[Part],
    out: &mut Row<Coded>,
) -> Result<(), NoMemory>
    ensures { OnOk result (Gives put_value core.now place (node_meaning (Expr-F.Array (map part_of_expr parts.now))) out.old out.new) }
{
    emit(place, Instruction::MakeArray, out)?;
    let mut at = parts.len();
    while at > 0 {
        at -= 1;
        gen_part(alloc, core, place, &parts[at], out)?;
    }
    emit(place, Instruction::NoPieces, out)?;
    Ok(())
}

/// Emits one part of a bracketed list, which joins the others.
#[cycle(expression)]
fn gen_part(
    alloc: Global,
    core: &Core,
    place: Place,
    part: &Part,
    out: &mut Row<Coded>,
) -> Result<(), NoMemory>
    ensures { OnOk result (Gives join_piece core.now place (part_of_expr part.now) out.old out.new) }
{
    match part {
        Part::One(value) => {
            emit(place, Instruction::AddPiece, out)?;
            gen_expr(alloc, core, place, value, out)?;
            Ok(())
        }
        Part::Repeated { count, value } => {
            emit(place, Instruction::AddRepeated, out)?;
            gen_expr(alloc, core, place, value, out)?;
            emit(place, Instruction::ToNumber, out)?;
            gen_expr(alloc, core, place, count, out)?;
            Ok(())
        }
    }
}

/// Emits the part of a value that a step selects.
#[cycle(expression)]
fn gen_selected(
    alloc: Global,
    core: &Core,
    place: Place,
    step: &Step,
    out: &mut Row<Coded>,
) -> Result<(), NoMemory>
    ensures { OnOk result (Takes put_value (put_only put_value) core.now place (part_meaning_of (step_of_expr step.now)) out.old out.new) }
{
    match step {
        Step::At(index) => {
            emit(place, Instruction::PartAt, out)?;
            emit(place, Instruction::ToNumber, out)?;
            gen_expr(alloc, core, place, index, out)?;
            Ok(())
        }
        Step::At2(row, column) => {
            emit(place, Instruction::PartAt2, out)?;
            emit(place, Instruction::ToNumber, out)?;
            gen_expr(alloc, core, place, column, out)?;
            emit(place, Instruction::ToNumber, out)?;
            gen_expr(alloc, core, place, row, out)?;
            Ok(())
        }
        Step::Field(field) => {
            emit(place, Instruction::PartField(*field), out)?;
            Ok(())
        }
    }
}

#[cycle(expression)]
fn gen_member(
    alloc: Global,
    core: &Core,
    place: Place,
    op: u32,
    of: &Expr,
    out: &mut Row<Coded>,
) -> Result<(), NoMemory>
    ensures { OnOk result (Gives put_value core.now place (node_meaning (Expr-F.Member (expr_meaning of.now) op)) out.old out.new) }
{
    emit(place, Instruction::Member { op }, out)?;
    emit(place, Instruction::ToCap, out)?;
    gen_expr(alloc, core, place, of, out)?;
    Ok(())
}

/// Emits a call after its target.
#[cycle(expression)]
fn gen_called(
    alloc: Global,
    core: &Core,
    place: Place,
    args: &[Argument],
    returns: &Option<Shape>,
    out: &mut Row<Coded>,
) -> Result<(), NoMemory>
    ensures { OnOk result (Takes put_value (put_only put_value) core.now place (call_meaning (map argument_of args.now) returns.now) out.old out.new) }
{
    gen_answer(alloc, place, returns, out)?;
    emit(place, Instruction::Invoke, out)?;
    gen_arguments(alloc, core, place, args, out)?;
    emit(place, Instruction::ToCall, out)?;
    Ok(())
}

/// Emits arguments from left to right, which join the call.
#[cycle(expression)]
pub fn gen_arguments(
    alloc: Global,
    core: &Core,
    place: Place,
    args: &[Argument],
    out: &mut Row<Coded>,
) -> Result<(), NoMemory>
    ensures { OnOk result (Gives (join_all join_sent) core.now place (in_order (map argument_of args.now)) out.old out.new) }
{
    let mut at = args.len();
    while at > 0 {
        at -= 1;
        gen_argument(alloc, core, place, &args[at], out)?;
    }
    Ok(())
}

#[cycle(expression)]
fn gen_argument(
    alloc: Global,
    core: &Core,
    place: Place,
    arg: &Argument,
    out: &mut Row<Coded>,
) -> Result<(), NoMemory>
    ensures { OnOk result (Gives join_sent core.now place (argument_of arg.now) out.old out.new) }
{
    match arg {
        Argument::Val(value) => {
            emit(place, Instruction::PassValue, out)?;
            gen_expr(alloc, core, place, value, out)?;
            Ok(())
        }
        Argument::Var(at) => {
            emit(place, Instruction::PassVar, out)?;
            gen_place(alloc, core, place, at, out)?;
            Ok(())
        }
        Argument::Res(at) => {
            emit(place, Instruction::PassRes, out)?;
            gen_place(alloc, core, place, at, out)?;
            Ok(())
        }
    }
}

#[cycle(expression)]
fn gen_read(
    alloc: Global,
    core: &Core,
    place: Place,
    readings: &[Reading],
    out: &mut Row<Coded>,
) -> Result<(), NoMemory>
    ensures { OnOk result (Gives put_value core.now place (node_meaning (Expr-F.Read (map reading_of readings.now))) out.old out.new) }
{
    gen_reads(place, out)?;
    let mut at = readings.len();
    while at > 0 {
        at -= 1;
        gen_reading(alloc, core, place, &readings[at], out)?;
    }
    emit(place, Instruction::NoReadings, out)?;
    Ok(())
}

/// Emits a place that is read into, which joins the others.
#[cycle(expression)]
fn gen_reading(
    alloc: Global,
    core: &Core,
    place: Place,
    reading: &Reading,
    out: &mut Row<Coded>,
) -> Result<(), NoMemory>
    ensures { OnOk result (Gives join_target core.now place (reading_of reading.now) out.old out.new) }
{
    emit(place, Instruction::AddReading(reading.kind), out)?;
    gen_place(alloc, core, place, &reading.place, out)?;
    Ok(())
}

/// Emits the code of a place: its indices are evaluated once.
#[cycle(expression)]
pub fn gen_place(
    alloc: Global,
    core: &Core,
    place: Place,
    at: &PlaceExpr,
    out: &mut Row<Coded>,
) -> Result<(), NoMemory>
    ensures { OnOk result (Gives put_place core.now place (place_of_expr at.now) out.old out.new) }
{
    gen_steps(alloc, core, place, at.path.as_slice(), out)?;
    emit(place, Instruction::Spot(at.root), out)?;
    Ok(())
}

/// Emits the steps of a place from left to right.
#[cycle(expression)]
fn gen_steps(
    alloc: Global,
    core: &Core,
    place: Place,
    steps: &[Step],
    out: &mut Row<Coded>,
) -> Result<(), NoMemory>
    ensures { OnOk result (Gives (join_all join_sel) core.now place (in_order (map step_of_expr steps.now)) out.old out.new) }
{
    let mut at = steps.len();
    while at > 0 {
        at -= 1;
        gen_step(alloc, core, place, &steps[at], out)?;
    }
    Ok(())
}

#[cycle(expression)]
fn gen_step(
    alloc: Global,
    core: &Core,
    place: Place,
    step: &Step,
    out: &mut Row<Coded>,
) -> Result<(), NoMemory>
    ensures { OnOk result (Gives join_sel core.now place (step_of_expr step.now) out.old out.new) }
{
    match step {
        Step::At(index) => {
            emit(place, Instruction::At, out)?;
            emit(place, Instruction::ToNumber, out)?;
            gen_expr(alloc, core, place, index, out)?;
            Ok(())
        }
        Step::At2(row, column) => {
            emit(place, Instruction::At2, out)?;
            emit(place, Instruction::ToNumber, out)?;
            gen_expr(alloc, core, place, column, out)?;
            emit(place, Instruction::ToNumber, out)?;
            gen_expr(alloc, core, place, row, out)?;
            Ok(())
        }
        Step::Field(field) => {
            emit(place, Instruction::Field(*field), out)?;
            Ok(())
        }
    }
}
