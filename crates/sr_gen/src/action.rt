ghost use Rattle.std.specs.Prelude.{◌≡◌, OnOk};
ghost use Rattle.sr_code.specs.Operands.{put_number};
ghost use Rattle.sr_meaning.specs.Statements.{action_meaning, bump_operator, status_meaning};
ghost use Rattle.sr_gen_expr.specs.Emitting.{Gives};
ghost use Rattle.sr_gen.specs.Doing.{Acts, put_ready, ready_meaning};
ghost use Rattle.sr_gen.specs.declared.ways.Ways.{Ways};

use crate::ways::Ways;
use sr_code::{Coded, Instruction};
use sr_core::{Action, Argument, Bump, Core, Expr, PlaceExpr};
use sr_gen_expr::{emit, gen_arguments, gen_cap, gen_expr, gen_list, gen_number, gen_place};
use sr_value::{NoMemory, Operator, Place, Row, Value};
use std::alloc::Global;

/// Emits a statement without blocks.
pub fn gen_action(
    alloc: Global,
    core: &Core,
    ways: Ways,
    place: Place,
    action: &Action,
    out: &mut Row<Coded>,
) -> Result<(), NoMemory>
    ensures { OnOk result (Acts ways core.now place (action_meaning action.now) out.old out.new) }
{
    match action {
        Action::Skip => Ok(()),
        Action::Evaluate(expr) => {
            gen_evaluate(alloc, core, place, expr, out)?;
            Ok(())
        }
        Action::Send { target, args } => {
            gen_send(alloc, core, place, target, args.as_slice(), out)?;
            Ok(())
        }
        Action::Forward { target, args } => {
            gen_forward(alloc, core, place, target, args.as_slice(), out)?;
            Ok(())
        }
        Action::Assign { place: at, value } => {
            gen_assign(alloc, core, place, at, value, out)?;
            Ok(())
        }
        Action::Swap { left, right } => {
            gen_swap(alloc, core, place, left, right, out)?;
            Ok(())
        }
        Action::Bump { place: at, bump } => {
            gen_bump(alloc, core, place, at, *bump, out)?;
            Ok(())
        }
        Action::Write { args, line } => {
            gen_write(alloc, core, place, args.as_slice(), *line, out)?;
            Ok(())
        }
        Action::Stop { status } => {
            gen_stop(alloc, core, place, status, out)?;
            Ok(())
        }
        Action::Destroy { target } => {
            gen_destroy(alloc, core, place, target, out)?;
            Ok(())
        }
        Action::Until { time } => {
            gen_until(alloc, core, place, time, out)?;
            Ok(())
        }
        Action::Exit => {
            emit(place, Instruction::Jump { to: ways.left }, out)?;
            Ok(())
        }
        Action::Next => {
            emit(place, Instruction::Jump { to: ways.turned }, out)?;
            Ok(())
        }
        Action::Return => {
            emit(place, Instruction::Jump { to: ways.returned }, out)?;
            Ok(())
        }
        Action::Reply => {
            emit(place, Instruction::Reply, out)?;
            Ok(())
        }
    }
}

fn gen_evaluate(
    alloc: Global,
    core: &Core,
    place: Place,
    expr: &Expr,
    out: &mut Row<Coded>,
) -> Result<(), NoMemory>
    ensures { OnOk result ((ways : Ways) → Acts ways core.now place (action_meaning (Action.Evaluate expr.now)) out.old out.new) }
{
    emit(place, Instruction::DropValue, out)?;
    gen_expr(alloc, core, place, expr, out)?;
    Ok(())
}

/// Emits the target and the arguments of an invocation, which become a call.
pub fn gen_ready(
    alloc: Global,
    core: &Core,
    place: Place,
    target: &Expr,
    args: &[Argument],
    out: &mut Row<Coded>,
) -> Result<(), NoMemory>
    ensures { OnOk result (Gives put_ready core.now place (ready_meaning target.now args.now) out.old out.new) }
{
    gen_arguments(alloc, core, place, args, out)?;
    emit(place, Instruction::ToCall, out)?;
    gen_expr(alloc, core, place, target, out)?;
    Ok(())
}

pub fn gen_send(
    alloc: Global,
    core: &Core,
    place: Place,
    target: &Expr,
    args: &[Argument],
    out: &mut Row<Coded>,
) -> Result<(), NoMemory>
    ensures { OnOk result ((ways : Ways) → Acts ways core.now place (action_meaning (Action.Send target.now args.now)) out.old out.new) }
{
    emit(place, Instruction::Send, out)?;
    gen_ready(alloc, core, place, target, args, out)?;
    Ok(())
}

fn gen_forward(
    alloc: Global,
    core: &Core,
    place: Place,
    target: &Expr,
    args: &[Argument],
    out: &mut Row<Coded>,
) -> Result<(), NoMemory>
    ensures { OnOk result ((ways : Ways) → Acts ways core.now place (action_meaning (Action.Forward target.now args.now)) out.old out.new) }
{
    emit(place, Instruction::Forward, out)?;
    gen_ready(alloc, core, place, target, args, out)?;
    Ok(())
}

fn gen_assign(
    alloc: Global,
    core: &Core,
    place: Place,
    at: &PlaceExpr,
    value: &Expr,
    out: &mut Row<Coded>,
) -> Result<(), NoMemory>
    ensures { OnOk result ((ways : Ways) → Acts ways core.now place (action_meaning (Action.Assign at.now value.now)) out.old out.new) }
{
    emit(place, Instruction::Store, out)?;
    gen_expr(alloc, core, place, value, out)?;
    gen_place(alloc, core, place, at, out)?;
    Ok(())
}

fn gen_swap(
    alloc: Global,
    core: &Core,
    place: Place,
    left: &PlaceExpr,
    right: &PlaceExpr,
    out: &mut Row<Coded>,
) -> Result<(), NoMemory>
    ensures { OnOk result ((ways : Ways) → Acts ways core.now place (action_meaning (Action.Swap left.now right.now)) out.old out.new) }
{
    emit(place, Instruction::Store, out)?;
    emit(place, Instruction::StoreSecond, out)?;
    emit(place, Instruction::LoadAgain, out)?;
    emit(place, Instruction::LoadSecond, out)?;
    gen_place(alloc, core, place, right, out)?;
    gen_place(alloc, core, place, left, out)?;
    Ok(())
}

fn gen_bump(
    alloc: Global,
    core: &Core,
    place: Place,
    at: &PlaceExpr,
    bump: Bump,
    out: &mut Row<Coded>,
) -> Result<(), NoMemory>
    ensures { OnOk result ((ways : Ways) → Acts ways core.now place (action_meaning (Action.Bump at.now bump)) out.old out.new) }
{
    emit(place, Instruction::Store, out)?;
    emit(place, Instruction::Operate(bump_operator(bump)), out)?;
    emit(place, Instruction::Constant(Value::Int(1)), out)?;
    emit(place, Instruction::LoadAgain, out)?;
    gen_place(alloc, core, place, at, out)?;
    Ok(())
}

fn bump_operator(bump: Bump) -> Operator
    ensures { result ≡ bump_operator bump }
{
    match bump {
        Bump::Increase => Operator::Add,
        Bump::Decrease => Operator::Sub,
    }
}

fn gen_write(
    alloc: Global,
    core: &Core,
    place: Place,
    args: &[Expr],
    line: bool,
    out: &mut Row<Coded>,
) -> Result<(), NoMemory>
    ensures { OnOk result ((ways : Ways) → Acts ways core.now place (action_meaning (Action.Write args.now line)) out.old out.new) }
{
    emit(place, Instruction::Write { line }, out)?;
    gen_list(alloc, core, place, args, out)?;
    Ok(())
}

fn gen_stop(
    alloc: Global,
    core: &Core,
    place: Place,
    status: &Option<Expr>,
    out: &mut Row<Coded>,
) -> Result<(), NoMemory>
    ensures { OnOk result ((ways : Ways) → Acts ways core.now place (action_meaning (Action.Stop status.now)) out.old out.new) }
{
    emit(place, Instruction::Stop, out)?;
    gen_status(alloc, core, place, status, out)?;
    Ok(())
}

fn gen_status(
    alloc: Global,
    core: &Core,
    place: Place,
    status: &Option<Expr>,
    out: &mut Row<Coded>,
) -> Result<(), NoMemory>
    ensures { OnOk result (Gives put_number core.now place (status_meaning status.now) out.old out.new) }
{
    match status {
        None => {
            emit(place, Instruction::Number(0), out)?;
            Ok(())
        }
        Some(expr) => gen_number(alloc, core, place, expr, out),
    }
}

fn gen_destroy(
    alloc: Global,
    core: &Core,
    place: Place,
    target: &Expr,
    out: &mut Row<Coded>,
) -> Result<(), NoMemory>
    ensures { OnOk result ((ways : Ways) → Acts ways core.now place (action_meaning (Action.Destroy target.now)) out.old out.new) }
{
    emit(place, Instruction::TakeDone, out)?;
    emit(place, Instruction::Destroy, out)?;
    gen_cap(alloc, core, place, target, out)?;
    Ok(())
}

fn gen_until(
    alloc: Global,
    core: &Core,
    place: Place,
    time: &Expr,
    out: &mut Row<Coded>,
) -> Result<(), NoMemory>
    ensures { OnOk result ((ways : Ways) → Acts ways core.now place (action_meaning (Action.Until time.now)) out.old out.new) }
{
    emit(place, Instruction::Wake, out)?;
    emit(place, Instruction::Age, out)?;
    emit(place, Instruction::ToWait, out)?;
    gen_number(alloc, core, place, time, out)?;
    Ok(())
}
