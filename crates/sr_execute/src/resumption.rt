ghost use Rattle.std.specs.Prelude.{◌+◌, ◌<◌, ◌^◌};
ghost use Rattle.sr_ask.specs.Asking.{done, got, made, moment, number, ready};
ghost use Rattle.sr_code.specs.Acts.{after_choice};
ghost use Rattle.sr_code.specs.Operands.{put_name, put_number, put_value};
ghost use Rattle.sr_execute.specs.Executes.{Leads, led, marked, moved, moved_to};
ghost use Rattle.sr_execute.specs.Meant.{resumes};
ghost use Rattle.sr_code.specs.declared.instruction.Instruction.TheVariants as instruction;
ghost use Rattle.sr_value.specs.declared.capability.Cap.TheVariants.{Vm as a_machine};
ghost use Rattle.sr_value.specs.declared.value.Value.TheVariants.{Capa as a_cap, Int as an_int};

use crate::calls::{pass_both, wanted};
use crate::co::{Arm, complete, start_made};
use crate::frame::Frame;
use crate::places::take_place;
use sr_ask::{Answer, InputItem, Selection};
use sr_code::{Fifo, Instruction};
use sr_frame::{done, got, instance_in, made, moment, number, read_item, ready, selected, took};
use sr_value::{Cap, NoMemory, Value};
use std::alloc::Global;

/// Goes on after `Done`.
#[inline(always)]
fn after_done(frame: &Frame, answer: Answer, to: usize) -> Result<Option<usize>, NoMemory>
    ensures { Leads result frame.now frame.now (led (done answer) (λ _. moved to frame.now.operands frame.now)) }
{
    match done(answer) {
        Some(()) => Ok(Some(to)),
        None => Ok(None),
    }
}

/// Goes on after `Ready`.
fn after_ready(frame: &Frame, answer: Answer, to: usize) -> Result<Option<usize>, NoMemory>
    ensures { Leads result frame.now frame.now (led (ready answer) (λ _. moved to frame.now.operands frame.now)) }
{
    match ready(answer) {
        Some(()) => Ok(Some(to)),
        None => Ok(None),
    }
}

/// Goes on after `Made`.
fn after_made(frame: &Frame, answer: Answer, to: usize) -> Result<Option<usize>, NoMemory>
    ensures { Leads result frame.now frame.now (led (made answer) (λ _. moved to frame.now.operands frame.now)) }
{
    match made(answer) {
        Some(_) => Ok(Some(to)),
        None => Ok(None),
    }
}

/// A value that was loaded goes on the operands.
#[inline(always)]
fn put_got(frame: &mut Frame, answer: Answer, next: usize) -> Result<Option<usize>, NoMemory>
    ensures { Leads result frame.old frame.new (led (got answer) (λ value. moved next (put_value value frame.old.operands) frame.old)) }
{
    match got(answer) {
        Some(value) => {
            frame.operands.values.push(value)?;
            Ok(Some(next))
        }
        None => Ok(None),
    }
}

/// A number goes on the operands as a value.
fn put_int(frame: &mut Frame, answer: Answer, next: usize) -> Result<Option<usize>, NoMemory>
    ensures { Leads result frame.old frame.new (led (number answer) (λ number. moved next (put_value (an_int number) frame.old.operands) frame.old)) }
{
    match number(answer) {
        Some(number) => {
            frame.operands.values.push(Value::Int(number))?;
            Ok(Some(next))
        }
        None => Ok(None),
    }
}

/// A new machine goes on the operands.
fn put_machine(frame: &mut Frame, answer: Answer, next: usize) -> Result<Option<usize>, NoMemory>
    ensures { Leads result frame.old frame.new (led (made answer) (λ name. moved next (put_value (a_cap (a_machine name)) frame.old.operands) frame.old)) }
{
    match made(answer) {
        Some(name) => {
            frame.operands.values.push(Value::Capa(Cap::Vm(name)))?;
            Ok(Some(next))
        }
        None => Ok(None),
    }
}

/// A moment goes on the operands as a value.
fn put_moment(frame: &mut Frame, answer: Answer, next: usize) -> Result<Option<usize>, NoMemory>
    ensures { Leads result frame.old frame.new (led (moment answer) (λ now. moved next (put_value (an_int now) frame.old.operands) frame.old)) }
{
    match moment(answer) {
        Some(now) => {
            frame.operands.values.push(Value::Int(now))?;
            Ok(Some(next))
        }
        None => Ok(None),
    }
}

/// A moment goes on the operands as a number.
fn put_age(frame: &mut Frame, answer: Answer, next: usize) -> Result<Option<usize>, NoMemory>
    ensures { Leads result frame.old frame.new (led (moment answer) (λ now. moved next (put_number now frame.old.operands) frame.old)) }
{
    match moment(answer) {
        Some(now) => {
            frame.operands.numbers.push(now)?;
            Ok(Some(next))
        }
        None => Ok(None),
    }
}

/// The number of an invocation goes on the operands.
#[inline(always)]
fn put_made(frame: &mut Frame, answer: Answer, next: usize) -> Result<Option<usize>, NoMemory>
    ensures { Leads result frame.old frame.new (led (made answer) (λ name. moved next (put_name name frame.old.operands) frame.old)) }
{
    match made(answer) {
        Some(name) => {
            frame.operands.names.push(name)?;
            Ok(Some(next))
        }
        None => Ok(None),
    }
}

/// The service has answered.
fn mark_made(frame: &mut Frame, answer: Answer, next: usize) -> Result<Option<usize>, NoMemory>
    ensures { Leads result frame.old frame.new (led (made answer) (λ _. moved next frame.old.operands (marked frame.old))) }
{
    match made(answer) {
        Some(_) => {
            frame.service.answered = true;
            Ok(Some(next))
        }
        None => Ok(None),
    }
}

/// The service has answered.
#[inline(always)]
fn mark_done(frame: &mut Frame, answer: Answer, next: usize) -> Result<Option<usize>, NoMemory>
    ensures { Leads result frame.old frame.new (led (done answer) (λ _. moved next frame.old.operands (marked frame.old))) }
{
    match done(answer) {
        Some(()) => {
            frame.service.answered = true;
            Ok(Some(next))
        }
        None => Ok(None),
    }
}

/// A value that was loaded joins the call, and its place.
fn pass_got(
    alloc: Global,
    frame: &mut Frame,
    answer: Answer,
    next: usize,
) -> Result<Option<usize>, NoMemory>
    ensures { Leads result frame.old frame.new (resumes instruction.PassVar next frame.old answer) }
{
    match got(answer) {
        Some(value) => {
            let place = take_place(alloc, &mut frame.operands);
            pass_both(alloc, &mut frame.operands, value, place)?;
            Ok(Some(next))
        }
        None => Ok(None),
    }
}

/// The results of a reply become a list.
#[inline(always)]
fn take_results(
    alloc: Global,
    frame: &mut Frame,
    answer: Answer,
    none: usize,
    next: usize,
) -> Result<Option<usize>, NoMemory>
    ensures { Leads result frame.old frame.new (resumes (instruction.Take none) next frame.old answer) }
{
    let Some(reply) = took(wanted(frame), answer) else {
        return Ok(None);
    };
    let _ = frame.operands.names.take(0);
    match reply.results {
        Some(results) => {
            frame.operands.lists.push(Fifo::from_row(results))?;
            Ok(Some(next))
        }
        None => {
            let _ = frame.operands.targets.take(Fifo::new(alloc));
            Ok(Some(none))
        }
    }
}

/// A new instance goes on the operands.
fn take_instance(frame: &mut Frame, answer: Answer, next: usize) -> Result<Option<usize>, NoMemory>
    ensures { Leads result frame.old frame.new (resumes instruction.TakeInstance next frame.old answer) }
{
    let Some(reply) = took(wanted(frame), answer) else {
        return Ok(None);
    };
    let _ = frame.operands.names.take(0);
    frame.operands.values.push(instance_in(reply.results))?;
    Ok(Some(next))
}

/// A reply is taken, and dropped.
fn take_done(frame: &mut Frame, answer: Answer, next: usize) -> Result<Option<usize>, NoMemory>
    ensures { Leads result frame.old frame.new (resumes instruction.TakeDone next frame.old answer) }
{
    let Some(_) = took(wanted(frame), answer) else {
        return Ok(None);
    };
    let _ = frame.operands.names.take(0);
    Ok(Some(next))
}

/// An item of a `read`.
fn take_item(
    frame: &mut Frame,
    answer: Answer,
    store: usize,
    end: usize,
    next: usize,
) -> Result<Option<usize>, NoMemory>
    ensures { Leads result frame.old frame.new (resumes (instruction.ReadNext store end) next frame.old answer) }
{
    match read_item(answer) {
        Some(InputItem::Value(value)) => {
            frame.operands.values.push(value)?;
            Ok(Some(store))
        }
        Some(InputItem::NotOfKind) => Ok(Some(next)),
        Some(InputItem::NoMore) => Ok(Some(end)),
        None => Ok(None),
    }
}

/// What a `Select` goes on to.
#[derive(Clone, Copy)]
struct Ways<'a> {
    arms: &'a [usize],
    otherwise: usize,
    end: usize,
}

/// An invocation that was chosen, or `else`.
#[inline(always)]
fn choose(
    frame: &mut Frame,
    selection: Option<Selection>,
    ways: &Ways,
) -> Result<Option<usize>, NoMemory>
    ensures { Leads result frame.old frame.new (led selection (λ selection. moved_to (after_choice selection ways.now.arms.now ways.now.otherwise ways.now.end frame.old.operands) frame.old)) }
{
    match selection {
        Some(Selection::Service(pick)) => match ways.arms.get(pick.arm as usize) {
            Some(arm) => {
                frame.operands.picks.push(pick)?;
                Ok(Some(*arm))
            }
            None => Ok(Some(ways.end)),
        },
        Some(Selection::Otherwise) => Ok(Some(ways.otherwise)),
        None => Ok(None),
    }
}

/// What an answer leads to at an instruction that asked. An answer that the request doesn't take leads nowhere.
pub fn resume(
    alloc: Global,
    frame: &mut Frame,
    instruction: &Instruction,
    answer: Answer,
    next: usize,
) -> Result<Option<usize>, NoMemory>
    requires { next + 1 < 2 ^ 64 }
    ensures { Leads result frame.old frame.new (resumes instruction.now next frame.old answer) }
{
    match instruction {
        Instruction::Load | Instruction::LoadAgain => put_got(frame, answer, next),
        Instruction::Store => after_done(frame, answer, next),
        Instruction::Invoke => put_made(frame, answer, next),
        Instruction::Take { none } => take_results(alloc, frame, answer, *none, next),
        Instruction::Reply => mark_done(frame, answer, next),
        Instruction::Select {
            count,
            has_else,
            arms,
            otherwise,
            end,
            ..
        } => {
            let ways = Ways {
                arms: arms.as_slice(),
                otherwise: *otherwise,
                end: *end,
            };
            choose(frame, selected(*count, *has_else, answer), &ways)
        }
        _ => resume_any(alloc, frame, instruction, answer, next),
    }
}

/// What an answer leads to at any instruction that asked.
// In `resume` its temporaries would be filled for the instructions there too.
#[inline(never)]
fn resume_any(
    alloc: Global,
    frame: &mut Frame,
    instruction: &Instruction,
    answer: Answer,
    next: usize,
) -> Result<Option<usize>, NoMemory>
    requires { next + 1 < 2 ^ 64 }
    ensures { Leads result frame.old frame.new (resumes instruction.now next frame.old answer) }
{
    match instruction {
        Instruction::Count { .. } => put_int(frame, answer, next),
        Instruction::MakeMachine => put_machine(frame, answer, next),
        Instruction::Moment => put_moment(frame, answer, next),
        Instruction::Age => put_age(frame, answer, next),
        Instruction::Load | Instruction::LoadAgain | Instruction::LoadSecond => put_got(
            frame, answer, next,
        ),
        Instruction::PassVar => pass_got(alloc, frame, answer, next),
        Instruction::Invoke | Instruction::Create { .. } | Instruction::Destroy => put_made(
            frame, answer, next,
        ),
        Instruction::Take { none } => take_results(alloc, frame, answer, *none, next),
        Instruction::StoreResults { .. } => after_done(frame, answer, next + 1),
        Instruction::EnsureGlobal { .. } => after_ready(frame, answer, next),
        Instruction::TakeInstance => take_instance(frame, answer, next),
        Instruction::ReadNext { store, end } => take_item(frame, answer, *store, *end, next),
        Instruction::StoreRead
        | Instruction::Make { .. }
        | Instruction::MakeLike { .. }
        | Instruction::StoreIn { .. }
        | Instruction::MakeFormal { .. }
        | Instruction::StoreFormal { .. }
        | Instruction::Store
        | Instruction::StoreSecond
        | Instruction::Write { .. }
        | Instruction::Wake
        | Instruction::StoreValue => after_done(frame, answer, next),
        Instruction::Send => after_made(frame, answer, next),
        Instruction::Forward => mark_made(frame, answer, next),
        Instruction::TakeDone => take_done(frame, answer, next),
        Instruction::Reply => mark_done(frame, answer, next),
        Instruction::Select {
            count,
            has_else,
            arms,
            otherwise,
            end,
            ..
        } => {
            let ways = Ways {
                arms: arms.as_slice(),
                otherwise: *otherwise,
                end: *end,
            };
            choose(frame, selected(*count, *has_else, answer), &ways)
        }
        Instruction::StartCall {
            arm,
            vars,
            has_place,
        } => {
            let noted = Arm {
                arm: *arm,
                vars: vars.as_slice(),
                has_place: *has_place,
            };
            start_made(alloc, frame, answer, &noted, next)
        },
        Instruction::TakeReply { arms } => complete(frame, answer, arms, next),
        _ => Ok(None),
    }
}
