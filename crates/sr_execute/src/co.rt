ghost use Rattle.std.specs.Prelude.{◌≡◌, ◌∷◌, ◌+◌, ◌<◌, ◌^◌, OnOk, Some};
ghost use Rattle.sr_code.specs.Operands.{count_on};
ghost use Rattle.sr_execute.specs.Replies.{completed_at, no_completed};
ghost use Rattle.sr_frame.specs.Outs.{IsFirstOut};
ghost use Rattle.sr_frame.specs.Scenes.{here_of};
ghost use Rattle.sr_execute.specs.Executes.{Does, Leads, begun, moved, with_out};
ghost use Rattle.sr_execute.specs.Meant.{resumes};
ghost use Rattle.sr_code.specs.declared.instruction.Instruction.TheVariants as instruction;

use crate::frame::Frame;
use crate::places::take_place;
use crate::step::Step;
use crate::tops::top_or;
use crate::variables::store_at;
use sr_ask::{Answer, Located, Out, Request};
use sr_code::{Completed, Fifo, Outs, Stack};
use sr_frame::{Scene, made, set_vars, turn_held};
use sr_value::{Duplicate, NoMemory, Row, Value};
use std::alloc::Global;

fn no_completed(alloc: Global) -> Completed
    ensures { result ≡ no_completed }
{
    Completed {
        out: Out {
            id: 0,
            arm: 0,
            place: None,
            backs: Row::new(alloc),
            turn: Row::new(alloc),
        },
        results: None,
    }
}

/// Begins a `co`.
pub fn open_co(scene: &Scene, frame: &mut Frame, next: usize) -> Result<Step, NoMemory>
    ensures { Does result frame.new (begun scene.now.names.now instruction.OpenCo (here_of scene.now) next frame.old.operands frame.old) }
{
    let around = std::mem::replace(&mut frame.out, Outs::new(scene.alloc));
    frame.operands.outs.push(around)?;
    Ok(Step::Goes(next))
}

/// Ends a `co`.
pub fn close_co(scene: &Scene, frame: &mut Frame, next: usize) -> Result<Step, NoMemory>
    ensures { Does result frame.new (begun scene.now.names.now instruction.CloseCo (here_of scene.now) next frame.old.operands frame.old) }
{
    frame.out = frame.operands.outs.take(Outs::new(scene.alloc));
    let _ = frame.operands.counts.take(0);
    Ok(Step::Goes(next))
}

/// Puts how many invocations are out.
pub fn count_outs(scene: &Scene, frame: &mut Frame, next: usize) -> Result<Step, NoMemory>
    ensures { Does result frame.new (begun scene.now.names.now instruction.CountOuts (here_of scene.now) next frame.old.operands frame.old) }
{
    let Ok(count) = u32::try_from(frame.out.len()) else {
        return Err(NoMemory);
    };
    frame.operands.counts.push(count)?;
    Ok(Step::Goes(next))
}

/// The count on top.
fn count_on(frame: &Frame) -> u32
    ensures { result ≡ count_on frame.now.operands }
{
    *top_or(&frame.operands.counts, &0)
}

/// Asks for the next reply, where the count isn't 0.
pub fn take_reply(
    scene: &Scene,
    frame: &mut Frame,
    arms: &Row<usize>,
    next: usize,
) -> Result<Step, NoMemory>
    ensures { Does result frame.new (begun scene.now.names.now (instruction.TakeReply arms.now) (here_of scene.now) next frame.old.operands frame.old) }
{
    let count = count_on(frame);
    if count == 0 {
        return Ok(Step::Goes(next));
    }
    let _ = frame.operands.counts.take(0);
    frame.operands.counts.push(count - 1)?;
    let ids = frame.out.ids(scene.alloc)?;
    Ok(Step::Asks(Request::Take { ids }))
}

/// Stores a value in the place of the invocation that was answered, where it has one.
pub fn store_value(scene: &Scene, frame: &mut Frame, next: usize) -> Result<Step, NoMemory>
    ensures { Does result frame.new (begun scene.now.names.now instruction.StoreValue (here_of scene.now) next frame.old.operands frame.old) }
{
    let Completed { out, .. } = frame.operands.completed.take(no_completed(scene.alloc));
    let value = frame.operands.values.take(Value::Bool(false));
    let Out { place, .. } = out;
    match place {
        None => Ok(Step::Goes(next)),
        Some(place) => store_at(frame, place.spot, place.path, value, next),
    }
}

/// The quantifiers' variables get their values of the invocation that was answered.
pub fn set_turn(
    scene: &Scene,
    frame: &mut Frame,
    vars: &Row<u32>,
    next: usize,
) -> Result<Step, NoMemory>
    ensures { Does result frame.new (begun scene.now.names.now (instruction.SetTurn vars.now) (here_of scene.now) next frame.old.operands frame.old) }
{
    let none = no_completed(scene.alloc);
    let turn = top_or(&frame.operands.completed, &none).out.turn.as_slice();
    set_vars(&mut frame.own, vars.as_slice(), turn);
    Ok(Step::Goes(next))
}

/// Copies of results and of the places that they go to.
fn put_results(
    alloc: Global,
    targets: &mut Stack<Fifo<Located>>,
    lists: &mut Stack<Fifo<Value>>,
    backs: &Row<Located>,
    results: &Row<Value>,
) -> Result<(), NoMemory>
    ensures targets { OnOk result (targets.new ≡ backs.now ∷ targets.old) }
    ensures lists { OnOk result (lists.new ≡ results.now ∷ lists.old) }
{
    targets.push(Fifo::from_row(backs.copy(alloc)?))?;
    lists.push(Fifo::from_row(results.copy(alloc)?))?;
    Ok(())
}

/// The results of the reply become a list.
pub fn give_back(
    scene: &Scene,
    frame: &mut Frame,
    none: usize,
    next: usize,
) -> Result<Step, NoMemory>
    ensures { Does result frame.new (begun scene.now.names.now (instruction.GiveBack none) (here_of scene.now) next frame.old.operands frame.old) }
{
    let missing = no_completed(scene.alloc);
    let completed = top_or(&frame.operands.completed, &missing);
    match &completed.results {
        None => Ok(Step::Goes(none.min(next))),
        Some(results) => {
            put_results(
                scene.alloc,
                &mut frame.operands.targets,
                &mut frame.operands.lists,
                &completed.out.backs,
                results,
            )?;
            Ok(Step::Goes(next))
        }
    }
}

/// What a call of a `co` is noted with.
#[derive(Clone, Copy)]
pub struct Arm<'a> {
    pub arm: u32,
    pub vars: &'a [u32],
    pub has_place: bool,
}

/// One invocation more is out.
fn push_out(frame: &mut Frame, out: Out, next: usize) -> Result<Option<usize>, NoMemory>
    ensures { Leads result frame.old frame.new (Some (moved next frame.old.operands (with_out out frame.old))) }
{
    frame.out.push(out)?;
    Ok(Some(next))
}

/// An invocation of a `co` was made.
pub fn start_made(
    alloc: Global,
    frame: &mut Frame,
    answer: Answer,
    noted: &Arm,
    next: usize,
) -> Result<Option<usize>, NoMemory>
    ensures { Leads result frame.old frame.new (resumes (instruction.StartCall noted.now.arm noted.now.vars.now noted.now.has_place) next frame.old answer) }
{
    let Some(id) = made(answer) else {
        return Ok(None);
    };
    let arm = noted.arm;
    let turn = turn_held(alloc, &frame.own, noted.vars)?;
    let backs = frame.operands.targets.take(Fifo::new(alloc)).into_row();
    if noted.has_place {
        let place = Some(take_place(alloc, &mut frame.operands));
        push_out(
            frame,
            Out {
                id,
                arm,
                place,
                backs,
                turn,
            },
            next,
        )
    } else {
        push_out(
            frame,
            Out {
                id,
                arm,
                place: None,
                backs,
                turn,
            },
            next,
        )
    }
}

/// A reply of a `co` goes to its arm.
pub fn complete(
    frame: &mut Frame,
    answer: Answer,
    arms: &Row<usize>,
    next: usize,
) -> Result<Option<usize>, NoMemory>
    requires { next + 1 < 2 ^ 64 }
    ensures { Leads result frame.old frame.new (resumes (instruction.TakeReply arms.now) next frame.old answer) }
{
    match answer {
        Answer::Took { id, results } => match frame.out.place_of(id) {
            Some(at) => complete_at(frame, at, results, arms, next),
            None => Ok(None),
        },
        _ => Ok(None),
    }
}

/// The same of the invocation at a place.
fn complete_at(
    frame: &mut Frame,
    at: usize,
    results: Option<Row<Value>>,
    arms: &Row<usize>,
    next: usize,
) -> Result<Option<usize>, NoMemory>
    requires first { IsFirstOut frame.old.out at }
    requires fits { next + 1 < 2 ^ 64 }
    ensures { Leads result frame.old frame.new (completed_at at results arms.now next frame.old) }
{
    match arms.get(frame.out.arm_at(at) as usize) {
        Some(arm) => {
            let out = frame.out.take(at)?;
            frame.operands.completed.push(Completed { out, results })?;
            Ok(Some(*arm))
        }
        None => Ok(Some(next + 1)),
    }
}
