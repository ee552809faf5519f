ghost use Rattle.std.specs.Prelude.{◌≡◌, ◌∷◌, [], MatchOption};
ghost use Rattle.sr_code.specs.Stacks.{below, first_or};
ghost use Rattle.sr_code.specs.Operands.{number_on};
ghost use Rattle.sr_frame.specs.Scenes.{here_of};
ghost use Rattle.sr_execute.specs.Executes.{Does, begun, ticking, went};
ghost use Rattle.sr_code.specs.declared.instruction.Instruction.TheVariants as instruction;

use crate::frame::Frame;
use crate::step::Step;
use crate::tops::top_or;
use sr_ask::Request;
use sr_code::{Numbers, Stack};
use sr_core::Direction;
use sr_frame::{Scene, number_own, set_own};
use sr_value::{Fault, NoMemory};

/// One statement begun, where a tick is left.
pub fn tick(frame: &mut Frame, to: usize) -> Result<Step, NoMemory>
    ensures { Does result frame.new (ticking frame.old.ticks (λ f. went to frame.old.operands f) frame.old) }
{
    if frame.ticks == 0 {
        return Ok(Step::OverTicks);
    }
    frame.ticks -= 1;
    Ok(Step::Goes(to))
}

/// Where the count isn't 0, one tick; it gets less.
pub fn repeat(scene: &Scene, frame: &mut Frame, head: usize, next: usize) -> Result<Step, NoMemory>
    ensures { Does result frame.new (begun scene.now.names.now (instruction.Repeat head) (here_of scene.now) next frame.old.operands frame.old) }
{
    let count = frame.operands.counts.take(0);
    if count == 0 {
        return Ok(Step::Goes(next));
    }
    frame.operands.counts.push(count - 1)?;
    tick(frame, head)
}

/// The number on top.
pub fn number_on(frame: &Frame) -> i32
    ensures { result ≡ number_on frame.now.operands }
{
    *top_or(&frame.operands.numbers, &0)
}

/// Asks to go on at a moment.
pub fn wake(scene: &Scene, frame: &mut Frame, next: usize) -> Result<Step, NoMemory>
    ensures { Does result frame.new (begun scene.now.names.now instruction.Wake (here_of scene.now) next frame.old.operands frame.old) }
{
    let wait = frame.operands.numbers.take(0);
    let from = frame.operands.numbers.take(0);
    let until = i64::from(wait) + i64::from(from);
    if until < 0 || until > 2_147_483_647 {
        return Ok(Step::Faults(Fault::Overflow));
    }
    Ok(Step::Asks(Request::Wake {
        until: until as u32,
    }))
}

/// Three numbers become the values of a quantifier.
pub fn quantify(
    scene: &Scene,
    frame: &mut Frame,
    direction: Direction,
    next: usize,
) -> Result<Step, NoMemory>
    ensures { Does result frame.new (begun scene.now.names.now (instruction.Quantify direction) (here_of scene.now) next frame.old.operands frame.old) }
{
    let by = frame.operands.numbers.take(0);
    let to = frame.operands.numbers.take(0);
    let from = frame.operands.numbers.take(0);
    match Numbers::new(direction, from, to, by) {
        Ok(numbers) => {
            frame.operands.loops.push(numbers)?;
            Ok(Step::Goes(next))
        }
        Err(fault) => Ok(Step::Faults(fault)),
    }
}

/// The next value of a quantifier, and what is left of it.
pub fn next_number(loops: &mut Stack<Numbers>) -> Option<(i32, Numbers)>
    ensures next { MatchOption result (first_or [] loops.old ≡ []) (λ found. first_or [] loops.old ≡ found.0 ∷ found.1) }
    ensures others { loops.new ≡ below loops.old }
{
    let mut numbers = loops.pop()?;
    let number = numbers.next()?;
    Some((number, numbers))
}

/// The variable of a quantifier gets its next value, where one is left.
pub fn each(
    scene: &Scene,
    frame: &mut Frame,
    var: u32,
    head: usize,
    next: usize,
) -> Result<Step, NoMemory>
    ensures { Does result frame.new (begun scene.now.names.now (instruction.Each var head) (here_of scene.now) next frame.old.operands frame.old) }
{
    let Some((number, rest)) = next_number(&mut frame.operands.loops) else {
        return Ok(Step::Goes(next));
    };
    if frame.ticks == 0 {
        return Ok(Step::OverTicks);
    }
    frame.ticks -= 1;
    set_own(&mut frame.own, var, number_own(number));
    frame.operands.loops.push(rest)?;
    Ok(Step::Goes(head))
}
