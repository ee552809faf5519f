ghost use Rattle.std.specs.Prelude.{◌≡◌, ℕ, ◌++◌, false, slice_get, IfOk, IfSome, List, None, OnOk, Some};
ghost use Rattle.sr_value.specs.Operators.{Answers};
ghost use Rattle.sr_value.specs.declared.value.Value.{Value};
ghost use Rattle.sr_select.specs.Choices.{choice, choice_seen, otherwise, owner_in};
ghost use Rattle.sr_select.specs.Closing.{AreClosed, closes, is_closed};
ghost use Rattle.sr_select.specs.Looks.{Adds, result_of};
ghost use Rattle.sr_select.specs.Readings.{Reading};
ghost use Rattle.sr_select.specs.Selections.{choice_from, pairs_at, pairs_in, seen_by, seen_from, serviced_by};
ghost use Rattle.sr_select.specs.Sights.{seeing};
ghost use Rattle.sr_select.specs.Steps.{passes_one};

use crate::arm::passes_one;
use crate::choice::Choice;
use crate::closed::Closed;
use crate::least::least_from;
use crate::named::next_open;
use crate::naming::guard_names_none;
use crate::reads::Reads;
use crate::selection::Selection;
use crate::sight::Scene;
use sr_ask::Seen;
use sr_core::{Arm, Me, Scope, Site};
use sr_queue::{Pending, Queue};
use sr_value::{NoMemory, Owner, Row, Value, ValueFail};
use std::alloc::Global;

/// A choice, and the cells and counts that it read, in order.
#[derive(Drop)]
pub struct Chosen {
    pub choice: Choice,
    pub seen: Row<Seen>,
}

/// Whose invocations a statement services: those of the process itself, or of its instance.
pub fn owner_in(scope: Scope, me: Me) -> Owner
    ensures { result ≡ owner_in scope me }
{
    match scope {
        Scope::Own => Owner::Proc(me.process),
        Scope::Shared => Owner::Inst(me.instance),
    }
}

/// Which invocation an arm services that was fixed at a place.
fn serviced<'a, R: Reads>(
    selection: &Selection<'a>,
    reads: &R,
    seen: &mut Row<Seen>,
    place: u32,
    number: u32,
    arm: &'a Arm,
) -> Result<Choice, NoMemory>
    ensures choice { IfOk result (λ chosen. chosen ≡ serviced_by (R.reading reads.now) selection.now place number arm.now) }
    ensures seen { OnOk result (seen.new ≡ seen.old ++ seen_by (R.reading reads.now) selection.now place arm.now) }
{
    let Some(by) = &arm.by else {
        return Ok(Choice::Service { place, arm: number });
    };
    let owner = selection.owner;
    match least_from(
        &selection.scene,
        reads,
        seen,
        selection.queue,
        owner,
        arm,
        by,
        place,
    ) {
        Ok(Some(best)) => Ok(Choice::Service {
            place: best.place,
            arm: number,
        }),
        Ok(None) => Ok(Choice::Service { place, arm: number }),
        Err(ValueFail::Fault(fault)) => Ok(Choice::Bad { fault, arm: number }),
        Err(ValueFail::NoMemory) => Err(NoMemory),
    }
}

/// Whether an invocation passes an arm. Where the arm's guard is false for all invocations, the arm is closed.
fn passes_open<'a, R: Reads>(
    selection: &Selection<'a>,
    reads: &R,
    seen: &mut Row<Seen>,
    closed: &mut Closed,
    number: usize,
    arm: &'a Arm,
    pending: &'a Pending,
) -> Result<bool, ValueFail>
    requires arm { slice_get selection.now.arms.now number ≡ Some arm.now }
    requires closed { AreClosed (seeing (R.reading reads.now) selection.now.scene) selection.now.arms.now closed.old }
    ensures passes { Answers result (result_of (passes_one (seeing (R.reading reads.now) selection.now.scene) selection.now.owner arm.now pending.now)) }
    ensures seen { closes closed.old ≡ false → Adds (passes_one (seeing (R.reading reads.now) selection.now.scene) selection.now.owner arm.now pending.now) result seen.old seen.new }
    ensures closed { AreClosed (seeing (R.reading reads.now) selection.now.scene) selection.now.arms.now closed.new }
    ensures closes { closes closed.new ≡ closes closed.old }
{
    if closed.is_closed(number) {
        return Ok(false);
    }
    let owner = selection.owner;
    let passes = passes_one(&selection.scene, reads, seen, owner, arm, pending)?;
    if !passes && pending.is_of(owner, arm.op) && guard_names_none(arm) {
        closed.close(number)?;
    }
    Ok(passes)
}

/// The choice where an arm is fixed by an invocation: the first arm of its operation whose `and` isn't false.
fn choice_at<'a, R: Reads>(
    selection: &Selection<'a>,
    reads: &R,
    seen: &mut Row<Seen>,
    closed: &mut Closed,
    place: u32,
    pending: &'a Pending,
) -> Result<Option<Choice>, NoMemory>
    requires { AreClosed (seeing (R.reading reads.now) selection.now.scene) selection.now.arms.now closed.old }
    ensures choice { IfOk result (λ chosen. chosen ≡ choice_from (R.reading reads.now) selection.now (pairs_at selection.now place pending.now)) }
    ensures seen { closes closed.old ≡ false → OnOk result (seen.new ≡ seen.old ++ seen_from (R.reading reads.now) selection.now (pairs_at selection.now place pending.now)) }
    ensures closed { AreClosed (seeing (R.reading reads.now) selection.now.scene) selection.now.arms.now closed.new }
    ensures closes { closes closed.new ≡ closes closed.old }
{
    let mut number: u32 = 0;
    for arm in selection.arms {
        match passes_open(
            selection,
            reads,
            seen,
            closed,
            number as usize,
            arm,
            pending,
        ) {
            Ok(true) => {
                let choice = serviced(selection, reads, seen, place, number, arm)?;
                return Ok(Some(choice));
            }
            Ok(false) => {}
            Err(ValueFail::Fault(fault)) => return Ok(Some(Choice::Bad { fault, arm: number })),
            Err(ValueFail::NoMemory) => return Err(NoMemory),
        }
        number = number.checked_add(1).ok_or(NoMemory)?;
    }
    Ok(None)
}

/// The choice where an arm is fixed, by the first invocation that does.
fn first_choice<'a, R: Reads>(
    selection: &Selection<'a>,
    reads: &R,
    seen: &mut Row<Seen>,
    closed: &mut Closed,
) -> Result<Option<Choice>, NoMemory>
    requires { AreClosed (seeing (R.reading reads.now) selection.now.scene) selection.now.arms.now closed.old }
    ensures choice { IfOk result (λ chosen. chosen ≡ choice_from (R.reading reads.now) selection.now (pairs_in selection.now)) }
    ensures seen { closes closed.old ≡ false → OnOk result (seen.new ≡ seen.old ++ seen_from (R.reading reads.now) selection.now (pairs_in selection.now)) }
{
    let mut from = 0;
    while from < selection.queue.len() {
        let named = next_open(
            selection.queue,
            selection.owner,
            selection.arms,
            closed,
            from,
        );
        let Some(place) = named else {
            return Ok(None);
        };
        let pending = selection.queue.at(place);
        if let Some(choice) = choice_at(selection, reads, seen, closed, place, pending)? {
            return Ok(Some(choice));
        }
        from = place + 1;
    }
    Ok(None)
}

/// What an `in` statement does that can service nothing.
pub fn unserviced(site: &Site) -> Choice
    ensures { result ≡ otherwise site.now.has_else None }
{
    if site.has_else {
        Choice::Else
    } else {
        Choice::Nothing
    }
}

/// What an `in` statement of a process does, and, where no arm is ever closed, what the choice reads.
fn choose_among<R: Reads>(
    alloc: Global,
    queue: &Queue,
    site: &Site,
    me: Me,
    env: &Row<Value>,
    reads: &R,
    mut closed: Closed,
) -> Result<Chosen, NoMemory>
    requires { (number : ℕ) → is_closed closed number ≡ false }
    ensures choice { IfOk result (λ chosen. chosen.choice ≡ choice (R.reading reads.now) site.now me env.now queue.now.items) }
    ensures seen { closes closed ≡ false → IfOk result (λ chosen. chosen.seen ≡ choice_seen (R.reading reads.now) site.now me env.now queue.now.items) }
{
    let selection = Selection {
        scene: Scene {
            alloc,
            me,
            names: site.names.as_slice(),
            env: env.as_slice(),
        },
        queue,
        arms: site.arms.as_slice(),
        owner: owner_in(site.scope, me),
    };
    let mut seen = Row::new(alloc);
    let found = first_choice(&selection, reads, &mut seen, &mut closed)?;
    let choice = match found {
        Some(choice) => choice,
        None => unserviced(site),
    };
    Ok(Chosen { choice, seen })
}

/// What an `in` statement of a process does, and what the choice reads. `env` has the values of what the
/// statement's guards name of the process. The guards are evaluated for each invocation.
pub fn choose_and_see<R: Reads>(
    alloc: Global,
    queue: &Queue,
    site: &Site,
    me: Me,
    env: &Row<Value>,
    reads: &R,
) -> Result<Chosen, NoMemory>
    ensures choice { IfOk result (λ chosen. chosen.choice ≡ choice (R.reading reads.now) site.now me env.now queue.now.items) }
    ensures seen { IfOk result (λ chosen. chosen.seen ≡ choice_seen (R.reading reads.now) site.now me env.now queue.now.items) }
{
    choose_among(alloc, queue, site, me, env, reads, Closed::Never)
}

/// What an `in` statement of a process does that has one arm, without `and` and `by`: it services the oldest invocation.
fn choose_plainly(queue: &Queue, site: &Site, me: Me) -> Option<Choice>
    ensures { (reading : Reading) (env : List Value) → IfSome result (λ chosen. chosen ≡ choice reading site.now me env queue.now.items) }
{
    let [arm] = site.arms.as_slice() else {
        return None;
    };
    if arm.guard.is_some() || arm.by.is_some() {
        return None;
    }
    Some(match queue.next_of(owner_in(site.scope, me), arm.op, 0) {
        Some(place) => Choice::Service { place, arm: 0 },
        None => unserviced(site),
    })
}

/// What an `in` statement of a process does, whatever arms it has.
#[inline(never)]
fn choose_closing<R: Reads>(
    alloc: Global,
    queue: &Queue,
    site: &Site,
    me: Me,
    env: &Row<Value>,
    reads: &R,
) -> Result<Choice, NoMemory>
    ensures { IfOk result (λ chosen. chosen ≡ choice (R.reading reads.now) site.now me env.now queue.now.items) }
{
    let closed = Closed::Arms(Row::new(alloc));
    let chosen = choose_among(alloc, queue, site, me, env, reads, closed)?;
    Ok(chosen.choice)
}

/// What an `in` statement of a process does: it services an invocation, runs its `else`, waits, or faults.
/// Where a guard that names no formal of its arm is false, it isn't evaluated for other invocations.
pub fn choose<R: Reads>(
    alloc: Global,
    queue: &Queue,
    site: &Site,
    me: Me,
    env: &Row<Value>,
    reads: &R,
) -> Result<Choice, NoMemory>
    ensures { IfOk result (λ chosen. chosen ≡ choice (R.reading reads.now) site.now me env.now queue.now.items) }
{
    match choose_plainly(queue, site, me) {
        Some(choice) => Ok(choice),
        None => choose_closing(alloc, queue, site, me, env, reads),
    }
}
