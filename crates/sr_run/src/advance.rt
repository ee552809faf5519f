ghost use Rattle.std.specs.Prelude.{◌+◌, ◌<◌, ◌≤◌, IfNone, length};
ghost use Rattle.std.specs.List.{AllByRecursion};
ghost use Rattle.sr_plain.specs.Passing.{FitsItem};
ghost use Rattle.sr_run.specs.Arranged.{Arrangement};
ghost use Rattle.sr_run.specs.Runs.{Call};
ghost use Rattle.sr_run.specs.UnderWay.{Advances, IsUnderWay, Moves, Whole, as_of};

use crate::end::{LimitKind, RunEnd};
use crate::intake::Intake;
use crate::items::{end_with, put_item};
use crate::taking::take_more;
use sr_actor::Actor;
use sr_ask::Item;
use sr_plain::{Plain, Plainly};
use sr_ports::{Sink, Source};
use sr_value::Row;

/// Makes the next item, or takes more of the input.
#[inline(always)]
pub(crate) fn advance<A: Actor, I: Source, O: Sink>(
    plain: &mut Plain<A>,
    program: &A::Program,
    intake: &mut Intake,
    input: &mut I,
    output: &mut O,
    items: &mut Row<Item>,
) -> Option<RunEnd>
    requires { intake.old.taken ≤ 67108864 }
    ensures within { intake.new.taken ≤ 67108864 }
    ensures one_more { length items.new ≤ length items.old + 1 }
    ensures fit { AllByRecursion FitsItem items.old → AllByRecursion FitsItem items.new }
    ensures moves { IfNone result (Moves items.old items.new intake.old intake.new) }
    ensures advances { (arrangement : Arrangement) (call : Call) → length items.old < call.steps
        → IsUnderWay (A.asks_after program.now) A.can_feed arrangement Whole
        (as_of call (A.core_of program.now) (record { left = I.left input.old; read_faults = I.faults input.old; held = O.held output.old; write_faults = O.faults output.old }) items.old)
        intake.old plain.old
        → Advances (A.asks_after program.now) A.can_feed arrangement items.old
        (as_of call (A.core_of program.now) (record { left = I.left input.new; read_faults = I.faults input.new; held = O.held output.new; write_faults = O.faults output.new }) items.new)
        intake.new plain.new result }
{
    match plain.step(program) {
        Ok(Plainly::Stepped { item, output: text }) => {
            put_item(items, item, output, text.as_bytes())
        }
        Ok(Plainly::Wants) => take_more(plain, intake, input),
        Ok(Plainly::Over(process)) => Some(RunEnd::Limit(LimitKind::Ticks(process))),
        Ok(Plainly::Ended { item, end }) => Some(end_with(items, item, end)),
        Err(_) => Some(RunEnd::NoMemory),
    }
}
