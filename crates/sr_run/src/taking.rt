ghost use Rattle.std.specs.Prelude.{◌≡◌, ◌+◌, ◌<◌, ◌≤◌, ℕ, false, List, Option, IfNone, length};
ghost use Rattle.std.specs.Io.KnownBytes.{prepend_known};
ghost use Rattle.sr_run.specs.Arranged.{Arrangement};
ghost use Rattle.sr_run.specs.Runs.{Call};
ghost use Rattle.sr_run.specs.UnderWay.{Advances, IsWaiting, as_of, open_input};

use crate::end::{LimitKind, RunEnd};
use crate::intake::Intake;
use sr_actor::Actor;
use sr_plain::Plain;
use sr_ports::Source;

/// The most bytes of input that a run takes.
const INPUT_MOST: u32 = 67_108_864;

/// The bytes of input that are taken at a time.
const PIECE: usize = 4_096;

/// How many bytes may be taken now: none where the input has ended, or the most were taken.
fn piece_of(intake: Intake) -> usize
    requires { intake.taken ≤ 67108864 }
    ensures fits { result ≤ 4096 }
    ensures most { intake.taken + result ≤ 67108864 }
    ensures open { 0 < result → intake.ended ≡ false }
    ensures none { result ≡ 0 → intake.ended ≡ false → intake.taken ≡ 67108864 }
{
    if intake.ended {
        return 0;
    }
    PIECE.min((INPUT_MOST - intake.taken) as usize)
}

/// Takes the next bytes of the input, or its end.
#[cold]
#[inline(never)]
pub(crate) fn take_more<A: Actor, I: Source>(
    plain: &mut Plain<A>,
    intake: &mut Intake,
    input: &mut I,
) -> Option<RunEnd>
    requires { intake.old.taken ≤ 67108864 }
    ensures within { intake.new.taken ≤ 67108864 }
    ensures nearer { IfNone result (open_input intake.new < open_input intake.old) }
    ensures advances { (program : A.Program) (arrangement : Arrangement) (call : Call)
        → IsWaiting (A.asks_after program) A.can_feed arrangement
        (as_of call (A.core_of program) (record call.now { left = I.left input.old; read_faults = I.faults input.old }) call.items)
        intake.old plain.old
        → Advances (A.asks_after program) A.can_feed arrangement call.items
        (as_of call (A.core_of program) (record call.now { left = I.left input.new; read_faults = I.faults input.new }) call.items)
        intake.new plain.new result }
{
    let most = piece_of(*intake);
    if most == 0 {
        return Some(RunEnd::Limit(LimitKind::Input));
    }
    let mut room = [0; PIECE];
    take_into(plain, intake, input, &mut room[..most])
}

/// Takes the next bytes of an input that hasn't ended, as many as fit in the room.
fn take_into<A: Actor, I: Source>(
    plain: &mut Plain<A>,
    intake: &mut Intake,
    input: &mut I,
    room: &mut [u8],
) -> Option<RunEnd>
    requires some { 0 < length room.old }
    requires most { intake.old.taken + length room.old ≤ 67108864 }
    requires open { intake.old.ended ≡ false }
    ensures within { intake.new.taken ≤ 67108864 }
    ensures nearer { IfNone result (open_input intake.new < open_input intake.old) }
    ensures advances { (program : A.Program) (arrangement : Arrangement) (call : Call)
        → IsWaiting (A.asks_after program) A.can_feed arrangement
        (as_of call (A.core_of program) (record call.now { left = I.left input.old; read_faults = I.faults input.old }) call.items)
        intake.old plain.old
        → Advances (A.asks_after program) A.can_feed arrangement call.items
        (as_of call (A.core_of program) (record call.now { left = I.left input.new; read_faults = I.faults input.new }) call.items)
        intake.new plain.new result }
{
    match input.take(room) {
        Ok(0) => {
            plain.end_input();
            intake.ended = true;
            None
        }
        Ok(count) => give(plain, intake, &room[..count]),
        Err(_) => Some(RunEnd::ReadFault),
    }
}

/// Gives the engine bytes that were taken.
fn give<A: Actor>(plain: &mut Plain<A>, intake: &mut Intake, bytes: &[u8]) -> Option<RunEnd>
    requires some { 0 < length bytes.now }
    requires most { intake.old.taken + length bytes.now ≤ 67108864 }
    ensures within { intake.new.taken ≤ 67108864 }
    ensures nearer { IfNone result (open_input intake.new < open_input intake.old) }
    ensures advances { (program : A.Program) (arrangement : Arrangement) (call : Call) (left : Option (List ℕ)) → call.now.left ≡ prepend_known bytes.now left
        → IsWaiting (A.asks_after program) A.can_feed arrangement (as_of call (A.core_of program) call.now call.items) intake.old plain.old
        → Advances (A.asks_after program) A.can_feed arrangement call.items (as_of call (A.core_of program) (record call.now { left = left }) call.items) intake.new plain.new result }
{
    match plain.give(bytes) {
        Ok(()) => {
            intake.taken += bytes.len() as u32;
            None
        }
        Err(_) => Some(RunEnd::NoMemory),
    }
}
