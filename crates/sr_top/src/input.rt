ghost use Rattle.std.specs.Prelude.{◌≡◌, ◌+◌, ◌<◌, ◌≤◌, [], IfErr, IfOk, OnOk, length};
ghost use Rattle.sr_top.specs.Replaying.{IsWhole};
ghost use Rattle.sr_top.specs.Stages.{EndsInput, EndsPiece, TakesPiece};

use crate::report::{Ending, LimitKind};
use sr_ports::Source;
use sr_value::Text;
use std::alloc::Global;

/// The most bytes of the input.
const INPUT_MOST: usize = 67_108_864;

/// The bytes of input that are taken at a time.
const PIECE: usize = 4_096;

/// All of the input, where it has at most 67,108,864 bytes.
pub fn whole_input<I: Source>(alloc: Global, input: &mut I) -> Result<Text, Ending>
    ensures whole { IfOk result (IsWhole (I.left input.old) (I.left input.new)) }
    ensures no_fault { OnOk result (I.faults input.new ≡ I.faults input.old) }
    ensures ends { IfErr result (EndsInput (I.left input.old) (I.left input.new) (I.faults input.old) (I.faults input.new)) }
{
    let mut taken = Text::new(alloc);
    take_all(input, &mut taken)?;
    Ok(taken)
}

/// Takes all of the input, where it has at most 67,108,864 bytes.
fn take_all<I: Source>(input: &mut I, taken: &mut Text) -> Result<(), Ending>
    requires { taken.old ≡ [] }
    ensures whole { OnOk result (IsWhole (I.left input.old) (I.left input.new) taken.new) }
    ensures no_fault { OnOk result (I.faults input.new ≡ I.faults input.old) }
    ensures ends { IfErr result (EndsInput (I.left input.old) (I.left input.new) (I.faults input.old) (I.faults input.new)) }
{
    'pieces: loop {
        let some = take_piece(input, taken)?;
        if !some {
            return Ok(());
        }
        if taken.len() > INPUT_MOST {
            return Err(Ending::Limit(LimitKind::Input));
        }
    }
}

/// How many bytes may be taken now, after so many.
fn piece_after(taken: usize) -> usize
    requires { taken ≤ 67108864 }
    ensures some { 0 < result }
    ensures fits { result ≤ 4096 }
    ensures most { taken + result ≤ 67108865 }
{
    PIECE.min(INPUT_MOST + 1 - taken)
}

/// Takes the next bytes, and says whether there were any. In all at most one more is taken than the input may have.
fn take_piece<I: Source>(input: &mut I, taken: &mut Text) -> Result<bool, Ending>
    requires { length taken.old ≤ 67108864 }
    ensures took { IfOk result (TakesPiece (I.left input.old) (I.left input.new) taken.old taken.new) }
    ensures no_fault { OnOk result (I.faults input.new ≡ I.faults input.old) }
    ensures ends { IfErr result (EndsPiece (I.faults input.old) (I.faults input.new)) }
{
    let most = piece_after(taken.len());
    let mut room = [0; PIECE];
    take_into(input, taken, &mut room[..most])
}

/// Takes the next bytes, as many as fit in the room.
fn take_into<I: Source>(input: &mut I, taken: &mut Text, room: &mut [u8]) -> Result<bool, Ending>
    requires some { 0 < length room.old }
    requires most { length taken.old + length room.old ≤ 67108865 }
    ensures took { IfOk result (TakesPiece (I.left input.old) (I.left input.new) taken.old taken.new) }
    ensures no_fault { OnOk result (I.faults input.new ≡ I.faults input.old) }
    ensures ends { IfErr result (EndsPiece (I.faults input.old) (I.faults input.new)) }
{
    match input.take(room) {
        Ok(0) => Ok(false),
        Ok(count) => match taken.push_all(&room[..count]) {
            Ok(()) => Ok(true),
            Err(_) => Err(Ending::NoMemory),
        },
        Err(_) => Err(Ending::ReadFault),
    }
}
