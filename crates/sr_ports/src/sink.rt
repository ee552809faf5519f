ghost use Rattle.std.specs.Prelude.{◌≡◌, ℕ, ◌<◌, List, Option, length, OnOk, OnErr};
ghost use Rattle.std.specs.Io.KnownBytes.{append_known};
ghost use Rattle.sr_ports.specs.Faults.{Counts};
ghost use Rattle.sr_ports.specs.Streams.{Puts, PutInPart};

use crate::fault::PortFail;
use crate::slices::rest_of;

/// What bytes are put into, one after the other.
pub trait Sink {
    /// The bytes that it holds, where they are told.
    ghost held: { Self → Option (List ℕ) };

    /// How often a put failed.
    ghost faults: { Self → ℕ };

    /// Appends the first bytes of `piece`, which isn't empty, and says how many: at least one. After a fault, or where
    /// memory ran out, nothing was appended.
    fn put(&mut self, piece: &[u8]) -> Result<usize, PortFail>
        requires { 0 < length piece.now }
        ensures bytes { Puts (held self.old) (held self.new) result piece.now }
        ensures cause { Counts (faults self.old) (faults self.new) result };
}

/// Puts all of `bytes`, in as many puts as it takes; each is handed all bytes that are still to go. After a fault, or
/// where memory ran out, the sink holds some of the first bytes, and not all.
pub fn put_all<S: Sink>(sink: &mut S, bytes: &[u8]) -> Result<(), PortFail>
    ensures whole { OnOk result (S.held sink.new ≡ append_known (S.held sink.old) bytes.now) }
    ensures part { OnErr result (PutInPart (S.held sink.old) (S.held sink.new) bytes.now) }
    ensures cause { Counts (S.faults sink.old) (S.faults sink.new) result }
{
    let mut rest = bytes;
    while !rest.is_empty() {
        let count = sink.put(rest)?;
        rest = rest_of(rest, count);
    }
    Ok(())
}
