ghost use Rattle.std.specs.Prelude.{ℕ, ◌<◌, List, Option, length};
ghost use Rattle.sr_ports.specs.Faults.{TakeCounts};
ghost use Rattle.sr_ports.specs.Streams.{Takes, EndsWhereEmpty};

use crate::fault::TakeFailed;

/// A stream of bytes that are taken in order.
pub trait Source {
    /// The bytes that are left, where they are told.
    ghost left: { Self → Option (List ℕ) };

    /// How often a take failed.
    ghost faults: { Self → ℕ };

    /// Moves the next bytes into the front of `room`, which isn't empty, and says how many; 0 is the end. After
    /// a fault nothing was taken. It takes no memory.
    fn take(&mut self, room: &mut [u8]) -> Result<usize, TakeFailed>
        requires { 0 < length room.old }
        ensures bytes { Takes (left self.old) (left self.new) result room.new }
        ensures end { EndsWhereEmpty (left self.old) result }
        ensures cause { TakeCounts (faults self.old) (faults self.new) result };
}
