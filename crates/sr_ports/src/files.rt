ghost use Rattle.std.specs.Prelude.{◌≡◌, ℕ, List, Option};
ghost use Rattle.sr_ports.specs.Faults.{Counts};
ghost use Rattle.sr_ports.specs.Files.{ReadsFile, Readings, failed_after, next_read};

use crate::fault::PortFail;
use std::alloc::Global;

/// Files that are read by name.
pub trait Files {
    /// The names and bytes of all files, where they are told.
    ghost content: { Self → Option (List (List ℕ × List ℕ)) };

    /// How often a read failed.
    ghost faults: { Self → ℕ };

    /// How many reads there were, and which of them failed last.
    ghost readings: { Self → Readings };

    /// The first `most` bytes of the file of this name, or all where it has fewer. A file that is missing or
    /// can't be read is a fault.
    fn read(&mut self, alloc: Global, name: &str, most: usize) -> Result<Vec<u8>, PortFail>
        ensures bytes { ReadsFile (content self.old) name.now most result }
        ensures kept { content self.new ≡ content self.old }
        ensures cause { Counts (faults self.old) (faults self.new) result }
        ensures reads { (readings self.new).reads ≡ next_read (readings self.old).reads }
        ensures failed { (readings self.new).failed ≡ failed_after (readings self.old) result };
}
