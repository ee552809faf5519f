ghost use Rattle.std.specs.Prelude.{◌≡◌, ◌⊎◌, ◌↔◌, Some, None, IsErrOf};
ghost use Rattle.std.specs.Option.{option_copied};
ghost use Rattle.sr_ports.specs.Faults.{Counts};
ghost use Rattle.sr_ports.specs.Files.{bytes_of, ReadsFile, failed_after, next_read};

use crate::fault::PortFail;
use crate::files::Files;
use crate::schedule::Schedule;
use sr_value::{Row, Text};
use std::alloc::Global;

/// Files in memory. They tell their names and bytes.
#[derive(Debug, Drop)]
pub struct MemFiles {
    files: Row<(Text, Text)>,
    schedule: Schedule,
}

impl MemFiles {
    ghost use Rattle.sr_ports.specs.Memory.{files_held, files_calls, files_faults, HasNoCalls};

    /// Files of these names and bytes; of two of one name the first counts. `fails` has the numbers of the
    /// calls that fail, counted from 1.
    pub fn new(files: Row<(Text, Text)>, fails: Row<u64>) -> Self
        ensures held { files_held result ≡ files }
        ensures calls { HasNoCalls (files_calls result) fails }
    {
        MemFiles {
            files,
            schedule: Schedule::new(fails),
        }
    }

    /// How many calls failed.
    pub fn faults(&self) -> u64
        ensures { result ≡ files_faults self.now }
    {
        self.schedule.faults()
    }
}

impl Files for MemFiles {
    ghost use Rattle.sr_ports.specs.Memory.{files_held, files_calls, files_faults, files_readings, NextFails, MakesCall};

    ghost content = { λ files. Some (files_held files) };

    ghost faults = { files_faults };

    ghost readings = { files_readings };

    fn read(&mut self, alloc: Global, name: &str, most: usize) -> Result<Vec<u8>, PortFail>
        ensures bytes { ReadsFile (Some (files_held self.old)) name.now most result }
        ensures kept { Some (files_held self.new) ≡ Some (files_held self.old) }
        ensures cause { Counts (files_faults self.old) (files_faults self.new) result }
        ensures reads { (files_readings self.new).reads ≡ next_read (files_readings self.old).reads }
        ensures failed { (files_readings self.new).failed ≡ failed_after (files_readings self.old) result }

        // A call fails exactly where the list says so or no file has the name.
        ensures fails { IsErrOf result PortFail.Failed
            ↔ (NextFails (files_calls self.old) ⊎ (bytes_of (files_held self.old) name.now ≡ None)) }
        ensures calls { MakesCall (files_calls self.old) (files_calls self.new) }
    {
        if self.schedule.begin() {
            self.schedule.raise();
            return Err(PortFail::Failed);
        }
        match find_bytes(self.files.as_slice(), name) {
            None => {
                self.schedule.raise();
                Err(PortFail::Failed)
            }
            Some(bytes) => {
                let count = most.min(bytes.len());
                Ok(Vec::from_slice(alloc, &bytes.as_bytes()[..count])?)
            }
        }
    }
}

/// The bytes of the first file of this name.
fn find_bytes<'a>(files: &'a [(Text, Text)], name: &str) -> Option<&'a Text>
    ensures { option_copied result ≡ bytes_of files.now name.now }
{
    for file in files {
        if file.0.as_bytes() == name.as_bytes() {
            return Some(&file.1);
        }
    }
    None
}
