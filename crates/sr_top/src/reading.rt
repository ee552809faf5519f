ghost use Rattle.std.specs.Prelude.{◌≡◌, [], ◌≤◌, length, IfErr, OnErr, OnOk};
ghost use Rattle.sr_ports.specs.Faults.{Counts};
ghost use Rattle.sr_top.specs.Reading.{AreRead, EndsReading, ReadsNext, ReadsOne, reads_by};

use crate::report::Ending;
use sr_ports::{Files, PortFail};
use sr_value::{Row, Text};
use std::alloc::Global;

/// The bytes of a file that are read: one more than the most that it may have.
pub const READ_MOST: usize = 1_048_577;

/// Reads the files of these names in order, each with its name.
pub fn read_files<F: Files>(
    alloc: Global,
    names: &[Text],
    files: &mut F,
    texts: &mut Row<(Text, Text)>,
) -> Result<(), Ending>
    requires few { length names.now ≤ 64 }
    requires none { texts.old ≡ [] }
    ensures read { OnOk result (AreRead (F.content files.old) names.now texts.new) }
    ensures no_fault { OnOk result (F.faults files.new ≡ F.faults files.old) }
    ensures ends { IfErr result (EndsReading (F.content files.old) names.now (reads_by (F.readings files.old) (F.faults files.old)) (reads_by (F.readings files.new) (F.faults files.new))) }
    ensures kept { F.content files.new ≡ F.content files.old }
{
    let mut number = 0u32;
    for name in names {
        match read_file(alloc, name, files, texts) {
            Ok(()) => {}
            Err(PortFail::Failed) => return Err(Ending::NoFile(number)),
            Err(PortFail::NoMemory) => return Err(Ending::NoMemory),
        }
        number += 1;
    }
    Ok(())
}

/// Reads one file. A name is a text, as the words are; for other bytes there is no memory.
fn read_file<F: Files>(
    alloc: Global,
    name: &Text,
    files: &mut F,
    texts: &mut Row<(Text, Text)>,
) -> Result<(), PortFail>
    ensures read { OnOk result (ReadsOne (F.content files.old) name.now texts.old texts.new) }
    ensures cause { Counts (F.faults files.old) (F.faults files.new) result }
    ensures reads { ReadsNext (reads_by (F.readings files.old) (F.faults files.old)) (reads_by (F.readings files.new) (F.faults files.new)) result }
    ensures err { OnErr result (texts.new ≡ texts.old) }
    ensures kept { F.content files.new ≡ F.content files.old }
{
    let Ok(path) = str::from_utf8(name.as_bytes()) else {
        return Err(PortFail::NoMemory);
    };
    let file = Text::from_slice(alloc, name.as_bytes())?;
    let bytes = files.read(alloc, path, READ_MOST)?;
    texts.push((file, Text::from_vec(bytes)))?;
    Ok(())
}
