ghost use Rattle.std.specs.Prelude.{◌≡◌, ◌≤◌, ◌↔◌, IfErr, IfNone, IfOk, IfSome, IsTrue, OnOk, Some, length, slice_get};
ghost use Rattle.sr_top.specs.Programs.{classes_in, core_in};
ghost use Rattle.sr_top.specs.Reading.{reads_by, size_of, sizes_of};
ghost use Rattle.sr_top.specs.Replaying.{IsFirstOther};
ghost use Rattle.sr_top.specs.Stages.{AreProgram, EndsFiles, EndsProgram, IsProgramOf, after_journal};

use crate::program::{Program, compiled};
use crate::reading::read_files;
use crate::report::Ending;
use sr_journal::Header;
use sr_ports::Files;
use sr_value::{Row, Text};
use std::alloc::Global;

/// The most files of a command.
const MOST_FILES: usize = 64;

/// The program in the files of these names, which are to be those that a journal tells. They are at most 64, as the words
/// are read; for more of them there is no memory.
pub fn program_of<F: Files>(
    alloc: Global,
    header: &Header,
    names: &[Text],
    files: &mut F,
) -> Result<Program, Ending>
    ensures program { IfOk result (λ program. AreProgram (F.content files.old) names.now header.now (core_in program) (classes_in program)) }
    ensures no_fault { OnOk result (F.faults files.new ≡ F.faults files.old) }
    ensures ends { IfErr result (EndsProgram (F.content files.old) names.now header.now (reads_by (F.readings files.old) (F.faults files.old)) (reads_by (F.readings files.new) (F.faults files.new))) }
    ensures kept { F.content files.new ≡ F.content files.old }
{
    if names.len() > MOST_FILES {
        return Err(Ending::NoMemory);
    }
    let mut texts = Row::new(alloc);
    match read_files(alloc, names, files, &mut texts) {
        Ok(()) => program_in(alloc, header, texts.as_slice()),
        Err(ending) => Err(after_journal(ending)),
    }
}

/// The ending where the reading of files after a journal ends so: the journal is one place before them.
fn after_journal(ending: Ending) -> Ending
    ensures { result ≡ after_journal ending }
{
    match ending {
        Ending::NoFile(file) => Ending::NoFile(file.saturating_add(1)),
        ending => ending,
    }
}

/// The program in these files, where they are those that a journal tells.
fn program_in(alloc: Global, header: &Header, texts: &[(Text, Text)]) -> Result<Program, Ending>
    requires few { length texts.now ≤ 64 }
    ensures program { IfOk result (λ program. IsProgramOf header.now texts.now (core_in program) (classes_in program)) }
    ensures ends { IfErr result (EndsFiles header.now texts.now) }
{
    match first_other(texts, header.files.as_slice()) {
        Some(file) => Err(Ending::OtherFiles(file)),
        None => compiled(alloc, texts),
    }
}

/// The first place at which the lengths and the names of files differ from those that a journal tells, or the smaller
/// number of them.
fn first_other(texts: &[(Text, Text)], told: &[(u32, Text)]) -> Option<u32>
    requires few { length texts.now ≤ 64 }
    ensures other { IfSome result (IsFirstOther (sizes_of texts.now) told.now) }
    ensures same { IfNone result (sizes_of texts.now ≡ told.now) }
{
    for (place, file) in texts.iter().enumerate() {
        if !is_told(told, place, file) {
            return Some(place as u32);
        }
    }
    if texts.len() < told.len() {
        return Some(texts.len() as u32);
    }
    None
}

/// Whether a journal tells the length and the name of this file at this place.
fn is_told(told: &[(u32, Text)], place: usize, file: &(Text, Text)) -> bool
    ensures { IsTrue result ↔ (slice_get told.now place ≡ Some (size_of file.now)) }
{
    match told.get(place) {
        None => false,
        Some(known) => is_same(file, known),
    }
}

/// Whether a file has this length and this name.
fn is_same(file: &(Text, Text), known: &(u32, Text)) -> bool
    ensures { IsTrue result ↔ (known.now ≡ size_of file.now) }
{
    let (name, bytes) = file;
    let (length, told) = known;
    bytes.len() == *length as usize && name.as_bytes() == told.as_bytes()
}
