ghost use Rattle.std.specs.Prelude.{◌≡◌, ℕ, List, None, Option, Some, IfErr, IfOk, OnOk};
ghost use Rattle.sr_layout.specs.LaidOut.{IsLaidOut};
ghost use Rattle.sr_top.specs.Causes.{HasCause, call_of, devices};
ghost use Rattle.sr_top.specs.LayingOut.{EndsFile, EndsSource, IsTextOfFile};
ghost use Rattle.sr_top.specs.Reading.{reads_by};
ghost use Rattle.sr_top.specs.Tasks as tasks;

use crate::outcome::{Outcome, without_items};
use crate::putting::put_lines;
use crate::reading::READ_MOST;
use crate::report::Ending;
use sr_layout::laid_out;
use sr_ports::{Files, PortFail, Sink};
use sr_text::FrontFail;
use sr_value::Text;
use std::alloc::Global;

/// Puts the file of this name in the one style.
pub fn lay_out_file<F: Files, O: Sink>(
    alloc: Global,
    name: &Text,
    files: &mut F,
    output: &mut O,
) -> Outcome
    ensures cause { (words : List (List ℕ)) (left : Option (List ℕ)) (read_faults : ℕ) → tasks.task words ≡ Some (tasks.LaysOut name.now) → HasCause
        (call_of words (F.content files.old) (reads_by (F.readings files.old) (F.faults files.old)) (reads_by (F.readings files.new) (F.faults files.new))
        (devices left read_faults (O.held output.old) (O.faults output.old))
        (devices left read_faults (O.held output.new) (O.faults output.new))
        result.items result.rounds)
        result.ending }
    ensures header { result.header ≡ None }
    ensures files { F.content files.new ≡ F.content files.old }
{
    match text_of_file(alloc, name, files) {
        Ok(text) => without_items(alloc, put_lines(text.as_bytes(), output)),
        Err(ending) => without_items(alloc, ending),
    }
}

/// The text of a file in the one style. A name is a text, as the words are; for other bytes there is no memory.
fn text_of_file<F: Files>(alloc: Global, name: &Text, files: &mut F) -> Result<Text, Ending>
    ensures text { IfOk result (IsTextOfFile (F.content files.old) name.now) }
    ensures no_fault { OnOk result (F.faults files.new ≡ F.faults files.old) }
    ensures ends { IfErr result (EndsFile (F.content files.old) name.now (reads_by (F.readings files.old) (F.faults files.old)) (reads_by (F.readings files.new) (F.faults files.new))) }
    ensures kept { F.content files.new ≡ F.content files.old }
{
    let Ok(path) = str::from_utf8(name.as_bytes()) else {
        return Err(Ending::NoMemory);
    };
    match files.read(alloc, path, READ_MOST) {
        Ok(bytes) => text_of_source(alloc, bytes.as_slice()),
        Err(PortFail::Failed) => Err(Ending::NoFile(0)),
        Err(PortFail::NoMemory) => Err(Ending::NoMemory),
    }
}

/// The text of a source in the one style.
fn text_of_source(alloc: Global, source: &[u8]) -> Result<Text, Ending>
    ensures text { IfOk result (IsLaidOut source.now) }
    ensures ends { IfErr result (EndsSource source.now) }
{
    match laid_out(alloc, source) {
        Ok(text) => Ok(text),
        Err(FrontFail::Refused(refusal)) => Err(Ending::Refused(refusal)),
        Err(FrontFail::NoMemory) => Err(Ending::NoMemory),
    }
}
