ghost use Rattle.std.specs.Prelude.{◌≡◌, ℕ, List, None, Option, Some};
ghost use Rattle.sr_class_text.specs.Lines as lines;
ghost use Rattle.sr_top.specs.Causes.{HasCause, PutsLines, call_of, devices};
ghost use Rattle.sr_top.specs.Programs.{classes_in, core_in};
ghost use Rattle.sr_top.specs.Reading.{reads_by};
ghost use Rattle.sr_top.specs.Tasks.{ListsClasses, task};

use crate::compiling::compile_files;
use crate::outcome::{Outcome, without_items};
use crate::program::Program;
use crate::putting::put_lines;
use crate::report::Ending;
use sr_class_text::class_text;
use sr_ports::{Files, Sink};
use sr_value::Text;
use std::alloc::Global;

/// Puts the classes of the operations of the program in the files of these names, a line for each.
pub fn list_classes<F: Files, O: Sink>(
    alloc: Global,
    names: &[Text],
    files: &mut F,
    output: &mut O,
) -> Outcome
    ensures cause { (words : List (List ℕ)) (left : Option (List ℕ)) (read_faults : ℕ) → task words ≡ Some (ListsClasses names.now) → HasCause
        (call_of words (F.content files.old) (reads_by (F.readings files.old) (F.faults files.old)) (reads_by (F.readings files.new) (F.faults files.new))
        (devices left read_faults (O.held output.old) (O.faults output.old))
        (devices left read_faults (O.held output.new) (O.faults output.new))
        result.items result.rounds)
        result.ending }
    ensures header { result.header ≡ None }
    ensures files { F.content files.new ≡ F.content files.old }
{
    match compile_files(alloc, names, files) {
        Ok(program) => without_items(alloc, put_classes(alloc, &program, output)),
        Err(ending) => without_items(alloc, ending),
    }
}

/// Puts the lines of the classes of a program.
fn put_classes<O: Sink>(alloc: Global, program: &Program, output: &mut O) -> Ending
    ensures { PutsLines (lines.class_text (core_in program.now) (classes_in program.now).of) (O.held output.old) (O.held output.new) (O.faults output.old) (O.faults output.new) result }
{
    let program = program.program();
    let Ok(text) = class_text(alloc, &program.core, &program.classes) else {
        return Ending::NoMemory;
    };
    put_lines(text.as_bytes(), output)
}
