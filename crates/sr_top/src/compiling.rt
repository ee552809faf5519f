ghost use Rattle.std.specs.Prelude.{◌≡◌, [], IfErr, IfOk, OnOk};
ghost use Rattle.sr_front.specs.Cores.{IsCoreOf};
ghost use Rattle.sr_front.specs.Reading.{contents_of};
ghost use Rattle.sr_top.specs.Programs.{classes_in, core_in};
ghost use Rattle.sr_top.specs.Reading.{AreCompiled, AreRead, EndsCompiling, StopsCompiling, reads_by, sample_files};
ghost use Rattle.sr_top.specs.Tasks.{Named};

use crate::program::{Program, compiled};
use crate::reading::read_files;
use crate::report::Ending;
use sr_ports::Files;
use sr_sample::sample;
use sr_value::{NoMemory, Row, Text};
use std::alloc::Global;

/// The most files of a command.
const MOST_FILES: usize = 64;

/// The name of the one file of a sample.
pub const SAMPLE_NAME: &str = "gen.sr";

/// Reads the files of these names, and gives their program. They are at most 64, as the words are read; for more of them
/// there is no memory.
pub fn compile_files<F: Files>(
    alloc: Global,
    names: &[Text],
    files: &mut F,
) -> Result<Program, Ending>
    ensures compiled { IfOk result (λ program. AreCompiled (F.content files.old) (Named names.now) (core_in program) (classes_in program)) }
    ensures no_fault { OnOk result (F.faults files.new ≡ F.faults files.old) }
    ensures ends { IfErr result (EndsCompiling (F.content files.old) (Named names.now) (reads_by (F.readings files.old) (F.faults files.old)) (reads_by (F.readings files.new) (F.faults files.new))) }
    ensures kept { F.content files.new ≡ F.content files.old }
{
    let mut texts = Row::new(alloc);
    compile_into(alloc, names, files, &mut texts)
}

/// The same; then `texts` has the files that were read, with their names.
pub fn compile_into<F: Files>(
    alloc: Global,
    names: &[Text],
    files: &mut F,
    texts: &mut Row<(Text, Text)>,
) -> Result<Program, Ending>
    requires none { texts.old ≡ [] }
    ensures read { OnOk result (AreRead (F.content files.old) names.now texts.new) }
    ensures core { IfOk result (λ program. IsCoreOf (contents_of texts.new) (core_in program, classes_in program)) }
    ensures no_fault { OnOk result (F.faults files.new ≡ F.faults files.old) }
    ensures ends { IfErr result (EndsCompiling (F.content files.old) (Named names.now) (reads_by (F.readings files.old) (F.faults files.old)) (reads_by (F.readings files.new) (F.faults files.new))) }
    ensures kept { F.content files.new ≡ F.content files.old }
{
    if names.len() > MOST_FILES {
        return Err(Ending::NoMemory);
    }
    match read_files(alloc, names, files, texts) {
        Ok(()) => compiled(alloc, texts.as_slice()),
        Err(ending) => Err(ending),
    }
}

/// The sample program of a seed.
pub fn compile_sample(alloc: Global, seed: u32) -> Result<Program, Ending>
    ensures core { IfOk result (λ program. IsCoreOf (contents_of (sample_files seed)) (core_in program, classes_in program)) }
    ensures ends { IfErr result (StopsCompiling (sample_files seed)) }
{
    let mut texts = Row::new(alloc);
    match push_sample(alloc, seed, &mut texts) {
        Ok(()) => compiled(alloc, texts.as_slice()),
        Err(_) => Err(Ending::NoMemory),
    }
}

/// Adds the file of the sample of a seed.
fn push_sample(alloc: Global, seed: u32, texts: &mut Row<(Text, Text)>) -> Result<(), NoMemory>
    requires { texts.old ≡ [] }
    ensures { OnOk result (texts.new ≡ sample_files seed) }
{
    let name = Text::from_slice(alloc, SAMPLE_NAME.as_bytes())?;
    let text = sample(alloc, seed)?;
    texts.push((name, text))
}
