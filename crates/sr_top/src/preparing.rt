ghost use Rattle.std.specs.Prelude.{◌≡◌, IfErr, IfOk, OnOk};
ghost use Rattle.sr_top.specs.Journal.{IsPrepared, header_if};
ghost use Rattle.sr_top.specs.Programs.{classes_in, core_in};
ghost use Rattle.sr_top.specs.Reading.{EndsCompiling, reads_by};
ghost use Rattle.sr_top.specs.Tasks.{Named};
ghost use Rattle.sr_top.specs.declared.report.Ending.TheVariants as endings;

use crate::compiling::compile_into;
use crate::journal::header_of;
use crate::program::Program;
use crate::report::Ending;
use sr_journal::Header;
use sr_ports::Files;
use sr_value::{Row, Text};
use std::alloc::Global;

/// A program that is ready to run; and what stands in its journal before its items, where one is kept.
#[derive(Drop)]
pub struct Prepared {
    pub program: Program,
    pub header: Option<Header>,
}

/// Reads and compiles the files of these names for a run with these limits.
pub fn prepare<F: Files>(
    alloc: Global,
    names: &[Text],
    steps: u32,
    ticks: u32,
    journal: bool,
    files: &mut F,
) -> Result<Prepared, Ending>
    ensures prepared { IfOk result (λ prepared. IsPrepared (F.content files.old) names.now steps ticks journal (core_in prepared.program) (classes_in prepared.program) prepared.header) }
    ensures no_fault { OnOk result (F.faults files.new ≡ F.faults files.old) }
    ensures ends { IfErr result (EndsCompiling (F.content files.old) (Named names.now) (reads_by (F.readings files.old) (F.faults files.old)) (reads_by (F.readings files.new) (F.faults files.new))) }
    ensures kept { F.content files.new ≡ F.content files.old }
{
    let mut texts = Row::new(alloc);
    match compile_into(alloc, names, files, &mut texts) {
        Ok(program) => with_header(alloc, program, texts.as_slice(), steps, ticks, journal),
        Err(ending) => Err(ending),
    }
}

/// A program of these files, with the header of its journal, where one is kept.
fn with_header(
    alloc: Global,
    program: Program,
    files: &[(Text, Text)],
    steps: u32,
    ticks: u32,
    journal: bool,
) -> Result<Prepared, Ending>
    ensures program { IfOk result (λ prepared. prepared.program ≡ program) }
    ensures header { IfOk result (λ prepared. prepared.header ≡ header_if files.now steps ticks journal) }
    ensures ends { IfErr result (λ ending. ending ≡ endings.NoMemory) }
{
    if !journal {
        return Ok(Prepared {
            program,
            header: None,
        });
    }
    match header_of(alloc, files, steps, ticks) {
        Ok(header) => Ok(Prepared {
            program,
            header: Some(header),
        }),
        Err(_) => Err(Ending::NoMemory),
    }
}
