ghost use Rattle.std.specs.Prelude.{None};

use crate::support::{push_file, words_of};
use sr_ports::{FreeGate, MemFiles, MemSink, Source, TakeFailed};
use sr_top::{Ending, LimitKind, sr_top};
use sr_value::{NoMemory, Row};
use std::alloc::Global;
use std::test::Fail;

/// A run that reads a number.
const PROGRAM: &[u8] = b"resource main()\n  var n : int\n  read(n)\n  write(n)\nend\n";

/// A source of digits without an end.
#[derive(Drop)]
struct Digits;

impl Source for Digits {
    ghost left = { λ _. None };

    ghost faults = { λ _. 0 };

    fn take(&mut self, room: &mut [u8]) -> Result<usize, TakeFailed> {
        room.fill(b'7');
        Ok(room.len())
    }
}

/// Whether the run of a file ends at the limit of the input, and puts nothing.
fn ends_at_limit(alloc: Global, words: &[String], files: &mut MemFiles) -> bool {
    let mut output = MemSink::new(alloc, 100, Row::new(alloc));
    let mut diag = MemSink::new(alloc, 100, Row::new(alloc));
    let mut journal = MemSink::new(alloc, 100, Row::new(alloc));
    let report = sr_top(
        alloc,
        words,
        files,
        &mut Digits,
        &mut output,
        &mut diag,
        &mut journal,
        &FreeGate,
    );
    report.ending == Ending::Limit(LimitKind::Input)
        && report.status == 102
        && output.held().is_empty()
        && diag.held() == b"sr: limit: input\n".as_slice()
}

fn goes_to_limit(alloc: Global) -> Result<bool, NoMemory> {
    let words = words_of(alloc, &["run", "a.sr"])?;
    let mut files = Row::new(alloc);
    push_file(alloc, &mut files, b"a.sr", PROGRAM)?;
    let mut files = MemFiles::new(files, Row::new(alloc));
    Ok(ends_at_limit(alloc, &words, &mut files))
}

#[test]
fn input_has_a_limit(rt: HostRuntime) -> Result<(), Fail> {
    assert!(rt; goes_to_limit(rt.alloc())?);
    Ok(())
}
