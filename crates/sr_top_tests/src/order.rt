ghost use Rattle.std.specs.Prelude.{None};

use crate::support::{push_file, words_of};
use sr_ports::{FreeGate, MemFiles, MemSink, PortFail, Sink, Source, TakeFailed};
use sr_top::sr_top;
use sr_value::{NoMemory, Row};
use std::alloc::Global;
use std::cell::Cell;
use std::test::Fail;

/// A run that writes twice before its first read, and once after each read.
const PROGRAM: &[u8] =
    b"resource main()\n  var n : int\n  write(\"a\")\n  write(\"bc\")\n  read(n)\n  write(n)\n  read(n)\n  write(\"d\")\nend\n";

/// How many takes and how many bytes put there were so far, as both devices know it.
#[derive(Drop)]
struct Log {
    takes: Cell<usize>,
    put: Cell<usize>,
}

/// A source that gives a byte in each take, and notes how many bytes were put before it.
#[derive(Drop)]
struct NotingSource<'a> {
    log: &'a Log,
    left: &'a [u8],
    seen: Vec<usize>,
}

/// A sink that notes the takes before each put, and how many bytes it has.
#[derive(Drop)]
struct NotingSink<'a> {
    log: &'a Log,
    puts: Vec<(usize, usize)>,
}

impl Source for NotingSource<'_> {
    ghost left = { λ _. None };

    ghost faults = { λ _. 0 };

    fn take(&mut self, room: &mut [u8]) -> Result<usize, TakeFailed> {
        let _ = self.seen.push(self.log.put.get());
        self.log.takes.set(self.log.takes.get().saturating_add(1));
        match self.left {
            [] => Ok(0),
            [first, rest @ ..] => {
                room[0] = *first;
                self.left = rest;
                Ok(1)
            }
        }
    }
}

impl Sink for NotingSink<'_> {
    ghost held = { λ _. None };

    ghost faults = { λ _. 0 };

    fn put(&mut self, piece: &[u8]) -> Result<usize, PortFail> {
        let count = piece.len();
        if self.puts.push((self.log.takes.get(), count)).is_err() {
            return Err(PortFail::NoMemory);
        }
        self.log.put.set(self.log.put.get().saturating_add(count));
        Ok(count)
    }
}

/// Runs the program with these devices, and hands out its status.
fn status_with(
    alloc: Global,
    words: &[String],
    files: &mut MemFiles,
    input: &mut NotingSource<'_>,
    output: &mut NotingSink<'_>,
) -> u8 {
    let mut diag = MemSink::new(alloc, 100, Row::new(alloc));
    let mut journal = MemSink::new(alloc, 100, Row::new(alloc));
    let report = sr_top(
        alloc,
        words,
        files,
        input,
        output,
        &mut diag,
        &mut journal,
        &FreeGate,
    );
    report.status
}

/// Whether each write is put by itself, before the takes of the next read.
fn are_in_order(alloc: Global, words: &[String], files: &mut MemFiles) -> bool {
    let log = Log {
        takes: Cell::new(0),
        put: Cell::new(0),
    };
    let mut input = NotingSource {
        log: &log,
        left: b"7\n8\n",
        seen: Vec::new(alloc),
    };
    let mut output = NotingSink {
        log: &log,
        puts: Vec::new(alloc),
    };
    let status = status_with(alloc, words, files, &mut input, &mut output);
    status == 0
        && input.seen.as_slice() == [5, 5, 7, 7].as_slice()
        && output.puts.as_slice() == [(0, 2), (0, 3), (2, 2), (4, 2)].as_slice()
}

fn goes_in_order(alloc: Global) -> Result<bool, NoMemory> {
    let words = words_of(alloc, &["run", "a.sr"])?;
    let mut files = Row::new(alloc);
    push_file(alloc, &mut files, b"a.sr", PROGRAM)?;
    let mut files = MemFiles::new(files, Row::new(alloc));
    Ok(are_in_order(alloc, &words, &mut files))
}

#[test]
fn writes_are_put_at_once(rt: HostRuntime) -> Result<(), Fail> {
    assert!(rt; goes_in_order(rt.alloc())?);
    Ok(())
}
