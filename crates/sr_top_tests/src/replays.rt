use crate::support::{Case, goes_so, numbers, push_file, silent, words_of};
use sr_ports::{FreeGate, MemFiles, MemSink, MemSource};
use sr_top::{Report, sr_top};
use sr_value::{NoMemory, Row, Text};
use std::alloc::Global;
use std::test::Fail;

const HELLO: &[u8] = b"resource main()\n  write(\"hello\", 3)\nend\n";

/// The journal of a run of `hello.sr`.
const JOURNAL: &[u8] =
    b"SRJ1\nfiles 1\n40 8 hello.sr\nsteps 1000000 ticks 10000000\nitems 6\ns 1 2\ns 2 0\ns 2 0\ns 1 0\ns 1 0\nq 0\nend\n";

/// Its first item is made by a process that isn't there yet.
const ILLEGAL: &[u8] =
    b"SRJ1\nfiles 1\n40 8 hello.sr\nsteps 1000000 ticks 10000000\nitems 6\ns 2 0\ns 2 0\ns 2 0\ns 1 0\ns 1 0\nq 0\nend\n";

/// Its last item comes after the end.
const TOO_MANY: &[u8] =
    b"SRJ1\nfiles 1\n40 8 hello.sr\nsteps 1000000 ticks 10000000\nitems 7\ns 1 2\ns 2 0\ns 2 0\ns 1 0\ns 1 0\nq 0\nq 0\nend\n";

const FILES: [(&str, &[u8]); 9] = [
    ("hello.sr", HELLO),
    ("a.sr", HELLO),
    ("j", JOURNAL),
    ("illegal", ILLEGAL),
    ("many", TOO_MANY),
    ("none", b"SRJ\n"),
    (
        "cut",
        b"SRJ1\nfiles 1\n40 8 hello.sr\nsteps 1000000 ticks 10000000\nitems 6\ns 1 2\n",
    ),
    ("other", b"SRJ3\n"),
    (
        "longer",
        b"SRJ1\nfiles 1\n41 8 hello.sr\nsteps 1000000 ticks 10000000\nitems 0\nend\n",
    ),
];

const AFTER_TWO: &[u8] =
    b"items 2\nending none\nmoment 0\noutput 8\ninstance 2 main Starting\nprocess 1 boot instance 0 asks Take\nprocess 2 initial instance 2 asks Finish\n";

const AFTER_ONE_WITH_PLACES: &[u8] =
    b"items 1\nending none\nmoment 0\noutput 0\ninstance 2 main Starting\nprocess 1 boot instance 0 asks Take\nprocess 2 initial instance 2 asks Write\nprocess 1 at hello.sr:1\nprocess 2 at hello.sr:2\n";

const AFTER_ALL: &[u8] = b"items 6\nending quiet\nmoment 0\noutput 8\ninstance 2 main Ready\n";

fn shows<'a>(words: &'a [&'a str], output: &'a [u8]) -> Case<'a> {
    Case {
        output,
        ..silent(words, &FILES)
    }
}

fn ends<'a>(words: &'a [&'a str], status: u8, diag: &'a [u8]) -> Case<'a> {
    Case {
        status,
        diag,
        ..silent(words, &FILES)
    }
}

/// The state after some items, and each reason for which there is none.
#[test]
fn replays(rt: HostRuntime) -> Result<(), Fail> {
    let cases = [
        shows(&["replay", "j", "hello.sr", "--upto", "2"], AFTER_TWO),
        shows(
            &["replay", "j", "hello.sr", "--where", "--upto", "1"],
            AFTER_ONE_WITH_PLACES,
        ),
        shows(&["replay", "j", "hello.sr"], AFTER_ALL),
        shows(&["replay", "--where", "j", "hello.sr"], AFTER_ALL),
        shows(&["replay", "--upto=6", "j", "hello.sr"], AFTER_ALL),
        shows(&["replay", "many", "hello.sr", "--upto", "6"], AFTER_ALL),
        ends(&["replay", "k", "hello.sr"], 104, b"sr: cannot read k\n"),
        ends(
            &["replay", "none", "b.sr"],
            110,
            b"sr: journal: J1 NotJournal\n",
        ),
        ends(
            &["replay", "cut", "b.sr"],
            110,
            b"sr: journal: J2 Truncated\n",
        ),
        ends(
            &["replay", "other", "b.sr"],
            110,
            b"sr: journal: J3 Version\n",
        ),
        ends(&["replay", "j", "b.sr"], 104, b"sr: cannot read b.sr\n"),
        ends(&["replay", "j", "a.sr"], 111, b"sr: journal: other files\n"),
        ends(
            &["replay", "j", "hello.sr", "a.sr"],
            111,
            b"sr: journal: other files\n",
        ),
        ends(
            &["replay", "longer", "hello.sr"],
            111,
            b"sr: journal: other files\n",
        ),
        ends(
            &["replay", "illegal", "hello.sr"],
            109,
            b"sr: journal: item 1 is no step\n",
        ),
        ends(
            &["replay", "many", "hello.sr"],
            109,
            b"sr: journal: item 7 is no step\n",
        ),
        Case {
            put_fails: &[1],
            ..ends(&["replay", "j", "hello.sr"], 106, b"sr: output failed\n")
        },
    ];
    for (index, case) in cases.iter().enumerate() {
        assert!(rt; goes_so(rt.alloc(), case)?, "case {index}");
    }
    Ok(())
}

// ---- input

const TWICE: &[u8] = b"resource main()\n  var n : int\n  read(n)\n  write(2 * n)\nend\n";

/// Makes a call on these files with this input.
fn called_on(
    alloc: Global,
    words: &[&str],
    files: &mut MemFiles,
    input: &mut MemSource,
    output: &mut MemSink,
    journal: &mut MemSink,
) -> Result<Report, NoMemory> {
    let words = words_of(alloc, words)?;
    let mut diag = MemSink::new(alloc, 1000, Row::new(alloc));
    Ok(sr_top(
        alloc, &words, files, input, output, &mut diag, journal, &FreeGate,
    ))
}

/// The files of a replay of this journal.
fn files_with(alloc: Global, journal: &[u8]) -> Result<MemFiles, NoMemory> {
    let mut files = Row::new(alloc);
    push_file(alloc, &mut files, b"twice.sr", TWICE)?;
    push_file(alloc, &mut files, b"j", journal)?;
    Ok(MemFiles::new(files, Row::new(alloc)))
}

fn input_of(alloc: Global, fails: &[u64]) -> Result<MemSource, NoMemory> {
    let fails = numbers(alloc, fails)?;
    Ok(MemSource::new(Text::from_slice(alloc, b"21\n")?, 2, fails))
}

/// The status of the replay of this journal, whose input fails at these takes.
fn status_of(alloc: Global, journal: &[u8], fails: &[u64], shown: &[u8]) -> Result<u8, NoMemory> {
    let mut files = files_with(alloc, journal)?;
    let mut input = input_of(alloc, fails)?;
    let mut output = MemSink::new(alloc, 1000, Row::new(alloc));
    let mut none = MemSink::new(alloc, 1000, Row::new(alloc));
    let words = ["replay", "j", "twice.sr"];
    let report = called_on(
        alloc,
        &words,
        &mut files,
        &mut input,
        &mut output,
        &mut none,
    )?;
    if output.held().starts_with(shown) && none.held().is_empty() && report.items.is_empty() {
        return Ok(report.status);
    }
    Ok(255)
}

/// The status of a run of `twice.sr`, whose journal is put.
fn status_of_run(alloc: Global, journal: &mut MemSink) -> Result<u8, NoMemory> {
    let mut files = files_with(alloc, b"")?;
    let mut input = input_of(alloc, &[])?;
    let mut output = MemSink::new(alloc, 1000, Row::new(alloc));
    let words = ["run", "twice.sr", "--journal"];
    let report = called_on(alloc, &words, &mut files, &mut input, &mut output, journal)?;
    Ok(report.status)
}

/// Whether a run that reads, its replay, and its replay where the input fails end with these statuses.
fn ends_with(alloc: Global, ran: u8, replayed: u8, failed: u8) -> Result<bool, NoMemory> {
    let mut journal = MemSink::new(alloc, 1000, Row::new(alloc));
    Ok(
        status_of_run(alloc, &mut journal)? == ran
            && status_of(alloc, journal.held(), &[], b"items ")? == replayed
            && status_of(alloc, journal.held(), &[2], b"")? == failed,
    )
}

/// A replay takes its input to the end.
#[test]
fn replays_with_input(rt: HostRuntime) -> Result<(), Fail> {
    assert!(rt; ends_with(rt.alloc(), 0, 0, 105)?);
    Ok(())
}
