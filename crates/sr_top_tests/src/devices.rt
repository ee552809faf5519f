use crate::commands::PHILOSOPHERS;
use crate::support::{Case, called, called_over, goes_so, numbers, silent};
use sr_ports::{MemSink, MemSource};
use sr_top::{Ending, Side};
use sr_value::{NoMemory, Row, Text};
use std::alloc::Global;
use std::test::Fail;

/// What the philosophers write, in lines of 20 bytes but for the last.
const LINES: &[u8] =
    b"philosopher 0 ate 3\nphilosopher 1 ate 3\nphilosopher 2 ate 3\nphilosopher 3 ate 3\nphilosopher 4 ate 3\ntotal 15\n";

/// Reads of two numbers and of one more.
const READS: [(&str, &[u8]); 1] = [(
    "a.sr",
    b"resource main()\n  var x, y : int\n  write(read(x, y), x, y)\n  write(read(x))\nend\n",
)];

const HELLO: [(&str, &[u8]); 1] = [("hello.sr", b"resource main()\n  write(\"hello\", 3)\nend\n")];

const TWO: [(&str, &[u8]); 2] = [
    ("a.sr", b"resource main()\nend\n"),
    ("b.sr", b"global G\nend\n"),
];

const EMPTY: [(&str, &[u8]); 1] = [("empty.sr", b"")];

/// Whether the philosophers put so many bytes of their lines into this sink, which fails then.
fn writes_first(
    alloc: Global,
    words: &[&str],
    output: &mut MemSink,
    bytes: usize,
) -> Result<bool, NoMemory> {
    let mut diag = MemSink::new(alloc, 100, Row::new(alloc));
    let mut journal = MemSink::new(alloc, 100, Row::new(alloc));
    let files = [("phil.sr", PHILOSOPHERS)];
    let report = called(
        alloc,
        &silent(words, &files),
        output,
        &mut diag,
        &mut journal,
    )?;
    Ok(
        report.ending == Ending::WriteFault
            && LINES.starts_with(output.held())
            && output.held().len() == bytes,
    )
}

/// Whether a sink whose put of a line fails has the lines before it.
fn fails_at_line(alloc: Global, words: &[&str], line: u8) -> Result<bool, NoMemory> {
    let fails = numbers(alloc, &[u64::from(line)])?;
    let mut output = MemSink::new(alloc, 100, fails);
    let before = usize::from(line.saturating_sub(1)) * 20;
    writes_first(alloc, words, &mut output, before)
}

/// Whether a sink that holds so many bytes has them.
fn fails_when_full(alloc: Global, room: u8) -> Result<bool, NoMemory> {
    let mut output = MemSink::limited(alloc, u32::from(room), 100);
    writes_first(alloc, &["run", "phil.sr"], &mut output, usize::from(room))
}

/// The output fails at each of its lines.
#[test]
fn each_line_fails(rt: HostRuntime) -> Result<(), Fail> {
    let four = ["run", "phil.sr", "--workers", "4"];
    for line in 1..7u8 {
        assert!(rt;
            fails_at_line(rt.alloc(), &["run", "phil.sr"], line)?,
            "line {line}"
        );
        assert!(rt;
            fails_at_line(rt.alloc(), &four, line)?,
            "line {line}, 4 workers"
        );
    }
    Ok(())
}

/// The output is full before its last byte.
#[test]
fn output_is_full(rt: HostRuntime) -> Result<(), Fail> {
    for room in 0..21u8 {
        assert!(rt; fails_when_full(rt.alloc(), room)?, "{room} bytes");
    }
    Ok(())
}

/// Whether devices that give and take one byte at a time make no difference.
fn goes_by_bytes(
    alloc: Global,
    words: &[&str],
    file: (&str, &[u8]),
    input: &[u8],
    wanted: &[u8],
) -> Result<bool, NoMemory> {
    let input = Text::from_slice(alloc, input)?;
    let mut input = MemSource::new(input, 1, Row::new(alloc));
    let mut output = MemSink::new(alloc, 1, Row::new(alloc));
    let report = called_over(alloc, words, file, &mut input, &mut output)?;
    Ok(report.ending == Ending::Quiet && report.status == 0 && output.held() == wanted)
}

#[test]
fn single_bytes(rt: HostRuntime) -> Result<(), Fail> {
    let read = b"1 4 0\n-1\n";
    assert!(rt;
        goes_by_bytes(
            rt.alloc(),
            &["run", "phil.sr"],
            ("phil.sr", PHILOSOPHERS),
            b"",
            LINES
        )?
    );
    assert!(rt; goes_by_bytes(rt.alloc(), &["run", "a.sr"], READS[0], b"4", read)?);
    Ok(())
}

/// Whether the run of the reads ends without output where a take of its input fails.
fn fails_at_take(alloc: Global, take: u64) -> Result<bool, NoMemory> {
    let fails = numbers(alloc, &[take])?;
    let mut input = MemSource::new(Text::from_slice(alloc, b"4")?, 2, fails);
    let mut output = MemSink::new(alloc, 100, Row::new(alloc));
    let report = called_over(alloc, &["run", "a.sr"], READS[0], &mut input, &mut output)?;
    Ok(report.ending == Ending::ReadFault && report.status == 105 && output.held().is_empty())
}

/// The input fails before its byte, and where it would tell its end.
#[test]
fn takes_fail(rt: HostRuntime) -> Result<(), Fail> {
    for take in [1, 2] {
        assert!(rt; fails_at_take(rt.alloc(), take)?, "take {take}");
    }
    Ok(())
}

/// The reads of two files fail.
#[test]
fn files_fail(rt: HostRuntime) -> Result<(), Fail> {
    let cases = [
        Case {
            read_fails: &[1],
            ending: Some(Ending::NoFile(0)),
            status: 104,
            diag: b"sr: cannot read a.sr\n",
            ..silent(&["run", "a.sr", "b.sr"], &TWO)
        },
        Case {
            read_fails: &[2],
            ending: Some(Ending::NoFile(1)),
            status: 104,
            diag: b"sr: cannot read b.sr\n",
            ..silent(&["run", "a.sr", "b.sr"], &TWO)
        },
    ];
    for (index, case) in cases.iter().enumerate() {
        assert!(rt; goes_so(rt.alloc(), case)?, "case {index}");
    }
    Ok(())
}

/// Whether a refusal is told by the status where the diagnostic output fails.
fn is_told_by_status(alloc: Global) -> Result<bool, NoMemory> {
    let mut output = MemSink::new(alloc, 100, Row::new(alloc));
    let mut diag = MemSink::new(alloc, 100, numbers(alloc, &[1])?);
    let mut journal = MemSink::new(alloc, 100, Row::new(alloc));
    let case = silent(&["run", "empty.sr"], &EMPTY);
    let report = called(alloc, &case, &mut output, &mut diag, &mut journal)?;
    Ok(report.diag == Side::Failed && report.status == 103)
}

/// Whether a run is whole where its journal fails.
fn is_whole_without_journal(alloc: Global) -> Result<bool, NoMemory> {
    let mut output = MemSink::new(alloc, 100, Row::new(alloc));
    let mut diag = MemSink::new(alloc, 100, Row::new(alloc));
    let mut journal = MemSink::new(alloc, 100, numbers(alloc, &[1])?);
    let case = silent(&["run", "hello.sr", "--journal"], &HELLO);
    let report = called(alloc, &case, &mut output, &mut diag, &mut journal)?;
    Ok(
        report.ending == Ending::Quiet
            && report.journal == Side::Failed
            && report.status == 106
            && output.held() == b"hello 3\n".as_slice(),
    )
}

#[test]
fn other_outputs_fail(rt: HostRuntime) -> Result<(), Fail> {
    assert!(rt; is_told_by_status(rt.alloc())?);
    assert!(rt; is_whole_without_journal(rt.alloc())?);
    Ok(())
}
