use crate::support::{Case, USAGE, called, goes_so, silent};
use sr_ask::Item;
use sr_ports::MemSink;
use sr_text::{Kind, Refusal};
use sr_top::{Ending, LimitKind};
use sr_value::{NoMemory, Place, Row};
use std::alloc::Global;
use std::test::Fail;

/// The files of a call.
type Files<'a> = &'a [(&'a str, &'a [u8])];

/// A run of two writes.
const TWO: [(&str, &[u8]); 1] = [(
    "a.sr",
    b"resource main()\n  write(\"one\")\n  write(\"two\")\nend\n",
)];

/// A run that reads a number and writes its double.
const DOUBLE: [(&str, &[u8]); 1] = [(
    "a.sr",
    b"resource main()\n  var n : int\n  read(n)\n  write(2 * n)\nend\n",
)];

/// A run that reads a number, reads on, and writes what it has.
const READ_AGAIN: [(&str, &[u8]); 1] = [(
    "a.sr",
    b"resource main()\n  var n : int\n  read(n)\n  read(n)\n  write(n)\nend\n",
)];

const HELLO: [(&str, &[u8]); 1] = [("a.sr", b"resource main()\n  write(\"hello\", 3)\nend\n")];

const SPACED: [(&str, &[u8]); 1] = [(
    "a.sr",
    b"\t resource  \tmain() \n\n\twrite( 007 ,\"a,\\tb\" )\n  write()\nend",
)];

const ENDLESS: [(&str, &[u8]); 1] = [("a.sr", b"resource main()\ndo true -> skip od\nend\n")];

/// A component that `b.sr` has.
const OTHER: &[u8] = b"global Other\n  const c := 7\nend\n";

const BOTH: [(&str, &[u8]); 2] = [
    (
        "a.sr",
        b"resource main()\nimport Other\nwrite(Other.c)\nend",
    ),
    ("b.sr", OTHER),
];

/// A file that is empty, and another one.
const EMPTY: [(&str, &[u8]); 2] = [("a.sr", b""), ("b.sr", OTHER)];

const NO_MAIN: Ending = Ending::Refused(Refusal {
    kind: Kind::Main,
    place: Place { file: 0, line: 1 },
});

/// Whether a run of this text makes these items.
fn makes_items(alloc: Global, text: &[u8], items: &[Item]) -> Result<bool, NoMemory> {
    let mut output = MemSink::new(alloc, 100, Row::new(alloc));
    let mut diag = MemSink::new(alloc, 100, Row::new(alloc));
    let mut journal = MemSink::new(alloc, 100, Row::new(alloc));
    let files = [("a.sr", text)];
    let case = run_case(&files, b"", 0);
    let report = called(alloc, &case, &mut output, &mut diag, &mut journal)?;
    Ok(report.items.as_slice() == items)
}

/// Whether a text is refused so, and nothing is put.
fn is_refused_so(alloc: Global, text: &[u8], kind: Kind, line: u32) -> Result<bool, NoMemory> {
    let mut output = MemSink::new(alloc, 100, Row::new(alloc));
    let mut diag = MemSink::new(alloc, 100, Row::new(alloc));
    let mut journal = MemSink::new(alloc, 100, Row::new(alloc));
    let files = [("a.sr", text)];
    let case = run_case(&files, b"", 0);
    let report = called(alloc, &case, &mut output, &mut diag, &mut journal)?;
    let place = Place { file: 0, line };
    let ending = Ending::Refused(Refusal { kind, place });
    Ok(report.ending == ending && output.held().is_empty())
}

/// The call of a run of `a.sr` that goes well.
fn run_case<'a>(files: Files<'a>, output: &'a [u8], items: usize) -> Case<'a> {
    Case {
        ending: Some(Ending::Quiet),
        output,
        items,
        ..silent(&["run", "a.sr"], files)
    }
}

/// A call that ends before a run.
fn early<'a>(words: &'a [&'a str], ending: Ending, status: u8, diag: &'a [u8]) -> Case<'a> {
    Case {
        ending: Some(ending),
        status,
        diag,
        ..silent(words, &EMPTY)
    }
}

#[test]
fn calls_with_ports_in_memory(rt: HostRuntime) -> Result<(), Fail> {
    let s9 = b"sr: a.sr:1: S9 Main\n";
    let cases = [
        run_case(&HELLO, b"hello 3\n", 6),
        run_case(&SPACED, b"7 a,\tb\n\n", 7),
        Case {
            piece: 4,
            put_fails: &[2],
            ending: Some(Ending::WriteFault),
            status: 106,
            output: b"one\n",
            diag: b"sr: output failed\n",
            items: 3,
            ..run_case(&TWO, b"", 0)
        },
        Case {
            piece: 1,
            ..run_case(&TWO, b"one\ntwo\n", 7)
        },
        run_case(&TWO, b"one\ntwo\n", 7),
        Case {
            input: b" 21",
            ..run_case(&DOUBLE, b"42\n", 10)
        },
        Case {
            input: b"21 ",
            take_fails: &[1],
            ending: Some(Ending::ReadFault),
            status: 105,
            diag: b"sr: input failed\n",
            ..run_case(&DOUBLE, b"", 2)
        },
        Case {
            words: &["run", "b.sr", "a.sr"],
            ..run_case(&BOTH, b"7\n", 9)
        },
        Case {
            read_fails: &[2],
            ..early(
                &["run", "b.sr", "a.sr"],
                Ending::NoFile(1),
                104,
                b"sr: cannot read a.sr\n",
            )
        },
        Case {
            read_fails: &[1],
            ..early(
                &["run", "a.sr"],
                Ending::NoFile(0),
                104,
                b"sr: cannot read a.sr\n",
            )
        },
        early(
            &["run", "c.sr"],
            Ending::NoFile(0),
            104,
            b"sr: cannot read c.sr\n",
        ),
        early(&["run", "a.sr"], NO_MAIN, 103, s9),
        early(&[], Ending::Usage, 108, USAGE),
        early(&["run"], Ending::Usage, 108, USAGE),
        early(&["run", "-x"], Ending::Usage, 108, USAGE),
        early(&["walk", "a.sr"], Ending::Usage, 108, USAGE),
        early(&["run", "a.sr", "--x"], Ending::Usage, 108, USAGE),
        early(
            &["run", "a.sr", "--workers", "17"],
            Ending::Usage,
            108,
            USAGE,
        ),
        Case {
            words: &["run", "a.sr", "--steps", "5"],
            ending: Some(Ending::Limit(LimitKind::Steps)),
            status: 102,
            diag: b"sr: limit: steps\n",
            ..run_case(&HELLO, b"hello 3\n", 5)
        },
        Case {
            words: &["run", "a.sr", "--ticks", "1000"],
            ending: Some(Ending::Limit(LimitKind::Ticks(2))),
            status: 102,
            diag: b"sr: limit: ticks\n",
            ..run_case(&ENDLESS, b"", 1)
        },
        Case {
            words: &["check", "a.sr"],
            ending: Some(Ending::Done),
            ..run_case(&HELLO, b"", 0)
        },
    ];
    for (index, case) in cases.iter().enumerate() {
        assert!(rt; goes_so(rt.alloc(), case)?, "case {index}");
    }
    Ok(())
}

/// The output fails at each of its puts, which take one byte each.
#[test]
fn failing_output(rt: HostRuntime) -> Result<(), Fail> {
    let written = b"one\ntwo\n";
    for put in 1..9 {
        let fails = [put as u64];
        let case = Case {
            piece: 1,
            put_fails: &fails,
            ending: Some(Ending::WriteFault),
            status: 106,
            output: &written[..put - 1],
            diag: b"sr: output failed\n",
            items: if put <= 4 { 2 } else { 3 },
            ..run_case(&TWO, b"", 0)
        };
        assert!(rt; goes_so(rt.alloc(), &case)?, "put {put}");
    }
    Ok(())
}

/// The input, in pieces of two bytes, fails before its first byte, between pieces, and where it would tell its end. What
/// no `read` wants isn't taken, so it can't fail.
#[test]
fn failing_input(rt: HostRuntime) -> Result<(), Fail> {
    let failed = Case {
        ending: Some(Ending::ReadFault),
        status: 105,
        diag: b"sr: input failed\n",
        ..run_case(&DOUBLE, b"", 2)
    };
    let of = |input, take_fails, case| Case {
        input,
        take_fails,
        ..case
    };
    let cases = [
        of(b"21 ", &[1], failed),
        of(b"21 ", &[2], failed),
        of(b"21 ", &[3], run_case(&DOUBLE, b"42\n", 10)),
        of(b"", &[1], failed),
        of(b"21", &[2], failed),
        of(b"21", &[3], run_case(&DOUBLE, b"42\n", 10)),
        of(b"2 1", &[2], run_case(&DOUBLE, b"4\n", 10)),
        of(b"7", &[3], run_case(&READ_AGAIN, b"7\n", 11)),
    ];
    for (index, case) in cases.iter().enumerate() {
        assert!(rt; goes_so(rt.alloc(), case)?, "case {index}");
    }
    Ok(())
}

#[test]
fn items_of_hello(rt: HostRuntime) -> Result<(), Fail> {
    let step = |actor, name| Item::Step { actor, name };
    let items = [
        step(1, 2),
        step(2, 0),
        step(2, 0),
        step(1, 0),
        step(1, 0),
        Item::Quiesce { name: 0 },
    ];
    let hello = b"resource main()\nwrite(\"hello\", 3)\nend";
    assert!(rt; makes_items(rt.alloc(), hello, &items)?);
    Ok(())
}

/// Texts that are refused, with the kind and the line.
#[test]
fn refused_texts(rt: HostRuntime) -> Result<(), Fail> {
    let texts: [(&[u8], Kind, u32); 13] = [
        (b"", Kind::Main, 1),
        (b"resource main()\n  \x80\nend\n", Kind::BadByte, 2),
        (
            b"resource main()\n  write(2147483648)\nend\n",
            Kind::BadToken,
            2,
        ),
        (b"resource main()\n  write(3\nend\n", Kind::Syntax, 3),
        (
            b"resource main()\n  var x : real\nend\n",
            Kind::OutOfProfile,
            2,
        ),
        (
            b"resource main()\n  var x : real := \x80\nend\n",
            Kind::BadByte,
            2,
        ),
        (b"resource main\nend\n", Kind::Syntax, 2),
        (b"resource main()\nwrite(1,)\nend\n", Kind::Syntax, 2),
        (
            b"resource main()\n  write(1,\n  1 + true)\nend\n",
            Kind::BadType,
            3,
        ),
        (b"resource main()\n  write(x)\nend\n", Kind::Name, 2),
        (b"resource main()\n  var x, x : int\nend\n", Kind::Twice, 2),
        (b"resource main()\n\n  exit\nend\n", Kind::BadUse, 3),
        (
            b"resource main()\n  op f(n : int) returns r : int\n  in f(n) returns r and f(n) = 1 -> skip ni\nend\n",
            Kind::Guard,
            3,
        ),
    ];
    for (text, kind, line) in texts {
        assert!(rt;
            is_refused_so(rt.alloc(), text, kind, line)?,
            "{kind:?} in line {line}"
        );
    }
    Ok(())
}

/// The most bytes of a file.
const MOST: usize = 1_048_576;

/// A program with spaces after it, so many bytes in all.
fn spaced(alloc: Global, bytes: usize) -> Result<Vec<u8>, NoMemory> {
    let mut text = Vec::from_slice(alloc, b"resource main()\n  write(1)\nend\n")?;
    text.resize(bytes, b' ')?;
    Ok(text)
}

/// Whether a program with as many bytes as a file may have runs.
fn runs_at_the_limit(alloc: Global) -> Result<bool, NoMemory> {
    let text = spaced(alloc, MOST)?;
    let files = [("a.sr", text.as_slice())];
    goes_so(alloc, &run_case(&files, b"1\n", 6))
}

/// Brackets in brackets, past the limit on them.
fn brackets(alloc: Global) -> Result<Vec<u8>, NoMemory> {
    let mut brackets = Vec::from_slice(alloc, b"resource main()\nwrite(")?;
    for _ in 0..65 {
        brackets.push(b'(')?;
    }
    Ok(brackets)
}

/// The limits on a file: its bytes, and brackets in brackets.
#[test]
fn large_texts(rt: HostRuntime) -> Result<(), Fail> {
    assert!(rt; runs_at_the_limit(rt.alloc())?);
    let text = spaced(rt.alloc(), MOST + 1)?;
    assert!(rt; is_refused_so(rt.alloc(), &text, Kind::Large, 1)?);
    Ok(())
}

#[test]
fn deep_texts(rt: HostRuntime) -> Result<(), Fail> {
    let brackets = brackets(rt.alloc())?;
    assert!(rt; is_refused_so(rt.alloc(), &brackets, Kind::Large, 2)?);
    Ok(())
}
