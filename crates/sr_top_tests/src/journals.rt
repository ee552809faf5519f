use crate::support::{Case, called, goes_so, silent, tells};
use sr_ports::MemSink;
use sr_value::{NoMemory, Row};
use std::alloc::Global;
use std::test::Fail;

const HELLO: [(&str, &[u8]); 1] = [("hello.sr", b"resource main()\n  write(\"hello\", 3)\nend\n")];

/// The journal of a run of `hello.sr`.
const JOURNAL: &[u8] =
    b"SRJ1\nfiles 1\n40 8 hello.sr\nsteps 1000000 ticks 10000000\nitems 6\ns 1 2\ns 2 0\ns 2 0\ns 1 0\ns 1 0\nq 0\nend\n";

fn hello<'a>(words: &'a [&'a str]) -> Case<'a> {
    Case {
        items: 6,
        output: b"hello 3\n",
        journal: JOURNAL,
        ..silent(words, &HELLO)
    }
}

/// A journal tells the lengths and names of the files, the limits and the items. It is there for every ending of a run, and
/// for nothing else. Where its sink fails the status says so.
#[test]
fn journals(rt: HostRuntime) -> Result<(), Fail> {
    let asked = ["run", "hello.sr", "--journal"];
    let two: [(&str, &[u8]); 2] = [
        ("g.sr", b"global G\n  const c := 7\nend\n"),
        ("m.sr", b"resource main()\n  import G\n  stop(G.c)\nend\n"),
    ];
    let fault: [(&str, &[u8]); 1] = [("a.sr", b"resource main()\n  write(1 / 0)\nend\n")];
    let cases = [
        hello(&asked),
        hello(&["run", "--journal", "--workers=4", "hello.sr"]),
        Case {
            journal: b"",
            ..hello(&["run", "hello.sr"])
        },
        Case {
            status: 102,
            items: 5,
            diag: b"sr: limit: steps\n",
            journal: b"SRJ1\nfiles 1\n40 8 hello.sr\nsteps 5 ticks 10000000\nitems 5\ns 1 2\ns 2 0\ns 2 0\ns 1 0\ns 1 0\nend\n",
            ..hello(&["run", "hello.sr", "--journal", "--steps", "5"])
        },
        Case {
            journal_fails: &[1],
            status: 106,
            journal: b"",
            ..hello(&asked)
        },
        Case {
            journal_fails: &[3],
            most: 4,
            status: 106,
            journal: b"SRJ1\nfil",
            ..hello(&asked)
        },
        Case {
            most: 1,
            ..hello(&asked)
        },
        Case {
            put_fails: &[1],
            status: 106,
            items: 2,
            output: b"",
            diag: b"sr: output failed\n",
            journal: b"SRJ1\nfiles 1\n40 8 hello.sr\nsteps 1000000 ticks 10000000\nitems 2\ns 1 2\ns 2 0\nend\n",
            ..hello(&asked)
        },
        Case {
            status: 104,
            diag: b"sr: cannot read c.sr\n",
            ..silent(&["run", "c.sr", "--journal"], &HELLO)
        },
        Case {
            status: 103,
            diag: b"sr: g.sr:1: S9 Main\n",
            ..silent(&["run", "g.sr", "--journal"], &two)
        },
    ];
    for (index, case) in cases.iter().enumerate() {
        assert!(rt; goes_so(rt.alloc(), case)?, "case {index}");
    }
    assert!(rt;
        starts_so(
            rt.alloc(),
            &["run", "g.sr", "m.sr", "--journal"],
            &two,
            7,
            b"SRJ1\nfiles 2\n28 4 g.sr\n43 4 m.sr\nsteps 1000000 ticks 10000000\nitems "
        )?
    );
    assert!(rt;
        starts_so(
            rt.alloc(),
            &["run", "a.sr", "--journal"],
            &fault,
            101,
            b"SRJ1\nfiles 1\n35 4 a.sr\nsteps 1000000 ticks 10000000\nitems "
        )?
    );
    Ok(())
}

/// Whether a call ends with this status, and its journal begins so and tells its items.
fn starts_so(
    alloc: Global,
    words: &[&str],
    files: &[(&str, &[u8])],
    status: u8,
    start: &[u8],
) -> Result<bool, NoMemory> {
    let mut output = MemSink::new(alloc, 1000, Row::new(alloc));
    let mut diag = MemSink::new(alloc, 1000, Row::new(alloc));
    let mut journal = MemSink::new(alloc, 1000, Row::new(alloc));
    let case = silent(words, files);
    let report = called(alloc, &case, &mut output, &mut diag, &mut journal)?;
    Ok(
        report.status == status
            && journal.held().starts_with(start)
            && tells(alloc, journal.held(), report.items.as_slice()),
    )
}
