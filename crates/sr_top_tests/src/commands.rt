use crate::support::{Case, USAGE, called, called_with, goes_so, push_file, silent};
use sr_ports::{MemFiles, MemSink};
use sr_value::{NoMemory, Row, Text};
use std::alloc::Global;
use std::test::Fail;

const HELLO: &[u8] = b"resource main()\n  write(\"hello\", 3)\nend\n";

/// Philosophers that eat three times each, by the leave of a servant.
pub const PHILOSOPHERS: &[u8] = b"resource Servant
  op getforks(id : int)
  op relforks(id : int)
body Servant(n : int)
  var eating[0:n-1] : bool
  process server
    do true ->
      in getforks(id) and not eating[(id + 1) % n]
                      and not eating[(id + n - 1) % n] -> eating[id] := true
      [] relforks(id) -> eating[id] := false
      ni
    od
  end
end
resource Philosopher
  import Servant
body Philosopher(s : cap Servant; id, meals : int; done : cap (id, n : int))
  process life
    fa m := 1 to meals -> s.getforks(id); s.relforks(id) af
    send done(id, meals)
  end
end
resource main()
  import Servant, Philosopher
  op finished(id, meals : int)
  var s : cap Servant
  var got[0:4] : int
  var total : int := 0
  var id, n : int
  s := create Servant(5)
  fa i := 0 to 4 -> create Philosopher(s, i, 3, finished) af
  fa k := 1 to 5 -> receive finished(id, n); got[id] := n; total := total + n af
  fa i := 0 to 4 -> write(\"philosopher\", i, \"ate\", got[i]) af
  write(\"total\", total)
end
";

const CLASSES: &[u8] =
    b"Servant: getforks relforks\nServant: server\nPhilosopher: life\nmain: finished\n";

const FILES: [(&str, &[u8]); 3] = [
    ("hello.sr", HELLO),
    ("phil.sr", PHILOSOPHERS),
    ("a.sr", b"resource main()\n  write(y)\nend\n"),
];

fn usage<'a>(words: &'a [&'a str]) -> Case<'a> {
    Case {
        status: 108,
        diag: USAGE,
        ..silent(words, &[])
    }
}

/// `check` and `classes`: a line for each class, in the order of the first operations.
#[test]
fn checks_and_classes(rt: HostRuntime) -> Result<(), Fail> {
    let cases = [
        silent(&["check", "hello.sr"], &FILES),
        silent(&["classes", "hello.sr"], &FILES),
        Case {
            output: CLASSES,
            ..silent(&["classes", "phil.sr"], &FILES)
        },
        Case {
            put_fails: &[1],
            status: 106,
            diag: b"sr: output failed\n",
            ..silent(&["classes", "phil.sr"], &FILES)
        },
        Case {
            status: 103,
            diag: b"sr: a.sr:2: S4 Name\n",
            ..silent(&["classes", "a.sr"], &FILES)
        },
        Case {
            status: 104,
            diag: b"sr: cannot read b.sr\n",
            ..silent(&["classes", "b.sr"], &FILES)
        },
    ];
    for (index, case) in cases.iter().enumerate() {
        assert!(rt; goes_so(rt.alloc(), case)?, "case {index}");
    }
    Ok(())
}

/// Whether a call puts this and ends with status 0, however many items it makes.
fn writes(
    alloc: Global,
    words: &[&str],
    name: &str,
    content: &[u8],
    text: &[u8],
) -> Result<bool, NoMemory> {
    let mut output = MemSink::new(alloc, 1000, Row::new(alloc));
    let mut diag = MemSink::new(alloc, 1000, Row::new(alloc));
    let mut journal = MemSink::new(alloc, 1000, Row::new(alloc));
    let files = [(name, content)];
    let case = silent(words, &files);
    let report = called(alloc, &case, &mut output, &mut diag, &mut journal)?;
    Ok(
        report.status == 0
            && output.held() == text
            && diag.held().is_empty()
            && journal.held().is_empty(),
    )
}

/// The sample of a seed s has 2 + s mod 7 servers and 3 + (s / 7) mod 11 clients that make 50 + (s / 77) mod 150 calls
/// each. The call j of client c is answered with j * ((c + j) mod servers + 1).
#[test]
fn samples(rt: HostRuntime) -> Result<(), Fail> {
    let rows: [(&[&str], &[u8]); 5] = [
        (&["gen", "0"], b"servers 2 clients 3 calls 150 total 5750\n"),
        (
            &["gen", "0", "--workers", "4"],
            b"servers 2 clients 3 calls 150 total 5750\n",
        ),
        (
            &["gen", "8"],
            b"servers 3 clients 4 calls 200 total 10183\n",
        ),
        (
            &["gen", "--workers=1", "0000000080"],
            b"servers 5 clients 3 calls 153 total 11987\n",
        ),
        (
            &["gen", "4294967295"],
            b"servers 5 clients 3 calls 438 total 96727\n",
        ),
    ];
    for (words, text) in rows {
        assert!(rt; writes(rt.alloc(), words, "a.sr", b"", text)?);
    }
    Ok(())
}

#[test]
fn philosophers(rt: HostRuntime) -> Result<(), Fail> {
    let text =
        b"philosopher 0 ate 3\nphilosopher 1 ate 3\nphilosopher 2 ate 3\nphilosopher 3 ate 3\nphilosopher 4 ate 3\ntotal 15\n";
    for workers in ["1", "4"] {
        assert!(rt;
            writes(
                rt.alloc(),
                &["run", "phil.sr", "--workers", workers],
                "phil.sr",
                PHILOSOPHERS,
                text
            )?
        );
    }
    Ok(())
}

/// Words that are no command, and a file whose name begins with a dash.
#[test]
fn words(rt: HostRuntime) -> Result<(), Fail> {
    let dash: [(&str, &[u8]); 1] = [("-a.sr", HELLO)];
    let cases = [
        usage(&[]),
        usage(&["run"]),
        usage(&["classes"]),
        usage(&["gen"]),
        usage(&["gen", "1", "2"]),
        usage(&["gen", "4294967296"]),
        usage(&["gen", "1", "--journal"]),
        usage(&["check", "a.sr", "--journal"]),
        usage(&["classes", "a.sr", "--steps", "5"]),
        usage(&["run", "a.sr", "--workers", "17"]),
        usage(&["run", "a.sr", "--steps", "5", "--steps", "5"]),
        usage(&["run", "a.sr", "--journal", "--journal"]),
        usage(&["run", "a.sr", "--journal=1"]),
        usage(&["walk", "a.sr"]),
        Case {
            status: 102,
            items: 5,
            output: b"hello 3\n",
            diag: b"sr: limit: steps\n",
            ..silent(&["run", "--steps=5", "--", "-a.sr"], &dash)
        },
        Case {
            status: 104,
            diag: b"sr: cannot read a.sr\n",
            ..silent(&["run", "a.sr"], &dash)
        },
    ];
    for (index, case) in cases.iter().enumerate() {
        assert!(rt; goes_so(rt.alloc(), case)?, "case {index}");
    }
    Ok(())
}

/// The limits: a process that begins statements without end, and a program that makes steps without end, with one worker
/// and with four.
#[test]
fn limits(rt: HostRuntime) -> Result<(), Fail> {
    let ticks: [(&str, &[u8]); 1] = [("a.sr", b"resource main()\n  do true -> skip od\nend\n")];
    let steps: [(&str, &[u8]); 1] = [(
        "a.sr",
        b"resource main()\n  op f()\n  do true -> send f() od\nend\n",
    )];
    let over_ticks = Case {
        status: 102,
        items: 1,
        diag: b"sr: limit: ticks\n",
        ..silent(&["run", "a.sr", "--ticks", "1000"], &ticks)
    };
    let over_steps = Case {
        status: 102,
        items: 50,
        diag: b"sr: limit: steps\n",
        ..silent(&["run", "a.sr", "--steps", "50"], &steps)
    };
    let cases = [
        over_ticks,
        Case {
            words: &["run", "a.sr", "--workers", "4", "--ticks", "1000"],
            ..over_ticks
        },
        over_steps,
        Case {
            words: &["run", "a.sr", "--workers", "4", "--steps", "50"],
            ..over_steps
        },
    ];
    for (index, case) in cases.iter().enumerate() {
        assert!(rt; goes_so(rt.alloc(), case)?, "case {index}");
    }
    Ok(())
}

/// A store makes a guard true.
#[test]
fn stores(rt: HostRuntime) -> Result<(), Fail> {
    let text = b"resource main()
  var x : int := 0
  op go(n : int)
  process waiter
    in go(n) and x = 1 -> write(\"served\", n) ni
  end
  process setter
    x := 1
  end
  send go(8)
end
";
    for workers in ["1", "4"] {
        let words = ["run", "a.sr", "--workers", workers];
        assert!(rt; writes(rt.alloc(), &words, "a.sr", text, b"served 8\n")?);
    }
    Ok(())
}

/// The diagnostic line of `check` for this text, in a file of this name.
fn is_refused(alloc: Global, content: &[u8], line: &[u8]) -> Result<bool, NoMemory> {
    let files: [(&str, &[u8]); 1] = [("a.sr", content)];
    goes_so(
        alloc,
        &Case {
            status: 103,
            diag: line,
            ..silent(&["check", "a.sr"], &files)
        },
    )
}

#[test]
fn refusals(rt: HostRuntime) -> Result<(), Fail> {
    let rows: [(&[u8], &[u8]); 9] = [
        (b"", b"sr: a.sr:1: S9 Main\n"),
        (
            b"resource main()\n  \x80\nend\n",
            b"sr: a.sr:2: S1 BadByte\n",
        ),
        (
            b"resource main()\n  write(3\nend\n",
            b"sr: a.sr:3: S3 Syntax\n",
        ),
        (
            b"resource main()\n  write(y)\nend\n",
            b"sr: a.sr:2: S4 Name\n",
        ),
        (
            b"resource main()\n  var x : int\n  var x : int\nend\n",
            b"sr: a.sr:3: S5 Twice\n",
        ),
        (
            b"resource main()\n  var x : int := true\nend\n",
            b"sr: a.sr:2: S6 Type\n",
        ),
        (
            b"resource main()\n  op f() {call}\n  send f()\nend\n",
            b"sr: a.sr:3: S7 Kind\n",
        ),
        (b"resource main(n : int)\nend\n", b"sr: a.sr:1: S9 Main\n"),
        (
            b"global G\n  import H\nbody G\nend\nglobal H\n  import G\nbody H\nend\nresource main()\nend\n",
            b"sr: a.sr:2: S12 Cycle\n",
        ),
    ];
    for (index, (content, line)) in rows.iter().enumerate() {
        assert!(rt; is_refused(rt.alloc(), content, line)?, "row {index}");
    }
    Ok(())
}

/// The text of the global of a number.
fn a_global(alloc: Global, number: usize) -> Result<Text, NoMemory> {
    let text = format!(in alloc; "global G{number}\n  const c := {number}\nend\n")?;
    Text::from_slice(alloc, text.as_bytes())
}

/// The status of `check` of so many files: globals, and main as the last.
fn status_of(alloc: Global, count: usize) -> Result<u8, NoMemory> {
    let mut words = Vec::new(alloc);
    words.push(String::from_str(alloc, "check")?)?;
    let mut files = Row::new(alloc);
    for number in 1..count {
        let name = format!(in alloc; "g{number}.sr")?;
        push_file(
            alloc,
            &mut files,
            name.as_bytes(),
            a_global(alloc, number)?.as_bytes(),
        )?;
        words.push(name)?;
    }
    push_file(alloc, &mut files, b"main.sr", HELLO)?;
    words.push(String::from_str(alloc, "main.sr")?)?;
    let mut files = MemFiles::new(files, Row::new(alloc));
    let mut output = MemSink::new(alloc, 1000, Row::new(alloc));
    let mut diag = MemSink::new(alloc, 1000, Row::new(alloc));
    let mut journal = MemSink::new(alloc, 1000, Row::new(alloc));
    let report = called_with(
        alloc,
        &silent(&[], &[]),
        &words,
        &mut files,
        &mut output,
        &mut diag,
        &mut journal,
    )?;
    Ok(report.status)
}

/// There are at most 64 files.
#[test]
fn numbers_of_files(rt: HostRuntime) -> Result<(), Fail> {
    for (count, status) in [(1, 0), (2, 0), (64, 0), (65, 108)] {
        assert_eq!(rt; status_of(rt.alloc(), count)?, status);
    }
    Ok(())
}
