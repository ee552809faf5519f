use crate::support::{Question, call, is_answered};
use sr_ports::MemSink;
use sr_top::{Ending, LimitKind};
use sr_value::{NoMemory, Row, Text};
use std::alloc::Global;
use std::test::Fail;

/// One process writes a variable that another reads.
const RACE: &[u8] =
    b"resource main()\n  var x : int\n  process a\n    x := 1\n  end\n  process b\n    write(x)\n  end\nend\n";

/// The same, but the reader waits for the writer.
const ORDER: &[u8] =
    b"resource main()\n  var x : int\n  sem s\n  process a\n    x := 1; V(s)\n  end\n  process b\n    P(s); write(x)\n  end\nend\n";

/// The journals of their runs.
const RACE_JOURNAL: &[u8] =
    b"SRJ1\nfiles 1\n94 7 race.sr\nsteps 1000000 ticks 10000000\nitems 13\ns 1 2\ns 2 0\ns 2 3\ns 3 0\ns 2 4\ns 3 0\ns 4 0\ns 2 0\ns 4 0\ns 1 0\ns 4 0\ns 1 0\nq 0\nend\n";

const ORDER_JOURNAL: &[u8] =
    b"SRJ1\nfiles 1\n114 8 order.sr\nsteps 1000000 ticks 10000000\nitems 16\ns 1 2\ns 2 0\ns 2 3\ns 3 0\ns 2 4\ns 3 5\ns 4 0\ns 2 0\ns 3 0\ns 4 0\ns 1 0\ns 4 0\ns 1 0\ns 4 0\ns 4 0\nq 0\nend\n";

/// The second item is made by a process that isn't there yet.
const ILLEGAL: &[u8] =
    b"SRJ1\nfiles 1\n94 7 race.sr\nsteps 1000000 ticks 10000000\nitems 2\ns 1 2\ns 3 0\nend\n";

/// The files of the questions.
pub const FILES: [(&str, &[u8]); 6] = [
    ("race.sr", RACE),
    ("order.sr", ORDER),
    ("r", RACE_JOURNAL),
    ("o", ORDER_JOURNAL),
    ("illegal", ILLEGAL),
    ("none", b"SRJ\n"),
];

/// A question that is answered so.
pub fn found<'a>(words: &'a [&'a str], output: &'a [u8]) -> Question<'a> {
    Question {
        words,
        files: &FILES,
        fails: &[],
        status: 0,
        output,
        diag: b"",
    }
}

/// A call that ends with this status and puts nothing.
pub fn refused<'a>(words: &'a [&'a str], status: u8, diag: &'a [u8]) -> Question<'a> {
    Question {
        status,
        diag,
        ..found(words, b"")
    }
}

/// The races of a run, and each reason for which there are none.
#[test]
fn finds_races(rt: HostRuntime) -> Result<(), Fail> {
    let questions = [
        found(
            &["races", "r", "race.sr"],
            b"race 4 7 race.sr:4 race.sr:7\nraces 1\n",
        ),
        found(&["races", "o", "order.sr"], b"races 0\n"),
        refused(&["races", "k", "race.sr"], 104, b"sr: cannot read k\n"),
        refused(
            &["races", "none", "b.sr"],
            110,
            b"sr: journal: J1 NotJournal\n",
        ),
        refused(&["races", "r", "b.sr"], 104, b"sr: cannot read b.sr\n"),
        refused(
            &["races", "r", "order.sr"],
            111,
            b"sr: journal: other files\n",
        ),
        refused(
            &["races", "illegal", "race.sr"],
            109,
            b"sr: journal: item 2 is no step\n",
        ),
        Question {
            fails: &[1],
            ..refused(&["races", "o", "order.sr"], 106, b"sr: output failed\n")
        },
    ];
    for (index, question) in questions.iter().enumerate() {
        assert!(rt; is_answered(rt.alloc(), question)?, "question {index}");
    }
    Ok(())
}

// ---- too many items

/// A journal of so many items, which no run has.
fn journal_of(alloc: Global, items: u32) -> Result<Text, NoMemory> {
    let head = format!(in alloc;
        "SRJ1\nfiles 1\n94 7 race.sr\nsteps 1000000 ticks 10000000\nitems {items}\n"
    )?;
    let mut text = Text::from_slice(alloc, head.as_bytes())?;
    for _item in 0..items {
        text.push_all(b"q 0\n")?;
    }
    text.push_all(b"end\n")?;
    Ok(text)
}

/// How the search in a journal of so many items ends, where the file of its program isn't there.
fn ending_of(alloc: Global, items: u32) -> Result<Ending, NoMemory> {
    let text = journal_of(alloc, items)?;
    let files = [("j", text.as_bytes())];
    let mut output = MemSink::new(alloc, 1, Row::new(alloc));
    let mut diag = MemSink::new(alloc, 1, Row::new(alloc));
    let mut journal = MemSink::new(alloc, 1, Row::new(alloc));
    let report = call(
        alloc,
        &["races", "j", "race.sr"],
        &files,
        &mut output,
        &mut diag,
        &mut journal,
    )?;
    Ok(report.ending)
}

/// Too many items are told before a file is read.
#[test]
fn counts_items_first(rt: HostRuntime) -> Result<(), Fail> {
    let alloc = rt.alloc();
    assert_eq!(rt; ending_of(alloc, 65_536)?, Ending::NoFile(1));
    assert_eq!(rt; ending_of(alloc, 65_537)?, Ending::Limit(LimitKind::Items));
    Ok(())
}
