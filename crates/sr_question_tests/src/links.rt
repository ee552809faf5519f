use crate::support::call;
use sr_ports::MemSink;
use sr_value::{NoMemory, Row};
use std::alloc::Global;
use std::test::Fail;

/// Puts the journal of a run of a program, and hands out the status of the run.
pub fn record(alloc: Global, source: &[u8], journal: &mut MemSink) -> Result<u8, NoMemory> {
    let files = [("p.sr", source)];
    let mut output = MemSink::new(alloc, 1000, Row::new(alloc));
    let mut diag = MemSink::new(alloc, 1000, Row::new(alloc));
    let report = call(
        alloc,
        &["run", "p.sr", "--journal"],
        &files,
        &mut output,
        &mut diag,
        journal,
    )?;
    Ok(report.status)
}

/// Asks something of the journal of a run of a program, and answers with the status.
pub fn ask<'a>(
    alloc: Global,
    words: &[&str],
    source: &'a [u8],
    journal: &'a [u8],
    output: &mut MemSink,
    diag: &mut MemSink,
) -> Result<u8, NoMemory> {
    let files = [("p.sr", source), ("j", journal)];
    let mut none = MemSink::new(alloc, 1000, Row::new(alloc));
    let report = call(alloc, words, &files, output, diag, &mut none)?;
    Ok(report.status)
}

/// Whether a program runs, and the search in the journal of its run puts these races.
pub fn finds(alloc: Global, source: &[u8], races: &[u8]) -> Result<bool, NoMemory> {
    let mut journal = MemSink::new(alloc, 1000, Row::new(alloc));
    if record(alloc, source, &mut journal)? != 0 {
        return Ok(false);
    }
    let mut output = MemSink::new(alloc, 1000, Row::new(alloc));
    let mut diag = MemSink::new(alloc, 1000, Row::new(alloc));
    let status = ask(
        alloc,
        &["races", "j", "p.sr"],
        source,
        journal.held(),
        &mut output,
        &mut diag,
    )?;
    Ok(status == 0 && output.held() == races && diag.held().is_empty())
}

/// Programs, and the races of their runs. Of each kind of link there are two that differ in the link alone.
const KINDS: [(&[u8], &[u8]); 13] = [
    // The items of a process in order: a signal after the store, and one before it.
    (
        b"resource main()\n  var x : int\n  sem s\n  process a\n    x := 1; V(s)\n  end\n  process b\n    P(s); write(x)\n  end\nend\n",
        b"races 0\n",
    ),
    (
        b"resource main()\n  var x : int\n  sem s\n  process a\n    V(s); x := 1\n  end\n  process b\n    P(s); write(x)\n  end\nend\n",
        b"race 6 12 p.sr:5 p.sr:8\nraces 1\n",
    ),
    // A process that is made: after the store, and before it.
    (
        b"resource main()\n  var x : int\n  x := 1\n  process a\n    write(x)\n  end\nend\n",
        b"races 0\n",
    ),
    (
        b"resource main()\n  var x : int\n  process a\n    write(x)\n  end\n  x := 1\nend\n",
        b"race 4 5 p.sr:4 p.sr:6\nraces 1\n",
    ),
    // An invocation that is serviced: both signals, and the older one, which isn't from the process that stores.
    (
        b"resource main()\n  var x : int\n  sem s\n  V(s)\n  process a\n    x := 1; V(s)\n  end\n  process b\n    P(s); P(s); write(x)\n  end\nend\n",
        b"races 0\n",
    ),
    (
        b"resource main()\n  var x : int\n  sem s\n  V(s)\n  process a\n    x := 1; V(s)\n  end\n  process b\n    P(s); write(x)\n  end\nend\n",
        b"race 5 13 p.sr:6 p.sr:9\nraces 1\n",
    ),
    // A reply that is taken: after the store, before it, and after it by the process to which the call was forwarded.
    (
        b"resource main()\n  var x : int\n  op f()\n  process server\n    in f() -> x := 1 ni\n  end\n  f()\n  write(x)\nend\n",
        b"races 0\n",
    ),
    (
        b"resource main()\n  var x : int\n  op f()\n  process server\n    in f() -> reply; x := 1 ni\n  end\n  f()\n  write(x)\nend\n",
        b"race 8 9 p.sr:5 p.sr:8\nraces 1\n",
    ),
    (
        b"resource main()\n  var x : int\n  op f()\n  op g()\n  process server\n    in f() -> forward g() ni\n  end\n  proc g()\n    x := 1\n  end\n  f()\n  write(x)\nend\n",
        b"races 0\n",
    ),
    // A global that becomes ready: after the store, and before it.
    (
        b"global G\n  var x : int\nbody G\n  x := 1\nend\nresource main()\n  import G\n  write(x)\nend\n",
        b"races 0\n",
    ),
    (
        b"global G\n  var x : int\nbody G\n  reply\n  x := 1\nend\nresource main()\n  import G\n  write(x)\nend\n",
        b"race 5 8 p.sr:5 p.sr:9\nraces 1\n",
    ),
    // Main's final code, before which all ends, and the final code of another instance.
    (
        b"resource main()\n  var x : int\n  process a\n    x := 1\n  end\n  final write(x) end\nend\n",
        b"races 0\n",
    ),
    (
        b"resource R()\n  var x : int\n  process a\n    x := 1\n  end\n  final write(x) end\nend\nresource main()\n  import R\n  var r : cap R\n  r := create R()\n  destroy r\nend\n",
        b"race 6 13 p.sr:4 p.sr:6\nraces 1\n",
    ),
];

#[test]
fn links_of_each_kind(rt: HostRuntime) -> Result<(), Fail> {
    for (index, (source, races)) in KINDS.iter().enumerate() {
        assert!(rt; finds(rt.alloc(), source, races)?, "case {index}");
    }
    Ok(())
}

/// Programs, and the races of their runs: which parts of variables are accessed.
const PARTS: [(&[u8], &[u8]); 8] = [
    // A stop begins main's final code as a rest does.
    (
        b"resource main()\n  var x : int\n  process a\n    x := 1\n  end\n  stop(0)\n  final write(x) end\nend\n",
        b"races 0\n",
    ),
    // An item of an array against another, against itself, and against the whole.
    (
        b"resource main()\n  var a[1:2] : int\n  process p\n    a[1] := 1\n  end\n  write(a[2])\nend\n",
        b"races 0\n",
    ),
    (
        b"resource main()\n  var a[1:2] : int\n  process p\n    a[2] := 1\n  end\n  write(a[2])\nend\n",
        b"race 4 5 p.sr:4 p.sr:6\nraces 1\n",
    ),
    (
        b"resource main()\n  var a[1:2] : int\n  process p\n    a := (1, 2)\n  end\n  write(a[2])\nend\n",
        b"race 4 5 p.sr:4 p.sr:6\nraces 1\n",
    ),
    // A choice by a cell, and by the argument alone.
    (
        b"resource main()\n  var x : int\n  op go(n : int)\n  process a\n    x := 1\n  end\n  send go(8)\n  in go(n) by n + x -> skip ni\nend\n",
        b"race 4 7 p.sr:5 p.sr:8\nraces 1\n",
    ),
    (
        b"resource main()\n  var x : int\n  op go(n : int)\n  process a\n    x := 1\n  end\n  send go(8)\n  in go(n) by n -> skip ni\nend\n",
        b"races 0\n",
    ),
    // A guard before `else` that is false, and one that isn't evaluated, since nothing waits.
    (
        b"resource main()\n  var x : int\n  op go(n : int)\n  process a\n    x := 1\n  end\n  send go(8)\n  in go(n) and x = 2 -> skip [] else -> skip ni\nend\n",
        b"race 4 7 p.sr:5 p.sr:8\nraces 1\n",
    ),
    (
        b"resource main()\n  var x : int\n  op go(n : int)\n  process a\n    x := 1\n  end\n  in go(n) and x = 2 -> skip [] else -> skip ni\nend\n",
        b"races 0\n",
    ),
];

#[test]
fn parts_that_are_accessed(rt: HostRuntime) -> Result<(), Fail> {
    for (index, (source, races)) in PARTS.iter().enumerate() {
        assert!(rt; finds(rt.alloc(), source, races)?, "case {index}");
    }
    Ok(())
}
