use crate::support::{called_over, numbers};
use sr_ask::Item;
use sr_ports::{MemSink, MemSource};
use sr_top::{Ending, LimitKind, Report, Stretch};
use sr_value::{Fault, NoMemory, Place, Row, Text};
use std::alloc::Global;
use std::test::Fail;

/// Processes that are started beside those that step: each adds its number, and the last writes the sum.
const STARTED: &[u8] = b"resource main()
  op add(n : int)
  sem turn := 1
  var sum, left : int
  proc add(n)
    P(turn)
    sum := sum + n; left++
    if left = 20 -> write(\"sum\", sum) fi
    V(turn)
  end
  process starter(i := 1 to 4)
    fa k := 1 to 5 -> send add(k) af
  end
end
";

/// A guard that a store of another process makes true.
const GUARDED: &[u8] = b"resource main()
  var x : int
  op go(n : int)
  process waiter
    in go(n) and x = 1 -> write(\"served\", n) ni
  end
  process setter
    x := 1
  end
  send go(8)
end
";

/// Two processes that store, of which one stops the run then.
const STOPPED: &[u8] = b"resource main()
  var x[1:2] : int
  process other
    fa i := 1 to 100 -> x[1] := i af
  end
  process stopper
    fa i := 1 to 10 -> x[2] := i af
    stop(7)
  end
end
";

/// Two processes that store, of which one divides by 0 then.
const FAILED: &[u8] = b"resource main()
  var x[1:2] : int
  process other
    fa i := 1 to 100 -> x[1] := i af
  end
  process failing
    fa i := 1 to 10 -> x[2] := i af
    write(1 / (x[2] - 10))
  end
end
";

/// Eight processes that never end.
const ENDLESS: &[u8] = b"resource main()
  op never()
  process sender(i := 1 to 8)
    do true -> send never() od
  end
end
";

/// Two writes, beside two processes that store.
const WRITTEN: &[u8] = b"resource main()
  var x[1:2] : int
  process other(i := 1 to 2)
    fa k := 1 to 20 -> x[i] := k af
  end
  write(\"one\")
  write(\"two\")
end
";

/// 20,000 processes that wait for ever, and two that store a hundred times each.
const CROWD: &[u8] = b"resource main()
  var x[1:2] : int
  op never()
  process sleeper(i := 1 to 20000)
    receive never()
  end
  process busy(i := 1 to 2)
    fa k := 1 to 100 -> x[i] := k af
  end
end
";

/// A program, the most items of its run by four workers, and the put that fails, or 0. Then what is to come: how it ends, the
/// status, and the output.
#[derive(Clone, Copy)]
struct Rounded<'a> {
    text: &'a [u8],
    steps: &'a str,
    fails: u64,
    ending: Ending,
    status: u8,
    output: &'a [u8],
}

/// A run of at most 10,000 items that rests and writes this.
fn resting<'a>(text: &'a [u8], output: &'a [u8]) -> Rounded<'a> {
    Rounded {
        text,
        steps: "10000",
        fails: 0,
        ending: Ending::Quiet,
        status: 0,
        output,
    }
}

/// What a run made: the items, and how many stretches have two of them.
#[derive(Clone, Copy)]
struct Made {
    items: usize,
    pairs: usize,
}

/// The step that an item is: who made it, and its number.
fn step_of(item: &Item) -> (u32, u32) {
    match item {
        Item::Step { actor, name } => (*actor, *name),
        Item::Quiesce { .. } | Item::Tick { .. } => (0, 0),
    }
}

/// Whether no process that was made under this number makes one of these steps. 0 is no number.
fn is_no_actor(name: u32, steps: &[Item]) -> bool {
    for step in steps {
        if name != 0 && step_of(step).0 == name {
            return false;
        }
    }
    true
}

/// Whether all these are steps of processes that weren't made in one of them.
fn are_of_others(steps: &[Item]) -> bool {
    for step in steps {
        let (actor, name) = step_of(step);
        if actor == 0 || !is_no_actor(name, steps) {
            return false;
        }
    }
    true
}

/// Whether a stretch holds steps alone, none of a process that was made in it, and ends before the last item.
fn is_right(items: &[Item], stretch: &Stretch) -> bool {
    let from = stretch.from as usize;
    let count = stretch.count as usize;
    if from >= items.len() {
        return false;
    }
    let later = &items[from..];
    count < later.len() && are_of_others(&later[..count])
}

fn are_right(items: &[Item], rounds: &[Stretch]) -> bool {
    for stretch in rounds {
        if !is_right(items, stretch) {
            return false;
        }
    }
    true
}

fn pairs_in(rounds: &[Stretch]) -> usize {
    let mut pairs: usize = 0;
    for stretch in rounds {
        if stretch.count == 2 {
            pairs = pairs.saturating_add(1);
        }
    }
    pairs
}

/// What a report tells of a run, if its stretches are right.
fn made_by(report: &Report) -> Option<Made> {
    let rounds = report.rounds.as_slice();
    if !are_right(report.items.as_slice(), rounds) {
        return None;
    }
    Some(Made {
        items: report.items.len(),
        pairs: pairs_in(rounds),
    })
}

/// What a run makes, if it does what is to come.
fn run_made(alloc: Global, row: &Rounded<'_>) -> Result<Option<Made>, NoMemory> {
    let mut input = MemSource::new(Text::new(alloc), 1, Row::new(alloc));
    let mut output = MemSink::new(alloc, 1000, numbers(alloc, &[row.fails])?);
    let words = ["run", "a.sr", "--workers", "4", "--steps", row.steps];
    let report = called_over(alloc, &words, ("a.sr", row.text), &mut input, &mut output)?;
    if report.ending == row.ending && report.status == row.status && output.held() == row.output {
        Ok(made_by(&report))
    } else {
        Ok(None)
    }
}

/// Whether a run does what is to come, with so many items.
fn has_items(alloc: Global, row: &Rounded<'_>, items: usize) -> Result<bool, NoMemory> {
    match run_made(alloc, row)? {
        Some(made) => Ok(made.items == items),
        None => Ok(false),
    }
}

/// Whether a run does what is to come, with at least so many stretches of two items.
fn has_pairs(alloc: Global, row: &Rounded<'_>, pairs: usize) -> Result<bool, NoMemory> {
    match run_made(alloc, row)? {
        Some(made) => Ok(made.pairs >= pairs),
        None => Ok(false),
    }
}

/// Runs whose processes start others, wait for a store, stop, fail, or put what fails.
#[test]
fn ends_of_rounds(rt: HostRuntime) -> Result<(), Fail> {
    let rows = [
        resting(STARTED, b"sum 60\n"),
        resting(GUARDED, b"served 8\n"),
        resting(WRITTEN, b"one\ntwo\n"),
        Rounded {
            ending: Ending::Stopped(7),
            status: 7,
            ..resting(STOPPED, b"")
        },
        Rounded {
            ending: Ending::Failed {
                fault: Fault::ZeroDivisor,
                place: Place { file: 0, line: 8 },
            },
            status: 101,
            ..resting(FAILED, b"")
        },
        Rounded {
            fails: 2,
            ending: Ending::WriteFault,
            status: 106,
            ..resting(WRITTEN, b"one\n")
        },
    ];
    for (index, row) in rows.iter().enumerate() {
        assert!(rt; run_made(rt.alloc(), row)?.is_some(), "row {index}");
    }
    Ok(())
}

/// Eight processes that never end make as many items as they may.
#[test]
fn rounds_are_cut_off(rt: HostRuntime) -> Result<(), Fail> {
    let row = Rounded {
        steps: "37",
        ending: Ending::Limit(LimitKind::Steps),
        status: 102,
        ..resting(ENDLESS, b"")
    };
    assert!(rt; has_items(rt.alloc(), &row, 37)?);
    Ok(())
}

/// Of three items one is the engine's, and the two others are a stretch, while two processes can step.
#[test]
fn two_among_many(rt: HostRuntime) -> Result<(), Fail> {
    let row = Rounded {
        steps: "100000",
        ..resting(CROWD, b"")
    };
    assert!(rt; has_pairs(rt.alloc(), &row, 60)?);
    Ok(())
}
