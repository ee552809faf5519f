use crate::links::finds;
use sr_value::{NoMemory, Text};
use std::alloc::Global;
use std::test::Fail;

/// More than the number of the last item that is linked.
const SIZE: usize = 16;

/// Which items are before which, by their numbers.
type Relation = [[bool; SIZE]; SIZE];

/// An access of a program's only variable: the item, its process, whether it writes, and its line.
type Access = (usize, u32, bool, u32);

/// A program with one variable, the accesses of that in its run, in order, and the links of the run.
struct Linked {
    source: &'static [u8],
    accesses: &'static [Access],
    links: &'static [(usize, usize)],
}

const RUNS: [Linked; 4] = [
    // A waiter reads the variable in its guard.
    Linked {
        source: b"resource main()\n  var x : int := 0\n  op go(n : int)\n  process waiter\n    in go(n) and x = 1 -> write(\"served\", n) ni\n  end\n  process setter\n    x := 1\n  end\n  send go(8)\nend\n",
        accesses: &[
            (2, 2, true, 2),
            (3, 2, true, 2),
            (6, 4, true, 8),
            (8, 3, false, 5),
        ],
        links: &[
            (1, 2),
            (2, 3),
            (3, 4),
            (4, 5),
            (5, 7),
            (7, 10),
            (4, 8),
            (5, 6),
            (6, 9),
            (7, 8),
            (8, 11),
            (10, 12),
            (1, 12),
        ],
    },
    // Two processes add to it, and main reads it meanwhile.
    Linked {
        source: b"resource main()\n  var n : int\n  process adder(i := 1 to 2)\n    n := n + 1\n  end\n  write(n)\nend\n",
        accesses: &[
            (2, 2, true, 2),
            (4, 3, false, 4),
            (6, 3, true, 4),
            (7, 4, false, 4),
            (8, 2, false, 6),
            (10, 4, true, 4),
        ],
        links: &[
            (1, 2),
            (2, 3),
            (3, 5),
            (5, 8),
            (8, 11),
            (3, 4),
            (4, 6),
            (6, 9),
            (5, 7),
            (7, 10),
        ],
    },
    // One process waits for another's signal.
    Linked {
        source: b"resource main()\n  var x : int\n  sem s\n  process a\n    x := 1; V(s)\n  end\n  process b\n    P(s); write(x)\n  end\nend\n",
        accesses: &[(2, 2, true, 2), (4, 3, true, 5), (10, 4, false, 8)],
        links: &[
            (1, 2),
            (2, 3),
            (3, 5),
            (5, 8),
            (3, 4),
            (4, 6),
            (6, 9),
            (5, 7),
            (6, 7),
            (7, 10),
            (8, 11),
            (1, 11),
        ],
    },
    // It doesn't.
    Linked {
        source: b"resource main()\n  var x : int\n  process a\n    x := 1\n  end\n  process b\n    write(x)\n  end\nend\n",
        accesses: &[(2, 2, true, 2), (4, 3, true, 4), (7, 4, false, 7)],
        links: &[
            (1, 2),
            (2, 3),
            (3, 5),
            (5, 8),
            (3, 4),
            (4, 6),
            (5, 7),
            (7, 9),
            (8, 10),
            (1, 10),
        ],
    },
];

// ---- the least transitive relation

fn relation_of(links: &[(usize, usize)]) -> Relation {
    let mut before = [[false; SIZE]; SIZE];
    for (one, other) in links {
        if *one < SIZE && *other < SIZE {
            before[*one][*other] = true;
        }
    }
    before
}

/// Puts those that come after an item after all that come before it.
fn pass_through(before: &mut Relation, through: usize) {
    if through >= SIZE {
        return;
    }
    let later = before[through];
    for one in 0..SIZE {
        if before[one][through] {
            before[one] = joined(before[one], later);
        }
    }
}

fn joined(one: [bool; SIZE], other: [bool; SIZE]) -> [bool; SIZE] {
    let mut both = one;
    for place in 0..SIZE {
        both[place] = one[place] || other[place];
    }
    both
}

fn closure(links: &[(usize, usize)]) -> Relation {
    let mut before = relation_of(links);
    for through in 0..SIZE {
        pass_through(&mut before, through);
    }
    before
}

fn is_before(before: &Relation, one: usize, other: usize) -> bool {
    one < SIZE && other < SIZE && before[one][other]
}

// ---- the races by it

fn is_race(before: &Relation, one: Access, other: Access) -> bool {
    one.0 < other.0 && one.1 != other.1 && (one.2 || other.2) && !is_before(before, one.0, other.0)
}

/// Adds the lines of the races of which an access is the first, and hands out how many these are.
fn push_lines(
    alloc: Global,
    before: &Relation,
    one: Access,
    accesses: &[Access],
    text: &mut Text,
) -> Result<usize, NoMemory> {
    let mut count: usize = 0;
    for other in accesses {
        if is_race(before, one, *other) {
            let line = format!(in alloc;
                "race {} {} p.sr:{} p.sr:{}\n",
                one.0, other.0, one.3, other.3
            )?;
            text.push_all(line.as_bytes())?;
            count = count.saturating_add(1);
        }
    }
    Ok(count)
}

/// The text of the races of a run.
fn lines(alloc: Global, run: &Linked) -> Result<Text, NoMemory> {
    let before = closure(run.links);
    let mut text = Text::new(alloc);
    let mut count: usize = 0;
    for one in run.accesses {
        let more = push_lines(alloc, &before, *one, run.accesses, &mut text)?;
        count = count.saturating_add(more);
    }
    let last = format!(in alloc; "races {count}\n")?;
    text.push_all(last.as_bytes())?;
    Ok(text)
}

/// Whether the search in a run puts the races that the closure of its links gives.
fn agrees(alloc: Global, run: &Linked) -> Result<bool, NoMemory> {
    let text = lines(alloc, run)?;
    finds(alloc, run.source, text.as_bytes())
}

#[test]
fn races_by_a_plain_closure(rt: HostRuntime) -> Result<(), Fail> {
    for (index, run) in RUNS.iter().enumerate() {
        assert!(rt; agrees(rt.alloc(), run)?, "run {index}");
    }
    Ok(())
}
