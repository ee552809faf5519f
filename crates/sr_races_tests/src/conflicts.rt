use sr_races::{Access, conflict};
use sr_value::{NoMemory, Row, Sel};
use std::alloc::Global;
use std::test::Fail;

/// The instance, the number of the variable, the way by indexes, and whether it is written.
type Part = (u32, u32, &'static [i32], bool);

/// Two parts that are accessed, and whether they conflict.
const ROWS: [(Part, Part, bool); 13] = [
    ((2, 0, &[], true), (2, 0, &[], false), true),
    ((2, 0, &[], false), (2, 0, &[], true), true),
    ((2, 0, &[], true), (2, 0, &[], true), true),
    ((2, 0, &[], false), (2, 0, &[], false), false),
    ((2, 0, &[], true), (3, 0, &[], true), false),
    ((2, 0, &[], true), (2, 1, &[], true), false),
    ((2, 0, &[], true), (2, 0, &[7], false), true),
    ((2, 0, &[7, 1], false), (2, 0, &[7], true), true),
    ((2, 0, &[7], true), (2, 0, &[7], false), true),
    ((2, 0, &[7], true), (2, 0, &[8], true), false),
    ((2, 0, &[7, 1], true), (2, 0, &[7, 2], true), false),
    ((2, 0, &[7, 1], true), (2, 0, &[8], true), false),
    ((2, 0, &[7], false), (2, 0, &[7, 1], false), false),
];

fn way(alloc: Global, path: &[i32]) -> Result<Row<Sel>, NoMemory> {
    let mut way = Row::new(alloc);
    for index in path {
        way.push(Sel::At(*index))?;
    }
    Ok(way)
}

fn access(alloc: Global, part: Part) -> Result<Access, NoMemory> {
    let (block, var, path, writes) = part;
    let path = way(alloc, path)?;
    Ok(Access {
        block,
        var,
        path,
        writes,
    })
}

fn tried(alloc: Global, one: Part, other: Part) -> Result<bool, NoMemory> {
    let one = access(alloc, one)?;
    let other = access(alloc, other)?;
    Ok(conflict(&one, &other))
}

#[test]
fn which_accesses_conflict(rt: HostRuntime) -> Result<(), Fail> {
    for (one, other, conflicts) in ROWS {
        assert_eq!(rt; tried(rt.alloc(), one, other)?, conflicts);
    }
    Ok(())
}
