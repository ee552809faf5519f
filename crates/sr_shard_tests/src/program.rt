use sr_core::{Arm, Classes, Core, Home, Operation, Scope, SharedRead, Site};
use sr_value::{NoMemory, Place, Row, Text};
use std::alloc::Global;

/// The place of all that the program has.
pub const PLACE: Place = Place { file: 0, line: 1 };

/// The class of each operation.
const CLASSES: [u32; 4] = [0, 1, 2, 0];

/// Whose invocations an operation has, and the proc that services it.
const OPERATIONS: [(Scope, Option<u32>); 4] = [
    (Scope::Shared, None),
    (Scope::Shared, Some(0)),
    (Scope::Own, None),
    (Scope::Shared, None),
];

/// The operations of the arms of a statement, how many variables of the own instance its guards read, and which
/// operation's invocations they count.
const SITES: [([u32; 2], u32, Option<u32>); 5] = [
    ([0, 3], 0, None),
    ([0, 3], 1, None),
    ([0, 3], 0, Some(0)),
    ([0, 3], 1, Some(2)),
    ([0, 1], 0, None),
];

fn operation_of(alloc: Global, scope: Scope, proc: Option<u32>) -> Operation {
    Operation {
        name: Text::new(alloc),
        component: 0,
        scope,
        parameters: Row::new(alloc),
        returns: None,
        can_call: true,
        can_send: true,
        proc,
    }
}

fn operations(alloc: Global) -> Result<Row<Operation>, NoMemory> {
    let mut operations = Row::new(alloc);
    for (scope, proc) in OPERATIONS {
        operations.push(operation_of(alloc, scope, proc))?;
    }
    Ok(operations)
}

fn arm_of(alloc: Global, op: u32) -> Arm {
    Arm {
        place: PLACE,
        op,
        formals: Row::new(alloc),
        returned: None,
        guard: None,
        by: None,
    }
}

fn arms_of(alloc: Global, ops: [u32; 2]) -> Result<Row<Arm>, NoMemory> {
    let mut arms = Row::new(alloc);
    for op in ops {
        arms.push(arm_of(alloc, op))?;
    }
    Ok(arms)
}

fn reads_of(alloc: Global, count: u32) -> Result<Row<SharedRead>, NoMemory> {
    let mut reads = Row::new(alloc);
    for var in 0..count {
        reads.push(SharedRead {
            home: Home::Mine,
            var,
        })?;
    }
    Ok(reads)
}

fn counts_of(alloc: Global, op: Option<u32>) -> Result<Row<u32>, NoMemory> {
    let mut counts = Row::new(alloc);
    if let Some(op) = op {
        counts.push(op)?;
    }
    Ok(counts)
}

/// A statement without reads and counts.
fn site_of(alloc: Global, arms: Row<Arm>) -> Site {
    Site {
        scope: Scope::Shared,
        arms,
        has_else: false,
        names: Row::new(alloc),
        reads: Row::new(alloc),
        counts: Row::new(alloc),
    }
}

fn plain_site(alloc: Global, ops: [u32; 2]) -> Result<Site, NoMemory> {
    let arms = arms_of(alloc, ops)?;
    Ok(site_of(alloc, arms))
}

fn reading_site(alloc: Global, ops: [u32; 2], reads: u32) -> Result<Site, NoMemory> {
    let mut site = plain_site(alloc, ops)?;
    site.reads = reads_of(alloc, reads)?;
    Ok(site)
}

fn counting_site(
    alloc: Global,
    ops: [u32; 2],
    reads: u32,
    count: Option<u32>,
) -> Result<Site, NoMemory> {
    let mut site = reading_site(alloc, ops, reads)?;
    site.counts = counts_of(alloc, count)?;
    Ok(site)
}

fn sites(alloc: Global) -> Result<Row<Site>, NoMemory> {
    let mut sites = Row::new(alloc);
    for (ops, reads, count) in SITES {
        sites.push(counting_site(alloc, ops, reads, count)?)?;
    }
    Ok(sites)
}

fn core_of(alloc: Global, operations: Row<Operation>, sites: Row<Site>) -> Core {
    Core {
        components: Row::new(alloc),
        operations,
        procs: Row::new(alloc),
        sites,
        names: Row::new(alloc),
    }
}

/// A program of four operations and five `in` statements.
pub fn program(alloc: Global) -> Result<Core, NoMemory> {
    let operations = operations(alloc)?;
    let sites = sites(alloc)?;
    Ok(core_of(alloc, operations, sites))
}

/// Operations 0 and 3 wait in one line.
pub fn classes(alloc: Global) -> Result<Classes, NoMemory> {
    let mut of = Row::new(alloc);
    for class in CLASSES {
        of.push(class)?;
    }
    Ok(Classes { of })
}
