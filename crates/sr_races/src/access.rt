ghost use Rattle.std.specs.Prelude.{◌≡◌, ◌↔◌, ◌⊎◌, ◌++◌, ◌∷◌, [], IfOk, IsTrue, OnOk, filter_map, min, option_to_list};
ghost use Rattle.sr_races.specs.Accesses as accesses;

use sr_ask::{Request, Seen};
use sr_core::Core;
use sr_value::{Compare, Duplicate, NoMemory, Row, Sel};
use sr_world::World;
use std::alloc::Global;

/// A part of a shared variable that an item reads or writes.
#[derive(Drop)]
pub struct Access {
    /// The instance that has the variable.
    pub block: u32,
    /// Its number there.
    pub var: u32,
    /// The way to the part.
    pub path: Row<Sel>,
    pub writes: bool,
}

/// What a request of a process accesses.
pub fn accesses_by(
    alloc: Global,
    core: &Core,
    world: &World,
    process: u32,
    request: &Request,
) -> Result<Row<Access>, NoMemory>
    ensures { IfOk result (λ found. found ≡ accesses.accesses_by core.now world.now process request.now) }
{
    match request {
        Request::Declare { block, var, .. } => one(alloc, *block, *var, &[], true),
        Request::Load { block, var, path } => one(alloc, *block, *var, path.as_slice(), false),
        Request::Store {
            block,
            var,
            path,
            ..
        } => one(alloc, *block, *var, path.as_slice(), true),
        Request::Select { .. } => {
            let seen = world.seen(core, process, request)?;
            cells(alloc, &seen)
        }
        _ => Ok(Row::new(alloc)),
    }
}

/// One access alone.
fn one(
    alloc: Global,
    block: u32,
    var: u32,
    path: &[Sel],
    writes: bool,
) -> Result<Row<Access>, NoMemory>
    ensures { IfOk result (λ found. found ≡ accesses.part block var path.now writes ∷ []) }
{
    let mut found = Row::new(alloc);
    push(alloc, &mut found, block, var, path, writes)?;
    Ok(found)
}

fn push(
    alloc: Global,
    found: &mut Row<Access>,
    block: u32,
    var: u32,
    path: &[Sel],
    writes: bool,
) -> Result<(), NoMemory>
    ensures { OnOk result (found.new ≡ found.old ++ accesses.part block var path.now writes ∷ []) }
{
    let path = copied(alloc, path)?;
    found.push(Access {
        block,
        var,
        path,
        writes,
    })
}

/// A copy of a way.
fn copied(alloc: Global, path: &[Sel]) -> Result<Row<Sel>, NoMemory>
    ensures { IfOk result (λ copy. copy ≡ path.now) }
{
    let items = Vec::from_slice(alloc, path)?;
    Ok(Row::from_vec(items))
}

/// The cells that a choice read.
fn cells(alloc: Global, seen: &Row<Seen>) -> Result<Row<Access>, NoMemory>
    ensures { IfOk result (λ found. found ≡ filter_map accesses.cell_in seen.now) }
{
    let mut found = Row::new(alloc);
    push_cells(alloc, seen.as_slice(), &mut found)?;
    Ok(found)
}

fn push_cells(alloc: Global, seen: &[Seen], found: &mut Row<Access>) -> Result<(), NoMemory>
    requires { found.old ≡ [] }
    ensures { OnOk result (found.new ≡ filter_map accesses.cell_in seen.now) }
{
    for one in seen {
        push_cell(alloc, one, found)?;
    }
    Ok(())
}

fn push_cell(alloc: Global, seen: &Seen, found: &mut Row<Access>) -> Result<(), NoMemory>
    ensures { OnOk result (found.new ≡ found.old ++ option_to_list (accesses.cell_in seen.now)) }
{
    match seen {
        Seen::Cell {
            block,
            var,
            path,
            ..
        } => push(alloc, found, *block, *var, path.as_slice(), false),
        Seen::Pending { .. } => Ok(()),
    }
}

/// Whether one way goes on from where the other ends, or ends there.
fn is_within(one: &[Sel], other: &[Sel]) -> bool
    ensures { IsTrue result ↔ (accesses.LeadsOn one.now other.now ⊎ accesses.LeadsOn other.now one.now) }
{
    let shared = fewer(one.len(), other.len());
    for place in 0..shared {
        if !one[place].same(&other[place]) {
            return false;
        }
    }
    true
}

/// The less of two numbers.
fn fewer(one: usize, other: usize) -> usize
    ensures { result ≡ min one other }
{
    if one <= other { one } else { other }
}

/// Whether two accesses of different processes conflict.
pub fn conflict(one: &Access, other: &Access) -> bool
    ensures { IsTrue result ↔ accesses.Conflict one.now other.now }
{
    if one.block != other.block || one.var != other.var {
        return false;
    }
    if !one.writes && !other.writes {
        return false;
    }
    is_within(one.path.as_slice(), other.path.as_slice())
}

/// Whether some of these accesses conflicts with some of the others.
pub(crate) fn any_conflict(ones: &[Access], others: &[Access]) -> bool
    ensures { IsTrue result ↔ accesses.SomeConflict ones.now others.now }
{
    for one in ones {
        if conflicts_with(one, others) {
            return true;
        }
    }
    false
}

fn conflicts_with(one: &Access, others: &[Access]) -> bool
    ensures { IsTrue result ↔ accesses.ConflictWith one.now others.now }
{
    for other in others {
        if conflict(one, other) {
            return true;
        }
    }
    false
}
