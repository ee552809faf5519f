ghost use Rattle.std.specs.Prelude.{◌≡◌, ◌++◌, ◌∷◌, ◌<◌, All, [], IfOk, IfSome, IsTrue, OnOk, length, replicate};
ghost use Rattle.sr_races.specs.Marks.{AddsAll, AddsAmong, AddsAt, AddsMark, HasColumn, HasItem, LooksAlong, LooksAmong, LooksAt, all_looked_at, all_noted_at};
ghost use Rattle.sr_races.specs.Spots.{looked_at as looked_at_of, noted_at as noted_at_of};

use crate::access::Access;
use crate::spots::{looked_at, noted_at};
use sr_clock_rows::Clocks;
use sr_value::{NoMemory, Row};
use std::alloc::Global;

/// An item that accesses something, and its place among the items of its process, from 1.
#[derive(Clone, Copy)]
pub(crate) struct Mark {
    pub item: u32,
    pub count: u32,
}

/// Items of one process, in order.
#[derive(Drop)]
pub(crate) struct Line {
    /// The column of the process.
    pub column: u32,
    pub marks: Row<Mark>,
}

/// So many spots at which no item is marked.
pub(crate) fn no_marks(alloc: Global, size: u32) -> Result<Row<Row<Line>>, NoMemory>
    ensures { IfOk result (λ spots. spots ≡ replicate size []) }
{
    let mut spots = Row::new(alloc);
    push_empty(alloc, &mut spots, size)?;
    Ok(spots)
}

fn push_empty(alloc: Global, spots: &mut Row<Row<Line>>, size: u32) -> Result<(), NoMemory>
    requires { spots.old ≡ [] }
    ensures { OnOk result (spots.new ≡ replicate size []) }
{
    for _ in 0..size {
        spots.push(Row::new(alloc))?;
    }
    Ok(())
}

// ---- one item more

fn ends_with(marks: &[Mark], item: u32) -> bool
    ensures { IsTrue result → HasItem marks.now item }
{
    match marks.last() {
        Some(mark) => mark.item == item,
        None => false,
    }
}

/// Marks an item in a line, where it isn't the last one there.
fn add_to(line: &mut Line, mark: Mark) -> Result<(), NoMemory>
    ensures { OnOk result (AddsMark mark line.old line.new) }
{
    if ends_with(line.marks.as_slice(), mark.item) {
        return Ok(());
    }
    line.marks.push(mark)
}

fn place_of(lines: &[Line], column: u32) -> Option<usize>
    ensures { IfSome result (HasColumn lines.now column) }
{
    lines.iter().position(|line| line.column == column)
}

fn push_line(alloc: Global, lines: &mut Row<Line>, column: u32, mark: Mark) -> Result<(), NoMemory>
    ensures { OnOk result (lines.new ≡ lines.old ++ record { column = column; marks = mark ∷ [] } ∷ []) }
{
    let mut marks = Row::new(alloc);
    marks.push(mark)?;
    lines.push(Line { column, marks })
}

/// Marks an item of the process of a column.
fn add_among(alloc: Global, lines: &mut Row<Line>, column: u32, mark: Mark) -> Result<(), NoMemory>
    ensures { OnOk result (AddsAmong column mark lines.old lines.new) }
{
    match place_of(lines.as_slice(), column) {
        Some(place) => add_to(lines.at_mut(place), mark),
        None => push_line(alloc, lines, column, mark),
    }
}

fn add_at(
    alloc: Global,
    spots: &mut Row<Row<Line>>,
    spot: u32,
    column: u32,
    mark: Mark,
) -> Result<(), NoMemory>
    requires { spot < length spots.old }
    ensures { OnOk result (AddsAt spot column mark spots.old spots.new) }
{
    add_among(alloc, spots.at_mut(spot as usize), column, mark)
}

/// Marks an item at each of these spots.
fn add_at_each(
    alloc: Global,
    spots: &mut Row<Row<Line>>,
    at: &[u32],
    column: u32,
    mark: Mark,
) -> Result<(), NoMemory>
    requires { All (λ spot. spot < length spots.old) at.now }
    ensures { OnOk result (AddsAll at.now column mark spots.old spots.new) }
{
    for spot in at {
        add_at(alloc, spots, *spot, column, mark)?;
    }
    Ok(())
}

/// Marks an item where an access is noted.
fn add_for(
    alloc: Global,
    spots: &mut Row<Row<Line>>,
    size: u32,
    access: &Access,
    column: u32,
    mark: Mark,
) -> Result<(), NoMemory>
    requires some { 0 < size }
    requires size { length spots.old ≡ size }
    ensures { OnOk result (AddsAll (noted_at_of size access.now) column mark spots.old spots.new) }
{
    let at = noted_at(alloc, size, access)?;
    add_at_each(alloc, spots, at.as_slice(), column, mark)
}

/// Marks an item of the process of a column, where its accesses are noted.
pub(crate) fn add_item(
    alloc: Global,
    spots: &mut Row<Row<Line>>,
    size: u32,
    accesses: &[Access],
    column: u32,
    mark: Mark,
) -> Result<(), NoMemory>
    requires some { 0 < size }
    requires size { length spots.old ≡ size }
    ensures { OnOk result (AddsAll (all_noted_at size accesses.now) column mark spots.old spots.new) }
{
    for access in accesses {
        add_for(alloc, spots, size, access, column, mark)?;
    }
    Ok(())
}

// ---- items that may conflict

/// Adds the items of a line, from its end on, up to the first whose place is at most a count.
fn look_along(marks: &[Mark], count: u32, found: &mut Row<u32>) -> Result<(), NoMemory>
    ensures { OnOk result (LooksAlong count marks.now found.old found.new) }
{
    let mut left = marks.len();
    while left > 0 {
        left -= 1;
        let mark = marks[left];
        if mark.count <= count {
            return Ok(());
        }
        found.push(mark.item)?;
    }
    Ok(())
}

/// Adds the items of lines that aren't before another.
fn look_among(
    lines: &[Line],
    clocks: &Clocks,
    second: u32,
    found: &mut Row<u32>,
) -> Result<(), NoMemory>
    ensures { OnOk result (LooksAmong clocks.now second lines.now found.old found.new) }
{
    for line in lines {
        let count = clocks.count(second, line.column);
        look_along(line.marks.as_slice(), count, found)?;
    }
    Ok(())
}

fn look_at(
    spots: &Row<Row<Line>>,
    spot: u32,
    clocks: &Clocks,
    second: u32,
    found: &mut Row<u32>,
) -> Result<(), NoMemory>
    ensures { OnOk result (LooksAt clocks.now second spots.now (spot ∷ []) found.old found.new) }
{
    match spots.get(spot as usize) {
        Some(lines) => look_among(lines.as_slice(), clocks, second, found),
        None => Ok(()),
    }
}

fn look_at_each(
    spots: &Row<Row<Line>>,
    at: &[u32],
    clocks: &Clocks,
    second: u32,
    found: &mut Row<u32>,
) -> Result<(), NoMemory>
    ensures { OnOk result (LooksAt clocks.now second spots.now at.now found.old found.new) }
{
    for spot in at {
        look_at(spots, *spot, clocks, second, found)?;
    }
    Ok(())
}

/// Adds the items whose accesses may conflict with one.
fn look_for(
    alloc: Global,
    spots: &Row<Row<Line>>,
    size: u32,
    access: &Access,
    clocks: &Clocks,
    second: u32,
    found: &mut Row<u32>,
) -> Result<(), NoMemory>
    requires { 0 < size }
    ensures { OnOk result (LooksAt clocks.now second spots.now (looked_at_of size access.now) found.old found.new) }
{
    let at = looked_at(alloc, size, access)?;
    look_at_each(spots, at.as_slice(), clocks, second, found)
}

/// Adds the items whose accesses may conflict with those of another, and that aren't before that.
pub(crate) fn look_for_each(
    alloc: Global,
    spots: &Row<Row<Line>>,
    size: u32,
    accesses: &[Access],
    clocks: &Clocks,
    second: u32,
    found: &mut Row<u32>,
) -> Result<(), NoMemory>
    requires { 0 < size }
    ensures { OnOk result (LooksAt clocks.now second spots.now (all_looked_at size accesses.now) found.old found.new) }
{
    for access in accesses {
        look_for(alloc, spots, size, access, clocks, second, found)?;
    }
    Ok(())
}
