ghost use Rattle.std.specs.Prelude.{◌≡◌, ◌==◌, ◌++◌, ◌∷◌, [], ◌||◌, ℕ, IfOk, OnOk, flat_map, fold, if◌then◌else◌, nat_eq};
ghost use Rattle.std.specs.HashSet.{contains};
ghost use Rattle.std.specs.List.{list_any};
ghost use Rattle.sr_trace.specs.Shown as shown_specs;

use crate::traced::{Runs, Traced};
use sr_value::{NoMemory, Row};
use std::alloc::Global;
use std::collections::HashSet;

/// The column of a process.
#[derive(Clone, Copy)]
pub(crate) struct Column {
    pub process: u32,
    pub runs: Runs,
}

/// A link from an item to a later one.
#[derive(Clone, Copy)]
pub(crate) struct Arrow {
    pub from: u32,
    pub to: u32,
    /// Whether the first item made the process of the second.
    pub begins: bool,
}

fn note_source(sources: &mut HashSet<u32>, from: Option<u32>) -> Result<(), NoMemory>
    ensures { OnOk result ((item : ℕ) → contains nat_eq sources.new item ≡ (contains nat_eq sources.old item || shown_specs.is_from item from)) }
{
    if let Some(item) = from {
        sources.insert(item)?;
    }
    Ok(())
}

/// Notes the items from which a row is linked.
fn note_sources(sources: &mut HashSet<u32>, row: &Traced) -> Result<(), NoMemory>
    ensures { OnOk result ((item : ℕ) → contains nat_eq sources.new item ≡ (contains nat_eq sources.old item || shown_specs.is_source item row.now)) }
{
    note_source(sources, row.begun_by)?;
    note_source(sources, row.after)
}

/// The items from which rows are linked.
fn sources_of(alloc: Global, rows: &[Traced]) -> Result<HashSet<u32>, NoMemory>
    ensures { IfOk result (λ sources. (item : ℕ) → contains nat_eq sources item ≡ list_any (shown_specs.is_source item) rows.now) }
{
    let mut sources = HashSet::new(alloc);
    for row in rows {
        note_sources(&mut sources, row)?;
    }
    Ok(sources)
}

/// Adds a row, where it is an end of a link.
fn push_if_shown(
    rows: &mut Row<Traced>,
    sources: &HashSet<u32>,
    row: &Traced,
) -> Result<(), NoMemory>
    ensures { OnOk result (rows.new ≡ rows.old ++ shown_specs.row_if (shown_specs.is_linked row.now || contains nat_eq sources.now row.now.item) row.now) }
{
    if row.begun_by.is_some() || row.after.is_some() || sources.contains(&row.item) {
        rows.push(*row)
    } else {
        Ok(())
    }
}

/// The rows that are an end of a link.
pub(crate) fn shown(alloc: Global, rows: &[Traced]) -> Result<Row<Traced>, NoMemory>
    ensures { IfOk result (λ kept. kept ≡ shown_specs.shown rows.now) }
{
    let sources = sources_of(alloc, rows)?;
    let mut kept = Row::new(alloc);
    for row in rows {
        push_if_shown(&mut kept, &sources, row)?;
    }
    Ok(kept)
}

fn column_of(row: &Traced) -> Column
    ensures { result ≡ shown_specs.column_of row.now }
{
    Column {
        process: row.process,
        runs: row.runs,
    }
}

fn has_column(columns: &[Column], process: u32) -> bool
    ensures { result ≡ list_any (λ column. column.process == process) columns.now }
{
    columns.iter().any(|column| column.process == process)
}

/// Adds the column of a row, where its process has none.
fn note_column(columns: &mut Row<Column>, row: &Traced) -> Result<(), NoMemory>
    ensures { OnOk result (columns.new ≡ shown_specs.with_column columns.old row.now) }
{
    if has_column(columns.as_slice(), row.process) {
        return Ok(());
    }
    columns.push(column_of(row))
}

/// A column for each process, in the order of their first rows.
pub(crate) fn columns_of(alloc: Global, rows: &[Traced]) -> Result<Row<Column>, NoMemory>
    ensures { IfOk result (λ columns. columns ≡ shown_specs.columns_of rows.now) }
{
    let mut columns = Row::new(alloc);
    for row in rows {
        note_column(&mut columns, row)?;
    }
    Ok(columns)
}

fn push_arrow(
    arrows: &mut Row<Arrow>,
    begins: bool,
    from: Option<u32>,
    to: u32,
) -> Result<(), NoMemory>
    ensures { OnOk result (arrows.new ≡ arrows.old ++ shown_specs.arrow_from begins from to) }
{
    match from {
        Some(from) => arrows.push(Arrow { from, to, begins }),
        None => Ok(()),
    }
}

fn push_arrows(arrows: &mut Row<Arrow>, row: &Traced) -> Result<(), NoMemory>
    ensures { OnOk result (arrows.new ≡ arrows.old ++ shown_specs.arrows_to row.now) }
{
    push_arrow(arrows, true, row.begun_by, row.item)?;
    push_arrow(arrows, false, row.after, row.item)
}

/// An arrow for each link.
pub(crate) fn arrows_of(alloc: Global, rows: &[Traced]) -> Result<Row<Arrow>, NoMemory>
    ensures { IfOk result (λ arrows. arrows ≡ shown_specs.arrows rows.now) }
{
    let mut arrows = Row::new(alloc);
    for row in rows {
        push_arrows(&mut arrows, row)?;
    }
    Ok(arrows)
}
