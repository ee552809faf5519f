ghost use Rattle.std.specs.Prelude.{◌≡◌, ◌++◌, ◌∷◌, ◌<◌, ◌≤◌, ℕ, [], IfOk, IsSome, List, OnOk, length, map, replicate, slice_index};
ghost use Rattle.sr_clocks.specs.Clocks.{greatest};
ghost use Rattle.sr_clock_rows.specs.Columns.{AreColumns, column_in};
ghost use Rattle.sr_clock_rows.specs.Rows.{AddsRow, AreClocks, IsGreatestRow, IsSound, IsWholeRow, count_at, item_count, with_one};

use crate::columns::Columns;
use crate::raising::{count_one, raise, zeros};
use sr_value::{Duplicate, NoMemory, Row};
use std::alloc::Global;

/// A row of counts for each item so far: how many items of each process are before it, or are the item itself.
#[derive(Drop)]
pub struct Clocks {
    alloc: Global,
    pub(crate) columns: Columns,
    pub(crate) rows: Row<Row<u32>>,
    /// How many items each process made.
    pub(crate) made: Row<u32>,
}

impl Clocks {
    /// There are no items yet. Processes that will make some have these columns.
    pub fn new(alloc: Global, columns: Columns) -> Result<Self, NoMemory>
        ensures { (owners : List ℕ) → AreColumns owners columns → IfOk result (AreClocks owners 0) }
    {
        let made = zeros(alloc, columns.width)?;
        Ok(Clocks {
            alloc,
            columns,
            rows: Row::new(alloc),
            made,
        })
    }

    /// The column of a process.
    pub fn column(&self, process: u32) -> Option<u32>
        ensures { result ≡ column_in self.now.columns process }
    {
        self.columns.of(process)
    }

    /// What the row of an item has in a column.
    pub fn count(&self, item: u32, column: u32) -> u32
        ensures { result ≡ count_at self.now.rows item column }
    {
        match self.rows.get(item as usize) {
            Some(row) => match row.get(column as usize) {
                Some(count) => *count,
                None => 0,
            },
            None => 0,
        }
    }

    /// The next item is of this process, or of none where it is 0, and comes after these items.
    pub fn push(&mut self, origins: &[u32], owner: u32) -> Result<(), NoMemory>
        requires sound { IsSound self.old }
        requires room { item_count self.old < 4294967295 }
        requires owner { 0 < owner → IsSome (column_in self.old.columns owner) }
        ensures sound { OnOk result (IsSound self.new) }
        ensures adds { OnOk result (AddsRow owner self.old self.new) }
        ensures row { OnOk result (IsGreatestRow origins.now owner self.old self.new) }
    {
        let mut row = zeros(self.alloc, self.columns.width)?;
        self.raise_all(&mut row, origins);
        self.add(row, owner)
    }

    /// In each place the greatest of these items' rows, where there were zeros.
    fn raise_all(&self, row: &mut Row<u32>, origins: &[u32])
        requires sound { IsSound self.now }
        requires zeros { row.old ≡ replicate self.now.columns.width 0 }
        ensures length { length row.new ≡ self.now.columns.width }
        ensures greatest { (column : ℕ) → slice_index row.new column ≡ greatest (map (λ i. count_at self.now.rows i column) origins.now) }
    {
        for origin in origins {
            match self.rows.get(*origin as usize) {
                Some(other) => raise(row, other.as_slice()),
                None => {}
            }
        }
    }

    /// Adds a row, and one more item of its process to it.
    fn add(&mut self, mut row: Row<u32>, owner: u32) -> Result<(), NoMemory>
        requires sound { IsSound self.old }
        requires room { item_count self.old < 4294967295 }
        requires width { length row ≡ self.old.columns.width }
        requires small { (column : ℕ) → slice_index row column ≤ item_count self.old }
        ensures columns { self.new.columns ≡ self.old.columns }
        ensures made { OnOk result (self.new.made ≡ with_one (column_in self.old.columns owner) self.old.made) }
        ensures rows { OnOk result (self.new.rows ≡ self.old.rows ++ with_one (column_in self.old.columns owner) row ∷ []) }
    {
        let column = self.columns.of(owner);
        count_one(&mut row, column);
        count_one(&mut self.made, column);
        self.rows.push(row)
    }

    /// The next item is of this process, or of none where it is 0, and comes after all items before it.
    pub fn push_all(&mut self, owner: u32) -> Result<(), NoMemory>
        requires sound { IsSound self.old }
        requires room { item_count self.old < 4294967295 }
        requires owner { 0 < owner → IsSome (column_in self.old.columns owner) }
        ensures sound { OnOk result (IsSound self.new) }
        ensures adds { OnOk result (AddsRow owner self.old self.new) }
        ensures row { OnOk result (IsWholeRow self.old self.new) }
    {
        let column = self.columns.of(owner);
        count_one(&mut self.made, column);
        let row = self.made.copy(self.alloc)?;
        self.rows.push(row)
    }
}
