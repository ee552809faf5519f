ghost use Rattle.std.specs.Prelude.{◌≡◌, ◌+◌, ◌++◌, ◌∷◌, ◌<◌, ◌≤◌, [], ℕ, List, OnErr, OnOk};
ghost use Rattle.sr_clock_rows.specs.Columns.{AreColumns, column_in};

use sr_value::NoMemory;
use std::alloc::Global;
use std::collections::HashMap;

/// A column for each process that makes items, in the order of their first items.
#[derive(Drop)]
pub struct Columns {
    pub(crate) places: HashMap<u32, u32>,
    /// How many columns there are.
    pub width: u32,
}

impl Columns {
    /// There are no processes yet.
    pub fn new(alloc: Global) -> Self
        ensures columns { AreColumns [] result }
        ensures width { result.width ≡ 0 }
    {
        Columns {
            places: HashMap::new(alloc),
            width: 0,
        }
    }

    /// The column of a process.
    pub fn of(&self, process: u32) -> Option<u32>
        ensures { result ≡ column_in self.now process }
    {
        self.places.get(&process).copied()
    }

    /// Gives the owner of an item a column, where it has none and isn't 0.
    pub fn add(&mut self, owner: u32) -> Result<(), NoMemory>
        requires { self.old.width < 4294967295 }
        ensures columns { (owners : List ℕ) → AreColumns owners self.old → OnOk result (AreColumns (owners ++ owner ∷ []) self.new) }
        ensures width { OnOk result (self.new.width ≤ self.old.width + 1) }
    {
        if owner == 0 || self.places.contains_key(&owner) {
            return Ok(());
        }
        self.places.insert(owner, self.width)?;
        self.width += 1;
        Ok(())
    }
}
