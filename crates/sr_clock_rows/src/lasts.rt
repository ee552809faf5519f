ghost use Rattle.std.specs.Prelude.{◌≡◌, ◌+◌, ℕ, OnOk};
ghost use Rattle.sr_clock_rows.specs.Lasts.{AreLasts, last_in};

use sr_value::NoMemory;
use std::alloc::Global;
use std::collections::HashMap;

/// Of items that have numbers, the last one that has each number.
#[derive(Drop)]
pub struct Lasts {
    pub(crate) items: HashMap<u32, u32>,
}

impl Lasts {
    /// There are no items yet.
    pub fn new(alloc: Global) -> Self
        ensures { (numbers : ℕ → ℕ) → AreLasts numbers 0 result }
    {
        Lasts {
            items: HashMap::new(alloc),
        }
    }

    /// The last item that has the number.
    pub fn of(&self, number: u32) -> Option<u32>
        ensures { result ≡ last_in self.now number }
    {
        self.items.get(&number).copied()
    }

    /// The next item has the number, or none where it is 0.
    pub fn note(&mut self, number: u32, item: u32) -> Result<(), NoMemory>
        ensures { (numbers : ℕ → ℕ) → AreLasts numbers item self.old → numbers item ≡ number → OnOk result (AreLasts numbers (item + 1) self.new) }
    {
        if number != 0 {
            self.items.insert(number, item)?;
        }
        Ok(())
    }
}
