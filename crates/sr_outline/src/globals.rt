//! Globals in order, each once.
ghost use Rattle.std.specs.Prelude.{◌≡◌, [], IfOk, OnOk};
ghost use Rattle.sr_outline.specs.Outline.{member, with_number};

use indexmap::IndexSet;
use sr_value::{NoMemory, Row};
use std::alloc::Global;
use std::marker::Model;

/// The numbers of globals in the order in which they were put in, each once.
#[derive(Drop)]
pub(crate) struct Globals {
    numbers: IndexSet<u32>,
}

impl Model for Globals {
    ghost use Rattle.std.specs.Prelude.{ℕ, List};

    ghost Value = { List ℕ };

    ghost view = { λ globals. globals.numbers.keys };
}

impl Globals {
    /// No globals. It takes no memory.
    pub fn new(alloc: Global) -> Self
        ensures { result ≡ [] }
    {
        Globals {
            numbers: IndexSet::new(alloc),
        }
    }

    /// Whether a global is there.
    pub fn contains(&self, number: u32) -> bool
        ensures { result ≡ member number self.now }
    {
        self.numbers.contains(&number)
    }

    /// Appends a global to the others, unless it is there.
    pub fn insert(&mut self, number: u32) -> Result<(), NoMemory>
        ensures { OnOk result (self.new ≡ with_number self.old number) }
    {
        self.numbers.insert(number)?;
        Ok(())
    }

    /// The globals, in order.
    pub fn into_row(self, alloc: Global) -> Result<Row<u32>, NoMemory>
        ensures { IfOk result (λ row. row ≡ self) }
    {
        let Globals { numbers } = self;
        let row = numbers.into_iter().collect(alloc)?;
        Ok(Row::from_vec(row))
    }
}
