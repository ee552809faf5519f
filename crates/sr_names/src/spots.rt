ghost use Rattle.std.specs.Prelude.{◌≡◌, [], length, slice_get, OnOk, OnErr};
ghost use Rattle.std.specs.List.{IsDistinct};
ghost use Rattle.indexmap.specs.IndexSet.{insert_key};
ghost use Rattle.sr_names.specs.Spots.{same_spot};

use crate::spot::Spot;
use indexmap::IndexSet;
use sr_value::NoMemory;
use std::alloc::Global;
use std::marker::Model;

/// Spots in the order in which they were put in. Each stands once.
#[derive(Drop)]
pub struct Spots {
    spots: IndexSet<Spot>,
}

impl Model for Spots {
    ghost use Rattle.std.specs.Prelude.{List};
    ghost use Rattle.sr_names.specs.declared.spot.Spot.{Spot};

    ghost Value = { List Spot };

    ghost view = { λ all. all.spots.keys };
}

impl Spots {
    /// No spots. It takes no memory.
    pub fn new(alloc: Global) -> Self
        ensures { result ≡ [] }
    {
        Spots {
            spots: IndexSet::new(alloc),
        }
    }

    /// The number of spots.
    pub fn len(&self) -> usize
        ensures len { result ≡ length self.now }
        ensures distinct { IsDistinct same_spot self.now }
    {
        self.spots.len()
    }

    /// The spot at a place, counted from 0.
    pub fn at(&self, index: usize) -> Option<Spot>
        ensures { result ≡ slice_get self.now index }
    {
        self.spots.get_index(index).copied()
    }

    /// Appends a spot to the others, unless it is there already.
    pub fn add(&mut self, spot: Spot) -> Result<(), NoMemory>
        ensures added { OnOk result (self.new ≡ insert_key same_spot self.old spot) }
        ensures unchanged { OnErr result (self.new ≡ self.old) }
    {
        self.spots.insert(spot)?;
        Ok(())
    }
}
