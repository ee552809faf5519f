ghost use Rattle.std.specs.Prelude.{◌≡◌, [], length, slice_get, OnOk};
ghost use Rattle.std.specs.List.{IsDistinct};
ghost use Rattle.sr_names.specs.Spots.{same_spot};
ghost use Rattle.sr_names.specs.Visible.{component_at, with_component, spots_of};

use crate::meaning::{Decl, Sort};
use crate::spot::Spot;
use indexmap::IndexMap;
use sr_value::NoMemory;
use std::alloc::Global;
use std::marker::Model;

/// The components whose names can be used at a place, in the order in which they were put in. Each stands once.
#[derive(Drop)]
pub struct Visible {
    sorts: IndexMap<Spot, Sort>,
}

impl Model for Visible {
    ghost use Rattle.std.specs.Prelude.{List};
    ghost use Rattle.sr_names.specs.declared.meaning.Decl.{Decl};
    ghost use Rattle.sr_names.specs.Visible.{components_of};

    ghost Value = { List Decl };

    ghost view = { λ visible. components_of visible.sorts.entries };
}

impl Visible {
    /// No components. It takes no memory.
    pub fn new(alloc: Global) -> Self
        ensures { result ≡ [] }
    {
        Visible {
            sorts: IndexMap::new(alloc),
        }
    }

    /// The number of components.
    pub fn len(&self) -> usize
        ensures len { result ≡ length self.now }
        ensures distinct { IsDistinct same_spot (spots_of self.now) }
    {
        self.sorts.len()
    }

    /// The component at a place, counted from 0.
    pub fn at(&self, index: usize) -> Option<Decl>
        ensures { result ≡ slice_get self.now index }
    {
        let (spot, sort) = self.sorts.get_index(index)?;
        Some(Decl {
            sort: *sort,
            spot: *spot,
        })
    }

    /// The component that is known by a spot.
    pub fn get(&self, spot: Spot) -> Option<Decl>
        ensures { result ≡ component_at self.now spot }
    {
        let sort = *self.sorts.get(&spot)?;
        Some(Decl { sort, spot })
    }

    /// Appends a component to the others, unless it is there already.
    pub fn add(&mut self, component: Decl) -> Result<(), NoMemory>
        ensures { OnOk result (self.new ≡ with_component self.old component) }
    {
        if self.sorts.contains_key(&component.spot) {
            return Ok(());
        }
        self.sorts.insert(component.spot, component.sort)?;
        Ok(())
    }
}
