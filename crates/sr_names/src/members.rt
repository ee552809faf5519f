ghost use Rattle.std.specs.Prelude.{◌≡◌, [], unwrap_or, OnOk};
ghost use Rattle.std.specs.Option.{option_copied};
ghost use Rattle.sr_names.specs.Components.{member_named, with_members};
ghost use Rattle.sr_names.specs.Declarers.{AreDeclarers};

use crate::declarers::Declarers;
use crate::meaning::Decl;
use crate::spot::Spot;
use crate::spots::Spots;
use crate::table::Table;
use indexmap::IndexMap;
use sr_value::NoMemory;
use std::alloc::Global;
use std::marker::Model;

/// The names that the spec of each component declares, by the spot of the component's name.
#[derive(Drop)]
pub struct Members {
    specs: IndexMap<Spot, Table>,
    declarers: Declarers,
}

impl Model for Members {
    ghost use Rattle.sr_names.specs.Specs.{Specs};
    ghost use Rattle.sr_names.specs.Declarers.{HoldsDeclarers};

    ghost Value = { Specs };

    ghost view = { λ members. members.specs.entries };

    ghost invariant = { λ members. HoldsDeclarers members.declarers members.specs.entries };
}

impl Members {
    /// Of no components. It takes no memory.
    pub fn new(alloc: Global) -> Self
        ensures { result ≡ [] }
    {
        Members {
            specs: IndexMap::new(alloc),
            declarers: Declarers::new(alloc),
        }
    }

    /// What the spec of a component declares a name as.
    pub fn get(&self, component: Spot, name: &[u8]) -> Option<Decl>
        ensures { result ≡ member_named self.now component name.now }
    {
        self.specs.get(&component)?.get(name)
    }

    /// The components whose specs declare a name. There may be others among them.
    pub fn declarers(&self, name: &[u8]) -> Option<&Spots>
        ensures { AreDeclarers (unwrap_or (option_copied result) []) self.now name.now }
    {
        self.declarers.get(name)
    }

    /// Puts the names of a component's spec in.
    pub fn insert(&mut self, alloc: Global, component: Spot, spec: Table) -> Result<(), NoMemory>
        ensures { OnOk result (self.new ≡ with_members self.old component spec) }
    {
        self.declarers.add_all(alloc, component, &spec)?;
        self.specs.insert(component, spec)?;
        Ok(())
    }
}
