ghost use Rattle.std.specs.Prelude.{◌≡◌, ℕ, [], true, is_some, List, OnOk};
ghost use Rattle.std.specs.Map.{lookup};
ghost use Rattle.std.specs.Option.{option_copied};
ghost use Rattle.std.specs.Str.{bytes_eq};
ghost use Rattle.sr_names.specs.Declarers.{IsDeclarer};
ghost use Rattle.sr_names.specs.Tables.{declared_as};
ghost use Rattle.sr_names.specs.declared.spot.Spot.{Spot as SpotOf};

use crate::spot::Spot;
use crate::spots::Spots;
use crate::table::Table;
use indexmap::IndexMap;
use sr_value::NoMemory;
use std::alloc::Global;
use std::marker::Model;

/// By each name the components whose specs have it, in the order in which they were put in.
#[derive(Drop)]
pub struct Declarers {
    components: IndexMap<Vec<u8>, Spots>,
}

impl Model for Declarers {
    ghost use Rattle.std.specs.Prelude.{ℕ, List};
    ghost use Rattle.sr_names.specs.declared.spot.Spot.{Spot};
    ghost use Rattle.sr_names.specs.Declarers.{named_declarers};

    ghost Value = { List (List ℕ × List Spot) };

    ghost view = { λ declarers. named_declarers declarers.components.entries };
}

impl Declarers {
    /// Of no names. It takes no memory.
    pub fn new(alloc: Global) -> Self
        ensures { result ≡ [] }
    {
        Declarers {
            components: IndexMap::new(alloc),
        }
    }

    /// The components whose specs have a name.
    pub fn get(&self, name: &[u8]) -> Option<&Spots>
        ensures { option_copied result ≡ lookup (bytes_eq name.now) self.now }
    {
        self.components.get(name)
    }

    /// Puts a component among those of a name.
    fn add(&mut self, alloc: Global, name: &[u8], component: Spot) -> Result<(), NoMemory>
        ensures kept { (other : List ℕ) (spot : SpotOf) → IsDeclarer self.old other spot → IsDeclarer self.new other spot }
        ensures added { OnOk result (IsDeclarer self.new name.now component) }
    {
        if let Some(components) = self.components.get_mut(name) {
            return components.add(component);
        }
        let mut components = Spots::new(alloc);
        components.add(component)?;
        let key = Vec::from_slice(alloc, name)?;
        self.components.insert(key, components)?;
        Ok(())
    }

    /// Puts a component among those of each name of its spec.
    pub fn add_all(&mut self, alloc: Global, component: Spot, spec: &Table) -> Result<(), NoMemory>
        ensures kept { (other : List ℕ) (spot : SpotOf) → IsDeclarer self.old other spot → IsDeclarer self.new other spot }
        ensures added { OnOk result ((name : List ℕ) → is_some (declared_as spec.now name) ≡ true → IsDeclarer self.new name component) }
    {
        for index in 0..spec.len() {
            if let Some(name) = spec.name_at(index) {
                self.add(alloc, name, component)?;
            }
        }
        Ok(())
    }
}
