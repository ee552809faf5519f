ghost use Rattle.std.specs.Prelude.{◌≡◌, [], not, is_some, length, slice_get, IfOk, OnOk};
ghost use Rattle.std.specs.Option.{option_copied, option_map};
ghost use Rattle.sr_names.specs.Tables.{declared_as, with_decl};

use crate::meaning::Decl;
use indexmap::IndexMap;
use sr_value::NoMemory;
use std::alloc::Global;
use std::marker::Model;

/// The names of a scope with their declarations, in the order of declaration. Each name stands once.
#[derive(Drop)]
pub struct Table {
    entries: IndexMap<Vec<u8>, Decl>,
}

impl Model for Table {
    ghost use Rattle.sr_names.specs.Entries.{Entries, named_entries};

    ghost Value = { Entries };

    ghost view = { λ table. named_entries table.entries.entries };
}

impl Table {
    /// The scope that declares nothing. It takes no memory.
    pub fn new(alloc: Global) -> Self
        ensures { result ≡ [] }
    {
        Table {
            entries: IndexMap::new(alloc),
        }
    }

    /// The declaration of a name in this scope.
    pub fn get(&self, name: &[u8]) -> Option<Decl>
        ensures { result ≡ declared_as self.now name.now }
    {
        self.entries.get(name).copied()
    }

    /// The number of names.
    pub fn len(&self) -> usize
        ensures { result ≡ length self.now }
    {
        self.entries.len()
    }

    /// The declaration at a place, counted from 0.
    pub fn at(&self, index: usize) -> Option<Decl>
        ensures { result ≡ option_map (λ entry. entry.1) (slice_get self.now index) }
    {
        let (_, decl) = self.entries.get_index(index)?;
        Some(*decl)
    }

    /// The name at a place, counted from 0.
    pub fn name_at(&self, index: usize) -> Option<&[u8]>
        ensures { option_copied result ≡ option_map (λ entry. entry.0) (slice_get self.now index) }
    {
        let (name, _) = self.entries.get_index(index)?;
        Some(name.as_slice())
    }

    /// Declares a name, unless this scope has it already, and says whether it is new.
    pub fn declare(&mut self, alloc: Global, name: &[u8], decl: Decl) -> Result<bool, NoMemory>
        ensures new { IfOk result (λ is_new. is_new ≡ not (is_some (declared_as self.old name.now))) }
        ensures after { OnOk result (self.new ≡ with_decl self.old name.now decl) }
    {
        if self.entries.contains_key(name) {
            return Ok(false);
        }
        let key = Vec::from_slice(alloc, name)?;
        self.entries.insert(key, decl)?;
        Ok(true)
    }
}
