ghost use Rattle.std.specs.Prelude.{◌≡◌, [], None, OnOk};
ghost use Rattle.sr_names.specs.Uses.{meaning_at, with_use};
ghost use Rattle.sr_names.specs.Firsts.{first_of_both};

use crate::finding::{Diagnostic, Finding};
use crate::meaning::Meaning;
use crate::spot::Spot;
use indexmap::IndexMap;
use sr_value::NoMemory;
use std::alloc::Global;
use std::marker::Model;

/// The meaning of each use of a name, by its spot, in the order in which they were noted.
#[derive(Drop)]
pub struct Uses {
    meanings: IndexMap<Spot, Meaning>,
}

impl Model for Uses {
    ghost use Rattle.sr_names.specs.Noted.{Meanings};

    ghost Value = { Meanings };

    ghost view = { λ uses. uses.meanings.entries };
}

impl Uses {
    /// No uses. It takes no memory.
    pub fn new(alloc: Global) -> Self
        ensures { result ≡ [] }
    {
        Uses {
            meanings: IndexMap::new(alloc),
        }
    }

    /// The meaning of the name that is used at a spot.
    pub fn get(&self, spot: Spot) -> Option<Meaning>
        ensures { result ≡ meaning_at self.now spot }
    {
        self.meanings.get(&spot).copied()
    }

    /// Puts the meaning of a use in.
    pub fn insert(&mut self, spot: Spot, meaning: Meaning) -> Result<(), NoMemory>
        ensures { OnOk result (self.new ≡ with_use self.old spot meaning) }
    {
        self.meanings.insert(spot, meaning)?;
        Ok(())
    }
}

/// What the findings so far come to: the meanings of the uses, and the first diagnostic.
#[derive(Drop)]
pub struct Diagnostics {
    pub uses: Uses,
    pub first: Option<Diagnostic>,
}

impl Diagnostics {
    ghost use Rattle.sr_names.specs.Diagnostics.{nothing, noted};

    /// Nothing is found yet. It takes no memory.
    pub fn new(alloc: Global) -> Self
        ensures { result ≡ nothing }
    {
        Diagnostics {
            uses: Uses::new(alloc),
            first: None,
        }
    }

    /// Keeps a finding.
    pub fn note(&mut self, finding: Finding) -> Result<(), NoMemory>
        ensures { OnOk result (self.new ≡ noted self.old finding) }
    {
        match finding {
            Finding::Use { spot, meaning } => self.uses.insert(spot, meaning),
            Finding::Broken(diagnostic) => {
                self.first = Some(first_of(self.first, diagnostic));
                Ok(())
            }
        }
    }
}

/// The earlier of the kept diagnostic and a new one.
fn first_of(kept: Option<Diagnostic>, diagnostic: Diagnostic) -> Diagnostic
    ensures { result ≡ first_of_both kept diagnostic }
{
    match kept {
        Some(kept) => {
            if diagnostic.is_before(kept) {
                diagnostic
            } else {
                kept
            }
        }
        None => diagnostic,
    }
}
