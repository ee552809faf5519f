ghost use Rattle.std.specs.Prelude.{◌≡◌, ◌++◌, [], ◌∷◌, IfOk, OnOk};
ghost use Rattle.sr_names.specs.Targets.{targets_of, targets_in};
ghost use Rattle.sr_names.specs.declared.spot.Spot.{Spot as SpotOf};

use crate::links::Link;
use crate::spot::Spot;
use indexmap::IndexMap;
use sr_value::{NoMemory, Row};
use std::alloc::Global;
use std::marker::Model;

/// The ends of links, by the spot at which the links begin.
#[derive(Drop)]
pub struct Targets {
    ends: IndexMap<Spot, Row<Spot>>,
}

impl Model for Targets {
    ghost use Rattle.std.specs.Prelude.{List};
    ghost use Rattle.sr_names.specs.declared.spot.Spot.{Spot};

    ghost Value = { List (Spot × List Spot) };

    ghost view = { λ targets. targets.ends.entries };
}

impl Targets {
    /// Of no links. It takes no memory.
    pub fn new(alloc: Global) -> Self
        ensures { result ≡ [] }
    {
        Targets {
            ends: IndexMap::new(alloc),
        }
    }

    /// The ends of the links that begin at a spot.
    pub fn at(&self, spot: Spot) -> &[Spot]
        ensures { result.now ≡ targets_of self.now spot }
    {
        match self.ends.get(&spot) {
            Some(ends) => ends.as_slice(),
            None => &[],
        }
    }

    /// Appends a link to the others.
    pub fn add(&mut self, alloc: Global, link: Link) -> Result<(), NoMemory>
        ensures { OnOk result ((spot : SpotOf) → targets_of self.new spot ≡ targets_of self.old spot ++ targets_in (link ∷ []) spot) }
    {
        let held = self.ends.insert(link.from, Row::new(alloc))?;
        let mut ends = held.unwrap_or(Row::new(alloc));
        ends.push(link.to)?;
        self.ends.insert(link.from, ends)?;
        Ok(())
    }
}

/// The ends of links, by their beginnings.
pub fn gather(alloc: Global, links: &[Link]) -> Result<Targets, NoMemory>
    ensures { IfOk result (λ targets. (spot : SpotOf) → targets_of targets spot ≡ targets_in links.now spot) }
{
    let mut all = Targets::new(alloc);
    for link in links {
        all.add(alloc, *link)?;
    }
    Ok(all)
}
