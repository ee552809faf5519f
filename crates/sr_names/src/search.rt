ghost use Rattle.std.specs.Prelude.{◌≡◌, ◌++◌, [], false, true, IfOk, OnOk};
ghost use Rattle.sr_names.specs.Searches.{begun, entered, closed, Steps, Shrinks, HasEnded, WentToNext, WentOn};

use crate::links::Link;
use crate::marks::{Mark, Marks, settle};
use crate::spot::Spot;
use crate::targets::Targets;
use sr_value::{NoMemory, Row};
use std::alloc::Global;

/// Spots of the path that lead to each other, as far as is known: those from a place of the path on, up to the next
/// group. The spots that they lead to and that are still to be visited begin at a place of those that are pending.
#[derive(Clone, Copy)]
pub struct Group {
    pub path: usize,
    pub pending: usize,
}

/// A search through links for the groups of spots that lead to each other. Each spot of the path leads to those
/// after it. A group is settled when nothing that it leads to is pending.
#[derive(Drop)]
pub struct Search {
    pub marks: Marks,
    pub path: Row<Spot>,
    pub groups: Row<Group>,
    pub pending: Row<Spot>,
    pub settled: Row<Spot>,
}

impl Search {
    /// The beginning, where all spots at which links begin are pending.
    pub fn new(alloc: Global, links: &[Link]) -> Result<Self, NoMemory>
        ensures { IfOk result (λ search. search ≡ begun links.now) }
    {
        let mut pending = Row::new(alloc);
        for link in links {
            pending.push(link.from)?;
        }
        Ok(Search {
            marks: Marks::new(alloc),
            path: Row::new(alloc),
            groups: Row::new(alloc),
            pending,
            settled: Row::new(alloc),
        })
    }

    /// Makes one step, and says whether there was one to make.
    pub fn step(&mut self, targets: &Targets) -> Result<bool, NoMemory>
        ensures steps { OnOk result (Steps targets.now self.old self.new) }
        ensures smaller { IfOk result (λ goes_on. goes_on ≡ true → Shrinks targets.now self.old self.new) }
        ensures ended { IfOk result (λ goes_on. goes_on ≡ false → HasEnded self.new) }
    {
        match self.groups.pop() {
            Some(group) => {
                self.go_on(targets, group)?;
                Ok(true)
            }
            None => self.go_to_next(targets),
        }
    }

    /// Visits the last pending spot, where no group is open.
    fn go_to_next(&mut self, targets: &Targets) -> Result<bool, NoMemory>
        ensures none { IfOk result (λ goes_on. goes_on ≡ false → (self.old.pending ≡ []) × (self.new ≡ self.old)) }
        ensures some { IfOk result (λ goes_on. goes_on ≡ true → WentToNext targets.now self.old self.new) }
    {
        let Some(spot) = self.pending.pop() else {
            return Ok(false);
        };
        match self.marks.get(spot) {
            Some(_) => Ok(true),
            None => {
                self.enter(targets, spot)?;
                Ok(true)
            }
        }
    }

    /// Goes on from the last group, which was taken off: settles it where nothing that it leads to is pending, and
    /// otherwise visits a spot that it leads to. Where that is a spot of the path before the group, the group is one
    /// with that before it.
    fn go_on(&mut self, targets: &Targets, group: Group) -> Result<(), NoMemory>
        ensures { OnOk result (WentOn targets.now group self.old self.new) }
    {
        if self.pending.len() <= group.pending {
            return self.close(group);
        }
        let Some(spot) = self.pending.pop() else {
            return Ok(());
        };
        let Some(mark) = self.marks.get(spot) else {
            self.groups.push(group)?;
            return self.enter(targets, spot);
        };
        if mark.is_before(group.path) {
            self.pending.push(spot)
        } else {
            self.groups.push(group)
        }
    }

    /// Puts a spot after the path, as a group of its own.
    fn enter(&mut self, targets: &Targets, spot: Spot) -> Result<(), NoMemory>
        ensures { OnOk result (self.new ≡ entered targets.now spot self.old) }
    {
        let place = self.path.len();
        self.marks.set(spot, Mark::OnPath(place))?;
        self.path.push(spot)?;
        self.groups.push(Group {
            path: place,
            pending: self.pending.len(),
        })?;
        push_spots(&mut self.pending, targets.at(spot))
    }

    /// Settles the spots of a group, which was taken off.
    fn close(&mut self, group: Group) -> Result<(), NoMemory>
        ensures { OnOk result (self.new ≡ closed group self.old) }
    {
        let number = self.settled.len();
        let place = group.path.min(self.path.len());
        let spots = &self.path.as_slice()[place..];
        settle(&mut self.marks, spots, number)?;
        push_spots(&mut self.settled, spots)?;
        self.path.truncate(place);
        Ok(())
    }
}

fn push_spots(all: &mut Row<Spot>, spots: &[Spot]) -> Result<(), NoMemory>
    ensures { OnOk result (all.new ≡ all.old ++ spots.now) }
{
    for spot in spots {
        all.push(*spot)?;
    }
    Ok(())
}
