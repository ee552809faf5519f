ghost use Rattle.std.specs.Prelude.{◌≡◌, [], OnOk};
ghost use Rattle.sr_names.specs.Marks.{mark_of, stands_before, with_mark, with_settled};

use crate::spot::Spot;
use indexmap::IndexMap;
use sr_value::NoMemory;
use std::alloc::Global;
use std::marker::Model;

/// What a search knows of a spot that it met.
#[derive(Clone, Copy)]
pub enum Mark {
    /// It stands at this place of the path.
    OnPath(usize),
    /// It is settled, in the group of this number.
    Settled(usize),
}

impl Mark {
    /// Whether it marks a spot of the path before a place.
    pub fn is_before(self, place: usize) -> bool
        ensures { result ≡ stands_before self place }
    {
        match self {
            Mark::OnPath(at) => at < place,
            Mark::Settled(_) => false,
        }
    }
}

/// The marks of spots.
#[derive(Drop)]
pub struct Marks {
    marks: IndexMap<Spot, Mark>,
}

impl Model for Marks {
    ghost use Rattle.std.specs.Prelude.{List};
    ghost use Rattle.sr_names.specs.declared.spot.Spot.{Spot};
    ghost use Rattle.sr_names.specs.declared.marks.Mark.{Mark};

    ghost Value = { List (Spot × Mark) };

    ghost view = { λ marks. marks.marks.entries };
}

impl Marks {
    /// No marks. It takes no memory.
    pub fn new(alloc: Global) -> Self
        ensures { result ≡ [] }
    {
        Marks {
            marks: IndexMap::new(alloc),
        }
    }

    /// The mark of a spot.
    pub fn get(&self, spot: Spot) -> Option<Mark>
        ensures { result ≡ mark_of self.now spot }
    {
        self.marks.get(&spot).copied()
    }

    /// Marks a spot, anew where it is marked.
    pub fn set(&mut self, spot: Spot, mark: Mark) -> Result<(), NoMemory>
        ensures { OnOk result (self.new ≡ with_mark self.old spot mark) }
    {
        self.marks.insert(spot, mark)?;
        Ok(())
    }
}

/// Marks spots as settled in the group of a number.
pub fn settle(marks: &mut Marks, spots: &[Spot], number: usize) -> Result<(), NoMemory>
    ensures { OnOk result (marks.new ≡ with_settled marks.old spots.now number) }
{
    for spot in spots {
        marks.set(*spot, Mark::Settled(number))?;
    }
    Ok(())
}
