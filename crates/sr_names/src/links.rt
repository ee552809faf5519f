ghost use Rattle.sr_names.specs.Links.{ConnectsAlongWays};

use crate::spot::Spot;

/// A link of a graph of spots.
#[derive(Clone, Copy, PartialEq, Eq)]
pub struct Link {
    pub from: Spot,
    pub to: Spot,
}

/// That spots are connected means that there is a way over links from one to the other.
pub fn connects_along_ways()
    ensures { ConnectsAlongWays }
{}
