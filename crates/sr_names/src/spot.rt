ghost use Rattle.std.specs.Prelude.{◌≡◌};
ghost use Rattle.sr_names.specs.Spots.{spot_of, spot_before};

use sr_value::Span;

/// Where a name stands. It is what a declaration or a use is known by.
#[derive(Clone, Copy, PartialEq, Eq, Hash)]
pub struct Spot {
    /// The file, counted from 0 in the order in which the files are given.
    pub file: u32,
    /// The first byte of the name in it, counted from 0.
    pub from: u32,
}

impl Spot {
    /// Where a span begins.
    pub fn of(span: Span) -> Spot
        ensures { result ≡ spot_of span }
    {
        Spot {
            file: span.file,
            from: span.from,
        }
    }

    /// Whether this spot stands before another: in an earlier file, or in the same one at an earlier byte.
    pub fn is_before(self, other: Spot) -> bool
        ensures { result ≡ spot_before self other }
    {
        self.file < other.file || self.file == other.file && self.from < other.from
    }
}
