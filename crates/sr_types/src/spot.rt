ghost use Rattle.std.specs.Prelude.{◌≡◌, ◌↔◌, IsTrue};
ghost use Rattle.sr_types.specs.Equality.{same_spot};

use sr_value::Compare;

/// The spot of the name in a declaration. No two declarations have one spot, so it stands for the
/// declaration.
#[derive(Clone, Copy, PartialEq, Eq)]
pub struct Spot {
    /// The file, counted from 0 in the order in which the files are given.
    pub file: u32,
    /// The first byte of the name, counted from 0.
    pub byte: u32,
}

impl Compare for Spot {
    fn same(&self, other: &Self) -> bool
        ensures exact { IsTrue result ↔ (self.now ≡ other.now) }
        ensures value { result ≡ same_spot self.now other.now }
    {
        self.file == other.file && self.byte == other.byte
    }
}
