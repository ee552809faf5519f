ghost use Rattle.std.specs.Prelude.{◌≡◌, ◌↔◌, IsTrue};

/// A type whose values can be told apart by a test that takes no memory.
pub trait Compare {
    /// Whether both are the same value.
    fn same(&self, other: &Self) -> bool
        ensures { IsTrue result ↔ (self.now ≡ other.now) };
}

impl Compare for u8 {
    fn same(&self, other: &Self) -> bool {
        *self == *other
    }
}

impl Compare for u32 {
    fn same(&self, other: &Self) -> bool {
        *self == *other
    }
}

impl Compare for i32 {
    fn same(&self, other: &Self) -> bool {
        *self == *other
    }
}

impl Compare for u64 {
    fn same(&self, other: &Self) -> bool {
        *self == *other
    }
}

impl Compare for bool {
    fn same(&self, other: &Self) -> bool {
        *self == *other
    }
}
