ghost use Rattle.std.specs.Prelude.{◌≡◌, IfOk};

use crate::memory::NoMemory;
use std::alloc::Global;

/// A type whose values can be copied where there is memory.
pub trait Duplicate {
    /// A value equal to this one.
    fn copy(&self, alloc: Global) -> Result<Self, NoMemory>
        ensures { IfOk result (λ c. c ≡ self.now) };
}

impl<T: Copy> Duplicate for T {
    fn copy(&self, _alloc: Global) -> Result<T, NoMemory> {
        Ok(*self)
    }
}
