ghost use Rattle.std.specs.Prelude.{◌≡◌};
ghost use Rattle.sr_core.specs.declared.component.Core.{Core as the_core};

use sr_ask::Start;
use sr_core::Core;
use sr_value::Place;
use std::alloc::Global;

/// A program as it is interpreted. What is generic in it doesn't see the types of statements.
pub trait HasCore {
    ghost core_of: { Self → the_core };

    fn core(&self) -> &Core
        ensures { result.now ≡ core_of self.now };
}

impl HasCore for Core {
    ghost core_of = { λ core. core };

    fn core(&self) -> &Core {
        self
    }
}

/// What stays the same while a statement is carried out.
#[derive_where(Clone, Copy)]
pub struct Scene<'a, C> {
    pub alloc: Global,
    pub program: &'a C,
    pub start: &'a Start,
    /// How many statements the process may begin between two answers.
    pub limit: u32,
    /// The line of the innermost statement or declaration.
    pub place: Place,
}
