ghost use Rattle.std.specs.Prelude.{◌≡◌};
ghost use Rattle.sr_names.specs.Sorts.{needs_order};

use crate::predefined::Predefined;
use crate::spot::Spot;

/// What is declared.
#[derive(Clone, Copy, PartialEq, Eq)]
pub enum Sort {
    Constant,
    /// A literal of an enumeration.
    Literal,
    Type,
    /// The type of an operation.
    OpType,
    /// An operation, a semaphore among them.
    Operation,
    /// A variable or a formal.
    Variable,
    /// The variable of a quantifier, which can't be stored to.
    Quantifier,
    Resource,
    Global,
}

impl Sort {
    /// Whether a name of this sort can be used only after its declaration, in a component too.
    pub fn needs_order(self) -> bool
        ensures { result ≡ needs_order self }
    {
        match self {
            Sort::Constant | Sort::Literal | Sort::Type | Sort::OpType => true,
            Sort::Operation | Sort::Variable | Sort::Quantifier | Sort::Resource | Sort::Global =>
                false,
        }
    }
}

/// A declaration: what it declares, and the spot of its name.
#[derive(Clone, Copy, PartialEq, Eq)]
pub struct Decl {
    pub sort: Sort,
    pub spot: Spot,
}

/// What a name means where it is used.
#[derive(Clone, Copy, PartialEq, Eq)]
pub enum Meaning {
    Predefined(Predefined),
    Declared(Decl),
}
