ghost use Rattle.std.specs.Prelude.{◌≡◌};
ghost use Rattle.sr_text.specs.declared.refusal.FrontFail.TheVariants.{NoMemory as out_of_memory, Refused as refused};
ghost use Rattle.sr_text.specs.Labels.{kind_label};

use sr_value::{Compare, NoMemory, Place};
use std::alloc::{AllocError, AllocFailed};
use thiserror::Error;

/// The rules that a refused text can break, one kind for each.
#[derive(Clone, Copy, Debug, PartialEq, Eq)]
pub enum Kind {
    /// S1: a byte that no token or comment allows.
    BadByte,
    /// S2: a literal, comment or number that isn't one.
    BadToken,
    /// S3: no tree for the tokens.
    Syntax,
    /// S4: a name that is unknown, ambiguous or not yet usable.
    Name,
    /// S5: two declarations of one name in one scope, or two procs for one operation.
    Twice,
    /// S6: a type rule that isn't met.
    BadType,
    /// S7: the wrong kind of use.
    BadUse,
    /// S8: an invocation, `read` or `create` in a guard.
    Guard,
    /// S9: the last component can't be main.
    Main,
    /// S10: a word that is left out of this profile.
    OutOfProfile,
    /// S11: a size limit of the source.
    Large,
    /// S12: globals that import each other in a cycle.
    Cycle,
}

impl Compare for Kind {
    fn same(&self, other: &Self) -> bool {
        *self == *other
    }
}

impl Kind {
    /// The number and the name of the kind, as they are printed.
    pub fn label(self) -> &'static str
        ensures { result.now ≡ kind_label self }
    {
        match self {
            Kind::BadByte => "S1 BadByte",
            Kind::BadToken => "S2 BadToken",
            Kind::Syntax => "S3 Syntax",
            Kind::Name => "S4 Name",
            Kind::Twice => "S5 Twice",
            Kind::BadType => "S6 Type",
            Kind::BadUse => "S7 Kind",
            Kind::Guard => "S8 Guard",
            Kind::Main => "S9 Main",
            Kind::OutOfProfile => "S10 OutOfProfile",
            Kind::Large => "S11 Large",
            Kind::Cycle => "S12 Cycle",
        }
    }
}

/// Why a program is refused, and where.
#[derive(Clone, Copy, Debug, PartialEq, Eq)]
pub struct Refusal {
    pub kind: Kind,
    pub place: Place,
}

impl Compare for Refusal {
    fn same(&self, other: &Self) -> bool {
        self.kind.same(&other.kind) && self.place.same(&other.place)
    }
}

/// Why a phase of the compiler gives nothing: the program is refused, or memory ran out.
#[derive(Clone, Copy, Debug, PartialEq, Eq, Error)]
pub enum FrontFail {
    #[error("refused: {0:?}")]
    Refused(Refusal),
    #[error("no memory")]
    NoMemory,
}

impl Compare for FrontFail {
    fn same(&self, other: &Self) -> bool {
        match self {
            FrontFail::Refused(refusal) => match other {
                FrontFail::Refused(their_refusal) => refusal.same(their_refusal),
                FrontFail::NoMemory => false,
            },
            FrontFail::NoMemory => matches!(other, FrontFail::NoMemory),
        }
    }
}

impl From<NoMemory> for FrontFail {
    ghost from_gives = { λ _ e. e ≡ out_of_memory };

    fn from(_: NoMemory) -> Self {
        FrontFail::NoMemory
    }
}

impl From<Refusal> for FrontFail {
    ghost from_gives = { λ r e. e ≡ refused r };

    fn from(refusal: Refusal) -> Self {
        FrontFail::Refused(refusal)
    }
}

impl From<AllocError> for FrontFail {
    ghost from_gives = { λ _ e. e ≡ out_of_memory };

    fn from(_: AllocError) -> Self {
        FrontFail::NoMemory
    }
}

impl<T: Drop> From<AllocFailed<T>> for FrontFail {
    ghost from_gives = { λ _ e. e ≡ out_of_memory };

    fn from(_: AllocFailed<T>) -> Self {
        FrontFail::NoMemory
    }
}
