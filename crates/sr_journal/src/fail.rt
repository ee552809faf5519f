ghost use Rattle.std.specs.Prelude.{◌≡◌};
ghost use Rattle.sr_journal.specs.declared.fail.JournalFail.TheVariants.{NoMemory as out_of_memory};

use sr_value::{Compare, NoMemory};
use std::alloc::{AllocError, AllocFailed};
use thiserror::Error;

/// Why bytes aren't read as a journal.
#[derive(Clone, Copy, Debug, PartialEq, Eq, Error)]
pub enum JournalFail {
    /// J1: however the bytes went on, they would be no journal.
    #[error("J1 NotJournal")]
    NotJournal,
    /// J2: a journal begins with the bytes, and has more.
    #[error("J2 Truncated")]
    Truncated,
    /// J3: a journal of another version.
    #[error("J3 Version")]
    Version,
    #[error("no memory")]
    NoMemory,
}

impl Compare for JournalFail {
    fn same(&self, other: &Self) -> bool {
        *self == *other
    }
}

impl From<NoMemory> for JournalFail {
    ghost from_gives = { λ _ e. e ≡ out_of_memory };

    fn from(_: NoMemory) -> Self {
        JournalFail::NoMemory
    }
}

impl From<AllocError> for JournalFail {
    ghost from_gives = { λ _ e. e ≡ out_of_memory };

    fn from(_: AllocError) -> Self {
        JournalFail::NoMemory
    }
}

impl<T: Drop> From<AllocFailed<T>> for JournalFail {
    ghost from_gives = { λ _ e. e ≡ out_of_memory };

    fn from(_: AllocFailed<T>) -> Self {
        JournalFail::NoMemory
    }
}
