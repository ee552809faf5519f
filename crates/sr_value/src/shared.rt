ghost use Rattle.std.specs.Prelude.{◌≡◌, IfOk};

use crate::compare::Compare;
use crate::copies::Duplicate;
use crate::memory::NoMemory;
use crate::row::Row;
use std::alloc::Global;
use std::marker::Model;
use std::sync::Arc;

/// A value in memory that several owners share, none of which changes it.
#[derive(Debug, Drop)]
pub struct Shared<T> {
    inner: Arc<T, Global>,
}

impl<T> Model for Shared<T> {
    ghost use Rattle.std.specs.Prelude.{◌≡◌};
    ghost use Rattle.std.specs.Arc.{arc_value};

    ghost Value = { T };

    ghost coded = { T.code };

    ghost view = { λ shared. arc_value shared.inner };
}

impl<T> Shared<T> {
    /// The value that it holds.
    pub fn get(&self) -> &T
        ensures { result.now ≡ self.now }
    {
        &self.inner
    }
}

impl<T> Shared<Row<T>> {
    /// The items of the list as a slice, to read and to go over.
    pub fn as_slice(&self) -> &[T]
        ensures { result.now ≡ self.now }
    {
        self.get().as_slice()
    }
}

impl<T: Drop> Shared<T> {
    /// Puts the value into memory of its own.
    pub fn new(alloc: Global, value: T) -> Result<Self, NoMemory>
        ensures { IfOk result (λ s. s ≡ value) }
    {
        Ok(Shared {
            inner: Arc::new(alloc, value)?,
        })
    }
}

impl<T> Duplicate for Shared<T> {
    fn copy(&self, _: Global) -> Result<Shared<T>, NoMemory> {
        Ok(Shared {
            inner: Arc::try_clone(&self.inner)?,
        })
    }
}

impl<T: Compare> Compare for Shared<T> {
    fn same(&self, other: &Self) -> bool {
        self.inner.same(&other.inner)
    }
}
