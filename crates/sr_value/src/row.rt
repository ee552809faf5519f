ghost use Rattle.std.specs.Prelude.{◌≡◌, [], ◌∷◌, ◌++◌, ◌<◌, ◌↔◌, length, take, remove, slice_get, slice_set, IsTrue, MatchOption, OnOk, OnErr, OnSome};
ghost use Rattle.std.specs.Option.{option_copied};
ghost use Rattle.std.specs.Borrow.{Lends, sem};
ghost use Rattle.sr_value.specs.contracts.row.Row.{the_row};

use crate::compare::Compare;
use crate::copies::Duplicate;
use crate::memory::NoMemory;
use std::alloc::Global;
use std::marker::Model;

/// A list of items in memory.
#[derive(Debug, Drop)]
pub struct Row<T> {
    items: Vec<T>,
}

impl<T> Model for Row<T> {
    ghost use Rattle.std.specs.Prelude.{List};
    ghost use Rattle.std.specs.Coded.{coded_list};

    ghost Value = { List T };

    ghost coded = { coded_list T.code };

    ghost view = { λ row. row.items.items };
}

impl<T> Row<T> {
    /// The list of no items. It takes no memory.
    pub fn new(alloc: Global) -> Self
        ensures { result ≡ [] }
    {
        Row {
            items: Vec::new(alloc),
        }
    }

    /// The items of `items`, which it takes over.
    pub fn from_vec(items: Vec<T>) -> Self
        ensures { result ≡ items.items }
    {
        Row { items }
    }

    /// Hands the items out.
    pub fn into_vec(self) -> Vec<T>
        ensures { result.items ≡ self }
    {
        let Row { items } = self;
        items
    }

    /// The items as a slice, to read and to go over.
    pub fn as_slice(&self) -> &[T]
        ensures { result.now ≡ self.now }
    {
        self.items.as_slice()
    }

    /// The number of items.
    pub fn len(&self) -> usize
        ensures { result ≡ length self.now }
    {
        self.items.len()
    }

    /// Whether there are none.
    pub fn is_empty(&self) -> bool
        ensures { IsTrue result ↔ (self.now ≡ []) }
    {
        self.items.is_empty()
    }

    /// The item at a place, counted from 0.
    pub fn get(&self, at: usize) -> Option<&T>
        ensures value { option_copied result ≡ slice_get self.now at }
        ensures within { OnSome result (at < length self.now) }
    {
        self.items.get(at)
    }

    /// Lends the item at a place for writing.
    pub fn at_mut(&mut self, at: usize) -> &mut T
        requires { at < length self.old }
        ensures* writes_back { sem 𝓛 (Lends (the_row T.row) T.row self.entry result (λ w. slice_set self.old at w)) }
        ensures value { slice_get self.old at ≡ Some result.now }
    {
        &mut self.items[at]
    }

    /// Takes the last item out.
    pub fn pop(&mut self) -> Option<T>
        ensures { MatchOption result ((self.old ≡ []) × (self.new ≡ [])) (λ last. self.old ≡ self.new ++ last ∷ []) }
    {
        self.items.pop()
    }
}

impl<T: Drop> Row<T> {
    /// Appends an item to the others.
    pub fn push(&mut self, item: T) -> Result<(), NoMemory>
        ensures ok { OnOk result (self.new ≡ self.old ++ item ∷ []) }
        ensures err { OnErr result (self.new ≡ self.old) }
    {
        self.items.push(item)?;
        Ok(())
    }

    /// Puts all items of `more` after the others, or none.
    pub fn push_all(&mut self, more: Row<T>) -> Result<(), NoMemory>
        ensures ok { OnOk result (self.new ≡ self.old ++ more) }
        ensures err { OnErr result (self.new ≡ self.old) }
    {
        let Row { mut items } = more;
        self.items.append(&mut items)?;
        Ok(())
    }

    /// Puts an item in the place of another, and hands that out.
    pub fn replace(&mut self, at: usize, item: T) -> T
        requires { at < length self.old }
        ensures item { slice_get self.old at ≡ Some result }
        ensures others { self.new ≡ slice_set self.old at item }
    {
        std::mem::replace(&mut self.items[at], item)
    }

    /// Takes an item out; those after it move up.
    pub fn remove(&mut self, at: usize) -> T
        requires { at < length self.old }
        ensures item { slice_get self.old at ≡ Some result }
        ensures others { self.new ≡ remove self.old at }
    {
        self.items.remove(at)
    }

    /// Keeps the first `count` items, or all where there are fewer.
    pub fn truncate(&mut self, count: usize)
        ensures { self.new ≡ take count self.old }
    {
        self.items.truncate(count);
    }
}

impl<T: Duplicate + Drop> Duplicate for Row<T> {
    fn copy(&self, alloc: Global) -> Result<Row<T>, NoMemory> {
        let mut copies = Vec::with_capacity(alloc, self.items.len())?;
        for item in &self.items {
            copies.push(item.copy(alloc)?)?;
        }
        Ok(Row { items: copies })
    }
}

impl<T: Compare> Compare for Row<T> {
    fn same(&self, other: &Self) -> bool {
        same_items(&self.items, &other.items)
    }
}

/// Whether both slices hold the same items.
fn same_items<T: Compare>(mine: &[T], theirs: &[T]) -> bool
    ensures { IsTrue result ↔ (mine.now ≡ theirs.now) }
{
    let mut rest = theirs;
    for item in mine {
        match rest {
            [] => return false,
            [first, others @ ..] => {
                if !item.same(first) {
                    return false;
                }
                rest = others;
            }
        }
    }
    rest.is_empty()
}
