ghost use Rattle.std.specs.Prelude.{◌≡◌, [], ◌∷◌, ◌++◌, ◌<◌, ◌↔◌, length, option_copied, slice_get, IsTrue, MatchOption, OnOk, Some};
ghost use Rattle.sr_code.specs.Stacks.{first};

use sr_value::{Duplicate, NoMemory, Row};
use std::alloc::Global;
use std::marker::Model;

/// Items that join at the end and leave at the front. Contracts see them as a list.
///
/// Once one has left, they stand turned round, so that the next leaves without a move of the others.
#[derive(Drop)]
pub struct Fifo<T> {
    items: Vec<T>,
    turned: bool,
}

impl<T> Model for Fifo<T> {
    ghost use Rattle.std.specs.Prelude.{List};
    ghost use Rattle.std.specs.Coded.{coded_list};
    ghost use Rattle.sr_code.specs.Fifos.{in_order};

    ghost Value = { List T };

    ghost coded = { coded_list T.code };

    ghost view = { λ fifo. in_order fifo.turned fifo.items.items };
}

impl<T> Fifo<T> {
    /// The list of no items. It takes no memory.
    #[inline(always)]
    pub fn new(alloc: Global) -> Self
        ensures { result ≡ [] }
    {
        Fifo {
            items: Vec::new(alloc),
            turned: false,
        }
    }

    /// The list of these items.
    #[inline(always)]
    pub fn from_row(items: Row<T>) -> Self
        ensures { result ≡ items }
    {
        Fifo {
            items: items.into_vec(),
            turned: false,
        }
    }

    /// Hands the items out.
    #[inline(always)]
    pub fn into_row(self) -> Row<T>
        ensures { result ≡ self }
    {
        let Fifo { mut items, turned } = self;
        if turned {
            items.reverse();
        }
        Row::from_vec(items)
    }

    /// The number of items.
    pub fn len(&self) -> usize
        ensures { result ≡ length self.now }
    {
        self.items.len()
    }

    /// Whether there are none.
    #[inline(always)]
    pub fn is_empty(&self) -> bool
        ensures { IsTrue result ↔ (self.now ≡ []) }
    {
        self.items.is_empty()
    }

    /// The item that leaves next.
    #[inline(always)]
    pub fn first(&self) -> Option<&T>
        ensures { option_copied result ≡ first self.now }
    {
        if self.turned {
            self.items.last()
        } else {
            self.items.first()
        }
    }

    /// The item at a place, counted from 0.
    pub fn get(&self, at: usize) -> Option<&T>
        ensures { option_copied result ≡ slice_get self.now at }
    {
        if !self.turned {
            return self.items.get(at);
        }
        match self.items.len().checked_sub(at) {
            Some(left) => match left.checked_sub(1) {
                Some(place) => self.items.get(place),
                None => None,
            },
            None => None,
        }
    }

    /// The item at a place that has one.
    pub fn at(&self, at: usize) -> &T
        requires { at < length self.now }
        ensures { slice_get self.now at ≡ Some result.now }
    {
        match self.get(at) {
            Some(item) => item,
            None => unreachable!(),
        }
    }

    /// Takes the first item out.
    #[inline(always)]
    pub fn take_first(&mut self) -> Option<T>
        ensures { MatchOption result ((self.old ≡ []) × (self.new ≡ [])) (λ item. self.old ≡ item ∷ self.new) }
    {
        if self.turned {
            return self.items.pop();
        }
        if self.items.len() <= 1 {
            return self.items.pop();
        }
        self.items.reverse();
        self.turned = true;
        self.items.pop()
    }
}

impl<T: Drop> Fifo<T> {
    /// Appends an item to the others.
    #[inline(always)]
    pub fn push(&mut self, item: T) -> Result<(), NoMemory>
        ensures { OnOk result (self.new ≡ self.old ++ item ∷ []) }
    {
        if self.turned {
            self.items.reverse();
            self.turned = false;
        }
        self.items.push(item)?;
        Ok(())
    }
}

impl<T: Duplicate + Drop> Duplicate for Fifo<T> {
    fn copy(&self, alloc: Global) -> Result<Fifo<T>, NoMemory> {
        let mut copies = Vec::with_capacity(alloc, self.items.len())?;
        for item in &self.items {
            copies.push(item.copy(alloc)?)?;
        }
        Ok(Fifo {
            items: copies,
            turned: self.turned,
        })
    }
}
