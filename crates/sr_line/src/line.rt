ghost use Rattle.std.specs.Prelude.{◌≡◌, ◌==◌, ◌<◌, ◌≤◌, ℕ, [], ◌∷◌, ◌++◌, length, remove, slice_get, AllPairs, IfSome, IsOk, OnErr, OnOk, OnSome, option_copied};
ghost use Rattle.sr_line.specs.Lines.{IsNumbered};

use crate::blocks::{get_in, make_room, take_in};
use crate::search::{HasNumber, place_after, place_in_blocks, starts_by};
use crate::taking::take_at;
use std::alloc::{AllocError, Global};
use std::collections::VecDeque;
use std::marker::Model;

/// The greatest number of items that a list has.
const MOST_ITEMS: usize = usize::MAX;

/// A list whose items can leave anywhere at little cost. It is kept in blocks.
#[derive(Drop)]
pub struct Line<T> {
    alloc: Global,
    /// The blocks before the last. Each was full once, and none is empty.
    blocks: VecDeque<VecDeque<T>>,
    /// The last block, to which items are added. It stays when it is empty.
    last: VecDeque<T>,
    len: usize,
}

impl<T> Model for Line<T> {
    ghost use Rattle.std.specs.Prelude.{◌≡◌, ◌+◌, ◌++◌, ℕ, List, length, refl};
    ghost use Rattle.std.specs.Coded.{code_by, coded×, coded_list, coded_ℕ};
    ghost use Rattle.sr_line.specs.Lines.{Lined, joined, room_in};

    ghost Value = { Lined T };

    ghost coded = { code_by (List T × ℕ) (coded× (coded_list T.code) coded_ℕ) (λ l. (l.items, l.room)) (λ p. record { items = p.0; room = p.1 }) (λ _. refl) };

    ghost view = { λ line. record { items = joined line.blocks.items ++ line.last.items; room = room_in line.last line.len } };

    ghost invariant = { λ line. line.len ≡ length (joined line.blocks.items) + length line.last.items };
}

impl<T> Line<T> {
    /// The list of no items. It takes no memory.
    pub fn new(alloc: Global) -> Self
        ensures { result.items ≡ [] }
    {
        Line {
            alloc,
            blocks: VecDeque::new(alloc),
            last: VecDeque::new(alloc),
            len: 0,
        }
    }

    /// The number of items.
    pub fn len(&self) -> usize
        ensures { result ≡ length self.now.items }
    {
        self.len
    }

    /// Whether there are none.
    pub fn is_empty(&self) -> bool
        ensures { result ≡ (length self.now.items == 0) }
    {
        self.len == 0
    }

    /// The item at a place, counted from 0.
    pub fn get(&self, place: usize) -> Option<&T>
        ensures { option_copied result ≡ slice_get self.now.items place }
    {
        let last = self.last.len();
        let before = self.len - last;
        if place >= before {
            return self.last.get(place - before);
        }
        get_in(&self.blocks, place)
    }

    /// The item at a place that has one.
    pub fn at(&self, place: usize) -> &T
        requires { place < length self.now.items }
        ensures { slice_get self.now.items place ≡ Some result.now }
    {
        match self.get(place) {
            Some(item) => item,
            None => unreachable!(),
        }
    }

    /// Adds an item after all others. It takes no memory.
    pub fn push_reserved(&mut self, item: T)
        requires { 0 < self.old.room }
        ensures { self.new.items ≡ self.old.items ++ item ∷ [] }
    {
        let len = self.len + 1;
        self.last.push_back_reserved(item);
        self.len = len;
    }
}

impl<T: Drop> Line<T> {
    /// Makes room for one more item.
    pub fn reserve(&mut self) -> Result<(), AllocError>
        ensures ok { OnOk result (0 < self.new.room) }
        ensures items { self.new.items ≡ self.old.items }
        ensures room { self.old.room ≤ self.new.room }
        ensures succeeds { 0 < self.old.room → IsOk result }
        ensures err { OnErr result (self.new ≡ self.old) }
    {
        let len = self.len;
        if len == MOST_ITEMS {
            return Err(AllocError);
        }
        make_room(self.alloc, &mut self.blocks, &mut self.last)
    }

    /// Takes the item at a place out. Later ones move up.
    pub fn remove(&mut self, place: usize) -> Option<T>
        ensures item { result ≡ slice_get self.old.items place }
        ensures others { OnSome result (self.new.items ≡ remove self.old.items place) }
        ensures none { result ≡ None → self.new ≡ self.old }
        ensures room { self.old.room ≤ self.new.room }
    {
        let len = self.len;
        if place >= len {
            return None;
        }
        let last = self.last.len();
        let before = len - last;
        self.len = len - 1;
        if place >= before {
            return take_at(&mut self.last, place - before);
        }
        take_in(&mut self.blocks, place)
    }
}

impl<T: HasNumber> Line<T> {
    /// The place of the item of a number, where later items have greater numbers.
    pub fn place_of(&self, number: u64) -> Option<usize>
        requires { AllPairs (λ a b. T.number_of a < T.number_of b) self.now.items }
        ensures found { (place : ℕ) (item : T) → slice_get self.now.items place ≡ Some item → T.number_of item ≡ number → result ≡ Some place }
        ensures there { IfSome result (IsNumbered T.number_of self.now.items number) }
    {
        let last = self.last.len();
        let before = self.len - last;
        if starts_by(&self.last, number) {
            return place_after(before, &self.last, number);
        }
        place_in_blocks(&self.blocks, number)
    }
}
