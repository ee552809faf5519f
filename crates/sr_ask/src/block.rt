ghost use Rattle.std.specs.Prelude.{◌≡◌, ◌<◌, ◌≤◌, false, length, position, remove, slice_get, slice_index, EachIndex, IfOk, IsTrue};
ghost use Rattle.std.specs.List.{list_any};
ghost use Rattle.sr_ask.specs.Numbers.{is_number};

use sr_value::{Duplicate, NoMemory, Row, Shared};
use std::alloc::Global;
use std::marker::Model;

/// Numbers that several lists share. Contracts see them as a list.
///
/// All of them are between two bounds, so that a look for a number beyond them is short.
#[derive(Debug, Drop)]
pub struct Block {
    least: u32,
    greatest: u32,
    numbers: Shared<Row<u32>>,
}

impl Model for Block {
    ghost use Rattle.std.specs.Prelude.{ℕ, List};
    ghost use Rattle.std.specs.Coded.{coded_list, coded_ℕ};
    ghost use Rattle.sr_ask.specs.Numbers.{AreBetween};

    ghost Value = { List ℕ };

    ghost coded = { coded_list coded_ℕ };

    ghost view = { λ block. block.numbers };

    ghost invariant = { λ block. AreBetween block.least block.greatest block.numbers };
}

impl Block {
    /// A block of these numbers.
    pub fn new(alloc: Global, numbers: &[u32]) -> Result<Self, NoMemory>
        ensures { IfOk result (λ block. block ≡ numbers.now) }
    {
        let copy = copied(alloc, numbers)?;
        Ok(Block {
            least: least_of(numbers),
            greatest: greatest_of(numbers),
            numbers: Shared::new(alloc, copy)?,
        })
    }

    /// The numbers as a slice, to read and to go over.
    pub fn as_slice(&self) -> &[u32]
        ensures { result.now ≡ self.now }
    {
        self.numbers.as_slice()
    }

    /// The number at a place, counted from 0.
    pub fn get(&self, at: usize) -> Option<u32>
        ensures { result ≡ slice_get self.now at }
    {
        self.numbers.get().get(at).copied()
    }

    /// Whether a number is among them.
    pub fn contains(&self, number: u32) -> bool
        ensures { result ≡ list_any (is_number number) self.now }
    {
        if self.is_beyond(number) {
            return false;
        }
        self.as_slice().contains(&number)
    }

    /// Where a number first is among them.
    pub fn position(&self, number: u32) -> Option<usize>
        ensures { result ≡ position (is_number number) self.now }
    {
        if self.is_beyond(number) {
            return None;
        }
        place_among(self.as_slice(), number)
    }

    /// A block of all of them but the one at a place.
    pub fn without(&self, alloc: Global, at: usize) -> Result<Self, NoMemory>
        requires { at < length self.now }
        ensures { IfOk result (λ block. block ≡ remove self.now at) }
    {
        let mut others = copied(alloc, self.as_slice())?;
        let _ = others.remove(at);
        Ok(Block {
            least: self.least,
            greatest: self.greatest,
            numbers: Shared::new(alloc, others)?,
        })
    }

    fn is_beyond(&self, number: u32) -> bool
        ensures { IsTrue result → list_any (is_number number) self.now ≡ false }
    {
        number < self.least || self.greatest < number
    }
}

impl Duplicate for Block {
    fn copy(&self, alloc: Global) -> Result<Block, NoMemory> {
        Ok(Block {
            least: self.least,
            greatest: self.greatest,
            numbers: self.numbers.copy(alloc)?,
        })
    }
}

/// A copy of numbers.
pub fn copied(alloc: Global, numbers: &[u32]) -> Result<Row<u32>, NoMemory>
    ensures { IfOk result (λ copy. copy ≡ numbers.now) }
{
    let mut copy = Vec::with_capacity(alloc, numbers.len())?;
    copy.extend_from_slice(numbers)?;
    Ok(Row::from_vec(copy))
}

/// Where a number first stands.
pub fn place_among(numbers: &[u32], number: u32) -> Option<usize>
    ensures { result ≡ position (is_number number) numbers.now }
{
    numbers.iter().position(|other| *other == number)
}

/// The least of numbers, or 0 where there is none.
fn least_of(numbers: &[u32]) -> u32
    ensures { EachIndex numbers.now (λ k. result ≤ slice_index numbers.now k) }
{
    match numbers.iter().copied().min() {
        Some(least) => least,
        None => 0,
    }
}

/// The greatest of numbers, or 0 where there is none.
fn greatest_of(numbers: &[u32]) -> u32
    ensures { EachIndex numbers.now (λ k. slice_index numbers.now k ≤ result) }
{
    match numbers.iter().copied().max() {
        Some(greatest) => greatest,
        None => 0,
    }
}
