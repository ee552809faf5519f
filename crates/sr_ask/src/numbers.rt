ghost use Rattle.std.specs.Prelude.{◌≡◌, [], ◌∷◌, ◌++◌, ◌<◌, ◌^◌, ◌↔◌, ◌+◌, ℕ, length, option_map, position, remove, slice_get, IfOk, IsTrue, OnErr, OnOk};
ghost use Rattle.std.specs.List.{list_any};
ghost use Rattle.sr_ask.specs.Numbers.{IsSpot, is_number, joined};

use crate::block::{Block, copied, place_among};
use sr_value::{Compare, Duplicate, NoMemory, Row};
use std::alloc::Global;
use std::marker::Model;

/// How many numbers a block gets.
const BLOCK: usize = 1024;

/// The greatest number of numbers that a list has.
const MOST_NUMBERS: usize = usize::MAX;

/// A list of numbers that is copied at little cost. Contracts see it as a list.
///
/// Copies share the blocks.
#[derive(Debug, Drop)]
pub struct SharedNumbers {
    blocks: Row<Block>,
    /// The numbers after those of the blocks, to which numbers are added.
    last: Row<u32>,
    len: usize,
}

impl Model for SharedNumbers {
    ghost use Rattle.std.specs.Prelude.{◌≡◌, ◌+◌, ◌++◌, ℕ, List, length};
    ghost use Rattle.std.specs.Coded.{coded_list, coded_ℕ};
    ghost use Rattle.sr_ask.specs.Numbers.{joined};

    ghost Value = { List ℕ };

    ghost coded = { coded_list coded_ℕ };

    ghost view = { λ numbers. joined numbers.blocks ++ numbers.last };

    ghost invariant = { λ numbers. numbers.len ≡ length (joined numbers.blocks) + length numbers.last };
}

impl SharedNumbers {
    /// The list of no numbers. It takes no memory.
    pub fn new(alloc: Global) -> Self
        ensures { result ≡ [] }
    {
        SharedNumbers {
            blocks: Row::new(alloc),
            last: Row::new(alloc),
            len: 0,
        }
    }

    /// The list of one number.
    pub fn one(alloc: Global, number: u32) -> Result<Self, NoMemory>
        ensures { IfOk result (λ numbers. numbers ≡ number ∷ []) }
    {
        let mut last = Row::new(alloc);
        last.push(number)?;
        Ok(SharedNumbers {
            blocks: Row::new(alloc),
            last,
            len: 1,
        })
    }

    /// How many there are.
    pub fn len(&self) -> usize
        ensures { result ≡ length self.now }
    {
        self.len
    }

    /// The number at a place, counted from 0.
    pub fn get(&self, at: usize) -> Option<u32>
        ensures { result ≡ slice_get self.now at }
    {
        let before = self.len - self.last.len();
        if at >= before {
            return self.last.get(at - before).copied();
        }
        get_in(self.blocks.as_slice(), at)
    }

    /// Whether a number is among them.
    pub fn contains(&self, number: u32) -> bool
        ensures { result ≡ list_any (is_number number) self.now }
    {
        is_in_any(self.blocks.as_slice(), number) || self.last.as_slice().contains(&number)
    }

    /// Where a number first is among them.
    pub fn position(&self, number: u32) -> Option<usize>
        ensures { result ≡ position (is_number number) self.now }
    {
        let before = self.len - self.last.len();
        match place_in(self.blocks.as_slice(), number) {
            Some(at) => Some(at),
            None => place_after(before, self.last.as_slice(), number),
        }
    }

    /// Adds a number after all others.
    pub fn push(&mut self, alloc: Global, number: u32) -> Result<(), NoMemory>
        ensures ok { OnOk result (self.new ≡ self.old ++ number ∷ []) }
        ensures err { OnErr result (self.new ≡ self.old) }
    {
        let len = self.len;
        if len == MOST_NUMBERS {
            return Err(NoMemory);
        }
        make_room(alloc, &mut self.blocks, &mut self.last)?;
        self.last.push(number)?;
        self.len = len + 1;
        Ok(())
    }

    /// Takes the number at a place out.
    pub fn remove(&mut self, alloc: Global, at: usize) -> Result<(), NoMemory>
        requires { at < length self.old }
        ensures ok { OnOk result (self.new ≡ remove self.old at) }
        ensures err { OnErr result (self.new ≡ self.old) }
    {
        let len = self.len;
        let before = len - self.last.len();
        if at < before {
            remove_in(alloc, &mut self.blocks, at)?;
            self.len = len - 1;
            return Ok(());
        }
        let _ = self.last.remove(at - before);
        self.len = len - 1;
        Ok(())
    }
}

impl Duplicate for SharedNumbers {
    fn copy(&self, alloc: Global) -> Result<SharedNumbers, NoMemory> {
        let last = copied(alloc, self.last.as_slice())?;
        Ok(SharedNumbers {
            blocks: self.blocks.copy(alloc)?,
            last,
            len: self.len,
        })
    }
}

impl Compare for SharedNumbers {
    fn same(&self, other: &Self) -> bool {
        self.len == other.len && agree(self, other)
    }
}

/// Whether the one list has the numbers of the other at all places of that.
fn agree(mine: &SharedNumbers, theirs: &SharedNumbers) -> bool
    ensures { IsTrue result ↔ ((at : ℕ) → at < length mine.now → slice_get mine.now at ≡ slice_get theirs.now at) }
{
    for at in 0..mine.len() {
        if mine.get(at) != theirs.get(at) {
            return false;
        }
    }
    true
}

/// A block, and a place in it.
#[derive(Clone, Copy)]
struct Spot {
    block: usize,
    place: usize,
}

/// Where a number stands: its block, and its place there.
fn spot_of(blocks: &[Block], at: usize) -> Spot
    requires { at < length (joined blocks.now) }
    ensures { IsSpot blocks.now at result.block result.place }
{
    let mut left = at;
    for block in 0..blocks.len() {
        let len = blocks[block].as_slice().len();
        if left < len {
            return Spot { block, place: left };
        }
        left -= len;
    }
    unreachable!()
}

/// The number at a place of the blocks.
fn get_in(blocks: &[Block], at: usize) -> Option<u32>
    requires { at < length (joined blocks.now) }
    ensures { result ≡ slice_get (joined blocks.now) at }
{
    let spot = spot_of(blocks, at);
    let block = &blocks[spot.block];
    block.get(spot.place)
}

/// Whether a number stands in a block.
fn is_in_any(blocks: &[Block], number: u32) -> bool
    ensures { result ≡ list_any (list_any (is_number number)) blocks.now }
{
    blocks.iter().any(|block| block.contains(number))
}

/// Where a number first stands in the blocks.
fn place_in(blocks: &[Block], number: u32) -> Option<usize>
    requires { length (joined blocks.now) < 2 ^ 64 }
    ensures { result ≡ position (is_number number) (joined blocks.now) }
{
    let mut before = 0;
    let mut rest = blocks;
    while let [block, others @ ..] = rest {
        if let Some(at) = block.position(number) {
            return Some(before + at);
        }
        before += block.as_slice().len();
        rest = others;
    }
    None
}

/// Where a number first stands, where so many stand before these.
fn place_after(before: usize, numbers: &[u32], number: u32) -> Option<usize>
    requires { before + length numbers.now < 2 ^ 64 }
    ensures { result ≡ option_map (λ at. before + at) (position (is_number number) numbers.now) }
{
    let at = place_among(numbers, number)?;
    Some(before + at)
}

/// Takes the number at a place out of the blocks, and its block too where that has no other.
fn remove_in(alloc: Global, blocks: &mut Row<Block>, at: usize) -> Result<(), NoMemory>
    requires { at < length (joined blocks.old) }
    ensures ok { OnOk result (joined blocks.new ≡ remove (joined blocks.old) at) }
    ensures err { OnErr result (blocks.new ≡ blocks.old) }
{
    let spot = spot_of(blocks.as_slice(), at);
    let block = &blocks.as_slice()[spot.block];
    if block.as_slice().len() == 1 {
        let _ = blocks.remove(spot.block);
        return Ok(());
    }
    let others = block.without(alloc, spot.place)?;
    let _ = blocks.replace(spot.block, others);
    Ok(())
}

/// Makes a block of the last numbers, where they are enough for one.
fn make_room(alloc: Global, blocks: &mut Row<Block>, last: &mut Row<u32>) -> Result<(), NoMemory>
    ensures { joined blocks.new ++ last.new ≡ joined blocks.old ++ last.old }
{
    if last.len() < BLOCK {
        return Ok(());
    }
    let block = Block::new(alloc, last.as_slice())?;
    blocks.push(block)?;
    last.truncate(0);
    Ok(())
}
