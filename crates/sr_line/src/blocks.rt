ghost use Rattle.std.specs.Prelude.{◌≡◌, ◌<◌, ◌≤◌, ◌++◌, length, option_copied, remove, slice_get, IsOk, OnErr, OnOk};
ghost use Rattle.sr_line.specs.Lines.{IsSpot, joined, spare};

use crate::taking::take_at;
use std::alloc::{AllocError, Global};
use std::collections::VecDeque;
use std::mem;

/// How many items a block has at most.
const BLOCK: usize = 256;

/// How many items the first room is for.
const LEAST_ROOM: usize = 4;

/// A block, and a place.
#[derive(Clone, Copy)]
pub struct Spot {
    pub block: usize,
    pub place: usize,
}

/// Where an item stands: its block, and its place there.
fn spot_of<T>(blocks: &VecDeque<VecDeque<T>>, place: usize) -> Spot
    requires { place < length (joined blocks.now.items) }
    ensures { IsSpot blocks.now.items place result.block result.place }
{
    let mut left = place;
    for block in 0..blocks.len() {
        let items = &blocks[block];
        let len = items.len();
        if left < len {
            return Spot { block, place: left };
        }
        left -= len;
    }
    unreachable!()
}

/// The item at a place of the blocks.
pub fn get_in<T>(blocks: &VecDeque<VecDeque<T>>, place: usize) -> Option<&T>
    requires { place < length (joined blocks.now.items) }
    ensures { option_copied result ≡ slice_get (joined blocks.now.items) place }
{
    let spot = spot_of(blocks, place);
    let block = &blocks[spot.block];
    block.get(spot.place)
}

/// Takes the item at a place out of the blocks, and its block too where that is empty then.
pub fn take_in<T: Drop>(blocks: &mut VecDeque<VecDeque<T>>, place: usize) -> Option<T>
    requires { place < length (joined blocks.old.items) }
    ensures item { result ≡ slice_get (joined blocks.old.items) place }
    ensures others { joined blocks.new.items ≡ remove (joined blocks.old.items) place }
{
    let spot = spot_of(blocks, place);
    let block = &mut blocks[spot.block];
    let item = take_at(block, spot.place);
    drop_empty(blocks, spot.block);
    item
}

/// Takes a block out if it is empty.
fn drop_empty<T: Drop>(blocks: &mut VecDeque<VecDeque<T>>, block: usize)
    ensures { joined blocks.new.items ≡ joined blocks.old.items }
{
    if let Some(items) = blocks.get(block)
        && items.is_empty()
    {
        let _ = take_at(blocks, block);
    }
}

/// Makes room for one more item in the last block. A full one makes way for the next.
pub fn make_room<T: Drop>(
    alloc: Global,
    blocks: &mut VecDeque<VecDeque<T>>,
    last: &mut VecDeque<T>,
) -> Result<(), AllocError>
    ensures items { joined blocks.new.items ++ last.new.items ≡ joined blocks.old.items ++ last.old.items }
    ensures ok { OnOk result (0 < spare last.new) }
    ensures room { spare last.old ≤ spare last.new }
    ensures succeeds { 0 < spare last.old → IsOk result }
    ensures err { OnErr result (spare last.new ≡ spare last.old) }
{
    let len = last.len();
    if len < last.capacity() {
        return Ok(());
    }
    if len < BLOCK {
        let more = len.max(LEAST_ROOM);
        return last.reserve_exact(more);
    }
    begin_block(alloc, blocks, last)
}

/// Puts the last block among the others, and begins a new one.
fn begin_block<T: Drop>(
    alloc: Global,
    blocks: &mut VecDeque<VecDeque<T>>,
    last: &mut VecDeque<T>,
) -> Result<(), AllocError>
    ensures items { joined blocks.new.items ++ last.new.items ≡ joined blocks.old.items ++ last.old.items }
    ensures ok { OnOk result (0 < spare last.new) }
    ensures err { OnErr result (last.new ≡ last.old) }
{
    blocks.reserve(1)?;
    let next = VecDeque::with_capacity(alloc, BLOCK)?;
    blocks.push_back_reserved(mem::replace(last, next));
    Ok(())
}
