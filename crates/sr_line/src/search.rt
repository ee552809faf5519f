ghost use Rattle.std.specs.Prelude.{◌≡◌, ◌+◌, ◌-◌, ◌<◌, ◌≤◌, ◌^◌, ℕ, length, slice_get, slice_index_or, AllPairs, IfSome, IsTrue, Some, false};
ghost use Rattle.sr_line.specs.Lines.{IsNumbered, IsStart, Reaches, joined};

use crate::blocks::Spot;
use std::collections::VecDeque;

/// What has a number.
pub trait HasNumber {
    ghost number_of: { Self → ℕ };

    fn number(&self) -> u64
        ensures { result ≡ number_of self.now };
}

/// The place of the item of a number among those of the blocks.
pub fn place_in_blocks<T: HasNumber>(blocks: &VecDeque<VecDeque<T>>, number: u64) -> Option<usize>
    requires small { length (joined blocks.now.items) < 2 ^ 64 }
    requires up { AllPairs (λ a b. T.number_of a < T.number_of b) (joined blocks.now.items) }
    ensures found { (place : ℕ) (item : T) → slice_get (joined blocks.now.items) place ≡ Some item → T.number_of item ≡ number → result ≡ Some place }
    ensures there { IfSome result (IsNumbered T.number_of (joined blocks.now.items) number) }
{
    let spot = block_of(blocks, number);
    let items = blocks.get(spot.block)?;
    place_after(spot.place, items, number)
}

/// The first block that ends at a number or after it, and how many items stand before that block.
fn block_of<T: HasNumber>(blocks: &VecDeque<VecDeque<T>>, number: u64) -> Spot
    requires small { length (joined blocks.now.items) < 2 ^ 64 }
    requires up { AllPairs (λ a b. T.number_of a < T.number_of b) (joined blocks.now.items) }
    ensures { IsStart T.number_of blocks.now.items number result.block result.place }
{
    let end = blocks.len();
    let mut before = 0;
    for block in 0..end {
        let items = &blocks[block];
        if reaches(items, number) {
            return Spot {
                block,
                place: before,
            };
        }
        let len = items.len();
        before += len;
    }
    Spot {
        block: end,
        place: before,
    }
}

/// Whether the last item has this number or a greater one.
fn reaches<T: HasNumber>(items: &VecDeque<T>, number: u64) -> bool
    ensures yes { IsTrue result → Reaches T.number_of items.now.items number }
    ensures no { result ≡ false → 0 < length items.now.items → (other : T) → T.number_of (slice_index_or items.now.items (length items.now.items - 1) other) < number }
{
    match items.back() {
        Some(last) => last.number() >= number,
        None => false,
    }
}

/// Whether the first item has this number or a lesser one.
pub fn starts_by<T: HasNumber>(items: &VecDeque<T>, number: u64) -> bool
    ensures yes { IsTrue result → (0 < length items.now.items) × ((other : T) → T.number_of (slice_index_or items.now.items 0 other) ≤ number) }
    ensures no { result ≡ false → 0 < length items.now.items → (other : T) → number < T.number_of (slice_index_or items.now.items 0 other) }
{
    match items.front() {
        Some(first) => first.number() <= number,
        None => false,
    }
}

/// The place of the item of a number, where this many items stand before these.
pub fn place_after<T: HasNumber>(before: usize, items: &VecDeque<T>, number: u64) -> Option<usize>
    requires small { before + length items.now.items < 2 ^ 64 }
    requires up { AllPairs (λ a b. T.number_of a < T.number_of b) items.now.items }
    ensures found { (place : ℕ) (item : T) → slice_get items.now.items place ≡ Some item → T.number_of item ≡ number → result ≡ Some (before + place) }
    ensures there { IfSome result (λ place. (before ≤ place) × IsNumbered T.number_of items.now.items number (place - before)) }
{
    let place = place_in(items, number)?;
    Some(before + place)
}

/// The place of the item of a number.
fn place_in<T: HasNumber>(items: &VecDeque<T>, number: u64) -> Option<usize>
    requires { AllPairs (λ a b. T.number_of a < T.number_of b) items.now.items }
    ensures found { (place : ℕ) (item : T) → slice_get items.now.items place ≡ Some item → T.number_of item ≡ number → result ≡ Some place }
    ensures there { IfSome result (IsNumbered T.number_of items.now.items number) }
{
    items
        .binary_search_by_key(&number, |item| item.number())
        .ok()
}
