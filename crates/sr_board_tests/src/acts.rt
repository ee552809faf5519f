ghost use Rattle.std.specs.Prelude.{◌≡◌, ◌<◌, ◌∷◌, []};
ghost use Rattle.sr_board.specs.Views.{IsIdle};
ghost use Rattle.sr_board_tests.specs.Hands.{IsInHand, IsSame};

use crate::hands::{give_part, take_part};
use crate::parts::{Entry, Part};
use crate::slots::{Place, Sheet, Slot};

/// What came of an act.
#[derive(Clone, Copy, Drop, PartialEq, Debug)]
pub enum Outcome {
    Done,
    /// Another seat had a turn.
    Busy(u32),
    /// No stamp or no memory was left.
    Spent,
}

/// The entry of an act on up to three parts.
fn entry_of(seat: &Place, stamp: u64, index: u64, parts: (u32, u32, u32)) -> Entry
    ensures { result ≡ record { seat = seat.now.number; stamp = stamp; index = index; first = parts.0; second = parts.1; third = parts.2 } }
{
    Entry {
        seat: seat.number,
        stamp,
        index,
        first: parts.0,
        second: parts.1,
        third: parts.2,
    }
}

/// Commits an entry on the one part in hand.
pub fn commit_one(board: &Sheet, seat: &mut Place, index: u64, one: &mut Part) -> Outcome
    requires board { (seat.old.token.table_id ≡ board.now.table.shared.table_id) × (one.old.number < board.now.table.shared.table_id.slots) }
    requires hand { IsInHand seat.old (one.old ∷ []) }
    ensures same { IsSame seat.old seat.new × (one.new.number ≡ one.old.number) }
    ensures hand { IsInHand seat.new (one.new ∷ []) }
{
    let Some(last) = one.latest(seat.clock) else {
        return Outcome::Spent;
    };
    if last == u64::MAX {
        return Outcome::Spent;
    }
    let number = one.number;
    let entry = entry_of(seat, last + 1, index, (number, number, number));
    board.commit(seat, number, &Slot::Said(entry), &entry, last + 1);
    one.add(entry);
    Outcome::Done
}

fn commit_two(
    board: &Sheet,
    seat: &mut Place,
    index: u64,
    one: &mut Part,
    two: &mut Part,
) -> Outcome
    requires board { (seat.old.token.table_id ≡ board.now.table.shared.table_id) × (one.old.number < board.now.table.shared.table_id.slots) }
    requires hand { IsInHand seat.old (two.old ∷ one.old ∷ []) }
    ensures same { IsSame seat.old seat.new × (one.new.number ≡ one.old.number) × (two.new.number ≡ two.old.number) }
    ensures hand { IsInHand seat.new (two.new ∷ one.new ∷ []) }
{
    let Some(last) = one.latest(seat.clock) else {
        return Outcome::Spent;
    };
    let Some(last) = two.latest(last) else {
        return Outcome::Spent;
    };
    if last == u64::MAX {
        return Outcome::Spent;
    }
    let (first, second) = (one.number, two.number);
    let entry = entry_of(seat, last + 1, index, (first, second, second));
    board.commit(seat, first, &Slot::Said(entry), &entry, last + 1);
    one.add(entry);
    two.add(entry);
    Outcome::Done
}

fn commit_three(
    board: &Sheet,
    seat: &mut Place,
    index: u64,
    one: &mut Part,
    two: &mut Part,
    three: &mut Part,
) -> Outcome
    requires board { (seat.old.token.table_id ≡ board.now.table.shared.table_id) × (one.old.number < board.now.table.shared.table_id.slots) }
    requires hand { IsInHand seat.old (three.old ∷ two.old ∷ one.old ∷ []) }
    ensures same { IsSame seat.old seat.new × (one.new.number ≡ one.old.number) × (two.new.number ≡ two.old.number) × (three.new.number ≡ three.old.number) }
    ensures hand { IsInHand seat.new (three.new ∷ two.new ∷ one.new ∷ []) }
{
    let Some(last) = one.latest(seat.clock) else {
        return Outcome::Spent;
    };
    let Some(last) = two.latest(last) else {
        return Outcome::Spent;
    };
    let Some(last) = three.latest(last) else {
        return Outcome::Spent;
    };
    if last == u64::MAX {
        return Outcome::Spent;
    }
    let (first, second, third) = (one.number, two.number, three.number);
    let entry = entry_of(seat, last + 1, index, (first, second, third));
    board.commit(seat, first, &Slot::Said(entry), &entry, last + 1);
    one.add(entry);
    two.add(entry);
    three.add(entry);
    Outcome::Done
}

/// Acts on one part, if its turn is free.
pub fn act_on_one(board: &Sheet, seat: &mut Place, index: u64, first: u32) -> Outcome
    requires board { (seat.old.token.table_id ≡ board.now.table.shared.table_id) × (first < board.now.table.shared.table_id.slots) }
    requires idle { IsIdle seat.old.token.me }
    ensures { IsSame seat.old seat.new × IsIdle seat.new.token.me }
{
    let mut one = match take_part(board, seat, first) {
        Ok(part) => part,
        Err(holder) => return Outcome::Busy(holder),
    };
    let outcome = commit_one(board, seat, index, &mut one);
    give_part(board, seat, one);
    outcome
}

/// Goes on with the first of two in hand.
fn with_one(board: &Sheet, seat: &mut Place, index: u64, one: &mut Part, second: u32) -> Outcome
    requires board { (seat.old.token.table_id ≡ board.now.table.shared.table_id) × (second < board.now.table.shared.table_id.slots) }
    requires order { one.old.number < second }
    requires hand { IsInHand seat.old (one.old ∷ []) }
    ensures same { IsSame seat.old seat.new × (one.new.number ≡ one.old.number) }
    ensures hand { IsInHand seat.new (one.new ∷ []) }
{
    let mut two = match take_part(board, seat, second) {
        Ok(part) => part,
        Err(holder) => return Outcome::Busy(holder),
    };
    let outcome = commit_two(board, seat, index, one, &mut two);
    give_part(board, seat, two);
    outcome
}

/// Acts on two parts, if their turns are free.
pub fn act_on_two(board: &Sheet, seat: &mut Place, index: u64, first: u32, second: u32) -> Outcome
    requires board { (seat.old.token.table_id ≡ board.now.table.shared.table_id) × (second < board.now.table.shared.table_id.slots) }
    requires order { first < second }
    requires idle { IsIdle seat.old.token.me }
    ensures { IsSame seat.old seat.new × IsIdle seat.new.token.me }
{
    let mut one = match take_part(board, seat, first) {
        Ok(part) => part,
        Err(holder) => return Outcome::Busy(holder),
    };
    let outcome = with_one(board, seat, index, &mut one, second);
    give_part(board, seat, one);
    outcome
}

/// Goes on with the first two of three in hand.
fn with_two(
    board: &Sheet,
    seat: &mut Place,
    index: u64,
    one: &mut Part,
    two: &mut Part,
    third: u32,
) -> Outcome
    requires board { (seat.old.token.table_id ≡ board.now.table.shared.table_id) × (third < board.now.table.shared.table_id.slots) }
    requires order { (one.old.number < two.old.number) × (two.old.number < third) }
    requires hand { IsInHand seat.old (two.old ∷ one.old ∷ []) }
    ensures same { IsSame seat.old seat.new × (one.new.number ≡ one.old.number) × (two.new.number ≡ two.old.number) }
    ensures hand { IsInHand seat.new (two.new ∷ one.new ∷ []) }
{
    let mut three = match take_part(board, seat, third) {
        Ok(part) => part,
        Err(holder) => return Outcome::Busy(holder),
    };
    let outcome = commit_three(board, seat, index, one, two, &mut three);
    give_part(board, seat, three);
    outcome
}

/// Goes on with the first of three in hand.
fn with_first(
    board: &Sheet,
    seat: &mut Place,
    index: u64,
    one: &mut Part,
    second: u32,
    third: u32,
) -> Outcome
    requires board { (seat.old.token.table_id ≡ board.now.table.shared.table_id) × (third < board.now.table.shared.table_id.slots) }
    requires order { (one.old.number < second) × (second < third) }
    requires hand { IsInHand seat.old (one.old ∷ []) }
    ensures same { IsSame seat.old seat.new × (one.new.number ≡ one.old.number) }
    ensures hand { IsInHand seat.new (one.new ∷ []) }
{
    let mut two = match take_part(board, seat, second) {
        Ok(part) => part,
        Err(holder) => return Outcome::Busy(holder),
    };
    let outcome = with_two(board, seat, index, one, &mut two, third);
    give_part(board, seat, two);
    outcome
}

/// Acts on three parts, if their turns are free.
pub fn act_on_three(
    board: &Sheet,
    seat: &mut Place,
    index: u64,
    first: u32,
    second: u32,
    third: u32,
) -> Outcome
    requires board { (seat.old.token.table_id ≡ board.now.table.shared.table_id) × (third < board.now.table.shared.table_id.slots) }
    requires order { (first < second) × (second < third) }
    requires idle { IsIdle seat.old.token.me }
    ensures { IsSame seat.old seat.new × IsIdle seat.new.token.me }
{
    let mut one = match take_part(board, seat, first) {
        Ok(part) => part,
        Err(holder) => return Outcome::Busy(holder),
    };
    let outcome = with_first(board, seat, index, &mut one, second, third);
    give_part(board, seat, one);
    outcome
}
