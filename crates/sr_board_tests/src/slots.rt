ghost use Rattle.std.specs.Prelude.{◌≡◌};
ghost use Rattle.sr_board_tests.specs.Slots.{IsHere, entry_in, journal_in, touches};

use crate::parts::{Entry, Part};
use sr_board::{Board, BoardSeat, Journals};

/// What lies in a slot of the board.
#[derive(Drop)]
pub enum Slot {
    Here(Part),
    Said(Entry),
    Away,
}

/// What the board is told of slots.
pub struct Sheets;

impl Journals<Slot, Entry> for Sheets {
    ghost journal = { journal_in };

    ghost belongs = { IsHere };

    ghost said = { entry_in };

    ghost seat = { λ e. e.seat };

    ghost stamp = { λ e. e.stamp };

    ghost touches = { touches };
}

pub type Sheet = Board<Slot, Entry, Sheets>;

pub type Place = BoardSeat<Slot, Entry>;

/// The part out of a slot.
pub fn part_in(slot: Slot, number: u32) -> Part
    requires { IsHere number slot }
    ensures { (result.number ≡ number) × (result.journal.items ≡ journal_in slot) }
{
    match slot {
        Slot::Here(part) => part,
        _ => unreachable!(),
    }
}
