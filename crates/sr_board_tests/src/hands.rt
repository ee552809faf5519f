ghost use Rattle.std.specs.Prelude.{◌≡◌, ◌<◌, ◌∷◌, IfOk, IfErr};
ghost use Rattle.atomic_table.specs.Table.{rest};
ghost use Rattle.sr_board.specs.Views.{HasPart, rest_held};
ghost use Rattle.sr_board_tests.specs.Hands.{IsFirst, IsSame, away_of, held_of};

use crate::parts::Part;
use crate::slots::{Place, Sheet, Slot, part_in};
use sr_board::Turn;

/// Takes the turn of a part, and then the part out of its slot; or answers who has it.
pub fn take_part(board: &Sheet, seat: &mut Place, part: u32) -> Result<Part, u32>
    requires board { (seat.old.token.table_id ≡ board.now.table.shared.table_id) × (part < board.now.table.shared.table_id.slots) }
    requires free { ¬ HasPart seat.old.token.me.0.held part }
    ensures same { IsSame seat.old seat.new }
    ensures taken { IfOk result (λ p. (p.number ≡ part) × (seat.new.token.me.0.held ≡ held_of p ∷ seat.old.token.me.0.held) × (seat.new.token.me.1 ≡ away_of p ∷ seat.old.token.me.1)) }
    ensures busy { IfErr result (λ _. (seat.new.token.me.0.held ≡ seat.old.token.me.0.held) × (seat.new.token.me.1 ≡ seat.old.token.me.1)) }
{
    match board.take_turn(seat, part) {
        Turn::Busy { holder } => Err(holder),
        Turn::Taken => {
            let slot = board.exchange(seat, part, Slot::Away);
            Ok(part_in(slot, part))
        }
    }
}

/// Puts the part that was taken last back into its slot, and gives its turn back.
pub fn give_part(board: &Sheet, seat: &mut Place, part: Part)
    requires board { (seat.old.token.table_id ≡ board.now.table.shared.table_id) × (part.number < board.now.table.shared.table_id.slots) }
    requires first { IsFirst seat.old part }
    ensures same { IsSame seat.old seat.new }
    ensures given { (seat.new.token.me.0.held ≡ rest_held seat.old.token.me.0.held) × (seat.new.token.me.1 ≡ rest seat.old.token.me.1) }
{
    let number = part.number;
    board.exchange(seat, number, Slot::Here(part));
    board.give_turn(seat, number);
}
