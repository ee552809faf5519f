ghost use Rattle.std.specs.Prelude.{◌≡◌, true};

use crate::view::View;
use atomic_table::Seat;

/// A worker's seat at a board. It may go to another thread.
#[derive(Drop)]
pub struct BoardSeat<S, E> {
    /// What the seat knows and has in hand, in proofs alone.
    pub token: Seat<S, View<E>>,
    pub number: u32,
    /// The number of the seat that is split off next, or 0 where none may be.
    pub next: u32,
    /// The greatest stamp of its entries, or 0.
    pub clock: u64,
    ghost live: { token.me.0.live ≡ true },
    ghost number_is: { number ≡ token.me.0.number },
    ghost next_is: { next ≡ token.me.0.next },
    ghost clock_is: { clock ≡ token.me.0.clock },
}
