//! Parts of a world with turns, which no worker waits for, and one history of what all workers did.
//!
//! Each part lies in a slot of a board. A worker has a seat there. It takes the turn of a part, if no other seat has it,
//! and then the part is in hand. An entry is committed while all parts that it touches are in hand.
//! In the end the journal of each part and the entries of each seat are what one history has of them.
#![tactic(auto)]

mod board;
mod rule;
mod seat;
mod view;

pub use board::{Board, MOST_PARTS, MOST_SEATS, Turn};
pub use rule::Journals;
pub use seat::BoardSeat;
pub use view::{Held, Refusal, View};
