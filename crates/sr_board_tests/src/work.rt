ghost use Rattle.std.specs.Prelude.{◌≡◌, ◌+◌, ◌<◌, ◌≤◌};
ghost use Rattle.sr_board.specs.Views.{IsIdle};
ghost use Rattle.sr_board_tests.specs.Hands.{IsSame};

use crate::acts::{Outcome, act_on_one, act_on_three, act_on_two};
use crate::slots::{Place, Sheet};
use std::thread;

/// How many times an act is tried before its worker gives up.
const MOST_TRIES: u32 = 100_000_000;

/// What a worker is to do.
#[derive(Clone, Copy, Drop, PartialEq, Debug)]
pub struct Job {
    pub acts: u64,
    /// Whether it acts on one part at a time, one of its own. Else it acts on two and three parts, which others want too.
    pub alone: bool,
}

/// How far apart the first parts of a seat's acts lie. No number here has a factor in common with 30.
fn step_of(seat: u32) -> u32
    ensures { result ≤ 13 }
{
    match seat % 4 {
        0 => 1,
        1 => 7,
        2 => 11,
        _ => 13,
    }
}

/// The first part that the act touches, of 32 or of those that are the seat's own.
pub fn first_part(seat: u32, index: u64, alone: bool) -> u32
    ensures { result < 30 }
{
    if alone {
        (seat % 4) * 8 + (index % 6) as u32
    } else {
        ((index % 30) as u32 * step_of(seat)) % 30
    }
}

/// Whether the act touches three parts. Else it touches two.
pub fn is_of_three(index: u64) -> bool {
    index % 2 == 1
}

/// Tries an act once.
fn try_act(board: &Sheet, seat: &mut Place, index: u64, alone: bool) -> Outcome
    requires board { (seat.old.token.table_id ≡ board.now.table.shared.table_id) × (32 ≤ board.now.table.shared.table_id.slots) }
    requires idle { IsIdle seat.old.token.me }
    ensures { IsSame seat.old seat.new × IsIdle seat.new.token.me }
{
    let first = first_part(seat.number, index, alone);
    if alone {
        act_on_one(board, seat, index, first)
    } else if is_of_three(index) {
        act_on_three(board, seat, index, first, first + 1, first + 2)
    } else {
        act_on_two(board, seat, index, first, first + 1)
    }
}

/// Tries an act until it is done, and tells whether it was.
fn act(board: &Sheet, seat: &mut Place, index: u64, alone: bool) -> bool
    requires board { (seat.old.token.table_id ≡ board.now.table.shared.table_id) × (32 ≤ board.now.table.shared.table_id.slots) }
    requires idle { IsIdle seat.old.token.me }
    ensures { IsSame seat.old seat.new × IsIdle seat.new.token.me }
{
    for _ in 0..MOST_TRIES {
        match try_act(board, seat, index, alone) {
            Outcome::Done => return true,
            Outcome::Busy(_) => thread::yield_now(),
            Outcome::Spent => return false,
        }
    }
    false
}

/// Does all acts of a job, one after the other.
pub fn work(board: &Sheet, mut seat: Place, job: Job) -> Place
    requires board { (seat.token.table_id ≡ board.now.table.shared.table_id) × (32 ≤ board.now.table.shared.table_id.slots) }
    requires idle { IsIdle seat.token.me }
    ensures { IsSame seat result × IsIdle result.token.me }
{
    for index in 0..job.acts {
        if !act(board, &mut seat, index, job.alone) {
            break;
        }
    }
    seat
}
