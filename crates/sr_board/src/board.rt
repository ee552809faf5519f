ghost use Rattle.std.specs.Prelude.{◌≡◌, ◌≢◌, ◌+◌, ◌*◌, ◌<◌, ◌≤◌, [], ◌∷◌, Some, vec_len};
ghost use Rattle.std.specs.Vec.{vec_capacity};

use crate::rule::{Absorb, Commit, Fork, Give, Journals, Law, Take};
use crate::seat::BoardSeat;
use crate::view::View;
use atomic_table::{Shared, Table};
use std::alloc::{AllocError, Global};

/// The most parts of a board.
pub const MOST_PARTS: usize = 32;

/// The most seats of a board.
pub const MOST_SEATS: u32 = 16;

/// How far apart turns lie in memory, in words. So no two of them share a line of a processor's cache.
const APART: usize = 16;

/// What a seat is told that asks for a turn.
#[derive(Clone, Copy, PartialEq, Debug)]
pub enum Turn {
    Taken,
    /// Another seat had the turn: the step that asked found this number.
    Busy { holder: u32 },
}

/// Parts with turns. Threads share it by `&`, and no call but `new` takes memory. None waits.
#[derive(Drop)]
pub struct Board<S, E, P: Journals<S, E>> {
    pub table: Table<S, View<E>, (), Law<P>, Global>,
    room: Vec<S>,
    ghost turns: { table.shared.table_id.words ≡ table.shared.table_id.slots * 16 },
    ghost parts: { (0 < table.shared.table_id.slots) × (table.shared.table_id.slots ≤ 32) },
    ghost kept_room: { (room.items ≡ []) × (table.shared.table_id.slots ≤ vec_capacity room) },
}

/// Where the turn of a part stands.
fn word_of(part: u32) -> usize
    requires { part < 32 }
    ensures { result ≡ part * 16 }
{
    part as usize * APART
}

impl<S: Drop, E, P: Journals<S, E>> Board<S, E, P> {
    ghost use Rattle.std.specs.Prelude.{IfOk};
    ghost use Rattle.sr_board.specs.Rule.{AreNew};
    ghost use Rattle.sr_board.specs.Views.{first_view};

    /// A board of these parts, each at its place, and its first seat. The parts are dropped where memory runs out.
    pub fn new(alloc: Global, parts: Vec<S>) -> Result<(Self, BoardSeat<S, E>), AllocError>
        requires new { AreNew P.journal P.belongs parts.items }
        requires count { (0 < vec_len parts) × (vec_len parts ≤ MOST_PARTS) }
        ensures parts { IfOk result (λ r. r.0.table.shared.table_id.slots ≡ vec_len parts) }
        ensures seat { IfOk result (λ r. (r.1.token.table_id ≡ r.0.table.shared.table_id) × (r.1.token.me ≡ (first_view, []))) }
    {
        let count = parts.len();
        let room = Vec::with_capacity(alloc, count)?;
        let turns = vec![in alloc; 0u64; count * APART]?;
        let Ok((table, token)) = Table::new(alloc, &turns, parts, &()) else {
            return Err(AllocError);
        };
        let seat = BoardSeat {
            token,
            number: 1,
            next: 2,
            clock: 0,
        };
        Ok((Board { table, room }, seat))
    }
}

impl<S, E, P: Journals<S, E>> Board<S, E, P> {
    ghost use Rattle.atomic_table.specs.Table.{rest};
    ghost use Rattle.sr_board.specs.Answers.{AnswersTake};
    ghost use Rattle.sr_board.specs.History.{IsHistory};
    ghost use Rattle.sr_board.specs.Views.{AllJoined, HasPart, HasTouched, IsAfter, IsIdle, IsNext, IsReady, joining, split_off, splitting, with_entry, without_last};

    /// Asks for the turn of a part, by one step that decides.
    pub fn take_turn(&self, seat: &mut BoardSeat<S, E>, part: u32) -> Turn
        requires board { seat.old.token.table_id ≡ self.now.table.shared.table_id }
        requires part { part < self.now.table.shared.table_id.slots }
        requires free { ¬ HasPart seat.old.token.me.0.held part }
        ensures board { seat.new.token.table_id ≡ seat.old.token.table_id }
        ensures answer { AnswersTake P.journal P.belongs part seat.old.token.me result seat.new.token.me }
    {
        let (table, word) = (&self.table.shared, word_of(part));
        let number = u64::from(seat.number);
        let found = table.compare_exchange::<Take<P>>(&mut seat.token, word, 0, number);
        if found == 0 {
            Turn::Taken
        } else {
            Turn::Busy {
                holder: found as u32,
            }
        }
    }

    /// Puts a value where the part lies that was taken last, and gives the one that lay there.
    pub fn exchange(&self, seat: &mut BoardSeat<S, E>, part: u32, value: S) -> S
        requires board { seat.old.token.table_id ≡ self.now.table.shared.table_id }
        requires part { (old : S) × (seat.old.token.me.1 ≡ (part, old) ∷ rest seat.old.token.me.1) }
        ensures board { seat.new.token.table_id ≡ seat.old.token.table_id }
        ensures old { seat.old.token.me.1 ≡ (part, result) ∷ rest seat.old.token.me.1 }
        ensures new { seat.new.token.me ≡ (seat.old.token.me.0, (part, value) ∷ rest seat.old.token.me.1) }
    {
        let table = &self.table.shared;
        table.exchange(&mut seat.token, part as usize, value)
    }

    /// Puts an entry into the history, by one step on the turn of `part`. That part is one in hand: nobody else
    /// changes its turn.
    pub fn commit(&self, seat: &mut BoardSeat<S, E>, part: u32, said: &S, entry: &E, stamp: u64)
        requires board { seat.old.token.table_id ≡ self.now.table.shared.table_id }
        requires part { part < self.now.table.shared.table_id.slots }
        requires said { P.said said.now ≡ Some entry.now }
        requires own { (P.seat entry.now ≡ seat.old.number) × (P.stamp entry.now ≡ stamp) }
        requires later { IsAfter P.stamp seat.old.token.me.0 stamp }
        requires touched { HasTouched P.touches seat.old.token.me.0 entry.now }
        ensures board { seat.new.token.table_id ≡ seat.old.token.table_id }
        ensures entry { seat.new.token.me ≡ (with_entry P.stamp P.touches entry.now seat.old.token.me.0, seat.old.token.me.1) }
    {
        let _ = entry;
        let (table, word) = (&self.table.shared, word_of(part));
        let number = u64::from(seat.number);
        table.compare_exchange_with::<Commit<P>>(&mut seat.token, word, number, number, said);
        seat.clock = stamp;
    }

    /// Gives the turn back that was taken last.
    pub fn give_turn(&self, seat: &mut BoardSeat<S, E>, part: u32)
        requires board { seat.old.token.table_id ≡ self.now.table.shared.table_id }
        requires part { part < self.now.table.shared.table_id.slots }
        requires ready { IsReady P.journal P.belongs seat.old.token.me part }
        ensures board { seat.new.token.table_id ≡ seat.old.token.table_id }
        ensures seat { seat.new.token.me ≡ (without_last seat.old.token.me.0, rest seat.old.token.me.1) }
    {
        let (table, word) = (&self.table.shared, word_of(part));
        table.store::<Give>(&mut seat.token, word, 0);
    }

    /// A new seat. It has the next number.
    pub fn split(&self, seat: &mut BoardSeat<S, E>) -> BoardSeat<S, E>
        requires board { seat.old.token.table_id ≡ self.now.table.shared.table_id }
        requires next { (0 < seat.old.next) × (seat.old.next ≤ MOST_SEATS) }
        ensures board { (seat.new.token.table_id ≡ seat.old.token.table_id) × (result.token.table_id ≡ seat.old.token.table_id) }
        ensures seat { seat.new.token.me ≡ (splitting seat.old.token.me.0, seat.old.token.me.1) }
        ensures new { result.token.me ≡ (split_off seat.old.token.me.0, []) }
    {
        let table = &self.table.shared;
        let token = table.split_seat::<Fork>(&mut seat.token);
        let number = seat.next;
        seat.next = number + 1;
        BoardSeat {
            token,
            number,
            next: 0,
            clock: 0,
        }
    }

    /// Takes in a seat that has nothing in hand: of those that were split off, the one that comes next.
    pub fn join(&self, seat: &mut BoardSeat<S, E>, other: BoardSeat<S, E>)
        requires board { (seat.old.token.table_id ≡ self.now.table.shared.table_id) × (other.token.table_id ≡ self.now.table.shared.table_id) }
        requires idle { IsIdle other.token.me }
        requires next { IsNext seat.old.token.me.0 other.token.me.0 }
        ensures board { seat.new.token.table_id ≡ seat.old.token.table_id }
        ensures seat { seat.new.token.me ≡ (joining seat.old.token.me.0 other.token.me.0, seat.old.token.me.1) }
    {
        let BoardSeat {
            token,
            number: _,
            next: _,
            clock: _,
        } = other;
        let table = &self.table.shared;
        table.join_seat::<Absorb>(&mut seat.token, token);
    }

    /// Gives the parts back, in the order of their places, when all seats have joined.
    pub fn close(self, seat: BoardSeat<S, E>) -> Vec<S>
        requires board { seat.token.table_id ≡ self.table.shared.table_id }
        requires all { IsIdle seat.token.me × AllJoined seat.token.me.0 }
        ensures parts { vec_len result ≡ self.table.shared.table_id.slots }
        ensures history { IsHistory P.journal P.belongs P.seat P.stamp P.touches seat.token.me.0 result.items }
    {
        let Board { table, room } = self;
        let BoardSeat {
            token,
            number: _,
            next: _,
            clock: _,
        } = seat;
        let count = table.slot_count();
        let mut closed = table.close_with(token);
        let mut parts = room;
        for i in 0..count {
            parts.push_reserved(closed.take(i));
        }
        closed.free();
        parts
    }
}
