ghost use Rattle.std.specs.Prelude.{◌≡◌, ◌≤◌, [], IfOk};
ghost use Rattle.std.specs.Thread.{IsSync};
ghost use Rattle.sr_board.specs.Views.{IsIdle, first_view};
ghost use Rattle.sr_board_tests.specs.Hands.{AtBoard, IsSame};

use crate::acts::{Outcome, act_on_one, act_on_two, commit_one};
use crate::hands::{give_part, take_part};
use crate::slots::{Place, Sheet, Slot};
use crate::teams::new_parts;
use std::alloc::{AllocError, Global};
use std::sync::atomic::{AtomicU64, Ordering};
use std::thread;
use std::thread::Threads;

/// How often a thread looks whether the other has come.
const MOST_LOOKS: u32 = 100_000_000;

/// How far two threads have come.
#[derive(Drop)]
struct Gate {
    stage: AtomicU64,
}

impl Gate {
    fn pass(&self, stage: u64) {
        self.stage.store(stage, Ordering::SeqCst);
    }

    /// Whether the other thread has come this far, after a while.
    fn has_passed(&self, stage: u64) -> bool {
        for _ in 0..MOST_LOOKS {
            if self.stage.load(Ordering::SeqCst) >= stage {
                return true;
            }
            thread::yield_now();
        }
        false
    }
}

/// Has the turn of part 3 until the other seat has been refused and has acted elsewhere.
fn hold(board: &Sheet, mut seat: Place, gate: &Gate) -> (Place, bool)
    requires board { (seat.token.table_id ≡ board.now.table.shared.table_id) × (32 ≤ board.now.table.shared.table_id.slots) }
    requires idle { IsIdle seat.token.me }
    ensures { IsSame seat result.0 × IsIdle result.0.token.me }
{
    let Ok(mut part) = take_part(board, &mut seat, 3) else {
        return (seat, false);
    };
    gate.pass(1);
    let is_met = gate.has_passed(2);
    let outcome = commit_one(board, &mut seat, 0, &mut part);
    give_part(board, &mut seat, part);
    gate.pass(3);
    (seat, is_met && outcome == Outcome::Done)
}

/// Whether an act on part 3 is refused, alone and after part 2 was taken, and an act elsewhere is done meanwhile.
fn is_refused(board: &Sheet, seat: &mut Place) -> bool
    requires board { (seat.old.token.table_id ≡ board.now.table.shared.table_id) × (32 ≤ board.now.table.shared.table_id.slots) }
    requires idle { IsIdle seat.old.token.me }
    ensures { IsSame seat.old seat.new × IsIdle seat.new.token.me }
{
    let alone = act_on_one(board, seat, 0, 3);
    let elsewhere = act_on_two(board, seat, 1, 4, 5);
    let second = act_on_two(board, seat, 2, 2, 3);
    alone == Outcome::Busy(1) && elsewhere == Outcome::Done && second == Outcome::Busy(1)
}

/// Asks for part 3 while the other seat has its turn, and again when it was given back.
fn meet(board: &Sheet, mut seat: Place, gate: &Gate) -> (Place, bool)
    requires board { (seat.token.table_id ≡ board.now.table.shared.table_id) × (32 ≤ board.now.table.shared.table_id.slots) }
    requires idle { IsIdle seat.token.me }
    ensures { IsSame seat result.0 × IsIdle result.0.token.me }
{
    let is_held = gate.has_passed(1);
    let is_right = is_refused(board, &mut seat);
    gate.pass(2);
    let is_over = gate.has_passed(3);
    let last = act_on_two(board, &mut seat, 3, 2, 3);
    (
        seat,
        is_held && is_right && is_over && last == Outcome::Done,
    )
}

/// Two seats meet at part 3. Tells what lies on the board then, and whether all went as it should.
fn met<R: Threads + Sync>(rt: &R, board: Sheet, mut one: Place) -> (Vec<Slot>, bool)
    requires board { (one.token.table_id ≡ board.table.shared.table_id) × (board.table.shared.table_id.slots ≡ 32) }
    requires new { one.token.me ≡ (first_view, []) }
{
    let two = board.split(&mut one);
    let gate = Gate {
        stage: AtomicU64::new(0),
    };
    let (shared, stages) = (&board, &gate);
    let ((two, has_met), (mut one, has_held)) = thread::join(
        rt,
        move || -> (Place, bool)
            requires { (two.token.table_id ≡ shared.now.table.shared.table_id) × (32 ≤ shared.now.table.shared.table_id.slots) × IsIdle two.token.me }
            ensures { IsSame two result.0 × IsIdle result.0.token.me }
        { meet(shared, two, stages) },
        move || -> (Place, bool)
            requires { (one.token.table_id ≡ shared.now.table.shared.table_id) × (32 ≤ shared.now.table.shared.table_id.slots) × IsIdle one.token.me }
            ensures { IsSame one result.0 × IsIdle result.0.token.me }
        { hold(shared, one, stages) },
    );
    board.join(&mut one, two);
    (board.close(one), has_met && has_held)
}

/// What lies on a board of 32 parts after two seats have met, and whether all went as it should.
pub fn met_at_a_part<R: Threads + Sync>(
    rt: &R,
    alloc: Global,
) -> Result<(Vec<Slot>, bool), AllocError> {
    let (board, one) = Sheet::new(alloc, new_parts(alloc, 8)?)?;
    Ok(met(rt, board, one))
}

/// Whether a part has these entries: of each the seat, and how many acts it had done before.
fn has_entries(slot: &Slot, entries: &[(u32, u64)]) -> bool {
    let Slot::Here(part) = slot else {
        return false;
    };
    let are_same = part
        .journal
        .iter()
        .zip(entries)
        .all(|(entry, wanted)| (entry.seat, entry.index) == *wanted);
    are_same && part.journal.len() == entries.len()
}

/// The entries of each part from 2 to 6 after two seats have met.
const ENTRIES: [&[(u32, u64)]; 5] = [&[(2, 3)], &[(1, 0), (2, 3)], &[(2, 1)], &[(2, 1)], &[]];

/// Whether parts 2 to 6 have the entries of two seats that met.
pub fn are_met(slots: &[Slot]) -> bool {
    slots
        .iter()
        .skip(2)
        .zip(ENTRIES)
        .all(|(slot, entries)| has_entries(slot, entries))
}
