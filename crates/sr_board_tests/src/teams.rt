ghost use Rattle.std.specs.Prelude.{◌≡◌, ◌≤◌, [], IfOk, vec_len};
ghost use Rattle.sr_board.specs.Rule.{AreNew};
ghost use Rattle.sr_board.specs.Views.{IsIdle, first_view};
ghost use Rattle.std.specs.Thread.{IsSync};
ghost use Rattle.sr_board_tests.specs.Hands.{AtBoard, IsSame, IsTeam};
ghost use Rattle.sr_board_tests.specs.Slots.{IsHere, journal_in};

use crate::parts::Part;
use crate::slots::{Place, Sheet, Slot};
use crate::work::{Job, work};
use std::alloc::{AllocError, Global};
use std::thread;
use std::thread::Threads;

/// How many parts a board of the tests has.
const PARTS: u32 = 32;

/// 32 parts with nothing done to them, each with memory for so many entries.
pub fn new_parts(alloc: Global, room: usize) -> Result<Vec<Slot>, AllocError>
    ensures count { IfOk result (λ v. vec_len v ≡ 32) }
    ensures new { IfOk result (λ v. AreNew journal_in IsHere v.items) }
{
    let mut parts = Vec::with_capacity(alloc, PARTS as usize)?;
    for number in 0..PARTS {
        parts.push_reserved(Slot::Here(Part::new(alloc, number, room)?));
    }
    Ok(parts)
}

/// Two seats work side by side.
fn pair<R: Threads + Sync>(
    rt: &R,
    board: &Sheet,
    one: Place,
    two: Place,
    job: Job,
) -> (Place, Place)
    requires { AtBoard board.now.table.shared.table_id one two }
    ensures one { IsSame one result.0 × IsIdle result.0.token.me }
    ensures two { IsSame two result.1 × IsIdle result.1.token.me }
{
    thread::join(
        rt,
        move || -> Place
            requires { (one.token.table_id ≡ board.now.table.shared.table_id) × (32 ≤ board.now.table.shared.table_id.slots) × IsIdle one.token.me }
            ensures { IsSame one result × IsIdle result.token.me }
        { work(board, one, job) },
        move || -> Place
            requires { (two.token.table_id ≡ board.now.table.shared.table_id) × (32 ≤ board.now.table.shared.table_id.slots) × IsIdle two.token.me }
            ensures { IsSame two result × IsIdle result.token.me }
        { work(board, two, job) },
    )
}

/// All seats join the first, and the parts come back.
fn close_four(board: Sheet, mut one: Place, two: Place, three: Place, four: Place) -> Vec<Slot>
    requires { IsTeam board.table.shared.table_id one two three four }
{
    board.join(&mut one, two);
    board.join(&mut one, three);
    board.join(&mut one, four);
    board.close(one)
}

/// What lies on a board after one seat has worked.
pub fn worked_by_one(alloc: Global, job: Job, room: usize) -> Result<Vec<Slot>, AllocError> {
    let (board, seat) = Sheet::new(alloc, new_parts(alloc, room)?)?;
    let seat = work(&board, seat, job);
    Ok(board.close(seat))
}

/// Four seats work side by side, and the parts come back.
fn worked<R: Threads + Sync>(rt: &R, board: Sheet, mut one: Place, job: Job) -> Vec<Slot>
    requires board { (one.token.table_id ≡ board.table.shared.table_id) × (board.table.shared.table_id.slots ≡ 32) }
    requires new { one.token.me ≡ (first_view, []) }
{
    let two = board.split(&mut one);
    let three = board.split(&mut one);
    let four = board.split(&mut one);
    let shared = &board;
    let ((one, two), (three, four)) = thread::join(
        rt,
        move || -> (Place, Place)
            requires { IsSync R.row × AtBoard shared.now.table.shared.table_id one two }
            ensures { (IsSame one result.0 × IsIdle result.0.token.me) × (IsSame two result.1 × IsIdle result.1.token.me) }
        { pair(rt, shared, one, two, job) },
        move || -> (Place, Place)
            requires { IsSync R.row × AtBoard shared.now.table.shared.table_id three four }
            ensures { (IsSame three result.0 × IsIdle result.0.token.me) × (IsSame four result.1 × IsIdle result.1.token.me) }
        { pair(rt, shared, three, four, job) },
    );
    close_four(board, one, two, three, four)
}

/// What lies on a board after four seats have worked side by side.
pub fn worked_by_four<R: Threads + Sync>(
    rt: &R,
    alloc: Global,
    job: Job,
    room: usize,
) -> Result<Vec<Slot>, AllocError> {
    let (board, one) = Sheet::new(alloc, new_parts(alloc, room)?)?;
    Ok(worked(rt, board, one, job))
}
