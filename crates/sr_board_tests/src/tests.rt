use crate::gate::{are_met, met_at_a_part};
use crate::judge::is_complete;
use crate::teams::{worked_by_four, worked_by_one};
use crate::work::Job;

/// How many acts each of four seats does.
const ACTS: u64 = 100_000;

/// More entries than a part gets.
const ROOM: usize = 60_000;

#[test]
fn four_seats_and_each_act_once(rt: HostRuntime) {
    let job = Job {
        acts: ACTS,
        alone: false,
    };
    let Ok(parts) = worked_by_four(&rt, rt.alloc(), job, ROOM) else {
        return assert!(rt; false);
    };
    let is_right = is_complete(parts.as_slice(), 4, job);
    drop(parts);
    assert!(rt; is_right);
}

#[test]
fn one_seat_on_parts_of_its_own(rt: HostRuntime) {
    let job = Job {
        acts: 70_000,
        alone: true,
    };
    let Ok(parts) = worked_by_one(rt.alloc(), job, ROOM) else {
        return assert!(rt; false);
    };
    let is_right = is_complete(parts.as_slice(), 1, job);
    drop(parts);
    assert!(rt; is_right);
}

#[test]
fn a_seat_is_refused_by_number_and_gets_on_elsewhere(rt: HostRuntime) {
    let Ok((parts, is_right)) = met_at_a_part(&rt, rt.alloc()) else {
        return assert!(rt; false);
    };
    let are_kept = are_met(parts.as_slice());
    drop(parts);
    assert!(rt; is_right);
    assert!(rt; are_kept);
}
