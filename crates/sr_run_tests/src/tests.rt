use crate::asking::{Told, what_is_asked};
use crate::choices::chooses;
use crate::machine::goes_on;
use crate::program::{add_main, add_nap, no_program};
use crate::runs::{goes_round, naps, writes};
use sr_run::RunEnd;
use sr_world::End;
use std::alloc::Global;

/// Whether the program is made, the machine goes on with it, and a run of it writes.
fn are_right(alloc: Global) -> [bool; 3] {
    let mut core = no_program(alloc);
    let is_made = add_main(alloc, &mut core.components).is_ok();
    [is_made, goes_on(alloc, &core), writes(alloc, &core)]
}

#[test]
fn machine_and_run(rt: HostRuntime) {
    assert_eq!(rt; are_right(rt.alloc()), [true, true, true]);
}

/// Whether the first process is told of main in the third stretch, and memory that runs out there leaves what came before.
fn rounds_are_right(alloc: Global) -> [bool; 3] {
    let mut core = no_program(alloc);
    let is_made = add_main(alloc, &mut core.components).is_ok();
    [
        is_made,
        goes_round(alloc, &core, 0, RunEnd::Ended(End::Quiet), 6, 4),
        goes_round(alloc, &core, 3, RunEnd::NoMemory, 3, 2),
    ]
}

#[test]
fn rounds(rt: HostRuntime) {
    assert_eq!(rt; rounds_are_right(rt.alloc()), [true, true, true]);
}

/// Whether the program of a nap is made, and a run of it comes to the nap.
fn nap_is_right(alloc: Global) -> bool {
    let mut core = no_program(alloc);
    add_nap(alloc, 10, &mut core.components).is_ok() && naps(alloc, &core)
}

#[test]
fn a_nap(rt: HostRuntime) {
    assert!(rt; nap_is_right(rt.alloc()));
}

#[test]
fn choices(rt: HostRuntime) {
    assert!(rt; chooses(rt.alloc()));
}

/// How long a process waits, the moment that it is told, how many answers it got, and what it asks then.
const ROWS: [(i32, i32, u32, Told); 9] = [
    (10, 5, 0, Told::Age),
    (10, 5, 1, Told::Write),
    (10, 5, 2, Told::Age),
    (10, 5, 3, Told::Wake(15)),
    (10, 5, 4, Told::Finish),
    (0, 7, 3, Told::Wake(7)),
    (-1, 5, 2, Told::Fail),
    (2_147_483_647, 1, 3, Told::Fail),
    (2_147_483_647, 0, 3, Told::Wake(2_147_483_647)),
];

#[test]
fn time_is_asked(rt: HostRuntime) {
    for (time, moment, count, wanted) in ROWS {
        assert_eq!(rt; what_is_asked(rt.alloc(), time, moment, count), wanted);
    }
}
