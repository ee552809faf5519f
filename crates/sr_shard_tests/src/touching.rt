use crate::program::{classes, program};
use crate::requests::{Asked, ask_of};
use sr_ask::Role;
use sr_core::{Classes, Core, Me};
use sr_touch::{Parts, touched};
use sr_value::{Cap, NoMemory, Owner};
use std::alloc::Global;

/// Process 7 of instance 3 asks.
const ME: Me = Me {
    process: 7,
    instance: 3,
};

/// The number of the step.
const NAME: u32 = 40;

/// Operation 0 waits in a line of its class, operation 1 begins a proc, operation 2 is a process's own.
const WAITS: Cap = Cap::Op {
    owner: Owner::Inst(4),
    op: 0,
};

const BEGINS: Cap = Cap::Op {
    owner: Owner::Inst(4),
    op: 1,
};

const OF_PROCESS: Cap = Cap::Op {
    owner: Owner::Proc(9),
    op: 2,
};

const BEGINS_IN_PROCESS: Cap = Cap::Op {
    owner: Owner::Proc(9),
    op: 1,
};

/// What a process asks in a proc, and the parts that it touches: none where it is wide.
const IN_PROCS: [(Asked, Option<Parts>); 38] = [
    (Asked::Declare(5), Some(Parts::Two(5, 7))),
    (Asked::Load(39), Some(Parts::One(7))),
    (Asked::Store(35), Some(Parts::Two(3, 7))),
    (Asked::Invoke(WAITS), Some(Parts::Two(5, 7))),
    (Asked::Invoke(BEGINS), Some(Parts::Two(7, 8))),
    (Asked::Invoke(OF_PROCESS), Some(Parts::Three(7, 9, 12))),
    (Asked::Invoke(BEGINS_IN_PROCESS), None),
    (Asked::Invoke(Cap::Noop), Some(Parts::One(7))),
    (Asked::Invoke(Cap::Null), Some(Parts::One(7))),
    (Asked::Select(0), Some(Parts::Two(4, 7))),
    (Asked::Select(1), Some(Parts::Three(3, 4, 7))),
    (Asked::Select(2), Some(Parts::Two(4, 7))),
    (Asked::Select(3), None),
    (Asked::Select(4), None),
    (Asked::Select(9), Some(Parts::One(7))),
    (Asked::Take, Some(Parts::One(7))),
    (Asked::Reply(0), Some(Parts::One(7))),
    (Asked::Reply(9), Some(Parts::Two(7, 9))),
    (Asked::Forward(9, Cap::Noop), Some(Parts::Two(7, 9))),
    (Asked::Forward(9, WAITS), Some(Parts::Two(5, 7))),
    (Asked::Forward(9, BEGINS_IN_PROCESS), None),
    (Asked::Count(0), Some(Parts::Two(4, 7))),
    (Asked::Count(2), Some(Parts::Two(7, 10))),
    (Asked::Count(9), Some(Parts::One(7))),
    (Asked::Finish(true, 11), Some(Parts::One(7))),
    (Asked::Finish(false, 11), Some(Parts::Two(7, 11))),
    (Asked::Finish(false, 0), Some(Parts::One(7))),
    (Asked::Wake, Some(Parts::One(7))),
    (Asked::Write, None),
    (Asked::Read, None),
    (Asked::EnsureGlobal, None),
    (Asked::Create, None),
    (Asked::MakeVm, None),
    (Asked::Destroy, None),
    (Asked::Stop, None),
    (Asked::Fail, None),
    (Asked::Age, None),
    (Asked::Declare(7), Some(Parts::One(7))),
];

/// The same in initial and final code.
const ELSEWHERE: [(Role, Asked, Option<Parts>); 5] = [
    (Role::Initial, Asked::Reply(9), None),
    (Role::Initial, Asked::Finish(true, 0), None),
    (Role::Final, Asked::Finish(false, 9), None),
    (Role::Boot, Asked::Finish(true, 0), None),
    (Role::Final, Asked::Store(35), Some(Parts::Two(3, 7))),
];

/// Whether a request touches these parts.
fn touches(
    alloc: Global,
    core: &Core,
    classes: &Classes,
    role: Role,
    asked: Asked,
    parts: Option<Parts>,
) -> bool {
    let ask = ask_of(alloc, role, asked);
    touched(core, classes, ME, &ask, NAME) == parts
}

fn all_in_procs(alloc: Global, core: &Core, classes: &Classes) -> bool {
    for (asked, parts) in IN_PROCS {
        if !touches(alloc, core, classes, Role::Proc, asked, parts) {
            return false;
        }
    }
    true
}

fn all_elsewhere(alloc: Global, core: &Core, classes: &Classes) -> bool {
    for (role, asked, parts) in ELSEWHERE {
        if !touches(alloc, core, classes, role, asked, parts) {
            return false;
        }
    }
    true
}

fn all_with(alloc: Global, core: &Core) -> Result<bool, NoMemory> {
    let classes = classes(alloc)?;
    Ok(all_in_procs(alloc, core, &classes) && all_elsewhere(alloc, core, &classes))
}

fn all(alloc: Global) -> Result<bool, NoMemory> {
    let core = program(alloc)?;
    all_with(alloc, &core)
}

#[test]
fn requests_and_their_parts(rt: HostRuntime) {
    let is_as_told = matches!(all(rt.alloc()), Ok(true));
    assert!(rt; is_as_told);
}
