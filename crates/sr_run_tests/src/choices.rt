use crate::world::World;
use sr_core::{Arm, Expr, Home, Leaf, Me, PlaceExpr, Root, Scope, Site};
use sr_queue::{MOST_PENDING, Pending, Queue};
use sr_select::{Choice, choose, choose_and_see};
use sr_value::{Owner, Place, Row};
use std::alloc::Global;

const ME: Me = Me {
    process: 1,
    instance: 7,
};

const OP: u32 = 3;

/// The oldest invocation, by the only arm.
const OLDEST: Choice = Choice::Service { place: 0, arm: 0 };

/// Adds an invocation of the instance's operation.
fn is_added(alloc: Global, queue: &mut Queue) -> bool {
    if queue.len() as usize >= MOST_PENDING {
        return false;
    }
    let pending = Pending {
        id: 11,
        op: OP,
        owner: Owner::Inst(ME.instance),
        args: Row::new(alloc),
        back: 0,
        back_id: 0,
    };
    queue.push(pending).is_ok()
}

/// `f() and x by ?f`, where `x` is a shared variable of the instance.
fn arm(alloc: Global) -> Arm {
    let x = PlaceExpr {
        root: Root::Shared {
            home: Home::Mine,
            var: 0,
        },
        path: Row::new(alloc),
    };
    Arm {
        place: Place { file: 0, line: 1 },
        op: OP,
        formals: Row::new(alloc),
        returned: None,
        guard: Some(Expr::Load(x)),
        by: Some(Expr::Leaf(Leaf::Count { op: OP })),
    }
}

/// A statement without arms.
fn no_arms(alloc: Global) -> Site {
    Site {
        scope: Scope::Shared,
        arms: Row::new(alloc),
        has_else: false,
        names: Row::new(alloc),
        reads: Row::new(alloc),
        counts: Row::new(alloc),
    }
}

fn is_chosen(alloc: Global, queue: &Queue, site: &Site, world: &World) -> bool {
    match choose(alloc, queue, site, ME, &Row::new(alloc), world) {
        Ok(choice) => choice == OLDEST,
        Err(_) => false,
    }
}

/// Whether the choice reads the variable, and then the variable and the count for the key.
fn is_seen(alloc: Global, queue: &Queue, site: &Site, world: &World) -> bool {
    match choose_and_see(alloc, queue, site, ME, &Row::new(alloc), world) {
        Ok(chosen) => chosen.choice == OLDEST && chosen.seen.len() == 3,
        Err(_) => false,
    }
}

fn is_right(alloc: Global, queue: &mut Queue, site: &mut Site, world: &World) -> bool {
    is_added(alloc, queue)
        && site.arms.push(arm(alloc)).is_ok()
        && is_chosen(alloc, queue, site, world)
        && is_seen(alloc, queue, site, world)
}

/// Whether a statement services the one invocation.
pub fn chooses(alloc: Global) -> bool {
    let mut queue = Queue::new(alloc);
    let mut site = no_arms(alloc);
    let world = World {
        names: Row::new(alloc),
    };
    is_right(alloc, &mut queue, &mut site, &world)
}
