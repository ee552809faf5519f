use crate::program::PLACE;
use sr_ask::{Answer, Ask, ReadKind, Request, Role};
use sr_core::Core;
use sr_value::{Cap, Row};
use sr_world::{Acted, End, World};
use std::alloc::Global;

/// What the first process asks.
fn asked(request: Request) -> Ask {
    Ask {
        place: PLACE,
        role: Role::Boot,
        request,
    }
}

/// Whether the first process, for whose answer nobody waits, can ask this, and it is done.
fn is_done(world: &mut World, core: &Core, ask: &Ask, makes: bool) -> bool {
    let Some(name) = world.least_unused() else {
        return false;
    };
    world.is_new(name)
        && world.is_ready(core, 1, ask) == Ok(true)
        && world.makes(core, ask) == makes
        && !world.wants_input(ask)
        && world.caller(1, &ask.request) == 0
        && matches!(world.act(core, 1, ask, name), Ok(Acted::Done(_)))
}

/// Whether main is made on the first machine, and gets the number 2.
fn is_main_made(alloc: Global, world: &mut World, core: &Core) -> bool {
    let ask = asked(Request::Create {
        resource: 0,
        args: Row::new(alloc),
        vm: Cap::Vm(1),
    });
    is_done(world, core, &ask, true)
}

/// Whether a number is read from the whole input.
fn is_read(world: &mut World, core: &Core) -> bool {
    let is_given = world.give(b"7").is_ok();
    world.end_input();
    let ask = asked(Request::Read {
        kind: ReadKind::Int,
    });
    is_given && is_done(world, core, &ask, false)
}

fn is_known(world: &World) -> bool {
    world.len() == 2
        && world.live_at(1).is_some()
        && world.started(2).is_some()
        && world.made_after(1) == 1
        && world.greatest_used() == 2
        && world.moment() == 0
        && world.output().is_empty()
}

/// Whether the first process is told the moment 10.
fn is_ten_told(world: &mut World, core: &Core, name: u32) -> bool {
    let ask = asked(Request::Age);
    world.is_new(name)
        && matches!(
            world.act(core, 1, &ask, name),
            Ok(Acted::Done(Answer::Number(10)))
        )
}

/// Whether time passes to the moment 10, before which the first process naps and after which it goes on.
fn passes_time(world: &mut World, core: &Core) -> bool {
    let nap = asked(Request::Wake { until: 10 });
    if world.moment() >= 10 || world.is_ready(core, 1, &nap) != Ok(false) {
        return false;
    }
    world.advance(10);
    world.moment() == 10 && is_done(world, core, &nap, false) && is_ten_told(world, core, 3)
}

/// Whether a request of the first process reads nothing for a choice.
fn reads_nothing(world: &World, core: &Core, request: &Request) -> bool {
    match world.seen(core, 1, request) {
        Ok(seen) => seen.is_empty(),
        Err(_) => false,
    }
}

/// Whether the numbers 1 and 2 are used, main is there, and nothing is pending, read by a choice or to be answered.
fn is_lent(alloc: Global, world: &World, core: &Core) -> bool {
    let choice = Request::Select {
        site: 0,
        env: Row::new(alloc),
    };
    let call = Request::Destroy { target: Cap::Null };
    world.is_used(2)
        && !world.is_used(3)
        && world.places().is_added(2)
        && world.queue().len() == 0
        && world
            .seen(core, 1, &choice)
            .is_ok_and(|seen| seen.is_empty())
        && world.duty(1, &choice, 3).is_none()
        && world.duty(1, &call, 3) == Some((1, 3))
}

/// Whether a run of a main without final code ends where nobody asks anything.
fn is_at_rest(alloc: Global, world: &mut World, core: &Core) -> bool {
    world.none_can_step(core, &Row::new(alloc)) == Ok(true)
        && matches!(world.quiesce(core, 3), Ok(Acted::Ends(End::Quiet)))
}

fn is_right(alloc: Global, world: &mut World, core: &Core) -> bool {
    is_main_made(alloc, world, core)
        && is_read(world, core)
        && is_known(world)
        && is_lent(alloc, world, core)
        && passes_time(world, core)
        && is_at_rest(alloc, world, core)
}

/// Whether the calls of a world say and do what they should.
pub fn goes_on(alloc: Global, core: &Core) -> bool {
    match World::begin(alloc) {
        Ok(mut world) => is_right(alloc, &mut world, core),
        Err(_) => false,
    }
}
