ghost use Rattle.std.specs.Prelude.{◌≡◌, ◌==◌, [], List, Some, filter, not, remove, slice_get, ℕ};
ghost use Rattle.sr_ask.specs.declared.ask.Ask.{Ask};
ghost use Rattle.sr_core.specs.declared.component.Core.{Core};
ghost use Rattle.sr_plain.specs.Leaving.{LeavesIf, written_by};
ghost use Rattle.sr_plain.specs.Order.{AreInLine};
ghost use Rattle.sr_plain.specs.Rotation.{InTurnIsRotation, NextIsLeastUnused, OneMoreInTurn};
ghost use Rattle.sr_plain.specs.Stretches.{StretchesStay};
ghost use Rattle.sr_queue.specs.declared.pending.Pending.{Pending};
ghost use Rattle.sr_world.specs.Endings.{quiesce};
ghost use Rattle.sr_world.specs.Steps.{does};
ghost use Rattle.sr_world.specs.Worlds.{World};

/// A step starts no process but one of its own number, and only a write writes.
pub fn others_live_on()
    ensures step { (core : Core) (world : World) (actor name : ℕ) (ask : Ask) → LeavesIf name (written_by ask.request) world (does core world actor ask name) }
    ensures rest { (core : Core) (world : World) (name : ℕ) → LeavesIf name [] world (quiesce core name world) }
{}

/// An invocation is taken out by its number as it is by its place, where the pending ones stand in the order of their
/// numbers.
pub fn taken_by_number()
    ensures { (low high place : ℕ) (pending : List Pending) (invocation : Pending) → AreInLine low pending high → slice_get pending place ≡ Some invocation
        → remove pending place ≡ filter (λ other. not (other.id == invocation.id)) pending }
{}

/// Events that are in turn stay so with one more in turn, as each step of the engine is, and with input.
pub fn turns_go_on()
    ensures { OneMoreInTurn }
{}

/// Where all items came in turn, each new number is the least that wasn't given out.
pub fn new_numbers_are_least()
    ensures { NextIsLeastUnused }
{}

/// The items of events in turn are a rotation, in whatever pieces the input came.
pub fn turns_are_a_rotation()
    ensures { InTurnIsRotation }
{}

/// A stretch is one with all of the input, whatever still comes of it.
pub fn stretches_stay()
    ensures { StretchesStay }
{}
