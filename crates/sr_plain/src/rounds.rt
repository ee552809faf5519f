ghost use Rattle.std.specs.Prelude.{◌≡◌, ℕ, List, IfOk, OnErr, OnOk};
ghost use Rattle.sr_classes.specs.Classes.{class_of};
ghost use Rattle.sr_plain.specs.Engine.{IsEngine};
ghost use Rattle.sr_plain.specs.Passing.{AddsItems, HasPassed};
ghost use Rattle.sr_world.specs.Runs.{Event, State};

use crate::plain::Plain;
use sr_actor::Actor;
use sr_ask::Item;
use sr_core::Classes;
use sr_value::{NoMemory, Row};

/// What makes the stretches of a run.
pub trait Rounds<A: Actor> {
    /// Makes a stretch of at most `room` items. After an error the engine is gone.
    fn round(
        &mut self,
        program: &A::Program,
        classes: &Classes,
        plain: Box<Plain<A>>,
        room: u32,
        items: &mut Row<Item>,
    ) -> Result<Box<Plain<A>>, NoMemory>
        ensures passed { IfOk result (λ later. (limit : ℕ) (state : State) (events : List Event) → IsEngine (A.asks_after program.now) A.can_feed (A.core_of program.now) limit state events plain.value → HasPassed (A.asks_after program.now) A.can_feed (A.core_of program.now) (class_of classes.now.of) limit state events room items.old items.new later.value) }
        ensures added { OnOk result (AddsItems room items.old items.new) }
        ensures err { OnErr result (items.new ≡ items.old) };
}

/// Stretches that the engine makes by itself, on one thread.
#[derive(Drop)]
pub struct Passes;

impl<A: Actor> Rounds<A> for Passes {
    fn round(
        &mut self,
        program: &A::Program,
        classes: &Classes,
        plain: Box<Plain<A>>,
        room: u32,
        items: &mut Row<Item>,
    ) -> Result<Box<Plain<A>>, NoMemory>
        ensures passed { IfOk result (λ later. (limit : ℕ) (state : State) (events : List Event) → IsEngine (A.asks_after program.now) A.can_feed (A.core_of program.now) limit state events plain.value → HasPassed (A.asks_after program.now) A.can_feed (A.core_of program.now) (class_of classes.now.of) limit state events room items.old items.new later.value) }
        ensures added { OnOk result (AddsItems room items.old items.new) }
        ensures err { OnErr result (items.new ≡ items.old) }
    {
        let mut plain = plain;
        plain.pass(program, classes, room, items)?;
        Ok(plain)
    }
}
