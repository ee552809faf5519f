ghost use Rattle.std.specs.Prelude.{◌≡◌, ℕ, List, IfOk, OnErr, OnOk};
ghost use Rattle.sr_classes.specs.Classes.{class_of};
ghost use Rattle.sr_plain.specs.Engine.{IsEngine};
ghost use Rattle.sr_plain.specs.Passing.{AddsItems, HasPassed};
ghost use Rattle.sr_world.specs.Runs.{Event, State};

use sr_actor::Actor;
use sr_ask::Item;
use sr_core::Classes;
use sr_plain::{Passes, Plain, Rounds};
use sr_value::{NoMemory, Row};

/// Passes that are counted. There is no memory for the one of the number `fails_at`.
#[derive(Drop)]
pub struct Counted {
    pub passes: u32,
    pub fails_at: u32,
}

/// Drops a value in one call.
fn let_go<T: Drop>(_value: T) {}

impl<A: Actor> Rounds<A> for Counted {
    fn round(
        &mut self,
        program: &A::Program,
        classes: &Classes,
        plain: Box<Plain<A>>,
        room: u32,
        items: &mut Row<Item>,
    ) -> Result<Box<Plain<A>>, NoMemory>
        ensures passed { IfOk result (λ later. (limit : ℕ) (state : State) (events : List Event) → IsEngine (A.asks_after program.now) A.can_feed (A.core_of program.now) limit state events plain.value → HasPassed (A.asks_after program.now) A.can_feed (A.core_of program.now) (class_of classes.now.of) limit state events room items.old items.new later.value) }
        ensures added { OnOk result (AddsItems room items.old items.new) }
        ensures err { OnErr result (items.new ≡ items.old) }
    {
        self.passes = self.passes.saturating_add(1);
        if self.passes == self.fails_at {
            let_go(plain);
            return Err(NoMemory);
        }
        Passes.round(program, classes, plain, room, items)
    }
}
