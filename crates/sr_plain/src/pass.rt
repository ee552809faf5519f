//! A pass: each process that may be able to make a step is asked once, and what is wide or ends the run is left.
ghost use Rattle.std.specs.Prelude.{◌≡◌, ◌<◌, ◌≤◌, ◌+◌, ℕ, [], List, IfNone, IfOk, IfSome, None, OnErr, OnOk, length, true};
ghost use Rattle.std.specs.List.{AllByRecursion};
ghost use Rattle.sr_classes.specs.Classes.{class_of};
ghost use Rattle.sr_plain.specs.Crew.{member_of};
ghost use Rattle.sr_plain.specs.Passing.{AddsItem, AddsItems, FitsItem, HasPassed, IsAskedOnce, IsPassing, NoneCould, is_left, item_of as item_in};
ghost use Rattle.sr_plain.specs.Waiting.{IsNextToAsk, is_ready};
ghost use Rattle.sr_world.specs.Runs.{Event, State};
ghost use Rattle.sr_world.specs.Worlds.{started};

use crate::plain::Plain;
use crate::plainly::Plainly;
use sr_actor::Actor;
use sr_ask::{Asks, Item};
use sr_core::{Classes, Me};
use sr_touch::is_wide;
use sr_value::{NoMemory, Row};

fn item_of(came: Option<Plainly>) -> Option<Item>
    ensures { result ≡ item_in came }
{
    match came {
        Some(Plainly::Stepped { item, .. }) => Some(item),
        _ => None,
    }
}

fn add_item(made: &mut Row<Item>, item: Option<Item>) -> Result<(), NoMemory>
    ensures adds { OnOk result (AddsItem item made.old made.new) }
    ensures fit { AllByRecursion FitsItem made.old → AllByRecursion FitsItem made.new }
{
    match item {
        Some(item) => made.push(item),
        None => Ok(()),
    }
}

impl<A: Actor> Plain<A> {
    ghost use Rattle.sr_plain.specs.Engine.{IsEngine};

    /// Has each process that lives make a step, where it can and what it asks isn't wide. It begins after the last actor and
    /// goes round once, and makes at most `room` items. After an error no further call is allowed.
    pub fn pass(
        &mut self,
        program: &A::Program,
        classes: &Classes,
        room: u32,
        items: &mut Row<Item>,
    ) -> Result<(), NoMemory>
        ensures passed { OnOk result ((limit : ℕ) (state : State) (events : List Event) → IsEngine (A.asks_after program.now) A.can_feed (A.core_of program.now) limit state events self.old → HasPassed (A.asks_after program.now) A.can_feed (A.core_of program.now) (class_of classes.now.of) limit state events room items.old items.new self.new) }
        ensures added { OnOk result (AddsItems room items.old items.new) }
        ensures err { OnErr result (items.new ≡ items.old) }
    {
        let mut made = Row::new(self.alloc);
        self.pass_round(program, classes, room, &mut made)?;
        items.push_all(made)
    }

    /// Adds the items to those that were made, of which there are none.
    fn pass_round(
        &mut self,
        program: &A::Program,
        classes: &Classes,
        room: u32,
        made: &mut Row<Item>,
    ) -> Result<(), NoMemory>
        requires { made.old ≡ [] }
        ensures passed { OnOk result ((limit : ℕ) (state : State) (events : List Event) → IsEngine (A.asks_after program.now) A.can_feed (A.core_of program.now) limit state events self.old → HasPassed (A.asks_after program.now) A.can_feed (A.core_of program.now) (class_of classes.now.of) limit state events room [] made.new self.new) }
        ensures within { OnOk result (length made.new ≤ room) }
        ensures fit { OnOk result (AllByRecursion FitsItem made.new) }
    {
        let last = self.last;
        let greatest = self.world.greatest_used();
        self.note_step(program)?;
        self.pass_over(program, classes, last, greatest, room, made)?;
        self.pass_over(program, classes, 0, last, room, made)
    }

    /// Asks those with numbers above `low` and up to `high`, in their order, as long as there is room.
    fn pass_over(
        &mut self,
        program: &A::Program,
        classes: &Classes,
        low: u32,
        high: u32,
        room: u32,
        made: &mut Row<Item>,
    ) -> Result<(), NoMemory>
        requires { self.old.woken ≡ None }
        ensures over { OnOk result ((limit : ℕ) (state : State) (events : List Event) (bound : ℕ) → high ≤ bound → IsPassing (A.asks_after program.now) A.can_feed (A.core_of program.now) (class_of classes.now.of) limit state events bound made.old self.old → IsPassing (A.asks_after program.now) A.can_feed (A.core_of program.now) (class_of classes.now.of) limit state events bound made.new self.new × (made.new ≡ [] → (made.old ≡ []) × (0 < room → NoneCould (A.core_of program.now) (class_of classes.now.of) limit state low high))) }
        ensures within { OnOk result (length made.old ≤ room → length made.new ≤ room) }
        ensures fit { OnOk result (AllByRecursion FitsItem made.old → AllByRecursion FitsItem made.new) }
        ensures awake { OnOk result (self.new.woken ≡ None) }
    {
        let mut at = low;
        while let Some(process) = self.next_to_ask(at, high, room, made) {
            self.waiters.promote(process)?;
            self.ask_once(program, classes, process, made)?;
            at = process;
        }
        Ok(())
    }

    /// Who is asked next, where there is room.
    fn next_to_ask(&self, low: u32, high: u32, room: u32, made: &Row<Item>) -> Option<u32>
        ensures { IsNextToAsk self.now.waiters low high room (length made.now) result }
    {
        if made.len() < room as usize {
            self.waiters.first_up_to(low, high)
        } else {
            None
        }
    }

    /// Has a process make its step, unless a pass leaves it.
    fn ask_once(
        &mut self,
        program: &A::Program,
        classes: &Classes,
        process: u32,
        made: &mut Row<Item>,
    ) -> Result<(), NoMemory>
        requires ready { is_ready self.old.waiters process ≡ true }
        requires awake { self.old.woken ≡ None }
        ensures once { OnOk result ((limit : ℕ) (state : State) (events : List Event) → IsEngine (A.asks_after program.now) A.can_feed (A.core_of program.now) limit state events self.old → IsAskedOnce (A.asks_after program.now) A.can_feed (A.core_of program.now) (class_of classes.now.of) limit state events process made.old made.new self.new) }
        ensures within { OnOk result (length made.new ≤ length made.old + 1) }
        ensures fit { OnOk result (AllByRecursion FitsItem made.old → AllByRecursion FitsItem made.new) }
        ensures awake { OnOk result (self.new.woken ≡ None) }
    {
        let left = self.is_left(program, classes, process)?;
        if left {
            return Ok(());
        }
        let came = self.try_ready(program, process)?;
        add_item(made, item_of(came))?;
        self.note_step(program)
    }

    /// Makes ready whom a step woke, and sets its actor aside where that is to settle.
    fn note_step(&mut self, program: &A::Program) -> Result<(), NoMemory>
        ensures engine { OnOk result ((limit : ℕ) (state : State) (events : List Event) → IsEngine (A.asks_after program.now) A.can_feed (A.core_of program.now) limit state events self.old → IsEngine (A.asks_after program.now) A.can_feed (A.core_of program.now) limit state events self.new) }
        ensures awake { OnOk result (self.new.woken ≡ None) }
    {
        let settles = self.may_wait();
        self.wake_up()?;
        self.settle(program, settles)
    }

    /// Whether a pass leaves a process. It begins first, where it hasn't.
    fn is_left(
        &mut self,
        program: &A::Program,
        classes: &Classes,
        process: u32,
    ) -> Result<bool, NoMemory>
        requires { self.old.woken ≡ None }
        ensures left { IfOk result (λ left. (limit : ℕ) (state : State) (events : List Event) → IsEngine (A.asks_after program.now) A.can_feed (A.core_of program.now) limit state events self.old → left ≡ is_left (A.core_of program.now) (class_of classes.now.of) limit state (started state.world process)) }
        ensures engine { OnOk result ((limit : ℕ) (state : State) (events : List Event) → IsEngine (A.asks_after program.now) A.can_feed (A.core_of program.now) limit state events self.old → IsEngine (A.asks_after program.now) A.can_feed (A.core_of program.now) limit state events self.new) }
        ensures waiters { self.new.waiters ≡ self.old.waiters }
        ensures woken { self.new.woken ≡ self.old.woken }
    {
        let known = self.member_is_left(program, classes, process)?;
        match known {
            Some(left) => Ok(left),
            None => self.begins_left(program, classes, process),
        }
    }

    #[cold]
    #[inline(never)]
    fn begins_left(
        &mut self,
        program: &A::Program,
        classes: &Classes,
        process: u32,
    ) -> Result<bool, NoMemory>
        requires { self.old.woken ≡ None }
        ensures left { IfOk result (λ left. (limit : ℕ) (state : State) (events : List Event) → IsEngine (A.asks_after program.now) A.can_feed (A.core_of program.now) limit state events self.old → left ≡ is_left (A.core_of program.now) (class_of classes.now.of) limit state (started state.world process)) }
        ensures engine { OnOk result ((limit : ℕ) (state : State) (events : List Event) → IsEngine (A.asks_after program.now) A.can_feed (A.core_of program.now) limit state events self.old → IsEngine (A.asks_after program.now) A.can_feed (A.core_of program.now) limit state events self.new) }
        ensures waiters { self.new.waiters ≡ self.old.waiters }
        ensures woken { self.new.woken ≡ self.old.woken }
    {
        let lives = self.begin_process(process)?;
        if !lives {
            return Ok(false);
        }
        let known = self.member_is_left(program, classes, process)?;
        match known {
            Some(left) => Ok(left),
            None => unreachable!(),
        }
    }

    /// Whether a pass leaves a process, where that has begun.
    fn member_is_left(
        &mut self,
        program: &A::Program,
        classes: &Classes,
        process: u32,
    ) -> Result<Option<bool>, NoMemory>
        requires { self.old.woken ≡ None }
        ensures left { IfOk result (λ left. (limit : ℕ) (state : State) (events : List Event) → IsEngine (A.asks_after program.now) A.can_feed (A.core_of program.now) limit state events self.old → IfSome left (λ is. is ≡ is_left (A.core_of program.now) (class_of classes.now.of) limit state (started state.world process))) }
        ensures unbegun { IfOk result (λ left. IfNone left ((self.new ≡ self.old) × (member_of self.old.crew process ≡ None))) }
        ensures engine { OnOk result ((limit : ℕ) (state : State) (events : List Event) → IsEngine (A.asks_after program.now) A.can_feed (A.core_of program.now) limit state events self.old → IsEngine (A.asks_after program.now) A.can_feed (A.core_of program.now) limit state events self.new) }
        ensures waiters { self.new.waiters ≡ self.old.waiters }
        ensures woken { self.new.woken ≡ self.old.woken }
    {
        match self.crew.get_mut(&process) {
            Some(member) => {
                let me = Me {
                    process,
                    instance: member.instance,
                };
                member.look(program)?;
                match member.actor.asked() {
                    Asks::Asked(ask) => Ok(Some(is_wide(A::core(program), classes, me, ask))),
                    Asks::OverTicks => Ok(Some(true)),
                }
            }
            None => Ok(None),
        }
    }
}
