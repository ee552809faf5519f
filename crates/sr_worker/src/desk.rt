ghost use Rattle.std.specs.Prelude.{◌≡◌, List, false};
ghost use Rattle.sr_ask.specs.declared.ask.Ask as asks;
ghost use Rattle.sr_ask.specs.declared.entry.Entry as entries;
ghost use Rattle.sr_core.specs.declared.component.Core as cores;
ghost use Rattle.sr_core.specs.declared.owner.Classes as classes_of;
ghost use Rattle.sr_core.specs.declared.owner.Me as actors;
ghost use Rattle.sr_worker.specs.Notes.{is_spent};

use crate::notes::Notes;
use sr_ask::{Answer, Ask};
use sr_core::{Classes, Core, Me};
use sr_value::NoMemory;

/// What a desk answers to a request.
#[derive(Drop)]
pub enum Desked {
    /// It was carried out, and has this answer.
    Done(Answer),
    /// It can't be carried out as the world is.
    Blocked,
    /// It is none for a desk: it changes what stands still in a round, or it ends the run.
    Aside,
    /// The desk has no room for a further step of it.
    Spent,
    /// Another worker has a part of the world that it touches.
    Busy { holder: u32 },
}

/// What carries out the requests of many workers. Each worker has a seat at it.
pub trait Desk {
    ghost use Rattle.sr_worker.specs.Desks.{IfDeclined, NotesAfter, Stays};

    type Seat: Drop;

    // the core and the classes that it serves
    ghost serves: { Self → cores.Core → classes_of.Classes → Type 0 };

    // who has this seat holds no part of the world
    ghost rests: { Self → Self.Seat → Type 0 };

    // the steps that were made from this seat
    ghost made: { Self → Self.Seat → List entries.Entry };

    // what is known at this seat of a request that was declined
    ghost declines: { Self → Self.Seat → actors.Me → asks.Ask → Type 0 };

    /// Carries out what a process asks, and writes it down, or declines.
    fn act(
        &self,
        seat: &mut Self::Seat,
        notes: &mut Notes,
        core: &Core,
        classes: &Classes,
        me: Me,
        ask: &Ask,
    ) -> Result<Desked, NoMemory>
        requires serves { serves self.now core.now classes.now }
        requires rests { rests self.now seat.old }
        requires room { is_spent notes.old ≡ false }
        ensures rests { rests self.now seat.new }
        ensures notes { NotesAfter me ask.now result notes.old notes.new }
        ensures made { made self.now seat.old ≡ notes.old.entries → made self.now seat.new ≡ notes.new.entries }
        ensures declined { IfDeclined result (declines self.now seat.new me ask.now × Stays (declines self.now) seat.old seat.new) };
}
