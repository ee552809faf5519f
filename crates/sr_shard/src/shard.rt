ghost use Rattle.std.specs.Prelude.{◌≡◌, ◌<◌, ◌++◌, ◌∷◌, [], OnOk, true, vec_len};
ghost use Rattle.std.specs.Vec.{vec_capacity};
ghost use Rattle.sr_shard.specs.Changes.{all_changes};
ghost use Rattle.sr_shard.specs.Committing.{FitsPresent, IsLaterThan};
ghost use Rattle.sr_shard.specs.Dividing.{moved_in, moved_part, moved_to, without_moved};
ghost use Rattle.sr_shard.specs.Laws.{is_touched_by, world_after};
ghost use Rattle.sr_shard.specs.Masks.{mask};
ghost use Rattle.sr_shard.specs.Presents.{AreNewcomers, AreReady, IsSame};
ghost use Rattle.sr_shard.specs.Shards.{IsReplay, acts_on, opened_part};
ghost use Rattle.sr_world.specs.Worlds as worlds;

use crate::change::Change;
use crate::portion::Portion;
use crate::present::Present;
use sr_ask::Entry;
use sr_value::{NoMemory, Row, Shared};
use sr_world::World;
use std::alloc::Global;
use std::marker::{Brand, Model, PhantomData};

/// What the shards of a round were opened with. The call that makes them picks it.
pub trait Opening {
    ghost use Rattle.sr_shard.specs.Shards.{Opened};

    ghost opened: { Opened };
}

impl Opening for Brand {
    ghost use Rattle.sr_shard.specs.Shards.{no_core};
    ghost use Rattle.sr_world.specs.Worlds.{beginning};

    ghost opened = { record { core = no_core; class = λ _. 0; world = beginning } };
}

/// One of the 32 parts of a world, by itself. Its type says that its history replays, from what its part of the opened world
/// was to what it has now. It has no copy of that world.
#[derive(Drop)]
pub struct Shard<P: Opening> {
    present: Present,
    journal: Vec<Shared<Entry>>,
    /// The changes for which there is room.
    planned: Option<Row<Change>>,
    marker: PhantomData<P>,
}

/// Makes room for one more entry, and for its changes. Nothing else changes.
fn make_room(
    present: &mut Present,
    journal: &mut Vec<Shared<Entry>>,
    changes: &[Change],
) -> Result<(), NoMemory>
    requires { AreNewcomers present.old.born.starts changes.now }
    ensures ready { OnOk result ((base : worlds.World) → AreReady base present.new changes.now) }
    ensures room { OnOk result (vec_len journal.new < vec_capacity journal.new) }
    ensures same { IsSame present.old present.new }
    ensures journal { journal.new.items ≡ journal.old.items }
{
    journal.try_reserve(1)?;
    present.reserve_all(changes)
}

impl<P: Opening> Model for Shard<P> {
    ghost use Rattle.std.specs.Prelude.{◌-◌, length};
    ghost use Rattle.std.specs.Vec.{vec_capacity};
    ghost use Rattle.sr_shard.specs.Shards.{HasRoom, IsReplay, Sharded, shown};

    ghost Value = { Sharded };

    ghost use Rattle.std.specs.Coded.{codes, coded_list, coded_ℕ};
    ghost use Rattle.std.specs.FinMap as map;
    ghost use Rattle.std.specs.Ordering.{nat_cmp};
    ghost use Rattle.sr_ask.specs.contracts.entry.Entry as entry;
    ghost use Rattle.sr_calls.specs.contracts.held.Held as held;
    ghost use Rattle.sr_calls.specs.contracts.held.Reply as reply;
    ghost use Rattle.sr_store.specs.contracts.variable.Variable as variable;
    ghost use Rattle.sr_value.specs.contracts.value.Value as value;
    ghost use Rattle.sr_shard.specs.contracts.change.Change as change;

    ghost coded = { Prim.hlevel (
      codes,
      value.the_row.coded,
      entry.the_row.coded,
      change.the_row.coded,
      map.code {R = nat_cmp} coded_ℕ (map.code {R = nat_cmp} coded_ℕ variable.the_row.coded),
      map.code {R = nat_cmp} coded_ℕ (coded_list held.the_row.coded),
      map.code {R = nat_cmp} coded_ℕ (coded_list reply.the_row.coded),
    ) };

    ghost view = { λ shard. shown P.opened shard.journal.items shard.planned shard.present };

    ghost invariant = { λ shard. IsReplay P.opened (shown P.opened shard.journal.items shard.planned shard.present)
        × HasRoom P.opened (vec_capacity shard.journal - length shard.journal.items) shard.planned shard.present };
}

impl<P: Opening> Shard<P> {
    /// The shard of a part to which nothing has happened. It takes no memory.
    pub fn begin(alloc: Global, portion: Portion) -> Self
        requires number { portion.number < 32 }
        requires moved { moved_to portion ≡ moved_part P.opened.class portion.number (moved_in P.opened.world) }
        ensures number { result.number ≡ portion.number }
        ensures journal { result.journal ≡ [] }
        ensures present { result.present ≡ opened_part P.opened portion.number }
    {
        Shard {
            present: Present::new(alloc, portion),
            journal: Vec::new(alloc),
            planned: None,
            marker: PhantomData,
        }
    }

    /// Which part it is.
    pub fn number(&self) -> usize
        ensures number { result ≡ self.now.number }
        ensures replay { IsReplay P.opened self.now }
    {
        self.present.portion.number
    }

    /// The entries that touched the part.
    pub fn journal(&self) -> &[Shared<Entry>]
        ensures { result.now ≡ self.now.journal }
    {
        &self.journal
    }

    /// What was moved into it. It takes no memory.
    pub fn into_portion(self) -> Portion
        ensures number { result.number ≡ self.number }
        ensures within { result.number < 32 }
        ensures moved { moved_to result ≡ moved_in self.present }
        ensures part { mask P.opened.class self.number self.present ≡ self.present }
    {
        self.present.portion
    }

    /// Makes room for the changes of one more entry, and plans them in place of what was planned. After out of memory
    /// nothing is planned.
    pub fn reserve(&mut self, changes: Row<Change>) -> Result<(), NoMemory>
        requires { AreNewcomers self.old.present.live changes }
        ensures planned { OnOk result (self.new.planned ≡ Some changes) }

        // Whether or not there is memory, all else stays.
        ensures number { self.new.number ≡ self.old.number }
        ensures journal { self.new.journal ≡ self.old.journal }
        ensures present { self.new.present ≡ self.old.present }
    {
        self.planned = None;
        make_room(&mut self.present, &mut self.journal, changes.as_slice())?;
        self.planned = Some(changes);
        Ok(())
    }

    /// Makes the changes of an entry, which were planned, and keeps the entry. `standing` is what the world has beside the
    /// parts. It takes no memory.
    pub fn commit(&mut self, standing: &World, entry: Shared<Entry>)
        requires standing { standing.now ≡ without_moved P.opened.world }
        requires planned { self.old.planned ≡ Some (all_changes P.opened.core P.opened.world.places (acts_on P.opened self.old.number (entry ∷ []))) }
        requires touched { is_touched_by P.opened.core P.opened.class self.old.number entry ≡ true }
        requires fits { FitsPresent P.opened self.old entry }
        requires later { IsLaterThan self.old.journal entry.stamp }
        ensures number { self.new.number ≡ self.old.number }
        ensures journal { self.new.journal ≡ self.old.journal ++ entry ∷ [] }
        ensures present { self.new.present ≡ world_after P.opened.core P.opened.class (acts_on P.opened self.old.number (entry ∷ [])) self.old.present }
        ensures planned { self.new.planned ≡ None }
    {
        let Some(changes) = self.planned.take() else {
            unreachable!();
        };
        self.present.make_all(standing, changes);
        self.journal.push_reserved(entry);
    }
}
