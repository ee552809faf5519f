ghost use Rattle.sr_shard.specs.Items.{ActsLeaveNumbers, EntriesAreItems};
ghost use Rattle.sr_shard.specs.Laws.{ActsAreLocal, EntriesAreSteps, EntriesInAnyOrder, JournalsInParts, OthersStay, OthersTellNothing, TouchedIsAll, ValidStatesStand};
ghost use Rattle.sr_shard.specs.Runs.{EntriesAreARun};
ghost use Rattle.sr_shard.specs.Written.{StepsAreLocal, StepsHaveEntries};

/// A law of acts: what a part has of a world tells whether an act on it fits, and changes as the world does; no other
/// part changes.
pub fn acts_are_local()
    ensures { ActsAreLocal }
{}

/// A law of entries: where the acts of an entry replay, it is a step of the machine, with its answer, and the world after
/// it is that after the acts. What this asks of the world holds in every valid state.
pub fn entries_are_steps()
    ensures steps { EntriesAreSteps }
    ensures valid { ValidStatesStand }
{}

/// A law of entries: each step of a process that lives has an entry whose acts replay, unless its request is wide. The
/// request has to name the one who waits as the process holds it.
pub fn steps_have_entries()
    ensures { StepsHaveEntries }
{}

/// A law of entries: an entry that its process asks for, and whose acts replay, is an item of the run. Acts leave the
/// numbers alone that were given out, so the number of a step can be used before its acts or after them.
pub fn entries_are_items()
    ensures items { EntriesAreItems }
    ensures numbers { ActsLeaveNumbers }
{}

/// The law of orders for whole runs: entries that replay in each part, and that each process asks in turn, are a run from
/// a valid state, in whatever order they stand. Processes may begin and end among them.
pub fn entries_are_a_run()
    ensures { EntriesAreARun }
{}

/// The law of orders: entries in another order, where each part finds its own in the same order, replay too, and each
/// part ends the same.
pub fn entries_in_any_order()
    ensures { EntriesInAnyOrder }
{}

/// A law of journals: where each part has kept its entries of one history, and they replay there, the history replays,
/// and each part ends as its journal says.
pub fn journals_are_a_history()
    ensures { JournalsInParts }
{}

/// A law of parts: what a request touches is all that its entry has acts on; every other part stays, and tells nothing.
pub fn touched_parts_are_all()
    ensures acts { TouchedIsAll }
    ensures stay { OthersStay }
    ensures tell { OthersTellNothing }
{}

/// A law of steps: a request that is done in one world is done alike in every other that has the same in the parts that it
/// touches, and leaves the rest as it was.
pub fn steps_are_local()
    ensures { StepsAreLocal }
{}
