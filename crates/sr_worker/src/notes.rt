ghost use Rattle.std.specs.Prelude.{◌≡◌, ◌++◌, ◌∷◌, ◌<◌, ◌≤◌, [], OnErr, OnOk, false, length};

use crate::weight::weight_of;
use sr_ask::Entry;
use sr_value::{NoMemory, Row, Shared};
use std::alloc::Global;

/// How many bytes the entries of a worker may hold.
const MOST_HELD: u64 = 33_554_432;

/// One of the workers of a round.
#[derive(Clone, Copy)]
pub struct Worker {
    /// Its number, counted from 0.
    pub number: u32,
    /// How many workers there are.
    pub workers: u32,
    /// Numbers above 32 times this one are given out.
    pub base: u32,
    /// How many entries it may make.
    pub room: u32,
    ghost one_of_them: { number < workers },
    ghost few: { workers ≤ 16 },
    ghost low: { base ≤ 125000000 },
    ghost short: { room ≤ 4096 },
}

/// What a worker wrote down.
#[derive(Drop)]
pub struct Notes {
    pub worker: Worker,
    /// The steps that it made, in order.
    pub entries: Row<Shared<Entry>>,
    /// About how many bytes the entries hold.
    pub held: u64,
    ghost within: { length entries ≤ worker.room },
}

impl Notes {
    ghost use Rattle.sr_worker.specs.Notes.{is_spent};

    /// A worker's notes before its first step. They take no memory.
    pub fn new(alloc: Global, worker: Worker) -> Self
        ensures worker { result.worker ≡ worker }
        ensures empty { result.entries ≡ [] }
        ensures held { result.held ≡ 0 }
    {
        Notes {
            worker,
            entries: Row::new(alloc),
            held: 0,
        }
    }

    /// How many steps it made.
    pub fn count(&self) -> u32
        ensures { result ≡ length self.now.entries }
    {
        self.entries.len() as u32
    }

    /// Whether there is no room for a further entry.
    pub fn is_spent(&self) -> bool
        ensures { result ≡ is_spent self.now }
    {
        self.count() == self.worker.room || self.held > MOST_HELD
    }

    /// Writes a step down. A desk does so before it makes the step, since this may run out of memory.
    pub fn add(&mut self, entry: Shared<Entry>) -> Result<(), NoMemory>
        requires { is_spent self.old ≡ false }
        ensures entries { OnOk result (self.new.entries ≡ self.old.entries ++ entry ∷ []) }
        ensures worker { OnOk result (self.new.worker ≡ self.old.worker) }
        ensures err { OnErr result (self.new ≡ self.old) }
    {
        let weight = weight_of(entry.get());
        self.entries.push(entry)?;
        self.held = self.held.saturating_add(weight);
        Ok(())
    }
}
