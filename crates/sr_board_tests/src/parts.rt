ghost use Rattle.std.specs.Prelude.{◌≡◌, ◌≤◌, All};

use std::alloc::{AllocError, Global};

/// What a worker did.
#[derive(Clone, Copy, Drop, PartialEq, Debug)]
pub struct Entry {
    pub seat: u32,
    pub stamp: u64,
    /// How many acts its seat had done before.
    pub index: u64,
    pub first: u32,
    pub second: u32,
    pub third: u32,
}

/// A part of a world, with all that was done to it.
#[derive(Drop)]
pub struct Part {
    pub number: u32,
    pub last: u64,
    pub journal: Vec<Entry>,
    ghost low: { All (λ e. e.stamp ≤ last) journal.items },
}

impl Part {
    ghost use Rattle.std.specs.Prelude.{◌<◌, ◌∷◌, ◌++◌, [], IfOk, IfSome, vec_len};
    ghost use Rattle.std.specs.Vec.{vec_capacity};

    /// A part with nothing done to it, and memory for so many entries.
    pub fn new(alloc: Global, number: u32, room: usize) -> Result<Self, AllocError>
        ensures { IfOk result (λ p. (p.number ≡ number) × (p.journal.items ≡ [])) }
    {
        let journal = Vec::with_capacity(alloc, room)?;
        Ok(Part {
            number,
            last: 0,
            journal,
        })
    }

    /// The last stamp here, or `last` where that is later; or nothing where one more entry has no room.
    pub fn latest(&self, last: u64) -> Option<u64>
        ensures { IfSome result (λ n. (last ≤ n) × (self.now.last ≤ n) × (vec_len self.now.journal < vec_capacity self.now.journal)) }
    {
        if self.journal.len() < self.journal.capacity() {
            Some(last.max(self.last))
        } else {
            None
        }
    }

    /// One more entry. It takes no memory.
    #[tactic(auto, using(crate::proofs::PartLemmas::low_more))]
    pub fn add(&mut self, entry: Entry)
        requires { (vec_len self.old.journal < vec_capacity self.old.journal) × (self.old.last < entry.stamp) }
        ensures { (self.new.number ≡ self.old.number) × (self.new.journal.items ≡ self.old.journal.items ++ entry ∷ []) }
    {
        self.last = entry.stamp;
        self.journal.push_reserved(entry);
    }
}
