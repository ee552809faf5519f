ghost use Rattle.std.specs.Prelude.{◌≡◌, ◌&&◌, ◌<◌, ℕ, IfSome, OnOk, Some, false, nat_lt, true};
ghost use Rattle.std.specs.BTreeSet.{contains};
ghost use Rattle.std.specs.Ordering.{nat_cmp};
ghost use Rattle.sr_plain.specs.Readiness.{ArePutIn, IsPutIn, IsPutOut, IsSole, holds, ready_len, rests};
ghost use Rattle.sr_plain.specs.Waiting.{IsFirst, is_among};

use crate::crowd::{first, first_after};
use crate::waiters::Waiting;
use sr_value::NoMemory;
use std::alloc::Global;
use std::collections::BTreeSet;

/// The processes that are asked in turn, by number.
///
/// Whoever was taken out last stays among them and is passed over until another is taken out, since it is often the
/// next that is put in: a process that calls and its server wait for each other in turn.
#[derive(Drop)]
pub(crate) struct Ready {
    processes: BTreeSet<u32>,
    /// Who is passed over.
    resting: Option<u32>,
}

impl Ready {
    /// Nobody. It takes no memory.
    pub(crate) fn new(alloc: Global) -> Self
        ensures { (process : ℕ) → holds result process ≡ false }
    {
        Ready {
            processes: BTreeSet::new(alloc),
            resting: None,
        }
    }

    /// Whether a process rests.
    fn rests(&self, process: u32) -> bool
        ensures { result ≡ rests self.now process }
    {
        match self.resting {
            Some(resting) => resting == process,
            None => false,
        }
    }

    /// Puts a process in.
    #[inline(always)]
    pub(crate) fn insert(&mut self, process: u32) -> Result<(), NoMemory>
        ensures { OnOk result (IsPutIn process self.old self.new) }
    {
        if self.rests(process) {
            return self.call_back(process);
        }
        self.processes.insert(process)?;
        Ok(())
    }

    /// Puts the process in that rests.
    #[inline(always)]
    fn call_back(&mut self, process: u32) -> Result<(), NoMemory>
        requires { rests self.old process ≡ true }
        ensures { OnOk result (IsPutIn process self.old self.new) }
    {
        self.resting = None;
        if self.processes.contains(&process) {
            return Ok(());
        }
        self.processes.insert(process)?;
        Ok(())
    }

    /// Takes a process out.
    pub(crate) fn take_out(&mut self, process: u32)
        ensures out { IsPutOut process self.old self.new }
        ensures less { holds self.old process ≡ true → ready_len self.new < ready_len self.old }
    {
        match self.resting {
            Some(resting) => {
                if self.processes.remove(&resting) {
                    self.resting = Some(process);
                } else {
                    self.processes.remove(&process);
                }
            }
            None => {
                self.resting = Some(process);
            }
        }
    }

    /// Puts all of them in.
    pub(crate) fn join(&mut self, processes: &mut BTreeSet<u32>) -> Result<(), NoMemory>
        ensures { OnOk result (ArePutIn (contains nat_cmp processes.old) self.old self.new) }
    {
        while let Some(process) = processes.pop_first() {
            self.insert(process)?;
        }
        Ok(())
    }

    /// Puts those in who waited at a place.
    pub(crate) fn join_waiting(&mut self, waiting: Waiting) -> Result<(), NoMemory>
        ensures { OnOk result (ArePutIn (is_among (Some waiting)) self.old self.new) }
    {
        match waiting {
            Waiting::Nobody => Ok(()),
            Waiting::One(process) => self.insert(process),
            Waiting::Many(processes) => {
                let mut processes = processes;
                self.join(&mut processes)
            }
        }
    }

    /// The only one that isn't passed over, where there are two and it is one of them.
    pub(crate) fn sole(&self) -> Option<u32>
        ensures { IfSome result (IsSole self.now) }
    {
        if self.processes.len() != 2 {
            return None;
        }
        let first = *self.processes.first()?;
        let last = *self.processes.last()?;
        if self.rests(first) {
            if self.rests(last) { None } else { Some(last) }
        } else if self.rests(last) {
            Some(first)
        } else {
            None
        }
    }

    /// The first of those after a process.
    pub(crate) fn first_after(&self, last: u32) -> Option<u32>
        ensures { IsFirst (λ q. nat_lt last q && holds self.now q) result }
    {
        let process = first_after(&self.processes, last)?;
        if self.rests(process) {
            return first_after(&self.processes, process);
        }
        Some(process)
    }

    /// The first of all.
    pub(crate) fn first(&self) -> Option<u32>
        ensures { IsFirst (holds self.now) result }
    {
        let process = first(&self.processes)?;
        if self.rests(process) {
            return first_after(&self.processes, process);
        }
        Some(process)
    }
}
