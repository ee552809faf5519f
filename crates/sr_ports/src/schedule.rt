ghost use Rattle.std.specs.Prelude.{◌≡◌, ◌+◌, ◌-◌, ◌^◌, ◌↔◌, min, IsTrue};
ghost use Rattle.sr_ports.specs.Faults.{Rose};

use sr_value::Row;

/// The calls of a device in memory: how many there were, which are to fail, how many did, and the number of the last that
/// did.
#[derive(Debug, Drop)]
pub struct Schedule {
    failing: Row<u64>,
    calls: u64,
    faults: u64,
    failed: u64,
}

impl Schedule {
    ghost use Rattle.sr_ports.specs.Memory.{next_call, NextFails, HasNoCalls};

    /// No call was made. `failing` has the numbers of the calls that are to fail, counted from 1.
    pub fn new(failing: Row<u64>) -> Self
        ensures { HasNoCalls result failing }
    {
        Schedule {
            failing,
            calls: 0,
            faults: 0,
            failed: 0,
        }
    }

    /// How many calls failed.
    pub fn faults(&self) -> u64
        ensures { result ≡ self.now.faults }
    {
        self.faults
    }

    /// Begins a call, and says whether it is one that is to fail.
    pub fn begin(&mut self) -> bool
        ensures fails { IsTrue result ↔ NextFails self.old }
        ensures counted { self.new ≡ record self.old { calls = next_call self.old } }
    {
        self.calls = self.calls.saturating_add(1);
        self.failing.as_slice().contains(&self.calls)
    }

    /// Counts a fault.
    pub fn raise(&mut self)
        ensures raised { self.new ≡ record self.old { faults = min (self.old.faults + 1) (2 ^ 64 - 1); failed = self.old.calls } }
        ensures rose { Rose self.old.faults self.new.faults }
    {
        self.faults = self.faults.saturating_add(1);
        self.failed = self.calls;
    }
}
