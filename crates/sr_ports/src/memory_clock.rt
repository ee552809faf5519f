ghost use Rattle.std.specs.Prelude.{◌≡◌, ◌<◌, ◌≤◌, ◌++◌, ◌∷◌, [], length, IfOk, IfSome, IsSome, Some};
ghost use Rattle.std.specs.Option.{option_copied};
ghost use Rattle.std.specs.Vec.{vec_capacity};

use crate::clock::{Clock, ClockCall};
use sr_value::NoMemory;
use std::alloc::Global;

/// How many calls a clock in memory keeps.
const MOST_CALLS: usize = 4_096;

/// A clock in memory. It tells its calls, up to 4,096 of them, and nothing once there are more.
#[derive(Debug, Drop)]
pub struct MemClock {
    calls: Vec<ClockCall>,
    told: bool,
    moment: u32,
    step: u32,
    ghost room: { 4096 ≤ vec_capacity calls },
}

impl MemClock {
    ghost use Rattle.sr_ports.specs.Clocks.{AddsCall};
    ghost use Rattle.sr_ports.specs.Memory.{clock_calls, clock_moment, clock_step};

    /// A clock that tells this moment first. With each telling `step` passes.
    pub fn new(alloc: Global, moment: u32, step: u32) -> Result<Self, NoMemory>
        ensures calls { IfOk result (λ clock. clock_calls clock ≡ Some []) }
        ensures moment { IfOk result (λ clock. clock_moment clock ≡ moment) }
        ensures step { IfOk result (λ clock. clock_step clock ≡ step) }
    {
        let mut calls = Vec::new(alloc);
        calls.try_reserve(MOST_CALLS)?;
        Ok(MemClock {
            calls,
            told: true,
            moment,
            step,
        })
    }

    /// The calls so far, unless they were too many.
    pub fn calls(&self) -> Option<&[ClockCall]>
        ensures { option_copied result ≡ clock_calls self.now }
    {
        if self.told {
            Some(self.calls.as_slice())
        } else {
            None
        }
    }

    /// Keeps a call.
    fn note(&mut self, call: ClockCall)
        ensures adds { AddsCall call (clock_calls self.old) (clock_calls self.new) }
        ensures told { IfSome (clock_calls self.old) (λ calls. length calls < 4096 → IsSome (clock_calls self.new)) }
        ensures moment { clock_moment self.new ≡ clock_moment self.old }
        ensures step { clock_step self.new ≡ clock_step self.old }
    {
        if self.calls.len() < MOST_CALLS {
            self.calls.push_reserved(call);
        } else {
            self.told = false;
        }
    }
}

impl Clock for MemClock {
    ghost use Rattle.sr_ports.specs.Clocks.{AddsCall, after_more};
    ghost use Rattle.sr_ports.specs.Memory.{clock_calls, clock_moment, clock_step};
    ghost use Rattle.sr_ports.specs.declared.clock.ClockCall.TheVariants as call;

    ghost calls = { clock_calls };

    fn now(&mut self) -> u32
        ensures adds { AddsCall (call.Now result) (clock_calls self.old) (clock_calls self.new) }

        // It tells its moment, and a step passes; it keeps the call while there is room.
        ensures moment { result ≡ clock_moment self.old }
        ensures later { clock_moment self.new ≡ after_more (clock_moment self.old) (clock_step self.old) }
        ensures step { clock_step self.new ≡ clock_step self.old }
        ensures told { IfSome (clock_calls self.old) (λ calls. length calls < 4096 → IsSome (clock_calls self.new)) }
    {
        let moment = self.moment;
        self.note(ClockCall::Now(moment));
        self.moment = moment.saturating_add(self.step);
        moment
    }

    fn pause(&mut self, ms: u32)
        ensures adds { AddsCall (call.Pause ms) (clock_calls self.old) (clock_calls self.new) }

        // So much passes; it keeps the call while there is room.
        ensures later { clock_moment self.new ≡ after_more (clock_moment self.old) ms }
        ensures step { clock_step self.new ≡ clock_step self.old }
        ensures told { IfSome (clock_calls self.old) (λ calls. length calls < 4096 → IsSome (clock_calls self.new)) }
    {
        self.note(ClockCall::Pause(ms));
        self.moment = self.moment.saturating_add(ms);
    }
}
