ghost use Rattle.std.specs.Prelude.{List, Option};
ghost use Rattle.sr_ports.specs.Clocks.{AddsCall};
ghost use Rattle.sr_ports.specs.declared.clock.ClockCall.{ClockCall};
ghost use Rattle.sr_ports.specs.declared.clock.ClockCall.TheVariants as call;

/// A call of a clock.
#[derive(Clone, Copy, Debug, PartialEq, Eq)]
pub enum ClockCall {
    /// It told this many milliseconds.
    Now(u32),
    /// It let this many milliseconds pass.
    Pause(u32),
}

/// A clock that counts milliseconds. Nothing is said of time itself.
pub trait Clock {
    /// The calls so far, where they are told.
    ghost calls: { Self → Option (List ClockCall) };

    /// How many milliseconds have passed since the start.
    fn now(&mut self) -> u32
        ensures adds { AddsCall (call.Now result) (calls self.old) (calls self.new) };

    /// Lets so many milliseconds pass.
    fn pause(&mut self, ms: u32)
        ensures adds { AddsCall (call.Pause ms) (calls self.old) (calls self.new) };
}
