ghost use Rattle.std.specs.Prelude.{None};

use crate::clock::Clock;
use std::time::{Duration, Instant};
use std::{thread, time};

/// The clock of the host, which counts from its making. It tells no calls. Where the host can't tell the time, it tells
/// what it told last.
#[derive(Drop)]
pub struct HostClock<'a, R> {
    rt: &'a R,
    start: Option<Instant>,
    last: u32,
}

impl<'a, R: time::Clock> HostClock<'a, R> {
    /// A clock that starts now.
    pub fn new(rt: &'a R) -> Self {
        HostClock {
            rt,
            start: Instant::now(rt).ok(),
            last: 0,
        }
    }

    /// How many milliseconds have passed, where the host tells it.
    fn reading(&self) -> Option<u32> {
        let start = self.start?;
        let passed = start.elapsed(self.rt).ok()?;
        Some(u32::try_from(passed.as_millis()).unwrap_or(u32::MAX))
    }
}

impl<R: time::Clock> Clock for HostClock<'_, R> {
    ghost calls = { λ _. None };

    fn now(&mut self) -> u32 {
        if let Some(moment) = self.reading() {
            self.last = moment;
        }
        self.last
    }

    fn pause(&mut self, ms: u32) {
        thread::sleep(self.rt, Duration::from_millis(u64::from(ms)));
    }
}
