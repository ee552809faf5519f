ghost use Rattle.std.specs.Prelude.{◌≡◌, ◌<◌, ◌≤◌, ◌↔◌, ◌⊎◌, [], min, length, drop, None, Some, MatchResult, IfOk, IsErr, IsErrOf};
ghost use Rattle.sr_ports.specs.Faults.{Counts, TakeCounts};
ghost use Rattle.sr_ports.specs.Streams.{Takes, EndsWhereEmpty, Puts};

use crate::fault::{PortFail, TakeFailed};
use crate::room::fitting;
use crate::schedule::Schedule;
use crate::sink::Sink;
use crate::slices::{copy_front, rest_of};
use crate::source::Source;
use sr_value::{Row, Text};
use std::alloc::Global;

/// A source of bytes in memory. It tells what it has left.
#[derive(Debug, Drop)]
pub struct MemSource {
    bytes: Text,
    at: usize,
    most: usize,
    schedule: Schedule,
    ghost within: { at ≤ length bytes },
    ghost moves: { 0 < most },
}

/// A sink that keeps its bytes in memory. It tells what it holds.
#[derive(Debug, Drop)]
pub struct MemSink {
    bytes: Text,
    most: usize,
    /// How many bytes it holds at most.
    room: Option<u32>,
    schedule: Schedule,
    ghost moves: { 0 < most },
}

impl MemSource {
    ghost use Rattle.sr_ports.specs.Memory.{source_left, source_most, source_calls, source_faults, HasNoCalls};

    /// A source of these bytes, which gives at most `most` of them in one call. `fails` has the numbers of the
    /// calls that fail, counted from 1.
    pub fn new(bytes: Text, most: usize, fails: Row<u64>) -> Self
        requires { 0 < most }
        ensures left { source_left result ≡ bytes }
        ensures most { source_most result ≡ most }
        ensures calls { HasNoCalls (source_calls result) fails }
    {
        MemSource {
            bytes,
            at: 0,
            most,
            schedule: Schedule::new(fails),
        }
    }

    /// The bytes that are left.
    pub fn left(&self) -> &[u8]
        ensures { result.now ≡ source_left self.now }
    {
        rest_of(self.bytes.as_bytes(), self.at)
    }

    /// How many calls failed.
    pub fn faults(&self) -> u64
        ensures { result ≡ source_faults self.now }
    {
        self.schedule.faults()
    }
}

impl Source for MemSource {
    ghost use Rattle.sr_ports.specs.Memory.{source_left, source_most, source_calls, source_faults, NextFails, MakesCall};

    ghost left = { λ source. Some (source_left source) };

    ghost faults = { source_faults };

    fn take(&mut self, room: &mut [u8]) -> Result<usize, TakeFailed>
        requires { 0 < length room.old }
        ensures bytes { Takes (Some (source_left self.old)) (Some (source_left self.new)) result room.new }
        ensures end { EndsWhereEmpty (Some (source_left self.old)) result }
        ensures cause { TakeCounts (source_faults self.old) (source_faults self.new) result }

        // A call fails exactly where the list says so, and gives as many bytes as it may.
        ensures fails { IsErr result ↔ NextFails (source_calls self.old) }
        ensures size { IfOk result (λ count. count ≡ min (source_most self.old) (min (length room.old) (length (source_left self.old)))) }
        ensures calls { MakesCall (source_calls self.old) (source_calls self.new) }
        ensures most { source_most self.new ≡ source_most self.old }
        ensures beyond { MatchResult result (λ count. drop count room.new ≡ drop count room.old) (λ _. room.new ≡ room.old) }
    {
        if self.schedule.begin() {
            self.schedule.raise();
            return Err(TakeFailed);
        }
        let left = rest_of(self.bytes.as_bytes(), self.at);
        let count = self.most.min(room.len()).min(left.len());
        copy_front(room, left, count);
        self.at += count;
        Ok(count)
    }
}

impl MemSink {
    ghost use Rattle.sr_ports.specs.Memory.{sink_held, sink_most, sink_room, sink_calls, sink_faults, HasNoCalls};

    /// A sink of no bytes, which takes at most `most` of them in one call. `fails` has the numbers of the calls
    /// that fail, counted from 1. It takes no memory.
    pub fn new(alloc: Global, most: usize, fails: Row<u64>) -> Self
        requires { 0 < most }
        ensures held { sink_held result ≡ [] }
        ensures most { sink_most result ≡ most }
        ensures room { sink_room result ≡ None }
        ensures calls { HasNoCalls (sink_calls result) fails }
    {
        MemSink {
            bytes: Text::new(alloc),
            most,
            room: None,
            schedule: Schedule::new(fails),
        }
    }

    /// A sink of no bytes, which holds at most `room` of them and takes at most `most` in one call. A call fails where it
    /// holds as many as it may. It takes no memory.
    pub fn limited(alloc: Global, room: u32, most: usize) -> Self
        requires { 0 < most }
        ensures held { sink_held result ≡ [] }
        ensures most { sink_most result ≡ most }
        ensures room { sink_room result ≡ Some room }
        ensures calls { HasNoCalls (sink_calls result) [] }
    {
        MemSink {
            bytes: Text::new(alloc),
            most,
            room: Some(room),
            schedule: Schedule::new(Row::new(alloc)),
        }
    }

    /// The bytes that it holds.
    pub fn held(&self) -> &[u8]
        ensures { result.now ≡ sink_held self.now }
    {
        self.bytes.as_bytes()
    }

    /// How many calls failed.
    pub fn faults(&self) -> u64
        ensures { result ≡ sink_faults self.now }
    {
        self.schedule.faults()
    }
}

impl Sink for MemSink {
    ghost use Rattle.sr_ports.specs.Memory.{fitting as fitting_in, sink_held, sink_most, sink_room, sink_calls, sink_faults, NextFails, MakesCall};

    ghost held = { λ sink. Some (sink_held sink) };

    ghost faults = { sink_faults };

    fn put(&mut self, piece: &[u8]) -> Result<usize, PortFail>
        requires { 0 < length piece.now }
        ensures bytes { Puts (Some (sink_held self.old)) (Some (sink_held self.new)) result piece.now }
        ensures cause { Counts (sink_faults self.old) (sink_faults self.new) result }

        // A call fails exactly where the list says so or no byte fits, and takes as many bytes as it may.
        ensures fails { IsErrOf result PortFail.Failed
            ↔ (NextFails (sink_calls self.old) ⊎ (fitting_in (sink_room self.old) (length (sink_held self.old)) (length piece.now) ≡ 0)) }
        ensures size { IfOk result (λ count. count ≡ min (sink_most self.old) (fitting_in (sink_room self.old) (length (sink_held self.old)) (length piece.now))) }
        ensures calls { MakesCall (sink_calls self.old) (sink_calls self.new) }
        ensures most { sink_most self.new ≡ sink_most self.old }
        ensures room { sink_room self.new ≡ sink_room self.old }
    {
        let fits = fitting(self.room, self.bytes.len(), piece.len());
        let fails = self.schedule.begin();
        if fails || fits == 0 {
            self.schedule.raise();
            return Err(PortFail::Failed);
        }
        let count = self.most.min(fits);
        self.bytes.push_all(&piece[..count])?;
        Ok(count)
    }
}
