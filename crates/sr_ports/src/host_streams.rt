ghost use Rattle.std.specs.Prelude.{◌≡◌, ◌<◌, None, length};
ghost use Rattle.std.specs.Io.KnownBytes.{ReadConsumes, WriteAppends};
ghost use Rattle.sr_ports.specs.Faults.{Counts, TakeCounts};
ghost use Rattle.sr_ports.specs.Streams.{EndsWhereEmpty, Puts, Takes};

use crate::fault::{PortFail, TakeFailed};
use crate::sink::Sink;
use crate::source::Source;
use std::io::{Read, Write};

/// A reader of the host as a source, as standard input. It tells no content. Every error counts as a fault.
#[derive(Drop)]
pub struct HostSource<I> {
    reader: I,
    faults: u64,
}

/// A writer of the host as a sink, as standard output or standard error. It tells no content. Every error counts
/// as a fault, and so does a write of no bytes. The writer has to pass on at once what it is given, since a sink
/// has no flush.
#[derive(Drop)]
pub struct HostSink<O> {
    writer: O,
    faults: u64,
}

impl<I: Read> HostSource<I> {
    /// The source over this reader. No take has failed yet.
    pub fn new(reader: I) -> Self
        ensures { ⟦<HostSource<I> as Source>⟧.faults result ≡ 0 }
    {
        HostSource { reader, faults: 0 }
    }
}

impl<I: Read> Source for HostSource<I> {
    ghost use Rattle.sr_ports.specs.Hosts.{source_reader};

    ghost left = { λ _. None };

    ghost faults = { λ source. source.faults };

    fn take(&mut self, room: &mut [u8]) -> Result<usize, TakeFailed>
        requires { 0 < length room.old }
        ensures bytes { Takes None None result room.new }
        ensures end { EndsWhereEmpty None result }
        ensures cause { TakeCounts self.old.faults self.new.faults result }

        // The reader gave these bytes, and no others.
        ensures read { ReadConsumes (I.remaining (source_reader self.old)) (I.remaining (source_reader self.new)) result room.new }
    {
        match self.reader.read(room) {
            Ok(count) => Ok(count),
            Err(_) => {
                self.faults = self.faults.saturating_add(1);
                Err(TakeFailed)
            }
        }
    }
}

impl<O: Write> HostSink<O> {
    /// The sink over this writer. No put has failed yet.
    pub fn new(writer: O) -> Self
        ensures { ⟦<HostSink<O> as Sink>⟧.faults result ≡ 0 }
    {
        HostSink { writer, faults: 0 }
    }
}

impl<O: Write> Sink for HostSink<O> {
    ghost use Rattle.sr_ports.specs.Hosts.{sink_writer};

    ghost held = { λ _. None };

    ghost faults = { λ sink. sink.faults };

    fn put(&mut self, piece: &[u8]) -> Result<usize, PortFail>
        requires { 0 < length piece.now }
        ensures bytes { Puts None None result piece.now }
        ensures cause { Counts self.old.faults self.new.faults result }

        // The writer took these bytes, and no others.
        ensures written { WriteAppends (O.contents (sink_writer self.old)) (O.contents (sink_writer self.new)) result piece.now }
    {
        match self.writer.write(piece) {
            Ok(0) | Err(_) => {
                self.faults = self.faults.saturating_add(1);
                Err(PortFail::Failed)
            }
            Ok(count) => Ok(count),
        }
    }
}
