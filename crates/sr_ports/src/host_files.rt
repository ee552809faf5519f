ghost use Rattle.std.specs.Prelude.{◌≡◌, ◌<◌, ◌≤◌, None, IfOk, IfSome, length, take, vec_len};
ghost use Rattle.std.specs.Io.{WritesAtMost};
ghost use Rattle.std.specs.Io.KnownBytes.{WriteAppends};
ghost use Rattle.sr_ports.specs.Faults.{Counts};
ghost use Rattle.sr_ports.specs.Files.{no_readings};
ghost use Rattle.sr_ports.specs.Hosts.{contents_of_open};
ghost use Rattle.sr_ports.specs.Streams.{Puts};

use crate::fault::PortFail;
use crate::files::Files;
use crate::sink::Sink;
use std::alloc::Global;
use std::io::{ErrorKind, Read, Write};
use std::{fs, io, rt};

/// The files of the host. They tell no content. Every error counts as a fault but that memory ran out.
#[derive(Drop)]
pub struct HostFiles<'a, R> {
    rt: &'a R,
    reads: u64,
    failed: u64,
    faults: u64,
}

/// A sink into a file of the host, which the first put makes, or empties where it is there. It tells no content.
/// Every error counts as a fault, and so does a write of no bytes.
#[derive(Drop)]
pub struct FileSink<'a, R: rt::Files> {
    rt: &'a R,
    /// The name of the file.
    pub name: &'a str,
    file: Option<R::File>,
    faults: u64,
}

impl<'a, R: rt::Files> HostFiles<'a, R> {
    /// The files that `rt` reaches. No read of them was made yet.
    pub fn new(rt: &'a R) -> Self
        ensures faults { ⟦<HostFiles<'a, R> as Files>⟧.faults result ≡ 0 }
        ensures readings { ⟦<HostFiles<'a, R> as Files>⟧.readings result ≡ no_readings }
    {
        HostFiles {
            rt,
            reads: 0,
            failed: 0,
            faults: 0,
        }
    }
}

impl<R: rt::Files> Files for HostFiles<'_, R> {
    ghost content = { λ _. None };

    ghost faults = { λ files. files.faults };

    ghost readings = { λ files. record { reads = files.reads; failed = files.failed } };

    fn read(&mut self, alloc: Global, name: &str, most: usize) -> Result<Vec<u8>, PortFail> {
        self.reads = self.reads.saturating_add(1);
        match read_start(self.rt, alloc, name, most) {
            Ok(bytes) => Ok(bytes),
            Err(error) if error.kind() == ErrorKind::OutOfMemory => Err(PortFail::NoMemory),
            Err(_) => {
                self.faults = self.faults.saturating_add(1);
                self.failed = self.reads;
                Err(PortFail::Failed)
            }
        }
    }
}

/// The first `most` bytes of a file.
fn read_start<R: rt::Files>(rt: &R, alloc: Global, name: &str, most: usize) -> io::Result<Vec<u8>>
    ensures { IfOk result (λ bytes. vec_len bytes ≤ most) }
{
    read_most(alloc, fs::open(rt, name)?, most)
}

/// The first `most` bytes of a reader, or all where it has fewer.
fn read_most<I: Read + Drop>(alloc: Global, reader: I, most: usize) -> io::Result<Vec<u8>>
    ensures few { IfOk result (λ bytes. vec_len bytes ≤ most) }
    ensures bytes { IfOk result (λ bytes. IfSome (I.remaining reader) (λ left. bytes.items ≡ take most left)) }
{
    let mut bytes = Vec::new(alloc);
    reader.take(most as u64).read_to_end(&mut bytes)?;
    bytes.truncate(most);
    Ok(bytes)
}

impl<'a, R: rt::Files> FileSink<'a, R> {
    /// A sink into the file of this name. No put has failed, and no file is made yet.
    pub fn new(rt: &'a R, name: &'a str) -> Self
        ensures name { result.name.now ≡ name.now }
        ensures faults { ⟦<FileSink<'a, R> as Sink>⟧.faults result ≡ 0 }
    {
        FileSink {
            rt,
            name,
            file: None,
            faults: 0,
        }
    }

    /// Writes into the file, which it makes first where that wasn't done.
    fn write(&mut self, piece: &[u8]) -> io::Result<usize>
        ensures bound { WritesAtMost result piece.now }
        ensures written { WriteAppends (contents_of_open R.File.contents self.old.file) (contents_of_open R.File.contents self.new.file) result piece.now }
        ensures faults { self.new.faults ≡ self.old.faults }
    {
        if self.file.is_none() {
            self.file = Some(fs::create(self.rt, self.name)?);
        }
        match &mut self.file {
            Some(file) => file.write(piece),
            None => Ok(0),
        }
    }
}

impl<R: rt::Files> Sink for FileSink<'_, R> {
    ghost held = { λ _. None };

    ghost faults = { λ sink. sink.faults };

    fn put(&mut self, piece: &[u8]) -> Result<usize, PortFail>
        requires { 0 < length piece.now }
        ensures bytes { Puts None None result piece.now }
        ensures cause { Counts self.old.faults self.new.faults result }

        // The file took these bytes after those that it took before, and no others.
        ensures written { WriteAppends (contents_of_open R.File.contents self.old.file) (contents_of_open R.File.contents self.new.file) result piece.now }
    {
        match self.write(piece) {
            Ok(0) | Err(_) => {
                self.faults = self.faults.saturating_add(1);
                Err(PortFail::Failed)
            }
            Ok(count) => Ok(count),
        }
    }
}
