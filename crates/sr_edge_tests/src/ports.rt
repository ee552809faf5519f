ghost use Rattle.std.specs.Prelude.{◌≤◌, IfOk};

use sr_ports::{
    Clock, ClockCall, FileSink, Files, HostClock, HostFiles, HostSink, HostSource, MemClock,
    MemSink, PortFail, Sink, Source, TakeFailed, put_all,
};
use std::alloc::Global;
use std::io;
use std::io::{Error, ErrorKind, Read, Write};

/// A stream that gives and takes two bytes a call, fails in its second call, and takes none from the fourth on.
#[derive(Drop)]
struct Faulty {
    calls: u32,
}

impl Faulty {
    fn step(&mut self, room: usize) -> io::Result<usize>
        ensures { IfOk result (λ count. count ≤ room) }
    {
        self.calls = self.calls.saturating_add(1);
        match self.calls {
            2 => Err(Error::from(ErrorKind::Other)),
            1 | 3 => Ok(room.min(2)),
            _ => Ok(0),
        }
    }
}

impl Read for Faulty {
    fn read(&mut self, buf: &mut [u8]) -> io::Result<usize> {
        let count = self.step(buf.len())?;
        for byte in &mut buf[..count] {
            *byte = b'x';
        }
        Ok(count)
    }
}

impl Write for Faulty {
    fn write(&mut self, buf: &[u8]) -> io::Result<usize> {
        self.step(buf.len())
    }

    fn flush(&mut self) -> io::Result<()> {
        Ok(())
    }
}

/// A stream that takes two bytes a call, and keeps them.
#[derive(Drop)]
struct Slow<'a> {
    taken: &'a mut Vec<u8>,
}

impl Write for Slow<'_> {
    fn write(&mut self, buf: &[u8]) -> io::Result<usize> {
        let count = buf.len().min(2);
        match self.taken.extend_from_slice(&buf[..count]) {
            Ok(()) => Ok(count),
            Err(_) => Err(Error::from(ErrorKind::OutOfMemory)),
        }
    }

    fn flush(&mut self) -> io::Result<()> {
        Ok(())
    }
}

/// Whether a take gives these bytes, or fails where there are none to give.
fn takes<S: Source>(source: &mut S, wanted: Option<&[u8]>) -> bool {
    let mut room = [0u8; 4];
    match source.take(&mut room) {
        Ok(count) => wanted == Some(&room[..count]),
        Err(TakeFailed) => wanted.is_none(),
    }
}

/// Whether four takes give the bytes of a stream of the host, with the fault between them.
fn source_goes_on() -> bool {
    let mut source = HostSource::new(Faulty { calls: 0 });
    takes(&mut source, Some(b"xx"))
        && takes(&mut source, None)
        && takes(&mut source, Some(b"xx"))
        && takes(&mut source, Some(b""))
}

/// The outcomes of four puts into a stream of the host. The last one is of a write of no bytes.
fn host_puts() -> [Result<(), PortFail>; 4] {
    let mut sink = HostSink::new(Faulty { calls: 0 });
    [
        put_all(&mut sink, b"ab"),
        put_all(&mut sink, b"cd"),
        put_all(&mut sink, b"cd"),
        put_all(&mut sink, b"ef"),
    ]
}

#[test]
fn host_streams(rt: HostRuntime) {
    let failed = Err(PortFail::Failed);
    assert!(rt; source_goes_on());
    assert_eq!(rt; host_puts(), [Ok(()), failed, Ok(()), failed]);
}

/// Whether a read of the first bytes of a file gives these, or fails where there are none to give.
fn reads(rt: &HostRuntime, name: &str, most: usize, wanted: Option<&[u8]>) -> bool {
    match HostFiles::new(rt).read(rt.alloc(), name, most) {
        Ok(bytes) => wanted == Some(bytes.as_slice()),
        Err(fail) => fail == PortFail::Failed && wanted.is_none(),
    }
}

fn put_lines<S: Sink>(sink: &mut S) -> bool {
    put_all(sink, b"one\n") == Ok(()) && put_all(sink, b"two\n") == Ok(())
}

#[test]
fn host_files(rt: HostRuntime) {
    let name = "sr.journal";
    assert!(rt; reads(&rt, name, 9, None));
    assert!(rt; put_lines(&mut FileSink::new(&rt, name)));
    assert!(rt; reads(&rt, name, 9, Some(b"one\ntwo\n")));
    assert!(rt; reads(&rt, name, 5, Some(b"one\nt")));
    assert!(rt; reads(&rt, ".", 5, None));
    assert!(rt; !put_lines(&mut FileSink::new(&rt, "no/such/folder")));
}

fn put_threes(taken: &mut Vec<u8>) -> bool {
    let mut sink = HostSink::new(Slow { taken });
    put_all(&mut sink, b"abc") == Ok(()) && put_all(&mut sink, b"def") == Ok(())
}

/// Whether all bytes of pieces of three come to a stream that takes two a call.
fn short_writes_go_on(alloc: Global) -> bool {
    let mut taken = Vec::new(alloc);
    put_threes(&mut taken) && taken.as_slice() == b"abcdef".as_slice()
}

/// Whether a sink of room for five bytes, which takes two a call, takes five and fails then.
fn holds_five(alloc: Global) -> bool {
    let mut sink = MemSink::limited(alloc, 5, 2);
    put_all(&mut sink, b"abc") == Ok(())
        && put_all(&mut sink, b"defg") == Err(PortFail::Failed)
        && sink.held() == b"abcde".as_slice()
        && sink.faults() == 1
}

/// What a clock tells before and after ten milliseconds.
fn tells<C: Clock>(clock: &mut C) -> (u32, u32) {
    let before = clock.now();
    clock.pause(10);
    (before, clock.now())
}

/// Whether a clock in memory adds up what passes, and keeps its calls.
fn keeps_calls(alloc: Global) -> bool {
    let wanted = [ClockCall::Now(5), ClockCall::Pause(10), ClockCall::Now(17)];
    match MemClock::new(alloc, 5, 2) {
        Ok(mut clock) => tells(&mut clock) == (5, 17) && clock.calls() == Some(wanted.as_slice()),
        Err(_) => false,
    }
}

fn goes_on(rt: &HostRuntime) -> bool {
    let (before, after) = tells(&mut HostClock::new(rt));
    before <= after
}

#[test]
fn rooms_and_clocks(rt: HostRuntime) {
    assert!(rt; short_writes_go_on(rt.alloc()));
    assert!(rt; holds_five(rt.alloc()));
    assert!(rt; keeps_calls(rt.alloc()));
    assert!(rt; goes_on(&rt));
}
