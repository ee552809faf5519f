use crate::commands::PHILOSOPHERS;
use crate::support::{Case, called, called_over, goes_so, silent};
use sr_ports::{MemSink, MemSource};
use sr_text::{Kind, Refusal};
use sr_top::{Ending, LimitKind};
use sr_value::{Fault, NoMemory, Place, Row, Text};
use std::alloc::Global;
use std::test::Fail;

/// Text, then a part so many times, text, another part as often, and text.
fn repeated(
    alloc: Global,
    before: &[u8],
    first: (&[u8], u8),
    between: &[u8],
    second: (&[u8], u8),
    after: &[u8],
) -> Result<Vec<u8>, NoMemory> {
    let mut text = Vec::from_slice(alloc, before)?;
    add(&mut text, first.0, first.1)?;
    text.extend_from_slice(between)?;
    add(&mut text, second.0, second.1)?;
    text.extend_from_slice(after)?;
    Ok(text)
}

/// Adds a part so many times.
fn add(text: &mut Vec<u8>, part: &[u8], times: u8) -> Result<(), NoMemory> {
    for _ in 0..times {
        text.extend_from_slice(part)?;
    }
    Ok(())
}

/// How a text ends, and what it writes.
fn ends_so(alloc: Global, text: &[u8], ending: Ending, wanted: &[u8]) -> Result<bool, NoMemory> {
    let mut output = MemSink::new(alloc, 100, Row::new(alloc));
    let mut diag = MemSink::new(alloc, 100, Row::new(alloc));
    let mut journal = MemSink::new(alloc, 100, Row::new(alloc));
    let files = [("a.sr", text)];
    let case = silent(&["run", "a.sr"], &files);
    let report = called(alloc, &case, &mut output, &mut diag, &mut journal)?;
    Ok(report.ending == ending && output.held() == wanted)
}

const TOO_LARGE: Ending = Ending::Refused(Refusal {
    kind: Kind::Large,
    place: Place { file: 0, line: 2 },
});

/// Brackets in brackets, and a run of signs, at the limit and past it.
#[test]
fn nesting(rt: HostRuntime) -> Result<(), Fail> {
    let rows: [(u8, Ending, &[u8]); 2] = [(64, Ending::Quiet, b"1\n"), (65, TOO_LARGE, b"")];
    for (depth, ending, output) in rows {
        let text = repeated(
            rt.alloc(),
            b"resource main()\n  write",
            (b"(", depth),
            b"1",
            (b")", depth),
            b"\nend\n",
        )?;
        assert!(rt;
            ends_so(rt.alloc(), &text, ending, output)?,
            "{depth} brackets"
        );
    }
    Ok(())
}

#[test]
fn signs(rt: HostRuntime) -> Result<(), Fail> {
    let rows: [(u8, Ending, &[u8]); 2] = [(63, Ending::Quiet, b"64\n"), (64, TOO_LARGE, b"")];
    for (count, ending, output) in rows {
        let text = repeated(
            rt.alloc(),
            b"resource main()\n  write(1",
            (b"+1", count),
            b"",
            (b"", 0),
            b")\nend\n",
        )?;
        assert!(rt;
            ends_so(rt.alloc(), &text, ending, output)?,
            "{count} signs"
        );
    }
    Ok(())
}

/// Whether so many first bytes of the philosophers are refused.
fn is_refused(alloc: Global, bytes: usize) -> Result<bool, NoMemory> {
    let mut output = MemSink::new(alloc, 100, Row::new(alloc));
    let mut diag = MemSink::new(alloc, 100, Row::new(alloc));
    let mut journal = MemSink::new(alloc, 100, Row::new(alloc));
    let files = [("a.sr", &PHILOSOPHERS[..bytes.min(PHILOSOPHERS.len())])];
    let case = silent(&["run", "a.sr"], &files);
    let report = called(alloc, &case, &mut output, &mut diag, &mut journal)?;
    Ok(report.status == 103 && output.held().is_empty())
}

/// No prefix of a program that lacks its last `end` is a program.
#[test]
fn prefixes(rt: HostRuntime) -> Result<(), Fail> {
    for bytes in 0..PHILOSOPHERS.len().saturating_sub(1) {
        assert!(rt; is_refused(rt.alloc(), bytes)?, "{bytes} bytes");
    }
    Ok(())
}

/// A read of a string of at most five characters.
const READ: &[u8] = b"resource main()\n  var s : string[5]\n  read(s)\nend\n";

/// How a read ends with an input of so many letters, in pieces of 4,096 bytes, and the status.
fn read_long(alloc: Global, bytes: usize) -> Result<(Ending, u8), NoMemory> {
    let mut letters = Vec::new(alloc);
    letters.resize(bytes, b'a')?;
    let mut input = MemSource::new(Text::from_vec(letters), 4096, Row::new(alloc));
    let mut output = MemSink::new(alloc, 100, Row::new(alloc));
    let words = ["run", "a.sr"];
    let report = called_over(alloc, &words, ("a.sr", READ), &mut input, &mut output)?;
    Ok((report.ending, report.status))
}

/// The longest input, and one that is too long.
#[test]
fn long_inputs(rt: HostRuntime) -> Result<(), Fail> {
    let too_long = Ending::Failed {
        fault: Fault::StringLength,
        place: Place { file: 0, line: 3 },
    };
    let rows = [
        (67_108_863, too_long, 101),
        (67_108_864, Ending::Limit(LimitKind::Input), 102),
    ];
    for (bytes, ending, status) in rows {
        let (found, told) = read_long(rt.alloc(), bytes)?;
        assert!(rt; found == ending && told == status, "{bytes} bytes");
    }
    Ok(())
}

/// Processes that double themselves end at the limit on items, with any number of workers.
#[test]
fn many_items(rt: HostRuntime) -> Result<(), Fail> {
    let doubling: [(&str, &[u8]); 1] = [(
        "a.sr",
        b"resource main()\n  op f()\n  proc f()\n    send f(); send f()\n  end\n  send f()\nend\n",
    )];
    for workers in ["1", "4"] {
        let words = ["run", "a.sr", "--steps", "20000", "--workers", workers];
        let case = Case {
            status: 102,
            items: 20_000,
            diag: b"sr: limit: steps\n",
            ..silent(&words, &doubling)
        };
        assert!(rt; goes_so(rt.alloc(), &case)?, "{workers} workers");
    }
    Ok(())
}
