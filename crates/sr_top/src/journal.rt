ghost use Rattle.std.specs.Prelude.{◌≡◌, [], ◌∷◌, ◌++◌, IfNone, IfOk, IfSome, OnOk};
ghost use Rattle.sr_journal.specs.Journal.{IsInRange, journal_text};
ghost use Rattle.sr_top.specs.Journal as defined;
ghost use Rattle.sr_top.specs.Reading.{size_of, sizes_of};
ghost use Rattle.sr_top.specs.Report.{GotAsFar};
ghost use Rattle.sr_top.specs.declared.report.Side.TheVariants as sides;

use crate::putting::put_text;
use crate::report::Side;
use sr_ask::Item;
use sr_journal::{Header, write_journal};
use sr_ports::Sink;
use sr_value::{Duplicate, NoMemory, Row, Text};
use std::alloc::Global;

/// What stands in the journal of a run of these files before its items.
pub fn header_of(
    alloc: Global,
    files: &[(Text, Text)],
    steps: u32,
    ticks: u32,
) -> Result<Header, NoMemory>
    ensures { IfOk result (λ header. header ≡ defined.header_of files.now steps ticks) }
{
    let mut sizes = Row::new(alloc);
    push_sizes(alloc, files, &mut sizes)?;
    Ok(Header {
        files: sizes,
        steps,
        ticks,
    })
}

/// Adds the length and the name of each file.
fn push_sizes(
    alloc: Global,
    files: &[(Text, Text)],
    sizes: &mut Row<(u32, Text)>,
) -> Result<(), NoMemory>
    ensures { OnOk result (sizes.new ≡ sizes.old ++ sizes_of files.now) }
{
    for file in files {
        push_size(alloc, file, sizes)?;
    }
    Ok(())
}

/// Adds the length and the name of a file. No file that was read is longer than a `u32` tells; for one that is there is
/// no memory.
fn push_size(
    alloc: Global,
    file: &(Text, Text),
    sizes: &mut Row<(u32, Text)>,
) -> Result<(), NoMemory>
    ensures { OnOk result (sizes.new ≡ sizes.old ++ size_of file.now ∷ []) }
{
    let (name, bytes) = file;
    let Ok(length) = u32::try_from(bytes.len()) else {
        return Err(NoMemory);
    };
    let name = name.copy(alloc)?;
    sizes.push((length, name))
}

/// Puts the journal of a run, where one is kept.
pub fn put_journal<J: Sink>(
    alloc: Global,
    header: &Option<Header>,
    items: &Row<Item>,
    journal: &mut J,
) -> Side
    requires in_range { IfSome header.now (λ header. IsInRange header items.now) }
    ensures put { IfSome header.now (λ header. GotAsFar result (journal_text header items.now) (J.held journal.old) (J.held journal.new) (J.faults journal.old) (J.faults journal.new)) }
    ensures whole { IfNone header.now (result ≡ sides.Whole) }
    ensures untouched { IfNone header.now (journal.new ≡ journal.old) }
{
    match header {
        None => Side::Whole,
        Some(header) => match write_journal(alloc, header, items) {
            Ok(text) => put_text(text.as_bytes(), journal),
            Err(_) => Side::NoMemory,
        },
    }
}
