ghost use Rattle.std.specs.Prelude.{◌≡◌, ◌≢◌, ◌↔◌, List, Ok, Err, IsTrue, IfOk};
ghost use Rattle.sr_ask.specs.declared.item.Item.{Item as item};
ghost use Rattle.sr_journal.specs.declared.header.Header.{Header as header};
ghost use Rattle.sr_journal.specs.declared.fail.JournalFail.TheVariants.{NotJournal as not_journal, Truncated as truncated, Version as other_version, NoMemory as out_of_memory};
ghost use Rattle.sr_journal.specs.Journal.{IsVersion};
ghost use Rattle.sr_journal.specs.Causes.{IsJournal, IsBeginning, IsOtherVersion, IsNoJournal, ComesExactlyFor};
ghost use Rattle.sr_journal.specs.Reading.{Tells, Gives, file_at, files_at, limits_at, step_at, quiesce_at, tick_at, item_at, items_at, many_at, first_line_at, parts_at, journal_at};

use crate::fail::JournalFail;
use crate::header::Header;
use crate::name::name;
use crate::number::{NO_LIMIT, limited, number, word};
use sr_ask::Item;
use sr_value::{Row, Text};
use std::alloc::Global;

const MOST_FILES: u32 = 64;

const MOST_BYTES: u32 = 1_048_576;

const MOST_STEPS: u32 = 16_000_000;

const MOST_TICKS: u32 = 1_000_000_000;

/// The last version, whose items tell of time.
const LAST_VERSION: u32 = 2;

const LAST_MOMENT: u32 = 2_147_483_647;

/// Reads the text of a journal, version 1 or 2.
pub fn read_journal(alloc: Global, bytes: &[u8]) -> Result<(Header, Row<Item>), JournalFail>
    // What is read was written so, and what was written is read again.
    ensures read { IfOk result (λ found. IsJournal found.0 found.1 bytes.now) }
    ensures read_again { (h : header) (items : List item) → IsJournal h items bytes.now → result ≢ Err out_of_memory → result ≡ Ok (h, items) }

    // Each error has its cause.
    ensures version { (result ≡ Err other_version) ↔ IsOtherVersion bytes.now }
    ensures truncated { ComesExactlyFor result truncated (IsBeginning bytes.now) }
    ensures not_journal { ComesExactlyFor result not_journal (IsNoJournal bytes.now) }
{
    if is_other_version(bytes) {
        return Err(JournalFail::Version);
    }
    journal(alloc, bytes)
}

fn is_other_version(bytes: &[u8]) -> bool
    ensures { IsTrue result ↔ IsOtherVersion bytes.now }
{
    match word(bytes, b"SRJ") {
        Ok(rest) => match number(rest, true, NO_LIMIT, b'\n') {
            Ok((version, _)) => !is_known(version),
            Err(_) => false,
        },
        Err(_) => false,
    }
}

fn is_known(version: usize) -> bool
    ensures { IsTrue result ↔ IsVersion version }
{
    version >= 1 && version <= LAST_VERSION as usize
}

/// Reads a journal, after whose last line nothing stands.
#[tactic(auto, unfolding(crate::specs::Reading::journal_at))]
fn journal(alloc: Global, bytes: &[u8]) -> Result<(Header, Row<Item>), JournalFail>
    ensures { Gives (λ x. x) result (journal_at bytes.now) }
{
    let (version, bytes) = first_line(bytes)?;
    let (journal, rest) = parts(alloc, bytes, version == LAST_VERSION)?;
    if !rest.is_empty() {
        return Err(JournalFail::NotJournal);
    }
    Ok(journal)
}

#[tactic(auto, unfolding(crate::specs::Reading::first_line_at))]
fn first_line(bytes: &[u8]) -> Result<(u32, &[u8]), JournalFail>
    ensures { Tells (λ x. (x.0, x.1.now)) result (first_line_at bytes.now) }
{
    let bytes = word(bytes, b"SRJ")?;
    limited(bytes, false, LAST_VERSION, b'\n')
}

/// Reads what stands after the first line.
#[tactic(auto, unfolding(crate::specs::Reading::parts_at))]
fn parts(
    alloc: Global,
    bytes: &[u8],
    timed: bool,
) -> Result<((Header, Row<Item>), &[u8]), JournalFail>
    ensures { Gives (λ x. (x.0, x.1.now)) result (parts_at timed bytes.now) }
{
    let (files, bytes) = files(alloc, bytes)?;
    let (steps, ticks, bytes) = limits(bytes)?;
    let (items, bytes) = items(alloc, bytes, timed, steps)?;
    let bytes = word(bytes, b"end\n")?;
    let header = Header {
        files,
        steps,
        ticks,
    };
    Ok(((header, items), bytes))
}

#[tactic(auto, unfolding(crate::specs::Reading::files_at))]
fn files(alloc: Global, bytes: &[u8]) -> Result<(Row<(u32, Text)>, &[u8]), JournalFail>
    ensures { Gives (λ x. (x.0, x.1.now)) result (files_at bytes.now) }
{
    let bytes = word(bytes, b"files ")?;
    let (count, bytes) = limited(bytes, false, MOST_FILES, b'\n')?;
    file_lines(alloc, bytes, count)
}

fn file_lines(
    alloc: Global,
    bytes: &[u8],
    count: u32,
) -> Result<(Row<(u32, Text)>, &[u8]), JournalFail>
    ensures { Gives (λ x. (x.0, x.1.now)) result (many_at file_at count bytes.now) }
{
    let mut files = Row::new(alloc);
    let mut rest = bytes;
    for _ in 0..count {
        let (file, after) = file_line(alloc, rest)?;
        files.push(file)?;
        rest = after;
    }
    Ok((files, rest))
}

#[tactic(auto, unfolding(crate::specs::Reading::file_at))]
fn file_line(alloc: Global, bytes: &[u8]) -> Result<((u32, Text), &[u8]), JournalFail>
    ensures { Gives (λ x. (x.0, x.1.now)) result (file_at bytes.now) }
{
    let (size, bytes) = limited(bytes, true, MOST_BYTES, b' ')?;
    let (length, bytes) = number(bytes, true, NO_LIMIT, b' ')?;
    let (name, bytes) = name(alloc, bytes, length)?;
    Ok(((size, name), bytes))
}

#[tactic(auto, unfolding(crate::specs::Reading::limits_at))]
fn limits(bytes: &[u8]) -> Result<(u32, u32, &[u8]), JournalFail>
    ensures { Tells (λ x. ((x.0, x.1), x.2.now)) result (limits_at bytes.now) }
{
    let bytes = word(bytes, b"steps ")?;
    let (steps, bytes) = limited(bytes, false, MOST_STEPS, b' ')?;
    let bytes = word(bytes, b"ticks ")?;
    let (ticks, bytes) = limited(bytes, false, MOST_TICKS, b'\n')?;
    Ok((steps, ticks, bytes))
}

#[tactic(auto, unfolding(crate::specs::Reading::items_at))]
fn items(
    alloc: Global,
    bytes: &[u8],
    timed: bool,
    most: u32,
) -> Result<(Row<Item>, &[u8]), JournalFail>
    ensures { Gives (λ x. (x.0, x.1.now)) result (items_at timed most bytes.now) }
{
    let bytes = word(bytes, b"items ")?;
    let (count, bytes) = limited(bytes, true, most, b'\n')?;
    item_lines(alloc, bytes, timed, count)
}

fn item_lines(
    alloc: Global,
    bytes: &[u8],
    timed: bool,
    count: u32,
) -> Result<(Row<Item>, &[u8]), JournalFail>
    ensures { Gives (λ x. (x.0, x.1.now)) result (many_at (item_at timed) count bytes.now) }
{
    let mut items = Row::new(alloc);
    let mut rest = bytes;
    for _ in 0..count {
        let (item, after) = item_line(rest, timed)?;
        items.push(item)?;
        rest = after;
    }
    Ok((items, rest))
}

#[tactic(auto, unfolding(crate::specs::Reading::item_at))]
fn item_line(bytes: &[u8], timed: bool) -> Result<(Item, &[u8]), JournalFail>
    ensures { Tells (λ x. (x.0, x.1.now)) result (item_at timed bytes.now) }
{
    match bytes {
        [] => Err(JournalFail::Truncated),
        [b's', rest @ ..] => step(rest),
        [b'q', rest @ ..] => quiesce(rest),
        [b't', rest @ ..] if timed => tick(rest),
        [_, ..] => Err(JournalFail::NotJournal),
    }
}

#[tactic(auto, unfolding(crate::specs::Reading::step_at))]
fn step(bytes: &[u8]) -> Result<(Item, &[u8]), JournalFail>
    ensures { Tells (λ x. (x.0, x.1.now)) result (step_at bytes.now) }
{
    let bytes = word(bytes, b" ")?;
    let (actor, bytes) = limited(bytes, false, u32::MAX, b' ')?;
    let (name, bytes) = limited(bytes, true, u32::MAX, b'\n')?;
    Ok((Item::Step { actor, name }, bytes))
}

#[tactic(auto, unfolding(crate::specs::Reading::quiesce_at))]
fn quiesce(bytes: &[u8]) -> Result<(Item, &[u8]), JournalFail>
    ensures { Tells (λ x. (x.0, x.1.now)) result (quiesce_at bytes.now) }
{
    let bytes = word(bytes, b" ")?;
    let (name, bytes) = limited(bytes, true, u32::MAX, b'\n')?;
    Ok((Item::Quiesce { name }, bytes))
}

#[tactic(auto, unfolding(crate::specs::Reading::tick_at))]
fn tick(bytes: &[u8]) -> Result<(Item, &[u8]), JournalFail>
    ensures { Tells (λ x. (x.0, x.1.now)) result (tick_at bytes.now) }
{
    let bytes = word(bytes, b" ")?;
    let (to, bytes) = limited(bytes, false, LAST_MOMENT, b'\n')?;
    Ok((Item::Tick { to }, bytes))
}
