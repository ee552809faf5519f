ghost use Rattle.std.specs.Prelude.{◌≡◌, ◌<◌, ◌≤◌, IfErr, IfOk, OnOk, length, min};
ghost use Rattle.sr_journal.specs.Causes.{IsJournal};
ghost use Rattle.sr_ports.specs.Files.{next_read};
ghost use Rattle.sr_top.specs.Reading.{reads_by};
ghost use Rattle.sr_top.specs.Stages.{EndsBytes, EndsJournal, IsJournalOf};

use crate::report::Ending;
use sr_ask::Item;
use sr_journal::{Header, JournalFail, read_journal};
use sr_ports::{Files, PortFail};
use sr_value::{Row, Text};
use std::alloc::Global;

/// The bytes of a journal that are read.
const JOURNAL_MOST: usize = 536_870_912;

/// A journal that was read.
#[derive(Drop)]
pub struct Journal {
    pub header: Header,
    pub items: Row<Item>,
}

/// Reads a journal. A name is a text, as the words are; for other bytes there is no memory.
pub fn journal_in<F: Files>(alloc: Global, name: &Text, files: &mut F) -> Result<Journal, Ending>
    ensures read { IfOk result (IsJournalOf (F.content files.old) name.now) }
    ensures no_fault { OnOk result (F.faults files.new ≡ F.faults files.old) }
    ensures reads { OnOk result ((F.readings files.new).reads ≡ next_read (F.readings files.old).reads) }
    ensures ends { IfErr result (EndsJournal (F.content files.old) name.now (reads_by (F.readings files.old) (F.faults files.old)) (reads_by (F.readings files.new) (F.faults files.new))) }
    ensures kept { F.content files.new ≡ F.content files.old }
{
    let Ok(path) = str::from_utf8(name.as_bytes()) else {
        return Err(Ending::NoMemory);
    };
    match files.read(alloc, path, JOURNAL_MOST) {
        Ok(bytes) => journal_of(alloc, bytes.as_slice()),
        Err(PortFail::Failed) => Err(Ending::NoFile(0)),
        Err(PortFail::NoMemory) => Err(Ending::NoMemory),
    }
}

/// The journal in these bytes.
fn journal_of(alloc: Global, bytes: &[u8]) -> Result<Journal, Ending>
    ensures is { IfOk result (λ journal. IsJournal journal.header journal.items bytes.now) }
    ensures ends { IfErr result (EndsBytes bytes.now) }
{
    match read_journal(alloc, bytes) {
        Ok((header, items)) => Ok(Journal { header, items }),
        Err(JournalFail::NoMemory) => Err(Ending::NoMemory),
        Err(fail) => Err(Ending::BadJournal(fail)),
    }
}

/// How many of the items of a journal are looked at, where so many are asked for at most.
pub fn count_upto(journal: &Journal, upto: u32) -> u32
    ensures count { result ≡ min upto (length journal.now.items) }
    ensures within { result ≤ length journal.now.items }
{
    fewer(upto as usize, journal.items.len()) as u32
}

/// The less of two numbers.
fn fewer(one: usize, other: usize) -> usize
    ensures one { one ≤ other → result ≡ one }
    ensures other { other < one → result ≡ other }
    ensures most { result ≤ one }
    ensures least { result ≤ other }
{
    if one <= other { one } else { other }
}
