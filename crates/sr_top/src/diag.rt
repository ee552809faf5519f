ghost use Rattle.std.specs.Prelude.{◌≡◌, [], ◌∷◌, ◌++◌, codes, IfOk, None};
ghost use Rattle.std.specs.Fmt.{decimal};
ghost use Rattle.sr_top.specs.Report as report_of;
ghost use Rattle.sr_top.specs.declared.report.Ending.TheVariants as endings;

use crate::putting::put_text;
use crate::report::{Ending, LimitKind, Side};
use sr_journal::JournalFail;
use sr_ports::Sink;
use sr_value::{Fault, NoMemory, Place, Text};
use std::alloc::Global;

/// The text for words that are no command.
const USAGE: &str =
    "usage: sr run FILE... [--workers N] [--steps N] [--ticks N] [--journal]\n       sr check FILE...\n       sr classes FILE...\n       sr gen SEED [--workers N]\n       sr replay JOURNAL FILE... [--upto N] [--where]\n       sr races JOURNAL FILE...\n       sr trace JOURNAL FILE... [--upto N] [--picture]\n       sr fmt FILE\n";

/// The number and the name of a fault.
fn fault_label(fault: Fault) -> &'static str
    ensures { result.now ≡ report_of.fault_label fault }
{
    match fault {
        Fault::Overflow => "E1 Overflow",
        Fault::ZeroDivisor => "E2 ZeroDivisor",
        Fault::Index => "E3 Index",
        Fault::Shape => "E4 Shape",
        Fault::StringLength => "E5 StringLength",
        Fault::Range => "E6 Range",
        Fault::NullCap => "E7 NullCap",
        Fault::Gone => "E8 Gone",
        Fault::BadStatus => "E9 BadStatus",
        Fault::TooLarge => "E10 TooLarge",
        Fault::Early => "E11 Early",
    }
}

fn limit_label(kind: LimitKind) -> &'static str
    ensures { result.now ≡ report_of.limit_label kind }
{
    match kind {
        LimitKind::Steps => "steps",
        LimitKind::Ticks(_) => "ticks",
        LimitKind::Input => "input",
        LimitKind::Items => "items",
        LimitKind::Races => "races",
    }
}

/// The number and the name of what a journal isn't.
fn journal_label(fail: JournalFail) -> &'static str
    ensures { result.now ≡ report_of.journal_label fail }
{
    match fail {
        JournalFail::NotJournal => "J1 NotJournal",
        JournalFail::Truncated => "J2 Truncated",
        JournalFail::Version => "J3 Version",
        JournalFail::NoMemory => "no memory",
    }
}

pub fn file_name<'a>(names: &'a [Text], file: u32) -> &'a [u8]
    ensures { result.now ≡ report_of.file_name names.now file }
{
    match names.get(file as usize) {
        None => b"",
        Some(name) => name.as_bytes(),
    }
}

/// The name of what was read of this place: a journal that is replayed comes before the files.
fn read_name<'a>(journal: &'a Option<Text>, names: &'a [Text], file: u32) -> &'a [u8]
    ensures { result.now ≡ report_of.read_name journal.now names.now file }
{
    match journal {
        None => file_name(names, file),
        Some(journal) if file == 0 => journal.as_bytes(),
        Some(_) => file_name(names, file - 1),
    }
}

/// A line that names a place and what is the matter there.
fn placed_line(alloc: Global, names: &[Text], place: Place, label: &str) -> Result<Text, NoMemory>
    ensures { IfOk result (λ text. text ≡ report_of.placed_line names.now place label.now) }
{
    let number = decimal_text(alloc, place.line)?;
    let mut text = Text::from_slice(alloc, b"sr: ")?;
    text.push_all(file_name(names, place.file))?;
    text.push_all(b":")?;
    text.push_all(number.as_bytes())?;
    text.push_all(b": ")?;
    text.push_all(label.as_bytes())?;
    text.push_all(b"\n")?;
    Ok(text)
}

/// A number in decimal.
pub fn decimal_text(alloc: Global, number: u32) -> Result<Text, NoMemory>
    ensures { IfOk result (λ text. text ≡ decimal number) }
{
    let digits = format!(in alloc; "{number}")?;
    Text::from_slice(alloc, digits.as_bytes())
}

/// A line of fixed words.
fn line(alloc: Global, words: &str, more: &str) -> Result<Text, NoMemory>
    ensures { IfOk result (λ text. text ≡ words.now ++ more.now) }
{
    let mut text = Text::from_slice(alloc, words.as_bytes())?;
    text.push_all(more.as_bytes())?;
    Ok(text)
}

/// The diagnostic text of an ending, for the name of the journal that is replayed, where one is, and the names of the files.
pub fn diag_text(
    alloc: Global,
    journal: &Option<Text>,
    names: &[Text],
    ending: Ending,
) -> Result<Text, NoMemory>
    ensures { IfOk result (λ text. text ≡ report_of.diag_text journal.now names.now ending) }
{
    match ending {
        Ending::Done => Ok(Text::new(alloc)),
        Ending::Quiet => Ok(Text::new(alloc)),
        Ending::Stopped(_) => Ok(Text::new(alloc)),
        Ending::Failed { fault, place } => placed_line(alloc, names, place, fault_label(fault)),
        Ending::Limit(kind) => limit_line(alloc, kind),
        Ending::Refused(refusal) => placed_line(alloc, names, refusal.place, refusal.kind.label()),
        Ending::NoFile(file) => no_file_line(alloc, read_name(journal, names, file)),
        Ending::ReadFault => line(alloc, "sr: input failed", "\n"),
        Ending::WriteFault => line(alloc, "sr: output failed", "\n"),
        Ending::NoMemory => line(alloc, "sr: no memory", "\n"),
        Ending::Usage => line(alloc, USAGE, ""),
        Ending::BadJournal(fail) => journal_line(alloc, journal_label(fail)),
        Ending::OtherFiles(_) => line(alloc, "sr: journal: other files", "\n"),
        Ending::Illegal(at) => illegal_line(alloc, at),
    }
}

fn journal_line(alloc: Global, label: &str) -> Result<Text, NoMemory>
    ensures { IfOk result (λ text. text ≡ codes "sr: journal: " ++ label.now ++ 10 ∷ []) }
{
    let mut text = Text::from_slice(alloc, b"sr: journal: ")?;
    text.push_all(label.as_bytes())?;
    text.push(b'\n')?;
    Ok(text)
}

fn illegal_line(alloc: Global, at: u32) -> Result<Text, NoMemory>
    ensures { IfOk result (λ text. text ≡ codes "sr: journal: item " ++ decimal at ++ codes " is no step" ++ 10 ∷ []) }
{
    let number = decimal_text(alloc, at)?;
    let mut text = Text::from_slice(alloc, b"sr: journal: item ")?;
    text.push_all(number.as_bytes())?;
    text.push_all(b" is no step")?;
    text.push(b'\n')?;
    Ok(text)
}

fn limit_line(alloc: Global, kind: LimitKind) -> Result<Text, NoMemory>
    ensures { IfOk result (λ text. text ≡ report_of.diag_text None [] (endings.Limit kind)) }
{
    let label = limit_label(kind);
    let text = format!(in alloc; "sr: limit: {label}\n")?;
    Text::from_slice(alloc, text.as_bytes())
}

fn no_file_line(alloc: Global, name: &[u8]) -> Result<Text, NoMemory>
    ensures { IfOk result (λ text. text ≡ codes "sr: cannot read " ++ name.now ++ 10 ∷ []) }
{
    let mut text = Text::from_slice(alloc, b"sr: cannot read ")?;
    text.push_all(name)?;
    text.push(b'\n')?;
    Ok(text)
}

/// The exit status of an ending.
fn ending_status(ending: Ending) -> u8
    ensures { result ≡ report_of.ending_status ending }
{
    match ending {
        Ending::Done => 0,
        Ending::Quiet => 0,
        Ending::Stopped(status) => status,
        Ending::Failed { .. } => 101,
        Ending::Limit(_) => 102,
        Ending::Refused(_) => 103,
        Ending::NoFile(_) => 104,
        Ending::ReadFault => 105,
        Ending::WriteFault => 106,
        Ending::NoMemory => 107,
        Ending::Usage => 108,
        Ending::BadJournal(_) => 110,
        Ending::OtherFiles(_) => 111,
        Ending::Illegal(_) => 109,
    }
}

/// The exit status of an ending, where the journal got this far.
pub fn status_of(ending: Ending, journal: Side) -> u8
    ensures { result ≡ report_of.status_of ending journal }
{
    match journal {
        Side::Whole => ending_status(ending),
        Side::Failed => 106,
        Side::NoMemory => 107,
    }
}

/// Puts the diagnostic text of an ending.
pub fn put_diag<D: Sink>(
    alloc: Global,
    journal: &Option<Text>,
    names: &[Text],
    ending: Ending,
    diag: &mut D,
) -> Side
    ensures { report_of.GotAsFar result (report_of.diag_text journal.now names.now ending) (D.held diag.old) (D.held diag.new) (D.faults diag.old) (D.faults diag.new) }
{
    let Ok(text) = diag_text(alloc, journal, names, ending) else {
        return Side::NoMemory;
    };
    put_text(text.as_bytes(), diag)
}
