ghost use Rattle.std.specs.Prelude.{◌≡◌, [], map, string_bytes, IfSome};
ghost use Rattle.sr_journal.specs.Journal.{IsInRange};
ghost use Rattle.sr_top.specs.Causes.{HasCause, call_of, devices};
ghost use Rattle.sr_top.specs.Journal.{HasHeaderIf};
ghost use Rattle.sr_top.specs.Outcome.{HasOutcome};
ghost use Rattle.sr_top.specs.Reading.{reads_by};
ghost use Rattle.sr_top.specs.Report as report_of;
ghost use Rattle.sr_top.specs.Tasks.{file_names, replayed_journal};

use crate::diag::{put_diag, status_of};
use crate::journal::put_journal;
use crate::obeying::{Obeyed, obey};
use crate::report::{Ending, Report};
use sr_ports::{Files, Gate, Sink, Source};
use sr_value::Row;
use sr_words::{WordsFail, read_words};
use std::alloc::Global;

/// What the program does: reads its words, reads and compiles the files that they name, runs their program, and says how
/// that ended. Where the words ask for a journal of a run, it is put at the end.
///
/// With several workers all of them are one thread, which makes their stretches by passes; `gate` is for threads.
pub fn sr_top<F: Files, I: Source, O: Sink, D: Sink, J: Sink, G: Gate + Sync>(
    alloc: Global,
    words: &[String],
    files: &mut F,
    input: &mut I,
    output: &mut O,
    diag: &mut D,
    journal: &mut J,
    gate: &G,
) -> Report
    ensures call { let call = call_of (map string_bytes words.now)
        (F.content files.old) (reads_by (F.readings files.old) (F.faults files.old)) (reads_by (F.readings files.new) (F.faults files.new))
        (devices (I.left input.old) (I.faults input.old) (O.held output.old) (O.faults output.old))
        (devices (I.left input.new) (I.faults input.new) (O.held output.new) (O.faults output.new))
        result.items result.rounds in
        HasOutcome call result.ending result.journal journal.old journal.new (J.held journal.old) (J.held journal.new) (J.faults journal.old) (J.faults journal.new) }
    ensures files { F.content files.new ≡ F.content files.old }
    ensures diag { report_of.GotAsFar result.diag (report_of.diag_text (replayed_journal (map string_bytes words.now)) (file_names (map string_bytes words.now)) result.ending)
        (D.held diag.old) (D.held diag.new) (D.faults diag.old) (D.faults diag.new) }
    ensures status { result.status ≡ report_of.status_of result.ending result.journal }
{
    let obeyed = obey_words(alloc, words, files, input, output);
    let Obeyed {
        replayed,
        names,
        ending,
        items,
        rounds,
        header,
    } = obeyed;
    let diag = put_diag(alloc, &replayed, names.as_slice(), ending, diag);
    let journal = put_journal(alloc, &header, &items, journal);
    Report {
        ending,
        diag,
        journal,
        status: status_of(ending, journal),
        items,
        rounds,
    }
}

/// Does what the words say.
fn obey_words<F: Files, I: Source, O: Sink>(
    alloc: Global,
    words: &[String],
    files: &mut F,
    input: &mut I,
    output: &mut O,
) -> Obeyed
    ensures cause { HasCause
        (call_of (map string_bytes words.now) (F.content files.old) (reads_by (F.readings files.old) (F.faults files.old)) (reads_by (F.readings files.new) (F.faults files.new))
        (devices (I.left input.old) (I.faults input.old) (O.held output.old) (O.faults output.old))
        (devices (I.left input.new) (I.faults input.new) (O.held output.new) (O.faults output.new))
        result.items result.rounds)
        result.ending }
    ensures header { HasHeaderIf
        (call_of (map string_bytes words.now) (F.content files.old) (reads_by (F.readings files.old) (F.faults files.old)) (reads_by (F.readings files.new) (F.faults files.new))
        (devices (I.left input.old) (I.faults input.old) (O.held output.old) (O.faults output.old))
        (devices (I.left input.new) (I.faults input.new) (O.held output.new) (O.faults output.new))
        result.items result.rounds)
        result.ending result.header }
    ensures in_range { IfSome result.header (λ header. IsInRange header result.items) }
    ensures names { report_of.diag_text result.replayed result.names result.ending ≡ report_of.diag_text (replayed_journal (map string_bytes words.now)) (file_names (map string_bytes words.now)) result.ending }
    ensures files { F.content files.new ≡ F.content files.old }
{
    match read_words(alloc, words) {
        Ok(command) => obey(alloc, command, files, input, output),
        Err(WordsFail::Usage) => Obeyed::early(alloc, Ending::Usage),
        Err(WordsFail::NoMemory) => Obeyed::early(alloc, Ending::NoMemory),
    }
}
