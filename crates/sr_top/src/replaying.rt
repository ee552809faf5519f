ghost use Rattle.std.specs.Prelude.{◌≡◌, ◌<◌, ◌≤◌, ℕ, List, IfErr, IfOk, None, Some, false};
ghost use Rattle.sr_top.specs.Causes.{HasCause, call_of, devices};
ghost use Rattle.sr_top.specs.Placing.{shown_text};
ghost use Rattle.sr_top.specs.Programs.{core_in};
ghost use Rattle.sr_top.specs.Reading.{reads_by};
ghost use Rattle.sr_top.specs.Replaying.{AreLines, AreSeen, is_too_long_for};
ghost use Rattle.sr_top.specs.Stages.{EndsAfterItems, EndsAfterJournal, EndsAfterProgram, EndsItems, EndsText, HasLinesOf, HasTextOf, IsText, IsTextOf, inputs, run_of};
ghost use Rattle.sr_top.specs.Tasks as tasks;
ghost use Rattle.sr_top.specs.declared.question.Question.TheVariants as question;
ghost use Rattle.sr_top.specs.declared.report.Ending.TheVariants as endings;

use crate::input::whole_input;
use crate::outcome::{Outcome, without_items};
use crate::placing::push_places;
use crate::program::{Process, Program};
use crate::putting::put_lines;
use crate::question::{Question, View};
use crate::racing::text_of_races;
use crate::recorded::{Journal, count_upto, journal_in};
use crate::report::{Ending, LimitKind};
use crate::told_files::program_of;
use crate::tracing::text_of_trace;
use sr_ports::{Files, Sink, Source};
use sr_races::is_too_long;
use sr_replay::{Replayed, Snapshot, replay, snapshot_text};
use sr_value::{NoMemory, Text};
use std::alloc::Global;

/// Replays a journal over the program in the files of these names, and puts the lines that answer a question.
pub fn replay_journal<F: Files, I: Source, O: Sink>(
    alloc: Global,
    journal: &Text,
    names: &[Text],
    question: Question,
    files: &mut F,
    input: &mut I,
    output: &mut O,
) -> Outcome
    ensures cause { (words : List (List ℕ)) → tasks.task words ≡ Some (tasks.Replays journal.now names.now question) → HasCause
        (call_of words (F.content files.old) (reads_by (F.readings files.old) (F.faults files.old)) (reads_by (F.readings files.new) (F.faults files.new))
        (devices (I.left input.old) (I.faults input.old) (O.held output.old) (O.faults output.old))
        (devices (I.left input.new) (I.faults input.new) (O.held output.new) (O.faults output.new))
        result.items result.rounds)
        result.ending }
    ensures header { result.header ≡ None }
    ensures files { F.content files.new ≡ F.content files.old }
{
    match replayed_text(alloc, journal, names, question, files, input) {
        Ok(text) => without_items(alloc, put_lines(text.as_bytes(), output)),
        Err(ending) => without_items(alloc, ending),
    }
}

/// The lines that answer a question about a journal.
fn replayed_text<F: Files, I: Source>(
    alloc: Global,
    journal: &Text,
    names: &[Text],
    question: Question,
    files: &mut F,
    input: &mut I,
) -> Result<Text, Ending>
    ensures text { IfOk result (IsText (F.content files.old) journal.now names.now question (reads_by (F.readings files.old) (F.faults files.old)) (reads_by (F.readings files.new) (F.faults files.new)) (inputs (I.left input.old) (I.faults input.old)) (inputs (I.left input.new) (I.faults input.new))) }
    ensures ends { IfErr result (EndsText (F.content files.old) journal.now names.now question (reads_by (F.readings files.old) (F.faults files.old)) (reads_by (F.readings files.new) (F.faults files.new)) (inputs (I.left input.old) (I.faults input.old)) (inputs (I.left input.new) (I.faults input.new))) }
    ensures kept { F.content files.new ≡ F.content files.old }
{
    match journal_in(alloc, journal, files) {
        Ok(journal) => text_of_journal(alloc, &journal, names, question, files, input),
        Err(ending) => Err(ending),
    }
}

/// The same for a journal that was read.
fn text_of_journal<F: Files, I: Source>(
    alloc: Global,
    journal: &Journal,
    names: &[Text],
    question: Question,
    files: &mut F,
    input: &mut I,
) -> Result<Text, Ending>
    ensures text { IfOk result (HasTextOf (F.content files.old) journal.now names.now question (reads_by (F.readings files.old) (F.faults files.old)) (reads_by (F.readings files.new) (F.faults files.new)) (inputs (I.left input.old) (I.faults input.old)) (inputs (I.left input.new) (I.faults input.new))) }
    ensures ends { IfErr result (EndsAfterJournal (F.content files.old) journal.now names.now question (reads_by (F.readings files.old) (F.faults files.old)) (reads_by (F.readings files.new) (F.faults files.new)) (inputs (I.left input.old) (I.faults input.old)) (inputs (I.left input.new) (I.faults input.new))) }
    ensures kept { F.content files.new ≡ F.content files.old }
{
    match is_too_long_for(alloc, question, journal) {
        Ok(long) => {
            if long {
                return Err(Ending::Limit(LimitKind::Items));
            }
            text_of_files(alloc, journal, names, question, files, input)
        }
        Err(_) => Err(Ending::NoMemory),
    }
}

/// Whether a journal has more items than a question may have.
fn is_too_long_for(alloc: Global, question: Question, journal: &Journal) -> Result<bool, NoMemory>
    ensures { IfOk result (λ long. long ≡ is_too_long_for question journal.now.items) }
{
    match question {
        Question::Seen(_) => Ok(false),
        Question::Races => is_too_long(alloc, &journal.items),
        Question::Trace(_) => Ok(false),
    }
}

/// The same for a journal whose items aren't too many.
fn text_of_files<F: Files, I: Source>(
    alloc: Global,
    journal: &Journal,
    names: &[Text],
    question: Question,
    files: &mut F,
    input: &mut I,
) -> Result<Text, Ending>
    requires fits { is_too_long_for question journal.now.items ≡ false }
    ensures text { IfOk result (IsTextOf (F.content files.old) journal.now names.now question (reads_by (F.readings files.old) (F.faults files.old)) (reads_by (F.readings files.new) (F.faults files.new)) (inputs (I.left input.old) (I.faults input.old)) (inputs (I.left input.new) (I.faults input.new))) }
    ensures ends { IfErr result (EndsAfterItems (F.content files.old) journal.now names.now question (reads_by (F.readings files.old) (F.faults files.old)) (reads_by (F.readings files.new) (F.faults files.new)) (inputs (I.left input.old) (I.faults input.old)) (inputs (I.left input.new) (I.faults input.new))) }
    ensures kept { F.content files.new ≡ F.content files.old }
{
    match program_of(alloc, &journal.header, names, files) {
        Ok(program) => text_of_program(alloc, journal, &program, names, question, input),
        Err(ending) => Err(ending),
    }
}

/// The same for a program.
fn text_of_program<I: Source>(
    alloc: Global,
    journal: &Journal,
    program: &Program,
    names: &[Text],
    question: Question,
    input: &mut I,
) -> Result<Text, Ending>
    requires fits { is_too_long_for question journal.now.items ≡ false }
    ensures lines { IfOk result (HasLinesOf (core_in program.now) journal.now names.now question (inputs (I.left input.old) (I.faults input.old)) (inputs (I.left input.new) (I.faults input.new))) }
    ensures ends { IfErr result (EndsAfterProgram (core_in program.now) journal.now question (inputs (I.left input.old) (I.faults input.old)) (inputs (I.left input.new) (I.faults input.new))) }
{
    match whole_input(alloc, input) {
        Ok(taken) => text_of_items(alloc, journal, program, names, &taken, question),
        Err(ending) => Err(ending),
    }
}

/// The same for an input.
fn text_of_items(
    alloc: Global,
    journal: &Journal,
    program: &Program,
    names: &[Text],
    input: &Text,
    question: Question,
) -> Result<Text, Ending>
    requires fits { is_too_long_for question journal.now.items ≡ false }
    ensures lines { IfOk result (AreLines question names.now journal.now.header.steps (run_of (core_in program.now) journal.now input.now)) }
    ensures ends { IfErr result (EndsItems question journal.now.header.steps (run_of (core_in program.now) journal.now input.now)) }
{
    match question {
        Question::Seen(view) => text_of_view(alloc, journal, program, names, input, view),
        Question::Races => text_of_races(alloc, journal, program, names, input),
        Question::Trace(tracing) => text_of_trace(alloc, journal, program, names, input, tracing),
    }
}

/// The lines of what is to be seen after the first items.
fn text_of_view(
    alloc: Global,
    journal: &Journal,
    program: &Program,
    names: &[Text],
    input: &Text,
    view: View,
) -> Result<Text, Ending>
    ensures lines { IfOk result (AreSeen view names.now journal.now.header.steps (run_of (core_in program.now) journal.now input.now)) }
    ensures ends { IfErr result (EndsItems (question.Seen view) journal.now.header.steps (run_of (core_in program.now) journal.now input.now)) }
{
    let items = &journal.items;
    let header = &journal.header;
    let upto = count_upto(journal, view.upto);
    match replay::<Process>(
        alloc,
        program,
        header.steps,
        header.ticks,
        input,
        items,
        upto,
    ) {
        Ok(Replayed::Reached(snapshot)) => lines_of(alloc, program, names, view.places, &snapshot),
        Ok(Replayed::Illegal { at }) => Err(Ending::Illegal(at)),
        Err(_) => Err(Ending::NoMemory),
    }
}

/// The lines of a snapshot.
fn lines_of(
    alloc: Global,
    program: &Program,
    names: &[Text],
    places: bool,
    snapshot: &Snapshot,
) -> Result<Text, Ending>
    ensures lines { IfOk result (λ text. text ≡ shown_text (core_in program.now) names.now places snapshot.now) }
    ensures ends { IfErr result (λ ending. ending ≡ endings.NoMemory) }
{
    match placed_text(alloc, program, names, places, snapshot) {
        Ok(text) => Ok(text),
        Err(_) => Err(Ending::NoMemory),
    }
}

/// The lines of a snapshot, and after them those of places, where they are asked for.
fn placed_text(
    alloc: Global,
    program: &Program,
    names: &[Text],
    places: bool,
    snapshot: &Snapshot,
) -> Result<Text, NoMemory>
    ensures { IfOk result (λ text. text ≡ shown_text (core_in program.now) names.now places snapshot.now) }
{
    let mut text = snapshot_text(alloc, &program.program().core, snapshot)?;
    if places {
        push_places(alloc, &mut text, names, snapshot.processes.as_slice())?;
    }
    Ok(text)
}
