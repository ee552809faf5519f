ghost use Rattle.std.specs.Prelude.{◌≡◌, ℕ, false, List, [], ◌∷◌, Option, None, Some, IfOk, IfSome};
ghost use Rattle.sr_journal.specs.Journal.{IsInRange};
ghost use Rattle.sr_run.specs.Runs.{Devices};
ghost use Rattle.sr_top.specs.Causes.{HasCause, call_of, devices};
ghost use Rattle.sr_top.specs.Journal.{CanBeAsked, HasHeaderIf};
ghost use Rattle.sr_top.specs.Reading.{Reads, reads_by};
ghost use Rattle.sr_top.specs.Report as report_of;
ghost use Rattle.sr_top.specs.Tasks as tasks;
ghost use Rattle.sr_words.specs.Commands.{command_of, default_of};
ghost use Rattle.sr_words.specs.declared.options.Setting.TheVariants as settings;

use crate::compiling::{SAMPLE_NAME, compile_files, compile_sample};
use crate::laying_out::lay_out_file;
use crate::listing::list_classes;
use crate::outcome::{Outcome, run_program, without_items};
use crate::preparing::{Prepared, prepare};
use crate::program::Process;
use crate::question::{Question, Tracing, View};
use crate::replaying::replay_journal;
use crate::report::Ending;
use sr_ask::Item;
use sr_journal::Header;
use sr_ports::{Files, Sink, Source};
use sr_run::Stretch;
use sr_value::{NoMemory, Row, Text};
use sr_words::Command;
use std::alloc::Global;

/// The limits of the run of a sample.
const SAMPLE_STEPS: u32 = 1_000_000;

const SAMPLE_TICKS: u32 = 10_000_000;

/// What a command came to: the name of the journal that it replayed, where it was to, and those of its files; how it
/// ended; and the items that it made, with the stretches of its workers, and what stands before them in its journal, where
/// one is kept.
#[derive(Debug, Drop)]
pub struct Obeyed {
    pub replayed: Option<Text>,
    pub names: Row<Text>,
    pub ending: Ending,
    pub items: Row<Item>,
    pub rounds: Row<Stretch>,
    pub header: Option<Header>,
}

impl Obeyed {
    /// An ending before any file.
    pub fn early(alloc: Global, ending: Ending) -> Obeyed
        ensures replayed { result.replayed ≡ None }
        ensures names { result.names ≡ [] }
        ensures ending { result.ending ≡ ending }
        ensures items { result.items ≡ [] }
        ensures rounds { result.rounds ≡ [] }
        ensures header { result.header ≡ None }
    {
        Obeyed {
            replayed: None,
            names: Row::new(alloc),
            ending,
            items: Row::new(alloc),
            rounds: Row::new(alloc),
            header: None,
        }
    }

    fn named(replayed: Option<Text>, names: Row<Text>, outcome: Outcome) -> Obeyed
        ensures replayed { result.replayed ≡ replayed }
        ensures names { result.names ≡ names }
        ensures ending { result.ending ≡ outcome.ending }
        ensures items { result.items ≡ outcome.items }
        ensures rounds { result.rounds ≡ outcome.rounds }
        ensures header { result.header ≡ outcome.header }
    {
        let Outcome {
            ending,
            items,
            rounds,
            header,
        } = outcome;
        Obeyed {
            replayed,
            names,
            ending,
            items,
            rounds,
            header,
        }
    }
}

/// Does what a command says.
pub fn obey<F: Files, I: Source, O: Sink>(
    alloc: Global,
    command: Command,
    files: &mut F,
    input: &mut I,
    output: &mut O,
) -> Obeyed
    ensures cause { (words : List (List ℕ)) → command_of words ≡ Some command → HasCause
        (call_of words (F.content files.old) (reads_by (F.readings files.old) (F.faults files.old)) (reads_by (F.readings files.new) (F.faults files.new))
        (devices (I.left input.old) (I.faults input.old) (O.held output.old) (O.faults output.old))
        (devices (I.left input.new) (I.faults input.new) (O.held output.new) (O.faults output.new))
        result.items result.rounds)
        result.ending }
    ensures header { (words : List (List ℕ)) → command_of words ≡ Some command → HasHeaderIf
        (call_of words (F.content files.old) (reads_by (F.readings files.old) (F.faults files.old)) (reads_by (F.readings files.new) (F.faults files.new))
        (devices (I.left input.old) (I.faults input.old) (O.held output.old) (O.faults output.old))
        (devices (I.left input.new) (I.faults input.new) (O.held output.new) (O.faults output.new))
        result.items result.rounds)
        result.ending result.header }
    ensures in_range { (words : List (List ℕ)) → command_of words ≡ Some command → IfSome result.header (λ header. IsInRange header result.items) }
    ensures names { (words : List (List ℕ)) → command_of words ≡ Some command
        → report_of.diag_text result.replayed result.names result.ending ≡ report_of.diag_text (tasks.replayed_journal words) (tasks.file_names words) result.ending }
    ensures files { F.content files.new ≡ F.content files.old }
{
    match command {
        Command::Run {
            files: names,
            workers,
            steps,
            ticks,
            journal,
        } => {
            let outcome = run_files(
                alloc,
                names.as_slice(),
                workers,
                steps,
                ticks,
                journal,
                files,
                input,
                output,
            );
            Obeyed::named(None, names, outcome)
        }
        Command::Check { files: names } => {
            let outcome = check_files(alloc, names.as_slice(), files);
            Obeyed::named(None, names, outcome)
        }
        Command::Classes { files: names } => {
            let outcome = list_classes(alloc, names.as_slice(), files, output);
            Obeyed::named(None, names, outcome)
        }
        Command::Gen { seed, workers } => match sample_names(alloc) {
            Ok(names) => {
                let outcome = run_sample(alloc, seed, workers, input, output);
                Obeyed::named(None, names, outcome)
            }
            Err(_) => Obeyed::early(alloc, Ending::NoMemory),
        },
        Command::Replay {
            journal,
            files: names,
            upto,
            places,
        } => {
            let outcome = replay_journal(
                alloc,
                &journal,
                names.as_slice(),
                Question::Seen(View { upto, places }),
                files,
                input,
                output,
            );
            Obeyed::named(Some(journal), names, outcome)
        }
        Command::Races {
            journal,
            files: names,
        } => {
            let outcome = replay_journal(
                alloc,
                &journal,
                names.as_slice(),
                Question::Races,
                files,
                input,
                output,
            );
            Obeyed::named(Some(journal), names, outcome)
        }
        Command::Trace {
            journal,
            files: names,
            upto,
            picture,
        } => {
            let outcome = replay_journal(
                alloc,
                &journal,
                names.as_slice(),
                Question::Trace(Tracing { upto, picture }),
                files,
                input,
                output,
            );
            Obeyed::named(Some(journal), names, outcome)
        }
        Command::Fmt { file } => match one_name(alloc, file.as_bytes()) {
            Ok(names) => {
                let outcome = lay_out_file(alloc, &file, files, output);
                Obeyed::named(None, names, outcome)
            }
            Err(_) => Obeyed::early(alloc, Ending::NoMemory),
        },
    }
}

/// The name of the one file of a sample, in a list.
fn sample_names(alloc: Global) -> Result<Row<Text>, NoMemory>
    ensures { IfOk result (λ names. names ≡ tasks.sample_name ∷ []) }
{
    one_name(alloc, SAMPLE_NAME.as_bytes())
}

/// A name in a list.
fn one_name(alloc: Global, name: &[u8]) -> Result<Row<Text>, NoMemory>
    ensures { IfOk result (λ names. names ≡ name.now ∷ []) }
{
    let name = Text::from_slice(alloc, name)?;
    let mut names = Row::new(alloc);
    names.push(name)?;
    Ok(names)
}

/// Runs the program of the files of these names.
fn run_files<F: Files, I: Source, O: Sink>(
    alloc: Global,
    names: &[Text],
    workers: u32,
    steps: u32,
    ticks: u32,
    journal: bool,
    files: &mut F,
    input: &mut I,
    output: &mut O,
) -> Outcome
    ensures cause { (words : List (List ℕ)) → tasks.task words ≡ Some (tasks.Runs (tasks.Named names.now) workers steps ticks journal) → HasCause
        (call_of words (F.content files.old) (reads_by (F.readings files.old) (F.faults files.old)) (reads_by (F.readings files.new) (F.faults files.new))
        (devices (I.left input.old) (I.faults input.old) (O.held output.old) (O.faults output.old))
        (devices (I.left input.new) (I.faults input.new) (O.held output.new) (O.faults output.new))
        result.items result.rounds)
        result.ending }
    ensures header { (words : List (List ℕ)) → tasks.task words ≡ Some (tasks.Runs (tasks.Named names.now) workers steps ticks journal) → HasHeaderIf
        (call_of words (F.content files.old) (reads_by (F.readings files.old) (F.faults files.old)) (reads_by (F.readings files.new) (F.faults files.new))
        (devices (I.left input.old) (I.faults input.old) (O.held output.old) (O.faults output.old))
        (devices (I.left input.new) (I.faults input.new) (O.held output.new) (O.faults output.new))
        result.items result.rounds)
        result.ending result.header }
    ensures in_range { CanBeAsked names.now steps ticks → IfSome result.header (λ header. IsInRange header result.items) }
    ensures files { F.content files.new ≡ F.content files.old }
{
    match prepare(alloc, names, steps, ticks, journal, files) {
        Ok(Prepared { program, header }) => {
            let classes = &program.program().classes;
            run_program::<Process, I, O>(
                alloc, &program, classes, header, workers, steps, ticks, input, output,
            )
        }
        Err(ending) => without_items(alloc, ending),
    }
}

/// Runs the sample program of a seed.
fn run_sample<I: Source, O: Sink>(
    alloc: Global,
    seed: u32,
    workers: u32,
    input: &mut I,
    output: &mut O,
) -> Outcome
    ensures cause { (words : List (List ℕ)) (files : Option (List (List ℕ × List ℕ))) (reads : Reads)
        → tasks.task words ≡ Some (tasks.Runs (tasks.Sampled seed) workers (default_of settings.Steps) (default_of settings.Ticks) false) → HasCause
        (call_of words files reads reads
        (devices (I.left input.old) (I.faults input.old) (O.held output.old) (O.faults output.old))
        (devices (I.left input.new) (I.faults input.new) (O.held output.new) (O.faults output.new))
        result.items result.rounds)
        result.ending }
    ensures header { result.header ≡ None }
{
    match compile_sample(alloc, seed) {
        Ok(program) => run_program::<Process, I, O>(
            alloc,
            &program,
            &program.program().classes,
            None,
            workers,
            SAMPLE_STEPS,
            SAMPLE_TICKS,
            input,
            output,
        ),
        Err(ending) => without_items(alloc, ending),
    }
}

/// Says whether the files of these names are a program.
fn check_files<F: Files>(alloc: Global, names: &[Text], files: &mut F) -> Outcome
    ensures cause { (words : List (List ℕ)) (devices : Devices) → tasks.task words ≡ Some (tasks.Checks names.now) → HasCause
        (call_of words (F.content files.old) (reads_by (F.readings files.old) (F.faults files.old)) (reads_by (F.readings files.new) (F.faults files.new)) devices devices result.items result.rounds)
        result.ending }
    ensures header { result.header ≡ None }
    ensures files { F.content files.new ≡ F.content files.old }
{
    match compile_files(alloc, names, files) {
        Ok(_program) => without_items(alloc, Ending::Done),
        Err(ending) => without_items(alloc, ending),
    }
}
