ghost use Rattle.std.specs.Prelude.{◌≡◌, map, string_bytes, IfOk, Err, None, Some};
ghost use Rattle.clap.specs.Values.{kind_of};
ghost use Rattle.clap.specs.declared.error.kind.ErrorKind.TheVariants as kinds;
ghost use Rattle.sr_words.specs.Arguments as arguments;
ghost use Rattle.sr_words.specs.Commands as commands;
ghost use Rattle.sr_words.specs.declared.command.WordsFail.TheVariants as fails;

use crate::arguments::parser_for;
use crate::command::{Command, WordsFail};
use crate::number::number_within;
use crate::options::{Flag, Setting, flag_name, setting_name};
use crate::verb::{Verb, verb_of};
use clap::ArgMatches;
use clap::error::ErrorKind;
use sr_value::{NoMemory, Row, Text};
use std::alloc::Global;

/// The most files of a command.
const MOST_FILES: usize = 64;

/// The command that the words after the program's name give.
pub fn read_words(alloc: Global, words: &[String]) -> Result<Command, WordsFail>
    ensures command { IfOk result (λ command. commands.command_of (map string_bytes words.now) ≡ Some command) }
    ensures usage { result ≡ Err fails.Usage → commands.command_of (map string_bytes words.now) ≡ None }
{
    match words {
        [] => Err(WordsFail::Usage),
        [command, words @ ..] => match verb_of(command.as_str().as_bytes()) {
            None => Err(WordsFail::Usage),
            Some(verb) => {
                let matches = matches_of(alloc, verb, words)?;
                verb_command(alloc, verb, &matches)
            }
        },
    }
}

/// What the words after the name of a command say.
fn matches_of<'a>(
    alloc: Global,
    verb: Verb,
    words: &'a [String],
) -> Result<ArgMatches<'a>, WordsFail>
    ensures matches { IfOk result (λ matches. commands.taken_of verb (map string_bytes words.now) ≡ Some (arguments.taken_from matches)) }
    ensures flags { IfOk result (λ matches. arguments.HasFlags matches) }
    ensures usage { result ≡ Err fails.Usage → commands.taken_of verb (map string_bytes words.now) ≡ None }
{
    match parser_for(alloc, verb) {
        Err(_) => Err(WordsFail::NoMemory),
        Ok(parser) => match parser.try_get_matches_from(words) {
            Ok(matches) => Ok(matches),
            Err(error) => Err(fail_of(&error)),
        },
    }
}

/// Why a parse failed.
fn fail_of(error: &clap::Error) -> WordsFail
    ensures { result ≡ fails.Usage → kind_of error.now ≡ kinds.OutOfMemory → ⊥ }
{
    match error.kind() {
        ErrorKind::OutOfMemory => WordsFail::NoMemory,
        _ => WordsFail::Usage,
    }
}

/// The command of this name with these matches.
fn verb_command(alloc: Global, verb: Verb, matches: &ArgMatches<'_>) -> Result<Command, WordsFail>
    requires { arguments.HasFlags matches.now }
    ensures command { IfOk result (λ command. commands.verb_command verb (arguments.taken_from matches.now) ≡ Some command) }
    ensures usage { result ≡ Err fails.Usage → commands.verb_command verb (arguments.taken_from matches.now) ≡ None }
{
    match verb {
        Verb::Run => run_command(alloc, matches),
        Verb::Check => Ok(Command::Check {
            files: files_of(alloc, matches)?,
        }),
        Verb::Classes => Ok(Command::Classes {
            files: files_of(alloc, matches)?,
        }),
        Verb::Fmt => Ok(Command::Fmt {
            file: file_of(alloc, matches)?,
        }),
        Verb::Gen => gen_command(matches),
        Verb::Replay => replay_command(alloc, matches),
        Verb::Races => races_command(alloc, matches),
        Verb::Trace => trace_command(alloc, matches),
    }
}

fn run_command(alloc: Global, matches: &ArgMatches<'_>) -> Result<Command, WordsFail>
    requires { arguments.HasFlags matches.now }
    ensures command { IfOk result (λ command. commands.run_command (arguments.taken_from matches.now) ≡ Some command) }
    ensures usage { result ≡ Err fails.Usage → commands.run_command (arguments.taken_from matches.now) ≡ None }
{
    let Some(workers) = number_of(Setting::Workers, matches) else {
        return Err(WordsFail::Usage);
    };
    let Some(steps) = number_of(Setting::Steps, matches) else {
        return Err(WordsFail::Usage);
    };
    let Some(ticks) = number_of(Setting::Ticks, matches) else {
        return Err(WordsFail::Usage);
    };
    let files = files_of(alloc, matches)?;
    Ok(Command::Run {
        files,
        workers,
        steps,
        ticks,
        journal: has_flag(Flag::Journal, matches),
    })
}

fn gen_command(matches: &ArgMatches<'_>) -> Result<Command, WordsFail>
    ensures command { IfOk result (λ command. commands.gen_command (arguments.taken_from matches.now) ≡ Some command) }
    ensures usage { result ≡ Err fails.Usage → commands.gen_command (arguments.taken_from matches.now) ≡ None }
{
    let Some(workers) = number_of(Setting::Workers, matches) else {
        return Err(WordsFail::Usage);
    };
    let Some(seed) = seed_of(matches) else {
        return Err(WordsFail::Usage);
    };
    Ok(Command::Gen { seed, workers })
}

fn replay_command(alloc: Global, matches: &ArgMatches<'_>) -> Result<Command, WordsFail>
    requires { arguments.HasFlags matches.now }
    ensures command { IfOk result (λ command. commands.replay_command (arguments.taken_from matches.now) ≡ Some command) }
    ensures usage { result ≡ Err fails.Usage → commands.replay_command (arguments.taken_from matches.now) ≡ None }
{
    let Some(upto) = number_of(Setting::Upto, matches) else {
        return Err(WordsFail::Usage);
    };
    let (journal, files) = recorded_of(alloc, matches)?;
    Ok(Command::Replay {
        journal,
        files,
        upto,
        places: has_flag(Flag::Where, matches),
    })
}

fn races_command(alloc: Global, matches: &ArgMatches<'_>) -> Result<Command, WordsFail>
    ensures command { IfOk result (λ command. commands.races_command (arguments.taken_from matches.now) ≡ Some command) }
    ensures usage { result ≡ Err fails.Usage → commands.races_command (arguments.taken_from matches.now) ≡ None }
{
    let (journal, files) = recorded_of(alloc, matches)?;
    Ok(Command::Races { journal, files })
}

fn trace_command(alloc: Global, matches: &ArgMatches<'_>) -> Result<Command, WordsFail>
    requires { arguments.HasFlags matches.now }
    ensures command { IfOk result (λ command. commands.trace_command (arguments.taken_from matches.now) ≡ Some command) }
    ensures usage { result ≡ Err fails.Usage → commands.trace_command (arguments.taken_from matches.now) ≡ None }
{
    let Some(upto) = number_of(Setting::Upto, matches) else {
        return Err(WordsFail::Usage);
    };
    let (journal, files) = recorded_of(alloc, matches)?;
    Ok(Command::Trace {
        journal,
        files,
        upto,
        picture: has_flag(Flag::Picture, matches),
    })
}

/// The journal and the files of a command.
fn recorded_of(alloc: Global, matches: &ArgMatches<'_>) -> Result<(Text, Row<Text>), WordsFail>
    ensures recorded { IfOk result (λ recorded. commands.recorded_of (arguments.taken_from matches.now).words ≡ Some recorded) }
    ensures usage { result ≡ Err fails.Usage → commands.recorded_of (arguments.taken_from matches.now).words ≡ None }
{
    match matches.get_raw("word") {
        None => Err(WordsFail::Usage),
        Some(words) => recorded_in(alloc, words),
    }
}

/// The journal is the first word, and the others are the files.
fn recorded_in(alloc: Global, words: &[&str]) -> Result<(Text, Row<Text>), WordsFail>
    ensures recorded { IfOk result (λ recorded. commands.recorded_of (map (λ word. word.now) words.now) ≡ Some recorded) }
    ensures usage { result ≡ Err fails.Usage → commands.recorded_of (map (λ word. word.now) words.now) ≡ None }
{
    match words {
        [] => Err(WordsFail::Usage),
        [journal, words @ ..] => {
            let files = files_in(alloc, words)?;
            let journal = Text::from_slice(alloc, journal.as_bytes())?;
            Ok((journal, files))
        }
    }
}

/// The least number of an option.
fn least_of(setting: Setting) -> u32
    ensures { result ≡ commands.least_of setting }
{
    match setting {
        Setting::Workers => 1,
        Setting::Steps => 1,
        Setting::Ticks => 1,
        Setting::Upto => 0,
    }
}

/// The greatest number of an option.
fn most_of(setting: Setting) -> u32
    ensures { result ≡ commands.most_of setting }
{
    match setting {
        Setting::Workers => 16,
        Setting::Steps => 16_000_000,
        Setting::Ticks => 1_000_000_000,
        Setting::Upto => 16_000_000,
    }
}

/// The number of an option that isn't given.
fn default_of(setting: Setting) -> u32
    ensures { result ≡ commands.default_of setting }
{
    match setting {
        Setting::Workers => 1,
        Setting::Steps => 1_000_000,
        Setting::Ticks => 10_000_000,
        Setting::Upto => 16_000_000,
    }
}

/// The number of an option; `None` where its value is no number of it.
fn number_of(setting: Setting, matches: &ArgMatches<'_>) -> Option<u32>
    ensures { result ≡ commands.setting_number setting (commands.value_in setting (arguments.taken_from matches.now)) }
{
    match matches.get_str(setting_name(setting)) {
        None => Some(default_of(setting)),
        Some(value) => number_within(least_of(setting), most_of(setting), value.as_bytes()),
    }
}

/// Whether an option without a value is given.
fn has_flag(flag: Flag, matches: &ArgMatches<'_>) -> bool
    requires { arguments.HasFlags matches.now }
    ensures { result ≡ commands.flag_in flag (arguments.taken_from matches.now) }
{
    matches.get_flag(flag_name(flag))
}

/// The texts of words.
fn texts_of(alloc: Global, words: &[&str]) -> Result<Row<Text>, NoMemory>
    ensures { IfOk result (λ texts. texts ≡ map (λ word. word.now) words.now) }
{
    let mut texts = Row::new(alloc);
    for word in words {
        texts.push(Text::from_slice(alloc, word.as_bytes())?)?;
    }
    Ok(texts)
}

/// The files, where there are 1 to 64.
fn files_in(alloc: Global, words: &[&str]) -> Result<Row<Text>, WordsFail>
    ensures files { IfOk result (λ files. commands.files_of (map (λ word. word.now) words.now) ≡ Some files) }
    ensures usage { result ≡ Err fails.Usage → commands.files_of (map (λ word. word.now) words.now) ≡ None }
{
    if words.is_empty() || words.len() > MOST_FILES {
        return Err(WordsFail::Usage);
    }
    Ok(texts_of(alloc, words)?)
}

/// The files of a command, where there are 1 to 64.
fn files_of(alloc: Global, matches: &ArgMatches<'_>) -> Result<Row<Text>, WordsFail>
    ensures files { IfOk result (λ files. commands.files_of (arguments.taken_from matches.now).words ≡ Some files) }
    ensures usage { result ≡ Err fails.Usage → commands.files_of (arguments.taken_from matches.now).words ≡ None }
{
    match matches.get_raw("word") {
        None => Err(WordsFail::Usage),
        Some(words) => files_in(alloc, words),
    }
}

/// The file, where there is one word.
fn file_in(alloc: Global, words: &[&str]) -> Result<Text, WordsFail>
    ensures file { IfOk result (λ file. commands.file_of (map (λ word. word.now) words.now) ≡ Some file) }
    ensures usage { result ≡ Err fails.Usage → commands.file_of (map (λ word. word.now) words.now) ≡ None }
{
    match words {
        [word] => Ok(Text::from_slice(alloc, word.as_bytes())?),
        _ => Err(WordsFail::Usage),
    }
}

/// The file of a command, where there is one word that is no option.
fn file_of(alloc: Global, matches: &ArgMatches<'_>) -> Result<Text, WordsFail>
    ensures file { IfOk result (λ file. commands.file_of (arguments.taken_from matches.now).words ≡ Some file) }
    ensures usage { result ≡ Err fails.Usage → commands.file_of (arguments.taken_from matches.now).words ≡ None }
{
    match matches.get_raw("word") {
        None => Err(WordsFail::Usage),
        Some(words) => file_in(alloc, words),
    }
}

/// The seed, where there is one word, and it is a number.
fn seed_in(words: &[&str]) -> Option<u32>
    ensures { result ≡ commands.seed_of (map (λ word. word.now) words.now) }
{
    match words {
        [word] => number_within(0, u32::MAX, word.as_bytes()),
        _ => None,
    }
}

/// The seed of a command, where there is one word that is no option, and it is a number.
fn seed_of(matches: &ArgMatches<'_>) -> Option<u32>
    ensures { result ≡ commands.seed_of (arguments.taken_from matches.now).words }
{
    match matches.get_raw("word") {
        None => None,
        Some(words) => seed_in(words),
    }
}
