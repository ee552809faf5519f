use sr_value::{NoMemory, Text};
use sr_words::{Command, WordsFail, read_words};
use std::alloc::Global;
use std::test::Fail;

/// The words of a line, one after each space; none for an empty line.
fn words_of(alloc: Global, line: &str) -> Result<Vec<String>, NoMemory> {
    let mut words = Vec::new(alloc);
    if line.is_empty() {
        return Ok(words);
    }
    for word in line.split(' ') {
        words.push(String::from_str(alloc, word)?)?;
    }
    Ok(words)
}

/// What stands before the files of a command, or all of it where it has none.
fn head_of(alloc: Global, command: &Command) -> Result<String, NoMemory> {
    match command {
        Command::Run {
            workers,
            steps,
            ticks,
            journal,
            ..
        } => Ok(format!(in alloc; "run {workers} {steps} {ticks} {journal}")?),
        Command::Check { .. } => Ok(format!(in alloc; "check")?),
        Command::Classes { .. } => Ok(format!(in alloc; "classes")?),
        Command::Fmt { .. } => Ok(format!(in alloc; "fmt")?),
        Command::Gen { seed, workers } => Ok(format!(in alloc; "gen {seed} {workers}")?),
        Command::Replay { upto, places, .. } => Ok(format!(in alloc; "replay {upto} {places}")?),
        Command::Races { .. } => Ok(format!(in alloc; "races")?),
        Command::Trace { upto, picture, .. } => Ok(format!(in alloc; "trace {upto} {picture}")?),
    }
}

/// Adds a file after a space.
fn add_file(shown: &mut Text, file: &Text) -> Result<(), NoMemory> {
    shown.push(b' ')?;
    shown.push_all(file.as_bytes())
}

/// Adds the files, each after a space.
fn add_files(shown: &mut Text, files: &[Text]) -> Result<(), NoMemory> {
    for file in files {
        add_file(shown, file)?;
    }
    Ok(())
}

/// Adds a journal and the files, each after a space.
fn add_journal(shown: &mut Text, journal: &Text, files: &[Text]) -> Result<(), NoMemory> {
    add_file(shown, journal)?;
    add_files(shown, files)
}

/// The command in one line.
fn shown(alloc: Global, command: &Command) -> Result<Text, NoMemory> {
    let mut shown = Text::from_slice(alloc, head_of(alloc, command)?.as_bytes())?;
    match command {
        Command::Run { files, .. } | Command::Check { files } | Command::Classes { files } => {
            add_files(&mut shown, files.as_slice())?
        }
        Command::Fmt { file } => add_file(&mut shown, file)?,
        Command::Gen { .. } => {}
        Command::Replay { journal, files, .. }
        | Command::Races { journal, files }
        | Command::Trace { journal, files, .. } => {
            add_journal(&mut shown, journal, files.as_slice())?
        }
    }
    Ok(shown)
}

/// Whether the words of a line give the command that is shown as `wanted`, or none where `wanted` is empty.
fn gives(alloc: Global, line: &str, wanted: &str) -> Result<bool, NoMemory> {
    let words = words_of(alloc, line)?;
    match read_words(alloc, &words) {
        Err(WordsFail::NoMemory) => Err(NoMemory),
        Err(WordsFail::Usage) => Ok(wanted.is_empty()),
        Ok(command) => Ok(shown(alloc, &command)?.as_bytes() == wanted.as_bytes()),
    }
}

/// Lines, and the commands that they give.
const RIGHT: [(&str, &str); 47] = [
    ("run a.sr", "run 1 1000000 10000000 false a.sr"),
    ("run a.sr b.sr", "run 1 1000000 10000000 false a.sr b.sr"),
    ("run a.sr a.sr", "run 1 1000000 10000000 false a.sr a.sr"),
    (
        "run a.sr --workers 16",
        "run 16 1000000 10000000 false a.sr",
    ),
    ("run --workers 1 a.sr", "run 1 1000000 10000000 false a.sr"),
    ("run a.sr --steps 5", "run 1 5 10000000 false a.sr"),
    ("run a.sr --steps=5", "run 1 5 10000000 false a.sr"),
    ("run --steps=1 a.sr", "run 1 1 10000000 false a.sr"),
    (
        "run a.sr --steps 16000000",
        "run 1 16000000 10000000 false a.sr",
    ),
    ("run a.sr --ticks 1", "run 1 1000000 1 false a.sr"),
    (
        "run a.sr --ticks=1000000000",
        "run 1 1000000 1000000000 false a.sr",
    ),
    ("run a.sr --journal", "run 1 1000000 10000000 true a.sr"),
    ("run --journal a.sr", "run 1 1000000 10000000 true a.sr"),
    (
        "run a.sr --journal b.sr",
        "run 1 1000000 10000000 true a.sr b.sr",
    ),
    (
        "run --ticks 3 a.sr --workers=2 --journal b.sr --steps 4",
        "run 2 4 3 true a.sr b.sr",
    ),
    ("run a.sr --steps 007", "run 1 7 10000000 false a.sr"),
    ("run a.sr --steps 0000000005", "run 1 5 10000000 false a.sr"),
    ("run --steps=5 -- -a.sr", "run 1 5 10000000 false -a.sr"),
    ("run -- --journal", "run 1 1000000 10000000 false --journal"),
    (
        "run a.sr -- --steps 5",
        "run 1 1000000 10000000 false a.sr --steps 5",
    ),
    (
        "run -- a.sr -- b.sr",
        "run 1 1000000 10000000 false a.sr -- b.sr",
    ),
    ("run a.sr --", "run 1 1000000 10000000 false a.sr"),
    ("run -", "run 1 1000000 10000000 false -"),
    ("run a=b --steps 2", "run 1 2 10000000 false a=b"),
    ("run run", "run 1 1000000 10000000 false run"),
    ("run ", "run 1 1000000 10000000 false "),
    ("check a.sr", "check a.sr"),
    ("check - -- -x", "check - -x"),
    ("classes a.sr b.sr", "classes a.sr b.sr"),
    ("fmt a.sr", "fmt a.sr"),
    ("fmt -- -a.sr", "fmt -a.sr"),
    ("gen 0", "gen 0 1"),
    ("gen 4294967295", "gen 4294967295 1"),
    ("gen 07 --workers 4", "gen 7 4"),
    ("gen --workers=16 3", "gen 3 16"),
    ("gen -- 5", "gen 5 1"),
    (
        "replay a.journal a.sr",
        "replay 16000000 false a.journal a.sr",
    ),
    (
        "replay a.journal a.sr b.sr --upto 0",
        "replay 0 false a.journal a.sr b.sr",
    ),
    (
        "replay --upto=7 a.journal a.sr",
        "replay 7 false a.journal a.sr",
    ),
    (
        "replay a.journal --upto 16000000 a.sr",
        "replay 16000000 false a.journal a.sr",
    ),
    ("replay -- --upto 5", "replay 16000000 false --upto 5"),
    (
        "replay --where a.journal a.sr --upto 7",
        "replay 7 true a.journal a.sr",
    ),
    (
        "replay replay replay",
        "replay 16000000 false replay replay",
    ),
    ("races a.journal a.sr b.sr", "races a.journal a.sr b.sr"),
    ("races -- -j a.sr", "races -j a.sr"),
    (
        "trace a.journal a.sr",
        "trace 16000000 false a.journal a.sr",
    ),
    (
        "trace a.journal --picture a.sr b.sr --upto 5",
        "trace 5 true a.journal a.sr b.sr",
    ),
];

/// Lines that give no command.
const WRONG: [&str; 86] = [
    "",
    "run",
    "run --",
    "run --journal",
    "check",
    "classes",
    "gen",
    "walk a.sr",
    "Run a.sr",
    "ru a.sr",
    "runs a.sr",
    "-- run a.sr",
    "--journal run a.sr",
    " run a.sr",
    "--help",
    "run a.sr --help",
    "run a.sr -h",
    "run -a.sr",
    "run a.sr --workers 0",
    "run a.sr --workers 17",
    "run a.sr --steps 0",
    "run a.sr --steps 16000001",
    "run a.sr --ticks 0",
    "run a.sr --ticks 1000000001",
    "run a.sr --steps 5 --steps 5",
    "run a.sr --steps 5 --steps=6",
    "run --steps=x --steps=5 a.sr",
    "run a.sr --journal --journal",
    "run a.sr --journal=yes",
    "run a.sr --journal=",
    "run a.sr --steps",
    "run a.sr --steps=",
    "run a.sr --steps ",
    "run a.sr --steps +5",
    "run a.sr --steps -5",
    "run a.sr --steps=-5",
    "run a.sr --steps 5x",
    "run a.sr --steps 0x5",
    "run a.sr --steps 00000000005",
    "run a.sr --steps -- 5",
    "run a.sr --steps --journal",
    "run a.sr --step 5",
    "run a.sr --stepsize=5",
    "run a.sr --Steps 5",
    "run a.sr -steps 5",
    "run a.sr --steps==5",
    "check a.sr --steps 5",
    "classes a.sr --journal",
    "fmt",
    "fmt a.sr b.sr",
    "fmt a.sr --steps 5",
    "gen 4294967296",
    "gen 1 2",
    "gen 5 --steps 5",
    "gen x",
    "gen -1",
    "gen -- -1",
    "gen 10000000000",
    "gen 00000000001",
    "gen 1 -- 2",
    "gen 5 --workers 17",
    "check a.sr --workers 1",
    "run a.sr --workers=1 --workers 1",
    "replay",
    "replay a.journal",
    "replay --upto 5 a.journal",
    "replay a.journal a.sr --upto 16000001",
    "replay a.journal a.sr --upto -1",
    "replay a.journal a.sr --upto",
    "replay a.journal a.sr --upto 1 --upto 1",
    "replay a.journal a.sr --steps 5",
    "replay a.journal a.sr --journal",
    "replay a.journal a.sr --where --where",
    "replay a.journal a.sr --where=yes",
    "races",
    "races a.journal",
    "races a.journal a.sr --upto 5",
    "races a.journal a.sr --where",
    "trace",
    "trace a.journal",
    "trace a.journal a.sr --picture --picture",
    "trace a.journal a.sr --where",
    "replay a.journal a.sr --picture",
    "run a.sr --picture",
    "run a.sr --where",
    "run a.sr --upto 5",
];

#[test]
fn right_lines(rt: HostRuntime) -> Result<(), Fail> {
    for (line, wanted) in RIGHT {
        assert!(rt; gives(rt.alloc(), line, wanted)?, "{line}");
    }
    Ok(())
}

#[test]
fn wrong_lines(rt: HostRuntime) -> Result<(), Fail> {
    for line in WRONG {
        assert!(rt; gives(rt.alloc(), line, "")?, "{line}");
    }
    Ok(())
}

/// Whether `check` takes so many files.
fn takes(alloc: Global, count: u32) -> Result<bool, NoMemory> {
    let mut words = words_of(alloc, "check")?;
    for _ in 0..count {
        words.push(String::from_str(alloc, "a.sr")?)?;
    }
    match read_words(alloc, &words) {
        Err(WordsFail::NoMemory) => Err(NoMemory),
        Err(WordsFail::Usage) => Ok(false),
        Ok(_) => Ok(true),
    }
}

#[test]
fn counts_of_files(rt: HostRuntime) -> Result<(), Fail> {
    for (count, taken) in [(0, false), (1, true), (64, true), (65, false)] {
        assert_eq!(rt; takes(rt.alloc(), count)?, taken, "{count}");
    }
    Ok(())
}
