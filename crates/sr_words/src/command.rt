ghost use Rattle.std.specs.Prelude.{◌≡◌};
ghost use Rattle.sr_words.specs.declared.command.WordsFail.TheVariants.{NoMemory as out_of_memory};

use sr_value::{NoMemory, Row, Text};

/// What the program is asked to do.
#[derive(Drop)]
pub enum Command {
    /// Runs the program of these files.
    Run {
        files: Row<Text>,
        /// The threads that run it.
        workers: u32,
        /// The most steps of the run.
        steps: u32,
        /// The most ticks of a process between two of its requests.
        ticks: u32,
        /// Whether a journal of the run is written.
        journal: bool,
    },
    /// Says whether the files are a program.
    Check {
        files: Row<Text>,
    },
    /// Says which operations of the program form a class.
    Classes {
        files: Row<Text>,
    },
    /// Writes a file in the one style.
    Fmt {
        file: Text,
    },
    /// Makes the sample program of a seed, and runs it.
    Gen {
        seed: u32,
        workers: u32,
    },
    /// Replays the journal of a run of the program of these files.
    Replay {
        journal: Text,
        files: Row<Text>,
        /// How many of its items are replayed, at most.
        upto: u32,
        /// Whether the place of each request is told.
        places: bool,
    },
    /// Finds the races of the run in the journal, of the program of these files.
    Races {
        journal: Text,
        files: Row<Text>,
    },
    /// Tells what each item did of the run in the journal, of the program of these files.
    Trace {
        journal: Text,
        files: Row<Text>,
        /// How many of its items are told, at most.
        upto: u32,
        /// Whether they are drawn.
        picture: bool,
    },
}

/// Why the words give no command.
#[derive(Clone, Copy, Debug, PartialEq, Eq)]
pub enum WordsFail {
    /// They are no command.
    Usage,
    NoMemory,
}

impl From<NoMemory> for WordsFail {
    ghost from_gives = { λ _ e. e ≡ out_of_memory };

    fn from(_: NoMemory) -> Self {
        WordsFail::NoMemory
    }
}
