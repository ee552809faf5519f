use sr_ask::Item;
use sr_journal::JournalFail;
use sr_run::Stretch;
use sr_text::Refusal;
use sr_value::{Fault, Place, Row};

/// How a call of the program ends.
#[derive(Clone, Copy, Debug, PartialEq, Eq)]
pub enum Ending {
    /// A command that runs no program has done what it does.
    Done,
    /// No process can make a step any more.
    Quiet,
    /// The program stopped with this status.
    Stopped(u8),
    /// A fault ended the program.
    Failed { fault: Fault, place: Place },
    /// A limit was reached.
    Limit(LimitKind),
    /// The files are outside the language.
    Refused(Refusal),
    /// The file of this place among the file words, from 0, can't be read.
    NoFile(u32),
    /// The input failed.
    ReadFault,
    /// The output failed.
    WriteFault,
    /// Memory ran out.
    NoMemory,
    /// The words are no command.
    Usage,
    /// The bytes of the journal that is to be replayed are none, for this cause. It is never that memory ran out.
    BadJournal(JournalFail),
    /// The file of this place, from 0, isn't the one of the journal.
    OtherFiles(u32),
    /// The item of this number in the journal, from 1, is the first that is no step.
    Illegal(u32),
}

/// A limit that was reached.
#[derive(Clone, Copy, Debug, PartialEq, Eq)]
pub enum LimitKind {
    /// The steps of the run.
    Steps,
    /// The ticks of this process between two answers.
    Ticks(u32),
    /// The bytes of the input.
    Input,
    /// The items of a journal that is searched for races or drawn, or the processes that make them.
    Items,
    /// The races.
    Races,
}

/// How far the text of a sink got.
#[derive(Clone, Copy, Debug, PartialEq, Eq)]
pub enum Side {
    /// All of it was put.
    Whole,
    /// The sink failed; some first bytes of it were put.
    Failed,
    /// Memory ran out; some first bytes of it were put.
    NoMemory,
}

/// What a call of the program did.
#[derive(Debug, Drop)]
pub struct Report {
    /// How it ended.
    pub ending: Ending,
    /// How far the diagnostic line got.
    pub diag: Side,
    /// How far the journal got.
    pub journal: Side,
    /// The exit status.
    pub status: u8,
    /// The items of the run, in order.
    pub items: Row<Item>,
    /// The rounds of the workers, in order.
    pub rounds: Row<Stretch>,
}
