use sr_ask::Role;
use sr_value::Place;

/// What runs where an item is made.
#[derive(Clone, Copy)]
pub enum Runs {
    /// No process: none could go on, or time passes.
    Machine,
    /// A process. `code` is the proc's number for a proc, else the component's.
    Process { role: Role, code: u32 },
}

/// What an item does.
#[derive(Clone, Copy)]
pub enum Act {
    Declare,
    Load,
    Store,
    Call,
    Send,
    Service,
    Take,
    Reply,
    Forward,
    Count,
    Write,
    Read,
    Import,
    Create,
    MakeMachine,
    Destroy,
    Finish,
    Stop,
    Fail,
    Age,
    Nap,
    /// Main's final code begins, as no process can go on.
    Close,
    /// The run ends, as no process can go on.
    End,
    Tick,
}

/// What is named by what an item does.
#[derive(Clone, Copy)]
pub enum Subject {
    Nothing,
    Operation(u32),
    Component(u32),
}

/// An item of a run, as a trace shows it. Items are counted from 0 here, and from 1 where they are shown.
#[derive(Clone, Copy)]
pub struct Traced {
    pub item: u32,
    /// The process that makes it; 0 where none does.
    pub process: u32,
    pub runs: Runs,
    pub act: Act,
    pub subject: Subject,
    /// The item that made its process, where this is the first one of it.
    pub begun_by: Option<u32>,
    /// The item that made the invocation which it services, or the reply which it takes, or with which the instance became
    /// ready that it asks for.
    pub after: Option<u32>,
    /// Where its process asks.
    pub place: Option<Place>,
}
