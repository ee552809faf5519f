/// What is asked of a journal.
#[derive(Clone, Copy)]
pub enum Question {
    /// What is to be seen after its first items.
    Seen(View),
    /// Which of its accesses race.
    Races,
    /// What each of its first items did.
    Trace(Tracing),
}

/// What of a replay is to be seen.
#[derive(Clone, Copy)]
pub struct View {
    /// How many items are replayed, at most.
    pub upto: u32,
    /// Whether the place of each request is told.
    pub places: bool,
}

/// What of a trace is to be seen.
#[derive(Clone, Copy)]
pub struct Tracing {
    /// How many items are told, at most.
    pub upto: u32,
    /// Whether they are drawn.
    pub picture: bool,
}
