use crate::stretch::Stretch;
use sr_ask::Item;
use sr_value::Row;
use sr_world::End;

/// How a run ended.
#[derive(Clone, Copy, PartialEq, Eq)]
pub enum RunEnd {
    /// It has this ending.
    Ended(End),
    /// A limit was reached.
    Limit(LimitKind),
    /// The input failed.
    ReadFault,
    /// The output failed.
    WriteFault,
    /// Memory ran out.
    NoMemory,
}

/// Which limit was reached.
#[derive(Clone, Copy, Debug, PartialEq, Eq)]
pub enum LimitKind {
    /// That on the items.
    Steps,
    /// That on the ticks of this process since its last answer.
    Ticks(u32),
    /// That on the bytes of input.
    Input,
}

/// The items of a run, in order, and how it ended; and the stretches that its workers made.
#[derive(Drop)]
pub struct Run {
    pub items: Row<Item>,
    pub end: RunEnd,
    pub rounds: Row<Stretch>,
}
