use sr_value::{Place, Row};

/// Two items that access the same part of a shared variable, one of which writes, and nothing in the program says which
/// comes first.
#[derive(Clone, Copy, Debug, PartialEq, Eq)]
pub struct Race {
    /// The numbers of the items, from 1.
    pub first: u32,
    pub second: u32,
    /// Where the first is asked for, and the second.
    pub one: Place,
    pub other: Place,
}

/// What the search for races came to.
#[derive(Drop)]
pub enum Raced {
    /// All races, in order of their first and then of their second item.
    Found(Row<Race>),
    /// The item of this number, from 1, is the first that is no step.
    Illegal { at: u32 },
    /// More than 65,536 items, or items of more than 1,024 processes.
    TooLong,
    /// More than 65,536 races.
    TooMany,
}
