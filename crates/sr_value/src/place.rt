use crate::compare::Compare;

/// A line of a file of the program.
#[derive(Clone, Copy, Debug, PartialEq, Eq)]
pub struct Place {
    /// The file, counted from 0 in the order in which the files are given.
    pub file: u32,
    /// The line in it, counted from 1.
    pub line: u32,
}

/// A stretch of bytes of a file of the program.
#[derive(Clone, Copy, Debug, PartialEq, Eq)]
pub struct Span {
    /// The file, counted from 0 in the order in which the files are given.
    pub file: u32,
    /// The first byte, counted from 0.
    pub from: u32,
    /// The byte after the last.
    pub to: u32,
    /// The line of the first byte, counted from 1.
    pub line: u32,
}

impl Compare for Place {
    fn same(&self, other: &Self) -> bool {
        *self == *other
    }
}

impl Compare for Span {
    fn same(&self, other: &Self) -> bool {
        *self == *other
    }
}
