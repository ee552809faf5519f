use sr_value::{Row, Text};

/// What stands in a journal before its items.
#[derive(Debug, Drop)]
pub struct Header {
    /// The number of bytes and the name of each file of the program.
    pub files: Row<(u32, Text)>,
    /// The limit of steps of the run.
    pub steps: u32,
    /// The limit of ticks of the run.
    pub ticks: u32,
}
