ghost use Rattle.std.specs.Prelude.{◌≡◌, OnErr, OnOk};
ghost use Rattle.sr_select.specs.Closing.{closing, is_closed};

use sr_value::{NoMemory, Row};

/// The arms that are left out for the rest of a choice, since no invocation passes them.
#[derive(Drop)]
pub enum Closed {
    /// No arm is ever left out.
    Never,
    /// Those of these numbers.
    Arms(Row<usize>),
}

impl Closed {
    /// Whether an arm is left out.
    pub fn is_closed(&self, number: usize) -> bool
        ensures { result ≡ is_closed self.now number }
    {
        match self {
            Closed::Never => false,
            Closed::Arms(numbers) => numbers.as_slice().contains(&number),
        }
    }

    /// Leaves an arm out from now on, where arms are left out at all.
    pub fn close(&mut self, number: usize) -> Result<(), NoMemory>
        ensures ok { OnOk result (self.new ≡ closing number self.old) }
        ensures err { OnErr result (self.new ≡ self.old) }
    {
        match self {
            Closed::Never => Ok(()),
            Closed::Arms(numbers) => numbers.push(number),
        }
    }
}
