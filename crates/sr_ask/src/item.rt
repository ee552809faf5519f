use sr_value::Compare;

/// One item of a run, as the journal keeps it.
#[derive(Clone, Copy, Debug, PartialEq, Eq)]
pub enum Item {
    /// One request of the process `actor` was made. `name` is the number that the step gave to the
    /// process, instance, machine or invocation that it made, and 0 where it made none.
    Step { actor: u32, name: u32 },
    /// No process could make a step. `name` is the number of the process that runs main's final code, and
    /// 0 where the run ends.
    Quiesce { name: u32 },
    /// The machine's moment became `to`, in milliseconds.
    Tick { to: u32 },
}

const _: () = prove!(std::mem::size_of::<Item>() <= 16);

impl Compare for Item {
    fn same(&self, other: &Self) -> bool {
        *self == *other
    }
}
