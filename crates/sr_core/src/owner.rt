use sr_value::Row;

/// The process that evaluates a guard, and its instance.
#[derive(Clone, Copy, Debug, PartialEq, Eq)]
pub struct Me {
    pub process: u32,
    pub instance: u32,
}

/// The class of each operation, by the operation's number. Invocations of two operations wait in one line
/// exactly where the operations have one class.
#[derive(Debug, Drop)]
pub struct Classes {
    pub of: Row<u32>,
}

/// Whose shared variables are meant.
#[derive(Clone, Copy, Debug, PartialEq, Eq)]
pub enum Home {
    /// Those of the instance whose code it is.
    Mine,
    /// Those of an imported global, by its place in the component's list of imported globals.
    Imported(u32),
}

/// Whose operation is meant.
#[derive(Clone, Copy, Debug, PartialEq, Eq)]
pub enum OperationOwner {
    /// One of the instance whose code it is.
    Mine,
    /// One of an imported global, by its place in the component's list of imported globals.
    Imported(u32),
    /// One of the process itself.
    Process,
}

/// A variable, or a constant that isn't static.
#[derive(Clone, Copy, Debug, PartialEq, Eq)]
pub enum Root {
    /// One that belongs to the process, by its number.
    Own(u32),
    /// One that all processes of an instance share, by its number in the component.
    Shared { home: Home, var: u32 },
}
