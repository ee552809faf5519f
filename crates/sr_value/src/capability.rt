use crate::compare::Compare;

/// What a capability gives the right to.
#[derive(Clone, Copy, Debug, PartialEq, Eq)]
pub enum Cap {
    /// `null`: nothing; to use it is a fault.
    Null,
    /// `noop`: nothing; to use it does nothing.
    Noop,
    /// To invoke an operation of its owner.
    Op { owner: Owner, op: u32 },
    /// To invoke the operations of an instance of a resource, and to destroy it.
    Res(u32),
    /// To create instances on a machine.
    Vm(u32),
}

/// Whose an operation is: one declared in a component is an instance's, one declared in a proc a process's.
#[derive(Clone, Copy, Debug, PartialEq, Eq)]
pub enum Owner {
    Inst(u32),
    Proc(u32),
}

impl Compare for Cap {
    fn same(&self, other: &Self) -> bool {
        *self == *other
    }
}

impl Compare for Owner {
    fn same(&self, other: &Self) -> bool {
        *self == *other
    }
}
