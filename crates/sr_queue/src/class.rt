ghost use Rattle.std.specs.Prelude.{◌≡◌};
ghost use Rattle.sr_queue.specs.Classes.{class_of};

use sr_value::Owner;

/// An operation of an owner: the class of invocations that an arm serves.
#[derive(Clone, Copy, PartialEq, Eq, Hash)]
pub struct Class {
    /// Whether the owner is a process; else it is an instance.
    pub of_process: bool,
    pub owner: u32,
    pub op: u32,
}

/// An operation of this owner.
pub fn class_of(owner: Owner, op: u32) -> Class
    ensures { result ≡ class_of owner op }
{
    match owner {
        Owner::Inst(owner) => Class {
            of_process: false,
            owner,
            op,
        },
        Owner::Proc(owner) => Class {
            of_process: true,
            owner,
            op,
        },
    }
}
