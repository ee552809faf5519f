use crate::expression::Expr;
use crate::formal::{Formal, Returned};
use crate::owner::Home;
use crate::statement::Scope;
use sr_value::{Place, Row};

/// Something of the process that a guard names, and that goes with its `Select`.
#[derive(Clone, Copy, Debug, PartialEq, Eq)]
pub enum Named {
    /// The value of an own variable.
    Own(u32),
    /// The instance of an imported global, by its place in the component's list of imported globals.
    Home(u32),
    /// The machine of the process.
    Machine,
}

/// A variable that all processes of an instance share, and that a guard reads.
#[derive(Clone, Copy, Debug, PartialEq, Eq)]
pub struct SharedRead {
    pub home: Home,
    /// Its number in the component.
    pub var: u32,
}

/// The head of an arm of an `in` statement.
#[derive(Debug, Drop)]
pub struct Arm {
    /// The line of the arm's first token.
    pub place: Place,
    pub op: u32,
    pub formals: Row<Formal>,
    pub returned: Option<Returned>,
    /// The condition after `and`. Without one every invocation is selectable.
    pub guard: Option<Expr>,
    /// What orders the invocations.
    pub by: Option<Expr>,
}

/// An `in` statement as selection sees it.
#[derive(Debug, Drop)]
pub struct Site {
    /// Whether its operations belong to the instance or to the process. They are never mixed.
    pub scope: Scope,
    pub arms: Row<Arm>,
    /// Whether it has an `else`.
    pub has_else: bool,
    /// What its guards name of the process.
    pub names: Row<Named>,
    /// The shared variables that its guards read.
    pub reads: Row<SharedRead>,
    /// The operations whose pending invocations its guards count.
    pub counts: Row<u32>,
}
