use crate::formal::{Formal, FormalShape, Mode, Returned};
use crate::site::Site;
use crate::statement::{Scope, Statement};
use sr_value::{EnumNames, Place, Row, Shape, Text};

/// What a component is.
#[derive(Clone, Copy, Debug, PartialEq, Eq)]
pub enum Kind {
    Resource,
    Global,
}

/// What a process runs from its beginning to its end.
#[derive(Debug, Drop)]
pub struct Body {
    /// How many own variables it has, its formals among them. They are numbered from 0.
    pub owns: u32,
    pub block: Row<Statement>,
}

/// A resource or a global.
#[derive(Debug, Drop)]
pub struct Component {
    pub name: Text,
    /// The line of its first token.
    pub place: Place,
    pub kind: Kind,
    /// Its formals, which are shared variables.
    pub formals: Row<Formal>,
    /// The globals that it imports, in the order of the text, each once.
    pub imports: Row<u32>,
    /// The globals that it imports directly or through globals, each after those that it imports.
    pub needs: Row<u32>,
    pub initial: Body,
    pub final_code: Option<Body>,
}

/// A formal of an operation's signature.
#[derive(Debug, Drop)]
pub struct Parameter {
    pub mode: Mode,
    pub shape: FormalShape,
}

/// An operation.
#[derive(Debug, Drop)]
pub struct Operation {
    pub name: Text,
    /// The component that declares it.
    pub component: u32,
    /// Whether an instance or a process owns its invocations.
    pub scope: Scope,
    pub parameters: Row<Parameter>,
    pub returns: Option<Shape>,
    pub can_call: bool,
    pub can_send: bool,
    /// The proc that services it, where one does.
    pub proc: Option<u32>,
}

/// A proc.
#[derive(Debug, Drop)]
pub struct Proc {
    /// The line of its first token.
    pub place: Place,
    pub op: u32,
    pub formals: Row<Formal>,
    pub returned: Option<Returned>,
    pub body: Body,
}

/// A program. Main is the last component.
#[derive(Debug, Drop)]
pub struct Core {
    pub components: Row<Component>,
    pub operations: Row<Operation>,
    pub procs: Row<Proc>,
    /// The `in` statements, by their numbers.
    pub sites: Row<Site>,
    /// The names of the literals of each enumeration.
    pub names: EnumNames,
}
