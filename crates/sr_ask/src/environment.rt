use crate::request::ReadKind;
use sr_value::{Duplicate, NoMemory, Row, Sel, Shape, Value};
use std::alloc::Global;

/// An own variable of a process: what it can hold, and what it holds.
#[derive(Debug, Drop)]
pub struct Own {
    pub shape: Shape,
    pub value: Value,
}

/// Which variable a place is in.
#[derive(Clone, Copy, Debug, PartialEq, Eq)]
pub enum Spot {
    /// An own variable of the process, by its number.
    Own(u32),
    /// A shared variable of the instance `block`.
    Shared { block: u32, var: u32 },
}

/// A place that was evaluated: a variable, and the way to a part of it.
#[derive(Debug, Drop)]
pub struct Located {
    pub spot: Spot,
    pub path: Row<Sel>,
}

/// What a reply gives to the caller.
#[derive(Debug, Drop)]
pub enum Gives {
    /// The values of these own variables.
    Values(Row<u32>),
    /// The capability of the instance.
    Instance,
}

/// An invocation that a process services, or was made to service.
#[derive(Debug, Drop)]
pub struct Service {
    /// Its number.
    pub held: u32,
    /// Its caller, or 0 where nobody waits.
    pub back: u32,
    /// Whether a `reply` or a `forward` came for it.
    pub answered: bool,
    pub gives: Gives,
}

/// An invocation of a `co` whose reply hasn't been taken.
#[derive(Debug, Drop)]
pub struct Out {
    /// Its number.
    pub id: u32,
    /// Its arm, counted from 0.
    pub arm: u32,
    /// Where the value goes.
    pub place: Option<Located>,
    /// Where the `var` and `res` results go.
    pub backs: Row<Located>,
    /// The values of the arm's quantifiers when it was made.
    pub turn: Row<i32>,
}

/// What an argument sends, where it sends something, and the place that its result goes to.
#[derive(Drop)]
pub struct Sent {
    pub value: Option<Value>,
    pub back: Option<Located>,
}

/// A place that `read` reads into, and what it is read as.
#[derive(Drop)]
pub struct ReadTarget {
    pub kind: ReadKind,
    pub place: Located,
}

impl Duplicate for Located {
    fn copy(&self, alloc: Global) -> Result<Located, NoMemory> {
        Ok(Located {
            spot: self.spot,
            path: self.path.copy(alloc)?,
        })
    }
}
