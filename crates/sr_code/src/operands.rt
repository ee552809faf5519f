use crate::fifo::Fifo;
use crate::numbers::Numbers;
use crate::outs::Outs;
use crate::stack::Stack;
use sr_ask::{Located, Out, Pick, ReadTarget, Service};
use sr_core::Piece;
use sr_value::{Cap, Duplicate, NoMemory, Row, Shape, Value};
use std::alloc::Global;

/// An invocation that is being made.
#[derive(Drop)]
pub struct Call {
    pub target: Cap,
    /// The arguments so far.
    pub values: Row<Value>,
    /// The places that results go to, so far.
    pub places: Row<Located>,
}

impl Duplicate for Call {
    fn copy(&self, alloc: Global) -> Result<Call, NoMemory> {
        let values = self.values.copy(alloc)?;
        let places = self.places.copy(alloc)?;
        Ok(Call {
            target: self.target,
            values,
            places,
        })
    }
}

/// A `read` that is being carried out.
#[derive(Drop)]
pub struct Reading {
    /// The places that are still to be read into.
    pub targets: Fifo<ReadTarget>,
    /// How many items have been read.
    pub count: u32,
}

/// A reply of a `co` that was taken.
#[derive(Drop)]
pub struct Completed {
    /// The invocation that it answers.
    pub out: Out,
    pub results: Option<Row<Value>>,
}

/// The operands of a process: a stack for each kind.
#[derive(Drop)]
pub struct Operands {
    pub values: Stack<Value>,
    pub numbers: Stack<i32>,
    pub caps: Stack<Cap>,
    /// The numbers of invocations whose replies are wanted.
    pub names: Stack<u32>,
    pub places: Stack<Located>,
    pub shapes: Stack<Shape>,
    /// Lists of values: arguments, results.
    pub lists: Stack<Fifo<Value>>,
    pub pieces: Stack<Row<Piece>>,
    pub calls: Stack<Call>,
    /// The places that the results of a reply go to.
    pub targets: Stack<Fifo<Located>>,
    pub readings: Stack<Reading>,
    /// What the quantifiers around have still to take.
    pub loops: Stack<Numbers>,
    /// How often something is still to be done.
    pub counts: Stack<u32>,
    /// Invocations that were chosen.
    pub picks: Stack<Pick>,
    /// The services around.
    pub services: Stack<Service>,
    /// What is out of the `co`s around.
    pub outs: Stack<Outs>,
    pub completed: Stack<Completed>,
}

impl Operands {
    ghost use Rattle.std.specs.Prelude.{◌≡◌};
    ghost use Rattle.sr_code.specs.Operands.{no_operands};

    pub fn new(alloc: Global) -> Self
        ensures { result ≡ no_operands }
    {
        Operands {
            values: Stack::new(alloc),
            numbers: Stack::new(alloc),
            caps: Stack::new(alloc),
            names: Stack::new(alloc),
            places: Stack::new(alloc),
            shapes: Stack::new(alloc),
            lists: Stack::new(alloc),
            pieces: Stack::new(alloc),
            calls: Stack::new(alloc),
            targets: Stack::new(alloc),
            readings: Stack::new(alloc),
            loops: Stack::new(alloc),
            counts: Stack::new(alloc),
            picks: Stack::new(alloc),
            services: Stack::new(alloc),
            outs: Stack::new(alloc),
            completed: Stack::new(alloc),
        }
    }
}
