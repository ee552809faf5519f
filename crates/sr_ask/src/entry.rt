use crate::answer::Answer;
use crate::ask::Ask;
use sr_value::{Compare, Duplicate, NoMemory, Row, Sel, Value};
use std::alloc::Global;

/// What a step read of the world: the value of a place, or how many invocations were pending.
#[derive(Debug, Drop)]
pub enum Seen {
    Cell {
        block: u32,
        var: u32,
        path: Row<Sel>,
        value: Value,
    },
    Pending {
        op: u32,
        count: u32,
    },
}

impl Duplicate for Seen {
    fn copy(&self, alloc: Global) -> Result<Seen, NoMemory> {
        match self {
            Seen::Cell {
                block,
                var,
                path,
                value,
            } => Ok(Seen::Cell {
                block: *block,
                var: *var,
                path: path.copy(alloc)?,
                value: value.copy(alloc)?,
            }),
            Seen::Pending { op, count } => Ok(Seen::Pending {
                op: *op,
                count: *count,
            }),
        }
    }
}

impl Compare for Seen {
    fn same(&self, other: &Self) -> bool {
        match self {
            Seen::Cell {
                block,
                var,
                path,
                value,
            } => match other {
                Seen::Cell {
                    block: their_block,
                    var: their_var,
                    path: their_path,
                    value: their_value,
                } => {
                    *block == *their_block
                        && *var == *their_var
                        && path.same(their_path)
                        && value.same(their_value)
                }
                Seen::Pending { .. } => false,
            },
            Seen::Pending { op, count } => match other {
                Seen::Pending {
                    op: their_op,
                    count: their_count,
                } => *op == *their_op && *count == *their_count,
                Seen::Cell { .. } => false,
            },
        }
    }
}

/// One step as a worker writes it down: who made it, what was asked and answered, and what it read.
#[derive(Debug, Drop)]
pub struct Entry {
    pub worker: u32,
    /// Its place among the entries that touch the same parts of the world.
    pub stamp: u64,
    pub actor: u32,
    /// The instance of the actor.
    pub instance: u32,
    /// The number that the step gave to what it made, or 0.
    pub name: u32,
    pub ask: Ask,
    pub answer: Answer,
    /// The invocation whose duty to answer the step took over, answered or moved, or 0.
    pub duty: u32,
    pub reads: Row<Seen>,
}

impl Duplicate for Entry {
    fn copy(&self, alloc: Global) -> Result<Entry, NoMemory> {
        Ok(Entry {
            worker: self.worker,
            stamp: self.stamp,
            actor: self.actor,
            instance: self.instance,
            name: self.name,
            ask: self.ask.copy(alloc)?,
            answer: self.answer.copy(alloc)?,
            duty: self.duty,
            reads: self.reads.copy(alloc)?,
        })
    }
}

impl Compare for Entry {
    fn same(&self, other: &Self) -> bool {
        self.worker == other.worker
            && self.stamp == other.stamp
            && self.actor == other.actor
            && self.instance == other.instance
            && self.name == other.name
            && self.ask.same(&other.ask)
            && self.answer.same(&other.answer)
            && self.duty == other.duty
            && self.reads.same(&other.reads)
    }
}
