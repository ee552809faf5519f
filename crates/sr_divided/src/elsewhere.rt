//! What of a world stands in other parts than those that a step touches.

use sr_ask::SharedNumbers;
use sr_buckets::home;
use sr_calls::Calls;
use sr_core::Classes;
use sr_queue::Queue;
use sr_store::Blocks;
use sr_touch::{Parts, line_home};
use sr_value::{Compare, NoMemory, Row, Value, ValueFail};
use sr_world::World;
use std::alloc::Global;

/// What a run has made so far.
#[derive(Drop)]
pub struct Known {
    pub alloc: Global,
    /// The blocks and numbers of variables.
    pub variables: Row<(u32, u32)>,
    /// The numbers of processes and invocations.
    pub numbers: Row<u32>,
}

/// One thing that stands in a part.
#[derive(Clone, Copy, PartialEq, Eq)]
enum Sight {
    /// A process that lives.
    Lives {
        process: u32,
    },
    /// An invocation that is pending.
    Pends {
        id: u32,
    },
    /// A variable, whose value stands among the values.
    IsDeclared {
        block: u32,
        var: u32,
    },
    /// An invocation that a process holds, and who waits for the reply.
    Holds {
        process: u32,
        id: u32,
        back: u32,
        back_id: u32,
    },
    /// A reply that waits for a process.
    HasReply {
        process: u32,
        id: u32,
    },
}

impl Compare for Sight {
    fn same(&self, other: &Self) -> bool {
        *self == *other
    }
}

/// All that stands in other parts than these.
#[derive(Drop)]
pub struct Elsewhere {
    parts: Parts,
    sights: Row<Sight>,
    values: Row<Value>,
}

fn has(parts: Parts, part: usize) -> bool {
    match parts {
        Parts::One(one) => part == one,
        Parts::Two(one, other) => part == one || part == other,
        Parts::Three(one, other, third) => part == one || part == other || part == third,
    }
}

impl Elsewhere {
    pub fn new(alloc: Global, parts: Parts) -> Self {
        Elsewhere {
            parts,
            sights: Row::new(alloc),
            values: Row::new(alloc),
        }
    }

    /// The parts that are left out.
    pub fn parts(&self) -> Parts {
        self.parts
    }

    /// Whether the same stands there.
    pub fn is_same(&self, other: &Elsewhere) -> bool {
        self.sights.same(&other.sights) && self.values.same(&other.values)
    }

    /// Notes what a world has there of what is known.
    pub fn note(
        &mut self,
        classes: &Classes,
        known: &Known,
        world: &mut World,
    ) -> Result<(), NoMemory> {
        self.note_living(world)?;
        self.note_pending(classes, world.queue())?;
        let loan = world.lend();
        let noted = self.note_loan(known, &loan.blocks, &loan.calls);
        world.take_back(loan);
        noted
    }

    fn note_loan(&mut self, known: &Known, blocks: &Blocks, calls: &Calls) -> Result<(), NoMemory> {
        self.note_variables(known, blocks)?;
        self.note_all_calls(known, calls)
    }

    fn note_living(&mut self, world: &World) -> Result<(), NoMemory> {
        let living = world.living()?;
        for process in living.as_slice() {
            if !has(self.parts, home(*process)) {
                self.sights.push(Sight::Lives { process: *process })?;
            }
        }
        Ok(())
    }

    fn note_pending(&mut self, classes: &Classes, queue: &Queue) -> Result<(), NoMemory> {
        for place in 0..queue.len() {
            let pending = queue.at(place);
            if !has(self.parts, line_home(classes, pending.owner, pending.op)) {
                self.sights.push(Sight::Pends { id: pending.id })?;
            }
        }
        Ok(())
    }

    fn note_variables(&mut self, known: &Known, blocks: &Blocks) -> Result<(), NoMemory> {
        for (block, var) in known.variables.as_slice() {
            if !has(self.parts, home(*block)) {
                self.note_variable(blocks, *block, *var)?;
            }
        }
        Ok(())
    }

    fn note_variable(&mut self, blocks: &Blocks, block: u32, var: u32) -> Result<(), NoMemory> {
        match blocks.load(block, var, &[]) {
            Ok(value) => {
                self.values.push(value)?;
                self.sights.push(Sight::IsDeclared { block, var })
            }
            Err(ValueFail::Fault(_)) => Ok(()),
            Err(ValueFail::NoMemory) => Err(NoMemory),
        }
    }

    fn note_all_calls(&mut self, known: &Known, calls: &Calls) -> Result<(), NoMemory> {
        for id in known.numbers.as_slice() {
            let ids = SharedNumbers::one(known.alloc, *id)?;
            self.note_calls(known, calls, *id, &ids)?;
        }
        Ok(())
    }

    /// Notes which processes hold an invocation, and which have a reply to it. `ids` has its number alone.
    fn note_calls(
        &mut self,
        known: &Known,
        calls: &Calls,
        id: u32,
        ids: &SharedNumbers,
    ) -> Result<(), NoMemory> {
        for process in known.numbers.as_slice() {
            if !has(self.parts, home(*process)) {
                self.note_holding(calls, *process, id)?;
                self.note_reply(calls, *process, id, ids)?;
            }
        }
        Ok(())
    }

    fn note_holding(&mut self, calls: &Calls, process: u32, id: u32) -> Result<(), NoMemory> {
        match calls.holding(process, id) {
            Some(held) => self.sights.push(Sight::Holds {
                process,
                id,
                back: held.back,
                back_id: held.back_id,
            }),
            None => Ok(()),
        }
    }

    fn note_reply(
        &mut self,
        calls: &Calls,
        process: u32,
        id: u32,
        ids: &SharedNumbers,
    ) -> Result<(), NoMemory> {
        if calls.has_reply(process, ids) {
            self.sights.push(Sight::HasReply { process, id })
        } else {
            Ok(())
        }
    }
}
