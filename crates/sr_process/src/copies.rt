ghost use Rattle.std.specs.Prelude.{◌≡◌, IfOk};

use sr_ask::{Pick, ReadTarget, Service};
use sr_code::{Completed, Fifo, Outs, Reading, Stack};
use sr_core::Piece;
use sr_frame::{copied_out, copied_pick, copied_pieces, copied_service};
use sr_value::{Duplicate, NoMemory, Row, Value};
use std::alloc::Global;

/// Operands that can be copied where there is memory.
pub(crate) trait Copied: Drop {
    /// An operand equal to this one.
    fn copied(&self, alloc: Global) -> Result<Self, NoMemory>
        ensures { IfOk result (λ copy. copy ≡ self.now) };
}

impl Copied for Pick {
    fn copied(&self, alloc: Global) -> Result<Pick, NoMemory> {
        copied_pick(alloc, self)
    }
}

impl Copied for Service {
    fn copied(&self, alloc: Global) -> Result<Service, NoMemory> {
        copied_service(alloc, self)
    }
}

impl Copied for Outs {
    fn copied(&self, alloc: Global) -> Result<Outs, NoMemory> {
        copied_outs(alloc, self)
    }
}

impl Copied for Row<Piece> {
    fn copied(&self, alloc: Global) -> Result<Row<Piece>, NoMemory> {
        copied_pieces(alloc, self)
    }
}

impl Copied for Reading {
    fn copied(&self, alloc: Global) -> Result<Reading, NoMemory> {
        Ok(Reading {
            targets: copied_targets(alloc, &self.targets)?,
            count: self.count,
        })
    }
}

impl Copied for Completed {
    fn copied(&self, alloc: Global) -> Result<Completed, NoMemory> {
        let results = copied_results(alloc, &self.results)?;
        Ok(Completed {
            out: copied_out(alloc, &self.out)?,
            results,
        })
    }
}

fn copied_target(alloc: Global, target: &ReadTarget) -> Result<ReadTarget, NoMemory>
    ensures { IfOk result (λ copy. copy ≡ target.now) }
{
    Ok(ReadTarget {
        kind: target.kind,
        place: target.place.copy(alloc)?,
    })
}

#[tactic(auto, using(crate::proofs::OneMore::one_more))]
fn copied_targets(alloc: Global, targets: &Fifo<ReadTarget>) -> Result<Fifo<ReadTarget>, NoMemory>
    ensures { IfOk result (λ copy. copy ≡ targets.now) }
{
    let mut copies = Fifo::new(alloc);
    for at in 0..targets.len() {
        copies.push(copied_target(alloc, targets.at(at))?)?;
    }
    Ok(copies)
}

/// A copy of those that are out.
#[tactic(auto, using(crate::proofs::OneMore::one_more))]
pub(crate) fn copied_outs(alloc: Global, outs: &Outs) -> Result<Outs, NoMemory>
    ensures { IfOk result (λ copy. copy ≡ outs.now) }
{
    let mut copies = Outs::new(alloc);
    for at in 0..outs.len() {
        copies.push(copied_out(alloc, outs.at(at))?)?;
    }
    Ok(copies)
}

fn copied_results(
    alloc: Global,
    results: &Option<Row<Value>>,
) -> Result<Option<Row<Value>>, NoMemory>
    ensures { IfOk result (λ copy. copy ≡ results.now) }
{
    match results {
        Some(values) => Ok(Some(values.copy(alloc)?)),
        None => Ok(None),
    }
}

/// A copy of a stack.
pub(crate) fn copied_stack<T: Copied>(alloc: Global, stack: &Stack<T>) -> Result<Stack<T>, NoMemory>
    ensures { IfOk result (λ copy. copy ≡ stack.now) }
{
    let mut copies = Row::new(alloc);
    for item in stack.as_slice() {
        copies.push(item.copied(alloc)?)?;
    }
    Ok(Stack::from_row(copies))
}
