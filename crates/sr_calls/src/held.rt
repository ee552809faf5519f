ghost use Rattle.std.specs.Prelude.{◌≡◌, IfOk};

use sr_value::{Duplicate, NoMemory, Row, Value};
use std::alloc::Global;

/// An invocation that a process has taken over and not answered yet.
#[derive(Clone, Copy)]
pub struct Held {
    /// The number of the invocation.
    pub id: u32,
    /// The process that waits for the reply, or 0.
    pub back: u32,
    /// The number under which that process waits.
    pub back_id: u32,
}

/// A reply that its caller has not taken yet.
#[derive(Drop)]
pub struct Reply {
    /// The number under which the caller waits.
    pub id: u32,
    pub results: Option<Row<Value>>,
}

impl Duplicate for Reply {
    fn copy(&self, alloc: Global) -> Result<Reply, NoMemory> {
        let results = copied_results(alloc, &self.results)?;
        Ok(Reply {
            id: self.id,
            results,
        })
    }
}

/// A copy of the results in a reply.
fn copied_results(
    alloc: Global,
    results: &Option<Row<Value>>,
) -> Result<Option<Row<Value>>, NoMemory>
    ensures { IfOk result (λ copy. copy ≡ results.now) }
{
    match results {
        Some(values) => Ok(Some(values.copy(alloc)?)),
        None => Ok(None),
    }
}
