use crate::picks::Picks;
use crate::values::{some_argument, some_value};
use sr_core::{Core, Mode, Operation};
use sr_value::{Cap, NoMemory, Row, Value};
use std::alloc::Global;

/// What the reply to an invocation holds.
#[derive(Clone, Copy)]
pub enum Reply {
    /// Nothing, as of `noop`.
    Nothing,
    /// No results.
    Empty,
    /// The instance of this number.
    Instance(u32),
    /// The results of an operation.
    Operation(u32),
}

impl Reply {
    /// What the reply to an invocation of this target holds.
    pub fn of(target: Cap) -> Reply {
        match target {
            Cap::Op { owner: _, op } => Reply::Operation(op),
            _ => Reply::Nothing,
        }
    }

    /// The results, where there are any.
    pub fn results(
        self,
        alloc: Global,
        core: &Core,
        picks: &mut Picks,
    ) -> Result<Option<Row<Value>>, NoMemory> {
        match self {
            Reply::Nothing => Ok(None),
            Reply::Empty => Ok(Some(Row::new(alloc))),
            Reply::Instance(name) => Ok(Some(instance(alloc, name)?)),
            Reply::Operation(op) => match core.operations.get(op as usize) {
                Some(operation) => Ok(Some(results_of(alloc, operation, picks)?)),
                None => Ok(None),
            },
        }
    }
}

fn instance(alloc: Global, name: u32) -> Result<Row<Value>, NoMemory> {
    let mut results = Row::new(alloc);
    results.push(Value::Capa(Cap::Res(name)))?;
    Ok(results)
}

/// Results of an operation: those of its formals that are copied back, and what it returns.
fn results_of(
    alloc: Global,
    operation: &Operation,
    picks: &mut Picks,
) -> Result<Row<Value>, NoMemory> {
    let mut results = Row::new(alloc);
    for parameter in operation.parameters.as_slice() {
        if parameter.mode != Mode::Val {
            results.push(some_argument(alloc, &parameter.shape, picks)?)?;
        }
    }
    if let Some(shape) = &operation.returns {
        results.push(some_value(alloc, shape, picks)?)?;
    }
    Ok(results)
}
