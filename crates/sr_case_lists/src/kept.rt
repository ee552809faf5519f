use crate::values::first_value;
use sr_value::{Duplicate, NoMemory, Row, Sel, Shape, Value, ValueFail, loaded, stored};
use std::alloc::Global;

/// A variable of a block.
#[derive(Drop)]
struct Variable {
    block: u32,
    var: u32,
    shape: Shape,
    value: Value,
}

impl Variable {
    fn load(&self, alloc: Global, path: &[Sel]) -> Result<Value, NoMemory> {
        match loaded(alloc, &self.value, path) {
            Ok(value) => Ok(value),
            Err(ValueFail::Fault(_)) => Ok(Value::Int(0)),
            Err(ValueFail::NoMemory) => Err(NoMemory),
        }
    }

    fn store(&mut self, alloc: Global, path: &[Sel], value: &Value) -> Result<(), NoMemory> {
        match stored(alloc, &self.shape, &self.value, path, value) {
            Ok(value) => {
                self.value = value;
                Ok(())
            }
            Err(ValueFail::Fault(_)) => Ok(()),
            Err(ValueFail::NoMemory) => Err(NoMemory),
        }
    }
}

/// The variables of blocks.
#[derive(Drop)]
pub struct Kept {
    variables: Row<Variable>,
}

impl Kept {
    pub fn new(alloc: Global) -> Kept {
        Kept {
            variables: Row::new(alloc),
        }
    }

    /// Where a variable stands that was declared last under this number.
    fn find(&self, block: u32, var: u32) -> Option<usize> {
        self.variables
            .as_slice()
            .iter()
            .rposition(|variable| variable.block == block && variable.var == var)
    }

    pub fn declare(
        &mut self,
        alloc: Global,
        block: u32,
        var: u32,
        shape: &Shape,
    ) -> Result<(), NoMemory> {
        let value = first_value(alloc, shape)?;
        let shape = shape.copy(alloc)?;
        self.variables.push(Variable {
            block,
            var,
            shape,
            value,
        })
    }

    /// The value at this path, or 0 where there is none.
    pub fn load(
        &self,
        alloc: Global,
        block: u32,
        var: u32,
        path: &[Sel],
    ) -> Result<Value, NoMemory> {
        match self.find(block, var).and_then(|at| self.variables.get(at)) {
            Some(variable) => variable.load(alloc, path),
            None => Ok(Value::Int(0)),
        }
    }

    pub fn store(
        &mut self,
        alloc: Global,
        block: u32,
        var: u32,
        path: &[Sel],
        value: &Value,
    ) -> Result<(), NoMemory> {
        match self.find(block, var) {
            Some(at) if at < self.variables.len() => {
                self.variables.at_mut(at).store(alloc, path, value)
            }
            _ => Ok(()),
        }
    }
}
