ghost use Rattle.std.specs.Prelude.{◌≡◌, ◌<◌, ◌≤◌, IfOk, IsOk, OnErr, OnOk, Some, nat_eq};
ghost use Rattle.std.specs.HashMap.{Updates, spare};
ghost use Rattle.std.specs.FinMap as map;
ghost use Rattle.sr_value.specs.Operators.{Answers};
ghost use Rattle.sr_in_place.specs.Puts.{Wrote, outcome};
ghost use Rattle.sr_store.specs.Variables.{block_loaded, block_stored};

use crate::part::{put_at, value_at};
use crate::variable::Variable;
use sr_in_place::check_put;
use sr_value::{Duplicate, Fault, NoMemory, Sel, Value, ValueFail};
use std::alloc::Global;
use std::collections::HashMap;
use std::marker::Model;

/// The variables of one block by their numbers.
#[derive(Drop)]
pub struct Block {
    variables: HashMap<u32, Variable>,
}

impl Model for Block {
    ghost use Rattle.std.specs.Prelude.{ℕ, refl};
    ghost use Rattle.std.specs.Coded.{code_by, coded×, coded_ℕ};
    ghost use Rattle.std.specs.FinMap as map;
    ghost use Rattle.std.specs.HashMap.{spare};
    ghost use Rattle.sr_store.specs.Kept.{Kept};
    ghost use Rattle.sr_store.specs.Variables.{ByNumber};
    ghost use Rattle.sr_store.specs.declared.variable.Variable.{Variable};
    ghost use Rattle.sr_store.specs.contracts.variable.Variable as variable;

    ghost Value = { Kept };

    ghost coded = { code_by (ByNumber Variable × ℕ) (coded× (map.code coded_ℕ variable.the_row.coded) coded_ℕ)
        (λ k. (k.variables, k.room)) (λ p. record { variables = p.0; room = p.1 }) (λ _. refl) };

    ghost view = { λ block. record { variables = map.from_entries block.variables.entries; room = spare block.variables } };
}

impl Block {
    /// No variables. It takes no memory.
    pub fn new(alloc: Global) -> Self
        ensures { result.variables ≡ map.empty }
    {
        Block {
            variables: HashMap::new(alloc),
        }
    }

    /// Makes room for one more variable.
    pub fn reserve(&mut self) -> Result<(), NoMemory>
        ensures variables { self.new.variables ≡ self.old.variables }
        ensures ok { OnOk result (0 < self.new.room) }
        ensures kept { self.old.room ≤ self.new.room }
        ensures succeeds { 0 < self.old.room → IsOk result }
    {
        self.variables.try_reserve(1)?;
        Ok(())
    }

    /// Gives a number a variable, in place of the one that it had.
    pub fn set(&mut self, var: u32, variable: Variable) -> Result<(), NoMemory>
        ensures ok { OnOk result (self.new.variables ≡ map.insert self.old.variables var variable) }
        ensures succeeds { 0 < self.old.room → IsOk result }
        ensures err { OnErr result (self.new.variables ≡ self.old.variables) }
        ensures kept { OnErr result (self.old.room ≤ self.new.room) }
    {
        self.reserve()?;
        self.set_reserved(var, variable);
        Ok(())
    }

    /// The same where there is room for one more.
    fn set_reserved(&mut self, var: u32, variable: Variable)
        requires { 0 < self.old.room }
        ensures { self.new.variables ≡ map.insert self.old.variables var variable }
    {
        set_entry(&mut self.variables, var, variable);
    }

    /// A copy of the value at the end of a path in a variable.
    pub fn load(&self, alloc: Global, var: u32, path: &[Sel]) -> Result<Value, ValueFail>
        ensures { Answers result (block_loaded self.now.variables var path.now) }
    {
        match self.variables.get(&var) {
            Some(variable) => value_at(alloc, &variable.value, path),
            None => Err(ValueFail::Fault(Fault::Early)),
        }
    }

    /// Puts a value at the end of a path in a variable. It takes no memory.
    pub fn store(&mut self, var: u32, path: &[Sel], value: Value) -> Result<(), Fault>
        ensures wrote { Wrote result self.old.variables self.new.variables (block_stored self.old.variables var path.now value) }
        ensures room { self.new.room ≡ self.old.room }
        ensures err { OnErr result (self.new ≡ self.old) }
    {
        let Some(variable) = self.variables.get_mut(&var) else {
            return Err(Fault::Early);
        };
        put_at(&variable.shape, &mut variable.value, path, value)
    }

    /// Whether [`Block::store`] would put a value there, or its fault.
    pub fn check_store(&self, var: u32, path: &[Sel], value: &Value) -> Result<(), Fault>
        ensures { result ≡ outcome (block_stored self.now.variables var path.now value.now) }
    {
        match self.variables.get(&var) {
            Some(variable) => check_put(&variable.shape, &variable.value, path, value),
            None => Err(Fault::Early),
        }
    }

    /// A copy of the variables.
    pub fn copy(&self, alloc: Global) -> Result<Block, NoMemory>
        ensures { IfOk result (λ copy. copy.variables ≡ self.now.variables) }
    {
        let mut copy = Block::new(alloc);
        copy.add_copies(alloc, self)?;
        Ok(copy)
    }

    /// Adds copies of another block's variables.
    fn add_copies(&mut self, alloc: Global, other: &Block) -> Result<(), NoMemory>
        requires { self.old.variables ≡ map.empty }
        ensures { OnOk result (self.new.variables ≡ other.now.variables) }
    {
        for (var, variable) in &other.variables {
            let copy = variable.copy(alloc)?;
            self.set(*var, copy)?;
        }
        Ok(())
    }
}

/// Puts an entry into a table that has room for it.
fn set_entry<V: Drop>(table: &mut HashMap<u32, V>, key: u32, value: V)
    requires { 0 < spare table.old }
    ensures { Updates nat_eq table.old table.new key (Some value) }
{
    let _ = table.insert(key, value);
}
