ghost use Rattle.std.specs.Prelude.{◌≡◌, IfOk, IsOk, OnErr, OnOk};
ghost use Rattle.std.specs.FinMap as map;
ghost use Rattle.sr_value.specs.Operators.{Answers};
ghost use Rattle.sr_in_place.specs.Puts.{Wrote, outcome};
ghost use Rattle.sr_store.specs.Variables.{CanPlace, KeepsOtherRoom, KeepsRoom, Made, declared_in, loaded_in, stored_in, with_block, with_variable};

use crate::block::Block;
use crate::variable::{Variable, new_variable};
use sr_value::{Fault, NoMemory, Sel, Shape, Value, ValueFail};
use std::alloc::Global;
use std::collections::BTreeMap;
use std::marker::Model;

/// The shared variables of the blocks of one part.
#[derive(Drop)]
pub struct Bucket {
    alloc: Global,
    /// A block without variables keeps its room.
    tables: BTreeMap<u32, Block>,
}

impl Model for Bucket {
    ghost use Rattle.std.specs.Prelude.{ℕ, refl};
    ghost use Rattle.std.specs.Coded.{code_by, coded×, coded_ℕ};
    ghost use Rattle.std.specs.FinMap as map;
    ghost use Rattle.sr_store.specs.Kept.{stored_on};
    ghost use Rattle.sr_store.specs.Variables.{ByNumber, Stored, Variables};
    ghost use Rattle.sr_store.specs.contracts.variable.Variable as variable;

    ghost Value = { Stored };

    ghost coded = { code_by (Variables × ByNumber ℕ) (coded× (map.code coded_ℕ (map.code coded_ℕ variable.the_row.coded)) (map.code coded_ℕ coded_ℕ))
        (λ s. (s.variables, s.room)) (λ p. record { variables = p.0; room = p.1 }) (λ _. refl) };

    ghost view = { λ bucket. stored_on bucket.tables.entries };
}

impl Bucket {
    /// No variables. It takes no memory.
    pub fn new(alloc: Global) -> Self
        ensures { result.variables ≡ map.empty }
    {
        Bucket {
            alloc,
            tables: BTreeMap::new(alloc),
        }
    }

    /// Makes room for one more variable of a block.
    pub fn reserve(&mut self, block: u32) -> Result<(), NoMemory>
        ensures ok { OnOk result (CanPlace self.new block) }

        // Whether or not there is memory, the variables stay, and no room is lost.
        ensures variables { self.new.variables ≡ self.old.variables }
        ensures room { KeepsRoom self.old self.new }
    {
        if let Some(kept) = self.tables.get_mut(&block) {
            return kept.reserve();
        }
        let mut kept = Block::new(self.alloc);
        kept.reserve()?;
        self.tables.insert(block, kept)?;
        Ok(())
    }

    /// Gives a block a variable of this shape with its default value. One that it had by this number goes.
    pub fn declare(&mut self, block: u32, var: u32, shape: &Shape) -> Result<(), ValueFail>
        ensures made { Made result self.old.variables self.new.variables (declared_in self.old.variables block var shape.now) }
        ensures room { KeepsOtherRoom self.old self.new block }
        ensures err { OnErr result (KeepsRoom self.old self.new) }
    {
        let variable = new_variable(self.alloc, shape)?;
        self.set(block, var, variable)?;
        Ok(())
    }

    fn set(&mut self, block: u32, var: u32, variable: Variable) -> Result<(), NoMemory>
        ensures ok { OnOk result (self.new.variables ≡ with_variable self.old.variables block var variable) }
        ensures succeeds { CanPlace self.old block → IsOk result }
        ensures err { OnErr result (self.new.variables ≡ self.old.variables) }
        ensures kept { OnErr result (KeepsRoom self.old self.new) }
        ensures room { KeepsOtherRoom self.old self.new block }
    {
        if let Some(kept) = self.tables.get_mut(&block) {
            return kept.set(var, variable);
        }
        let mut kept = Block::new(self.alloc);
        kept.set(var, variable)?;
        self.tables.insert(block, kept)?;
        Ok(())
    }

    /// A copy of the value at the end of a path in a variable. E11 where the variable isn't declared.
    pub fn load(&self, block: u32, var: u32, path: &[Sel]) -> Result<Value, ValueFail>
        ensures { Answers result (loaded_in self.now.variables block var path.now) }
    {
        match self.tables.get(&block) {
            Some(kept) => kept.load(self.alloc, var, path),
            None => Err(ValueFail::Fault(Fault::Early)),
        }
    }

    /// Puts a value at the end of a path in a variable. E11 where the variable isn't declared. After a fault
    /// all is as before. It takes no memory.
    pub fn store(&mut self, block: u32, var: u32, path: &[Sel], value: Value) -> Result<(), Fault>
        ensures wrote { Wrote result self.old.variables self.new.variables (stored_in self.old.variables block var path.now value) }
        ensures room { KeepsRoom self.old self.new }
        ensures err { OnErr result (self.new ≡ self.old) }
    {
        let Some(kept) = self.tables.get_mut(&block) else {
            return Err(Fault::Early);
        };
        kept.store(var, path, value)
    }

    /// Whether [`Bucket::store`] would put a value there, or its fault. Nothing is changed, and it takes no memory.
    pub fn check_store(
        &self,
        block: u32,
        var: u32,
        path: &[Sel],
        value: &Value,
    ) -> Result<(), Fault>
        ensures { result ≡ outcome (stored_in self.now.variables block var path.now value.now) }
    {
        match self.tables.get(&block) {
            Some(kept) => kept.check_store(var, path, value),
            None => Err(Fault::Early),
        }
    }

    /// Gives a block with room a variable of this shape and value. One that it had by this number goes. It
    /// takes no memory.
    pub fn place(&mut self, block: u32, var: u32, shape: Shape, value: Value)
        requires { CanPlace self.old block }
        ensures variables { self.new.variables ≡ with_variable self.old.variables block var (record { shape = shape; value = value }) }
        ensures room { KeepsOtherRoom self.old self.new block }
    {
        let _ = self.set(block, var, Variable { shape, value });
    }

    /// A copy of all variables, without the room.
    pub fn copy(&self, alloc: Global) -> Result<Bucket, NoMemory>
        ensures { IfOk result (λ copy. copy.variables ≡ self.now.variables) }
    {
        let mut copy = Bucket::new(alloc);
        copy.add_copies(self)?;
        Ok(copy)
    }

    /// Adds copies of the variables of another's blocks.
    fn add_copies(&mut self, other: &Bucket) -> Result<(), NoMemory>
        requires { self.old.variables ≡ map.empty }
        ensures { OnOk result (self.new.variables ≡ other.now.variables) }
    {
        for (block, kept) in &other.tables {
            let copy = kept.copy(self.alloc)?;
            self.add(*block, copy)?;
        }
        Ok(())
    }

    /// Gives a block these variables, in place of all that it had.
    fn add(&mut self, block: u32, kept: Block) -> Result<(), NoMemory>
        ensures { OnOk result (self.new.variables ≡ with_block self.old.variables block kept.variables) }
    {
        self.tables.insert(block, kept)?;
        Ok(())
    }
}
