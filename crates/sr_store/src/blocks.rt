ghost use Rattle.std.specs.Prelude.{◌≡◌, ℕ, IfOk, IsOk, OnErr, OnOk, Some, length, slice_get};
ghost use Rattle.std.specs.FinMap as map;
ghost use Rattle.sr_buckets.specs.Parts.{home, part};
ghost use Rattle.sr_value.specs.Operators.{Answers};
ghost use Rattle.sr_in_place.specs.Puts.{Wrote};
ghost use Rattle.sr_store.specs.Buckets.{AreBuckets};
ghost use Rattle.sr_store.specs.Variables.{CanPlace, KeepsOtherRoom, KeepsRoom, Made, Stored, declared_in, loaded_in, stored_in, with_variable};

use crate::bucket::Bucket;
use sr_buckets::{PARTS, home};
use sr_value::{Fault, NoMemory, Sel, Shape, Value, ValueFail};
use std::alloc::Global;
use std::array;
use std::marker::Model;

/// The shared variables of a world by block. Those of a block stand in the bucket of its number.
#[derive(Drop)]
pub struct Blocks {
    buckets: [Bucket; PARTS],
}

impl Model for Blocks {
    ghost use Rattle.std.specs.Prelude.{ℕ, refl};
    ghost use Rattle.std.specs.Coded.{code_by, coded×, coded_ℕ};
    ghost use Rattle.std.specs.FinMap as map;
    ghost use Rattle.sr_store.specs.Buckets.{AreBuckets, all_in};
    ghost use Rattle.sr_store.specs.Variables.{ByNumber, Stored, Variables};
    ghost use Rattle.sr_store.specs.contracts.variable.Variable as variable;

    ghost Value = { Stored };

    ghost coded = { code_by (Variables × ByNumber ℕ) (coded× (map.code coded_ℕ (map.code coded_ℕ variable.the_row.coded)) (map.code coded_ℕ coded_ℕ))
        (λ s. (s.variables, s.room)) (λ p. record { variables = p.0; room = p.1 }) (λ _. refl) };

    ghost view = { λ blocks. all_in blocks.buckets };

    ghost invariant = { λ blocks. AreBuckets blocks.buckets };
}

impl Blocks {
    /// No variables. It takes no memory.
    pub fn new(alloc: Global) -> Self
        ensures { result.variables ≡ map.empty }
    {
        Blocks {
            buckets: no_variables(alloc),
        }
    }

    /// Makes room for one more variable of a block.
    pub fn reserve(&mut self, block: u32) -> Result<(), NoMemory>
        ensures ok { OnOk result (CanPlace self.new block) }

        // Whether or not there is memory, the variables stay, and no room is lost.
        ensures variables { self.new.variables ≡ self.old.variables }
        ensures room { KeepsRoom self.old self.new }
    {
        let bucket = &mut self.buckets[home(block)];
        bucket.reserve(block)
    }

    /// Gives a block a variable of this shape with its default value. One that it had by this number goes.
    pub fn declare(&mut self, block: u32, var: u32, shape: &Shape) -> Result<(), ValueFail>
        ensures made { Made result self.old.variables self.new.variables (declared_in self.old.variables block var shape.now) }
        ensures room { KeepsOtherRoom self.old self.new block }
        ensures err { OnErr result (KeepsRoom self.old self.new) }
    {
        let bucket = &mut self.buckets[home(block)];
        bucket.declare(block, var, shape)
    }

    /// A copy of the value at the end of a path in a variable. E11 where the variable isn't declared.
    pub fn load(&self, block: u32, var: u32, path: &[Sel]) -> Result<Value, ValueFail>
        ensures { Answers result (loaded_in self.now.variables block var path.now) }
    {
        let bucket = &self.buckets[home(block)];
        bucket.load(block, var, path)
    }

    /// Puts a value at the end of a path in a variable. E11 where the variable isn't declared. After a fault
    /// all is as before. It takes no memory.
    pub fn store(&mut self, block: u32, var: u32, path: &[Sel], value: Value) -> Result<(), Fault>
        ensures wrote { Wrote result self.old.variables self.new.variables (stored_in self.old.variables block var path.now value) }
        ensures room { KeepsRoom self.old self.new }
        ensures err { OnErr result (self.new ≡ self.old) }
    {
        let bucket = &mut self.buckets[home(block)];
        bucket.store(block, var, path, value)
    }

    /// Gives a block with room a variable of this shape and value. One that it had by this number goes. It
    /// takes no memory.
    pub fn place(&mut self, block: u32, var: u32, shape: Shape, value: Value)
        requires { CanPlace self.old block }
        ensures variables { self.new.variables ≡ with_variable self.old.variables block var (record { shape = shape; value = value }) }
        ensures room { KeepsOtherRoom self.old self.new block }
    {
        let bucket = &mut self.buckets[home(block)];
        bucket.place(block, var, shape, value);
    }

    /// A copy of all variables, without the room.
    pub fn copy(&self, alloc: Global) -> Result<Blocks, NoMemory>
        ensures { IfOk result (λ copy. copy.variables ≡ self.now.variables) }
    {
        let mut buckets = no_variables(alloc);
        add_copies(alloc, &self.buckets, &mut buckets)?;
        Ok(Blocks { buckets })
    }

    /// The buckets: each has the variables of its part. It takes no memory.
    pub fn divide(self) -> [Bucket; PARTS]
        ensures buckets { AreBuckets result }
        ensures variables { (i : ℕ) (bucket : Stored) → slice_get result i ≡ Some bucket → bucket.variables ≡ part i self.variables }
        ensures room { (block : ℕ) (bucket : Stored) → slice_get result (home block) ≡ Some bucket → CanPlace self block → CanPlace bucket block }
    {
        self.buckets
    }

    /// The variables of all buckets, each of which has only those of its part. It takes no memory.
    pub fn join(buckets: [Bucket; PARTS]) -> Self
        requires { AreBuckets buckets }
        ensures variables { (i : ℕ) (bucket : Stored) → slice_get buckets i ≡ Some bucket → part i result.variables ≡ bucket.variables }
        ensures room { (block : ℕ) (bucket : Stored) → slice_get buckets (home block) ≡ Some bucket → CanPlace bucket block → CanPlace result block }
    {
        Blocks { buckets }
    }
}

/// Buckets without variables.
fn no_variables(alloc: Global) -> [Bucket; PARTS]
    ensures all { length result ≡ 32 }
    ensures none { (i : ℕ) (bucket : Stored) → slice_get result i ≡ Some bucket → bucket.variables ≡ map.empty }
{
    array::from_fn(
        |_: usize| -> Bucket
            ensures { result.variables ≡ map.empty }
        { Bucket::new(alloc) },
    )
}

/// Puts a copy of each bucket in its place.
fn add_copies(
    alloc: Global,
    from: &[Bucket; PARTS],
    to: &mut [Bucket; PARTS],
) -> Result<(), NoMemory>
    ensures long { length to.new ≡ length to.old }
    ensures copied { OnOk result ((i : ℕ) (bucket copy : Stored) → slice_get from.now i ≡ Some bucket → slice_get to.new i ≡ Some copy → copy.variables ≡ bucket.variables) }
{
    for place in 0..PARTS {
        let bucket = from[place].copy(alloc)?;
        to[place] = bucket;
    }
    Ok(())
}
