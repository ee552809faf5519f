//! The world that guards read in these tests.

use sr_select::Reads;
use sr_value::{EnumNames, Sel, Value, ValueFail};

/// A world in which each shared variable is true, and one invocation of each operation is pending.
#[derive(Drop)]
pub struct World {
    pub names: EnumNames,
}

impl Reads for World {
    ghost use Rattle.std.specs.Prelude.{Ok, true};
    ghost use Rattle.sr_value.specs.declared.value.Value.TheVariants.{Bool as truth_value};

    ghost reading = { λ world. record { load = λ block var path. Ok (truth_value true); count = λ op. 1; names = world.names } };

    fn load(&self, _block: u32, _var: u32, _path: &[Sel]) -> Result<Value, ValueFail> {
        Ok(Value::Bool(true))
    }

    fn count(&self, _op: u32) -> u32 {
        1
    }

    fn names(&self) -> &EnumNames {
        &self.names
    }
}
