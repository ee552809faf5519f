ghost use Rattle.std.specs.Prelude.{◌≡◌};
ghost use Rattle.sr_world.specs.Selecting.{reading_of};

use crate::world::World;
use sr_core::Core;
use sr_select::Reads;
use sr_value::{EnumNames, Sel, Value, ValueFail};

/// What the guards of a process read of a world.
#[derive(Clone, Copy)]
pub struct GuardReads<'a> {
    pub core: &'a Core,
    pub world: &'a World,
    pub process: u32,
}

impl<'a> Reads for GuardReads<'a> {
    ghost reading = { λ reads. reading_of reads.core.now reads.world.now reads.process };

    fn load(&self, block: u32, var: u32, path: &[Sel]) -> Result<Value, ValueFail> {
        let world = self.world;
        world.blocks.load(block, var, path)
    }

    fn count(&self, op: u32) -> u32 {
        match self.core.operations.get(op as usize) {
            Some(operation) => self.world.waiting(self.process, op, operation.scope),
            None => 0,
        }
    }

    fn names(&self) -> &EnumNames {
        &self.core.names
    }
}
