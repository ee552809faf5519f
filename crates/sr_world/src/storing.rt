ghost use Rattle.std.specs.Prelude.{◌≡◌};
ghost use Rattle.sr_world.specs.Acting.{Acts};
ghost use Rattle.sr_world.specs.Parts.{Fails};
ghost use Rattle.sr_world.specs.Steps.{declare as declare_of, load as load_of, store as store_of};

use crate::acted::Acted;
use crate::ends::End;
use crate::world::World;
use sr_ask::Answer;
use sr_value::{Duplicate, NoMemory, Place, Row, Sel, Shape, Value, ValueFail};

/// The run ends by a fault, or memory ran out.
fn failed(fail: ValueFail, place: Place) -> Result<Acted, NoMemory>
    ensures { Fails place fail result }
{
    match fail {
        ValueFail::Fault(fault) => Ok(Acted::Ends(End::Failed { fault, place })),
        ValueFail::NoMemory => Err(NoMemory),
    }
}

impl World {
    /// Gives a block a variable of this shape.
    #[inline(never)]
    pub(crate) fn declare(
        &mut self,
        place: Place,
        block: u32,
        var: u32,
        shape: &Shape,
    ) -> Result<Acted, NoMemory>
        ensures { Acts (declare_of place block var shape.now self.old) self.old self.new result }
    {
        match self.blocks.declare(block, var, shape) {
            Ok(()) => Ok(Acted::Done(Answer::Done)),
            Err(fail) => failed(fail, place),
        }
    }

    /// Loads the value at the end of a path.
    #[inline(never)]
    pub(crate) fn load(
        &mut self,
        place: Place,
        block: u32,
        var: u32,
        path: &Row<Sel>,
    ) -> Result<Acted, NoMemory>
        ensures { Acts (load_of place block var path.now self.old) self.old self.new result }
    {
        match self.blocks.load(block, var, path.as_slice()) {
            Ok(value) => Ok(Acted::Done(Answer::Got(value))),
            Err(fail) => failed(fail, place),
        }
    }

    /// Puts a value at the end of a path.
    #[inline(never)]
    pub(crate) fn store(
        &mut self,
        place: Place,
        block: u32,
        var: u32,
        path: &Row<Sel>,
        value: &Value,
    ) -> Result<Acted, NoMemory>
        ensures { Acts (store_of place block var path.now value.now self.old) self.old self.new result }
    {
        let value = value.copy(self.alloc)?;
        match self.blocks.store(block, var, path.as_slice(), value) {
            Ok(()) => Ok(Acted::Done(Answer::Done)),
            Err(fault) => Ok(Acted::Ends(End::Failed { fault, place })),
        }
    }
}
