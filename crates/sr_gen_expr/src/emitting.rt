ghost use Rattle.std.specs.Prelude.{OnOk};
ghost use Rattle.sr_code.specs.Stretches.{Emits};

use sr_code::{Coded, Instruction};
use sr_value::{NoMemory, Place, Row};

/// Emits one instruction, which runs before those that were emitted.
pub fn emit(place: Place, instruction: Instruction, out: &mut Row<Coded>) -> Result<(), NoMemory>
    ensures { OnOk result (Emits place instruction out.old out.new) }
{
    out.push(Coded { place, instruction })
}
