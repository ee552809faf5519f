ghost use Rattle.sr_gen.specs.Doing.{Patches};

use sr_code::{Coded, Instruction};
use sr_value::{Place, Row};

/// Writes an instruction over the one at index `at`.
pub fn patch(place: Place, instruction: Instruction, at: usize, out: &mut Row<Coded>)
    ensures { Patches place instruction at out.old out.new }
{
    if at < out.len() {
        let _ = out.replace(at, Coded { place, instruction });
    }
}
