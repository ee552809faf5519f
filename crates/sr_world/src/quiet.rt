ghost use Rattle.std.specs.Prelude.{◌≡◌, ℕ, IfOk};
ghost use Rattle.std.specs.List.{list_all};
ghost use Rattle.sr_world.specs.Runs.{State, asks_in, is_blocked as is_blocked_in, no_step};

use crate::world::World;
use sr_ask::Asks;
use sr_core::Core;
use sr_value::{NoMemory, Row};

impl World {
    /// Whether no process can make a step. `asks` has each living process once, with what it asks. A process
    /// that is over its ticks counts as one that can, and so does one that waits for bytes of the input that
    /// may still come. Memory is taken only for guards of an `in` statement.
    pub fn none_can_step(&self, core: &Core, asks: &Row<(u32, Asks)>) -> Result<bool, NoMemory>
        ensures blocked { IfOk result (λ none. none ≡ list_all (λ one. is_blocked_in core.now self.now one.0 one.1) asks.now) }
        ensures none { IfOk result (λ none. (limit : ℕ) (state : State) → state.world ≡ self.now → asks.now ≡ asks_in core.now limit state → none ≡ no_step core.now limit state) }
    {
        self.are_blocked(core, asks.as_slice())
    }

    fn are_blocked(&self, core: &Core, asks: &[(u32, Asks)]) -> Result<bool, NoMemory>
        ensures { IfOk result (λ blocked. blocked ≡ list_all (λ one. is_blocked_in core.now self.now one.0 one.1) asks.now) }
    {
        for one in asks {
            if !self.is_blocked(core, one.0, &one.1)? {
                return Ok(false);
            }
        }
        Ok(true)
    }

    fn is_blocked(&self, core: &Core, process: u32, asks: &Asks) -> Result<bool, NoMemory>
        ensures { IfOk result (λ blocked. blocked ≡ is_blocked_in core.now self.now process asks.now) }
    {
        match asks {
            Asks::Asked(ask) => Ok(!self.is_ready(core, process, ask)?),
            Asks::OverTicks => Ok(false),
        }
    }
}
