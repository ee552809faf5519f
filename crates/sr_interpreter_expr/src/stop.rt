ghost use Rattle.std.specs.Prelude.{◌≡◌};
ghost use Rattle.sr_interpreter_expr.specs.declared.stop.Stop.TheVariants.{NoMemory as out_of_memory};

use sr_ask::Asks;
use sr_value::NoMemory;

/// Why the reference interpreter goes no further.
#[derive(Drop)]
pub enum Stop {
    /// The process asks, and there is no answer; or it is over its ticks.
    Asks(Asks),
    NoMemory,
}

impl From<NoMemory> for Stop {
    ghost from_gives = { λ _ e. e ≡ out_of_memory };

    fn from(_: NoMemory) -> Self {
        Stop::NoMemory
    }
}
