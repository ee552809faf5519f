ghost use Rattle.std.specs.Prelude.{◌≡◌, ◌<◌, ◌≤◌, ◌&&◌, ◌||◌, IsTrue};
ghost use Rattle.std.specs.List.{list_any};
ghost use Rattle.sr_world.specs.Runs.{asks_age as asks_age_of, comes_after as comes_after_of, naps as naps_of};

use sr_ask::{Asks, Request};

/// The greatest moment of the machine, in milliseconds.
const LAST_MOMENT: u32 = 2_147_483_647;

/// Whether a moment comes after another, and the machine has it.
fn comes_after(moment: u32, to: u32) -> bool
    ensures comes { result ≡ comes_after_of moment to }
    ensures later { IsTrue result → moment < to }
    ensures most { IsTrue result → to ≤ 2147483647 }
{
    moment < to && to <= LAST_MOMENT
}

/// Whether a process naps at this moment.
fn naps(moment: u32, asks: &Asks) -> bool
    ensures { result ≡ naps_of moment asks.now }
{
    match asks {
        Asks::Asked(ask) => match &ask.request {
            Request::Wake { until } => moment < *until,
            _ => false,
        },
        Asks::OverTicks => false,
    }
}

/// Whether a process asks what the moment is.
fn asks_age(asks: &Asks) -> bool
    ensures { result ≡ asks_age_of asks.now }
{
    match asks {
        Asks::Asked(ask) => matches!(ask.request, Request::Age),
        Asks::OverTicks => false,
    }
}

/// Whether some process naps, or asks what the moment is.
fn heed_time(moment: u32, asks: &[(u32, Asks)]) -> bool
    ensures { result ≡ list_any (λ one. naps_of moment one.1 || asks_age_of one.1) asks.now }
{
    for one in asks {
        if heeds(moment, &one.1) {
            return true;
        }
    }
    false
}

fn heeds(moment: u32, asks: &Asks) -> bool
    ensures { result ≡ (naps_of moment asks.now || asks_age_of asks.now) }
{
    naps(moment, asks) || asks_age(asks)
}

/// Whether time may pass from one moment to another, where processes ask this.
pub(crate) fn may_pass(moment: u32, to: u32, asks: &[(u32, Asks)]) -> bool
    ensures may { result ≡ (comes_after_of moment to && list_any (λ one. naps_of moment one.1 || asks_age_of one.1) asks.now) }
    ensures later { IsTrue result → moment < to }
    ensures most { IsTrue result → to ≤ 2147483647 }
{
    comes_after(moment, to) && heed_time(moment, asks)
}
