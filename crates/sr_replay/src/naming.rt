ghost use Rattle.std.specs.Prelude.{◌≡◌, IfOk, IfSome, is_some};
ghost use Rattle.sr_replay.specs.Naming.{ask_of, number_acted, number_in as number_in_of};

use sr_ask::{Answer, Ask, Asks};
use sr_value::{Duplicate, NoMemory};
use sr_world::Acted;
use std::alloc::Global;

/// A copy of what is asked, where it isn't that a process is over its ticks.
pub(crate) fn copied_ask(alloc: Global, asks: &Asks) -> Result<Option<Ask>, NoMemory>
    ensures { IfOk result (λ ask. ask ≡ ask_of asks.now) }
{
    match asks {
        Asks::Asked(ask) => Ok(Some(ask.copy(alloc)?)),
        Asks::OverTicks => Ok(None),
    }
}

/// The number of the invocation that an answer names, or 0.
fn number_in(answer: &Answer) -> u32
    ensures { result ≡ number_in_of answer.now }
{
    match answer {
        Answer::Picked { id, .. } => *id,
        Answer::Took { id, .. } => *id,
        _ => 0,
    }
}

/// The number of the invocation that the machine's answer names, or 0.
pub(crate) fn number_of(acted: &Acted) -> u32
    ensures { result ≡ number_acted acted.now }
{
    match acted {
        Acted::Done(answer) => number_in(answer),
        _ => 0,
    }
}

/// The number, where there was such a step.
pub(crate) fn where_legal(legal: bool, number: u32) -> Option<u32>
    ensures legal { is_some result ≡ legal }
    ensures number { IfSome result (λ n. n ≡ number) }
{
    if legal { Some(number) } else { None }
}
