ghost use Rattle.std.specs.Prelude.{◌≡◌};
ghost use Rattle.std.specs.List.{enumerate_from};
ghost use Rattle.sr_select.specs.Named.{earlier, next_open};

use crate::closed::Closed;
use sr_core::Arm;
use sr_queue::Queue;
use sr_value::Owner;

/// The lesser of two places, where there are any.
fn earlier(one: Option<u32>, other: Option<u32>) -> Option<u32>
    ensures { result ≡ earlier one other }
{
    match (one, other) {
        (Some(one), Some(other)) => Some(if other < one { other } else { one }),
        (Some(place), None) | (None, Some(place)) => Some(place),
        (None, None) => None,
    }
}

/// The place of the first invocation at or after a place whose operation an open arm names.
pub fn next_open(
    queue: &Queue,
    owner: Owner,
    arms: &[Arm],
    closed: &Closed,
    from: u32,
) -> Option<u32>
    ensures { result ≡ next_open owner closed.now (enumerate_from 0 arms.now) from queue.now.items }
{
    let mut next = None;
    for (number, arm) in arms.iter().enumerate() {
        if !closed.is_closed(number) {
            let place = queue.next_of(owner, arm.op, from);
            next = earlier(next, place);
        }
    }
    next
}
