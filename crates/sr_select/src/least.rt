ghost use Rattle.std.specs.Prelude.{◌≡◌};
ghost use Rattle.sr_select.specs.Leasts.{FindsLeast};
ghost use Rattle.sr_select.specs.Sights.{seeing};
ghost use Rattle.sr_select.specs.Steps.{improved, with_next};

use crate::arm::key_one;
use crate::reads::Reads;
use crate::sight::Scene;
use sr_ask::Seen;
use sr_core::{Arm, Expr};
use sr_queue::Queue;
use sr_value::{Owner, Row, ValueFail};

/// The place of an invocation and its key.
#[derive(Clone, Copy, PartialEq, Eq)]
pub struct Keyed {
    pub place: u32,
    pub key: i64,
}

/// The less of the best so far and a younger one; the older of equals.
fn improved(best: Option<Keyed>, younger: Keyed) -> Keyed
    ensures { result ≡ improved best younger }
{
    match best {
        Some(older) => {
            if younger.key < older.key {
                younger
            } else {
                older
            }
        }
        None => younger,
    }
}

/// The best so far after an invocation with this key.
fn with_next(place: u32, best: Option<Keyed>, key: Option<i64>) -> Option<Keyed>
    ensures { result ≡ with_next place best key }
{
    match key {
        Some(key) => Some(improved(best, Keyed { place, key })),
        None => best,
    }
}

/// The invocation of an arm's operation with the least key, from a place on; the oldest of equals.
pub fn least_from<'a, R: Reads>(
    scene: &Scene<'a>,
    reads: &R,
    seen: &mut Row<Seen>,
    queue: &'a Queue,
    owner: Owner,
    arm: &'a Arm,
    by: &Expr,
    from: u32,
) -> Result<Option<Keyed>, ValueFail>
    ensures { FindsLeast (seeing (R.reading reads.now) scene.now) owner arm.now by.now from queue.now.items result seen.old seen.new }
{
    let mut best = None;
    let mut next = from;
    while next < queue.len() {
        let Some(place) = queue.next_of(owner, arm.op, next) else {
            return Ok(best);
        };
        let pending = queue.at(place);
        let key = key_one(scene, reads, seen, owner, arm, by, pending)?;
        best = with_next(place, best, key);
        next = place + 1;
    }
    Ok(best)
}
