ghost use Rattle.std.specs.Prelude.{◌≡◌, IfNone};
ghost use Rattle.sr_plain.specs.Answering.{AnsweredBy};
ghost use Rattle.sr_world.specs.declared.acted.Acted.TheVariants.{Cannot};

use crate::carrying::Carried;
use crate::plainly::Plainly;
use sr_actor::{Actor, Member};
use sr_ask::Item;
use sr_world::Acted;

/// Hands a process its answer, if it got one, and notes that it made the last step.
#[inline(always)]
pub(crate) fn hear<A: Actor>(
    member: &mut Member<A>,
    actor: u32,
    carried: Carried,
    last: &mut u32,
) -> Option<Plainly>
    ensures answered { (program : A.Program) → AnsweredBy (A.asks_after program) A.can_feed actor carried.name carried.output carried.acted member.old member.new last.old last.new result }
    ensures cannot { IfNone result (carried.acted ≡ Cannot) }
{
    let Carried {
        name,
        output,
        acted,
        ..
    } = carried;
    let item = Item::Step { actor, name };
    match acted {
        Acted::Done(given) => {
            member.answer(given);
            *last = actor;
            Some(Plainly::Stepped { item, output })
        }
        Acted::Cannot => None,
        Acted::Ends(end) => Some(Plainly::Ended { item, end }),
        Acted::Undecided => Some(Plainly::Wants),
    }
}
