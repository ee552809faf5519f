ghost use Rattle.std.specs.Prelude.{◌≡◌};
ghost use Rattle.sr_value.specs.Operators.{Answers};
ghost use Rattle.sr_select.specs.Choices.{key_in, key_of, key_with, passes_with};
ghost use Rattle.sr_select.specs.Steps.{key_one, passes_one};
ghost use Rattle.sr_select.specs.Looks.{Adds, Sees};
ghost use Rattle.sr_select.specs.Sights.{guarding_of, seeing};

use crate::expression::{evaluate, holds};
use crate::letting_go::let_go;
use crate::reads::Reads;
use crate::sight::{Scene, Sight};
use sr_ask::Seen;
use sr_core::{Arm, Expr};
use sr_queue::Pending;
use sr_value::{Fault, Owner, Row, Value, ValueFail};

/// Whether the `and` of an arm is absent or true for an invocation with these arguments.
fn passes<'a, R: Reads>(
    scene: &Scene<'a>,
    reads: &R,
    seen: &mut Row<Seen>,
    arm: &'a Arm,
    args: &'a [Value],
) -> Result<bool, ValueFail>
    ensures { Adds (passes_with (seeing (R.reading reads.now) scene.now) arm.now args.now) result seen.old seen.new }
{
    if arm.guard.is_none() {
        return Ok(true);
    }
    let sight = Sight {
        scene: *scene,
        arm,
        args,
    };
    let mut looked = Row::new(scene.alloc);
    let truth = holds(&sight, reads, &mut looked, &arm.guard);
    seen.push_all(looked)?;
    truth
}

/// What `by` compares: an int, or the number of a char or of a literal; E6 for another value.
fn key_of(value: &Value) -> Result<i64, ValueFail>
    ensures { Answers result (key_of value.now) }
{
    match value {
        Value::Int(number) => Ok(i64::from(*number)),
        Value::Char(byte) => Ok(i64::from(*byte)),
        Value::Enum { ty: _, at } => Ok(i64::from(*at)),
        _ => Err(ValueFail::Fault(Fault::Range)),
    }
}

/// The key of an invocation, where the `and` of the arm is absent or true.
fn key_in<R: Reads>(
    sight: &Sight,
    reads: &R,
    seen: &mut Row<Seen>,
    by: &Expr,
) -> Result<Option<i64>, ValueFail>
    ensures { Sees (key_in sight.now.arm.now.guard by.now (guarding_of (R.reading reads.now) sight.now) seen.old) result seen.new }
{
    if holds(sight, reads, seen, &sight.arm.guard)? {
        let value = evaluate(sight, reads, seen, by)?;
        let key = key_of(&value);
        let_go(value);
        Ok(Some(key?))
    } else {
        Ok(None)
    }
}

/// The key of an invocation with these arguments.
fn key<'a, R: Reads>(
    scene: &Scene<'a>,
    reads: &R,
    seen: &mut Row<Seen>,
    arm: &'a Arm,
    by: &Expr,
    args: &'a [Value],
) -> Result<Option<i64>, ValueFail>
    ensures { Adds (key_with (seeing (R.reading reads.now) scene.now) arm.now by.now args.now) result seen.old seen.new }
{
    let sight = Sight {
        scene: *scene,
        arm,
        args,
    };
    let mut looked = Row::new(scene.alloc);
    let key = key_in(&sight, reads, &mut looked, by);
    seen.push_all(looked)?;
    key
}

/// Whether an invocation is of an arm's operation, and the `and` of the arm is absent or true for it.
pub fn passes_one<'a, R: Reads>(
    scene: &Scene<'a>,
    reads: &R,
    seen: &mut Row<Seen>,
    owner: Owner,
    arm: &'a Arm,
    pending: &'a Pending,
) -> Result<bool, ValueFail>
    ensures { Adds (passes_one (seeing (R.reading reads.now) scene.now) owner arm.now pending.now) result seen.old seen.new }
{
    if !pending.is_of(owner, arm.op) {
        return Ok(false);
    }
    passes(scene, reads, seen, arm, pending.args.as_slice())
}

/// The key of an invocation of an arm's operation, where the `and` of the arm is absent or true.
pub fn key_one<'a, R: Reads>(
    scene: &Scene<'a>,
    reads: &R,
    seen: &mut Row<Seen>,
    owner: Owner,
    arm: &'a Arm,
    by: &Expr,
    pending: &'a Pending,
) -> Result<Option<i64>, ValueFail>
    ensures { Adds (key_one (seeing (R.reading reads.now) scene.now) owner arm.now by.now pending.now) result seen.old seen.new }
{
    if pending.is_of(owner, arm.op) {
        key(scene, reads, seen, arm, by, pending.args.as_slice())
    } else {
        Ok(None)
    }
}
