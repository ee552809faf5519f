ghost use Rattle.std.specs.Prelude.{◌≡◌, ◌-◌, ◌*◌, ◌<◌, ◌-ℤ◌, MatchResult, IfOk};
ghost use Rattle.sr_core.specs.Values.{steps_within, values_of};
ghost use Rattle.sr_interpreter_parts.specs.Turns.{AllFit, listed, value_from};

use sr_core::Direction;
use sr_value::Fault;

/// The values of a quantifier: this many, each one step after the one before.
#[derive(Clone, Copy)]
pub struct Values {
    pub direction: Direction,
    pub from: i32,
    pub step: u32,
    pub count: u64,
}

/// How many values there are from 0 to `reach`.
fn count_of(from: i32, to: i32, step: u32) -> u64
    requires { 0 < step }
    ensures { result ≡ steps_within (to -ℤ from) (step - 1) }
{
    if to < from {
        0
    } else {
        u64::from(to.abs_diff(from) / step) + 1
    }
}

/// The values from `from` to `to`; a step below 1 is E6.
pub fn values_of(direction: Direction, from: i32, to: i32, by: i32) -> Result<Values, Fault>
    ensures meant { MatchResult result (λ values. values_of direction from to by ≡ Ok (listed values)) (λ fault. values_of direction from to by ≡ Err fault) }
    ensures fit { IfOk result (λ values. AllFit values) }
{
    if by < 1 {
        return Err(Fault::Range);
    }
    let step = by as u32;
    let count = match direction {
        Direction::Up => count_of(from, to, step),
        Direction::Down => count_of(to, from, step),
    };
    Ok(Values {
        direction,
        from,
        step,
        count,
    })
}

/// The value at a place, counted from 0.
pub fn value_at(values: &Values, at: u64) -> i32
    requires within { at < values.now.count }
    requires fit { AllFit values.now }
    ensures { result ≡ value_from values.now.direction values.now.from (at * values.now.step) }
{
    let far = at * u64::from(values.step);
    match values.direction {
        Direction::Up => (i64::from(values.from) + far as i64) as i32,
        Direction::Down => (i64::from(values.from) - far as i64) as i32,
    }
}
