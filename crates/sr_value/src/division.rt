ghost use Rattle.std.specs.Prelude.{◌≡◌, ◌≢◌, ◌<◌, ◌+ℤ◌, ◌*ℤ◌, ◌≤ℤ◌, ◌<ℤ◌, pos, unsigned_abs};
ghost use Rattle.sr_value.specs.Division.{IsCutQuotient, IsFloorQuotient, HasSignOf, cut_quotient, cut_rest, floor_quotient, floor_rest};

/// The exact quotient of `a` by `b` cut towards zero, as `/` gives it. The least `int` by -1 gives a
/// number that is no `int`.
pub fn quotient(a: i32, b: i32) -> i64
    requires { b ≢ pos 0 }
    ensures value { result ≡ cut_quotient a b }
    ensures cut { IsCutQuotient a b (cut_quotient a b) }
{
    i64::from(a) / i64::from(b)
}

/// What `a` has more than the cut quotient times `b`, as `%` gives it.
pub fn remainder(a: i32, b: i32) -> i32
    requires { b ≢ pos 0 }
    ensures value { result ≡ cut_rest a b }
    ensures whole { a ≡ cut_quotient a b *ℤ b +ℤ result }
    ensures smaller { unsigned_abs result < unsigned_abs b }
    ensures sign { HasSignOf a result }
{
    a.wrapping_rem(b)
}

/// What `a` has more than `b` times the greatest whole number that is at most the exact quotient, as
/// `mod` gives it. It is 0 or has the sign of `b`.
#[tactic(auto, using(crate::proofs::DivisionLaws::floor_laws))]
pub fn modulo(a: i32, b: i32) -> i32
    requires { b ≢ pos 0 }
    ensures value { result ≡ floor_rest a b }
    ensures floor { IsFloorQuotient a b (floor_quotient a b) }
    ensures above { pos 0 <ℤ b → pos 0 ≤ℤ result }
    ensures below { pos 0 <ℤ b → result <ℤ b }
    ensures under { b <ℤ pos 0 → result ≤ℤ pos 0 }
    ensures over { b <ℤ pos 0 → b <ℤ result }
{
    let rest = a.wrapping_rem(b);
    if b > 0 {
        if rest < 0 { rest + b } else { rest }
    } else if rest > 0 {
        rest + b
    } else {
        rest
    }
}
