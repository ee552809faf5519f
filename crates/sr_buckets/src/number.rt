ghost use Rattle.std.specs.Prelude.{◌≡◌, ◌<◌};
ghost use Rattle.sr_buckets.specs.Parts.{home};

/// How many parts there are.
pub const PARTS: usize = 32;

/// The part in which a thing of this number stands.
#[inline(always)]
pub fn home(number: u32) -> usize
    ensures home { result ≡ home number }
    ensures within { result < PARTS }
{
    number as usize % PARTS
}
