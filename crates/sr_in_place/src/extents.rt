ghost use Rattle.std.specs.Prelude.{◌≡◌};
ghost use Rattle.sr_value.specs.Parts.{same_extents, same_length};

use sr_value::{Dims, Fault, indices};

/// E4 where the lengths differ.
fn check_length(place: u64, sent: u64) -> Result<(), Fault>
    ensures { result ≡ same_length place sent }
{
    if place == sent {
        Ok(())
    } else {
        Err(Fault::Shape)
    }
}

/// Arrays of the same lengths; E4 where a length differs, E3 where the number of dimensions does.
pub(crate) fn check_extents(place: Dims, sent: Dims) -> Result<(), Fault>
    ensures { result ≡ same_extents place sent }
{
    match place {
        Dims::One { lo, hi } => match sent {
            Dims::One { lo: from, hi: to } => check_length(indices(lo, hi), indices(from, to)),
            Dims::Two { .. } => Err(Fault::Index),
        },
        Dims::Two { lo, hi, lo2, hi2 } => match sent {
            Dims::One { .. } => Err(Fault::Index),
            Dims::Two {
                lo: from,
                hi: to,
                lo2: from2,
                hi2: to2,
            } => {
                check_length(indices(lo, hi), indices(from, to))?;
                check_length(indices(lo2, hi2), indices(from2, to2))
            }
        },
    }
}
