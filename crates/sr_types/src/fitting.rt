ghost use Rattle.std.specs.Prelude.{◌≡◌, ◌↔◌, IsTrue};
ghost use Rattle.sr_types.specs.Types.{is_cap_type, is_null_type, is_of_nulls, is_no_type, are_nulls, fits_type, FitsType};

use crate::ty::{Ty, same};

impl Ty {
    /// Whether this is a type of capabilities.
    pub fn is_cap(&self) -> bool
        ensures { result ≡ is_cap_type self.now }
    {
        matches!(self, Ty::Resource(_) | Ty::Op(_) | Ty::Vm | Ty::NullCap)
    }

    /// Whether this is the type of `null` and `noop`.
    pub fn is_null_cap(&self) -> bool
        ensures value { result ≡ is_null_type self.now }
        ensures exact { IsTrue result ↔ (self.now ≡ Ty.NullCap) }
    {
        matches!(self, Ty::NullCap)
    }

    /// Whether this is the type of `null` and `noop` or of arrays of nothing else, which tells no type of
    /// capabilities.
    pub fn is_of_nulls(&self) -> bool
        ensures { result ≡ is_of_nulls self.now }
    {
        match self {
            Ty::Vector(item) | Ty::Matrix(item) => item.get().is_null_cap(),
            _ => self.is_null_cap(),
        }
    }

    /// Whether this stands where there is no type.
    pub fn is_untyped(&self) -> bool
        ensures value { result ≡ is_no_type self.now }
        ensures exact { IsTrue result ↔ (self.now ≡ Ty.Untyped) }
    {
        matches!(self, Ty::Untyped)
    }
}

/// Whether a place of the type `place` takes a value of the type `value`: the types are equal, or the value is `null`
/// or `noop`, or an array of these, and the place one for capabilities. What has no type fits everywhere and takes
/// everything, so that what was refused once is not refused again. It takes no memory.
pub fn fits(value: &Ty, place: &Ty) -> bool
    ensures value { result ≡ fits_type value.now place.now }
    ensures exact { IsTrue result ↔ FitsType value.now place.now }
{
    if same(value, place) || value.is_untyped() || place.is_untyped() {
        return true;
    }
    value.is_null_cap() && place.is_cap() || are_nulls(value, place)
}

/// Whether these are types of arrays of one number of dimensions, the one of `null` and `noop` and the
/// other of capabilities.
fn are_nulls(value: &Ty, place: &Ty) -> bool
    ensures { result ≡ are_nulls value.now place.now }
{
    match value {
        Ty::Vector(item) => match place {
            Ty::Vector(place_item) => item.get().is_null_cap() && place_item.get().is_cap(),
            _ => false,
        },
        Ty::Matrix(item) => match place {
            Ty::Matrix(place_item) => item.get().is_null_cap() && place_item.get().is_cap(),
            _ => false,
        },
        _ => false,
    }
}
