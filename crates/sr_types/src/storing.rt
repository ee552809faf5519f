ghost use Rattle.std.specs.Prelude.{◌≡◌};
ghost use Rattle.sr_types.specs.Storing.{store_rule, argument_rule};

use crate::fitting::fits;
use crate::signature::Mode;
use crate::ty::Ty;
use crate::typed::Typed;

/// Whether a value may be stored to what stands on the left: a place of its type.
pub fn may_store(place: &Typed, value: &Typed) -> bool
    ensures { result ≡ store_rule place.now value.now }
{
    place.is_place && fits(&value.ty, &place.ty)
}

/// Whether a formal of this mode and type takes the argument: `var` and `res` take places.
pub fn takes_argument(mode: Mode, ty: &Ty, argument: &Typed) -> bool
    ensures { result ≡ argument_rule mode ty.now argument.now }
{
    match mode {
        Mode::Val => fits(&argument.ty, ty),
        Mode::Var | Mode::Res => argument.is_place && fits(&argument.ty, ty),
    }
}
