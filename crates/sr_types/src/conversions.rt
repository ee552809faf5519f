ghost use Rattle.std.specs.Prelude.{◌≡◌};
ghost use Rattle.sr_types.specs.Conversions.{int_rule, char_rule, string_rule};

use crate::kinds::{may_be_int, may_be_numbered, may_be_written};
use crate::ty::Ty;
use crate::typed::{Outcome, Typed, unknown};

/// `int(x)`, of a `bool`, a `char`, a literal of an enumeration or a string.
pub fn int_conversion(value: &Typed) -> Outcome
    ensures { result ≡ int_rule value.now }
{
    unknown(may_be_numbered(&value.ty), Ty::Int)
}

/// `char(i)`, of an `int`.
pub fn char_conversion(value: &Typed) -> Outcome
    ensures { result ≡ char_rule value.now }
{
    unknown(may_be_int(&value.ty), Ty::Char)
}

/// `string(x)`, of what has a text: all but records and arrays.
pub fn string_conversion(value: &Typed) -> Outcome
    ensures { result ≡ string_rule value.now }
{
    unknown(may_be_written(&value.ty), Ty::Str)
}
