ghost use Rattle.std.specs.Prelude.{◌≡◌};
ghost use Rattle.sr_types.specs.Kinds.{may_be_int, may_be_bool, may_be_text, may_be_ordered, may_be_compared, may_be_str, may_be_numbered, may_be_written, may_have_ends, may_have_neighbours, may_have_dimension};

use crate::ty::Ty;
use sr_value::Dimension;

/// Whether this is `int`, or no type.
pub fn may_be_int(ty: &Ty) -> bool
    ensures { result ≡ may_be_int ty.now }
{
    matches!(ty, Ty::Int | Ty::Untyped)
}

/// Whether this is `bool`, or no type.
pub fn may_be_bool(ty: &Ty) -> bool
    ensures { result ≡ may_be_bool ty.now }
{
    matches!(ty, Ty::Bool | Ty::Untyped)
}

/// Whether this is the type of strings, or no type.
pub(crate) fn may_be_str(ty: &Ty) -> bool
    ensures { result ≡ may_be_str ty.now }
{
    matches!(ty, Ty::Str | Ty::Untyped)
}

/// Whether this is the type of strings, `char`, or no type.
pub(crate) fn may_be_text(ty: &Ty) -> bool
    ensures { result ≡ may_be_text ty.now }
{
    matches!(ty, Ty::Str | Ty::Char | Ty::Untyped)
}

/// Whether `<` compares values of this type.
pub(crate) fn may_be_ordered(ty: &Ty) -> bool
    ensures { result ≡ may_be_ordered ty.now }
{
    matches!(ty, Ty::Int | Ty::Char | Ty::Enum(_) | Ty::Str | Ty::Untyped)
}

/// Whether `=` compares values of this type: all but records and arrays.
pub(crate) fn may_be_compared(ty: &Ty) -> bool
    ensures { result ≡ may_be_compared ty.now }
{
    !matches!(ty, Ty::Rec(_) | Ty::Vector(_) | Ty::Matrix(_))
}

/// Whether `int` converts values of this type.
pub(crate) fn may_be_numbered(ty: &Ty) -> bool
    ensures { result ≡ may_be_numbered ty.now }
{
    matches!(
        ty,
        Ty::Bool | Ty::Char | Ty::Enum(_) | Ty::Str | Ty::Untyped
    )
}

/// Whether values of this type have a text: all but records and arrays.
pub fn may_be_written(ty: &Ty) -> bool
    ensures { result ≡ may_be_written ty.now }
{
    may_be_compared(ty)
}

/// Whether this type has a least and a greatest value.
pub(crate) fn may_have_ends(ty: &Ty) -> bool
    ensures { result ≡ may_have_ends ty.now }
{
    matches!(
        ty,
        Ty::Int | Ty::Bool | Ty::Char | Ty::Enum(_) | Ty::Untyped
    )
}

/// Whether each value of this type has one before it and one after it.
pub fn may_have_neighbours(ty: &Ty) -> bool
    ensures { result ≡ may_have_neighbours ty.now }
{
    matches!(ty, Ty::Int | Ty::Char | Ty::Enum(_) | Ty::Untyped)
}

/// Whether this is a type of arrays that have the dimension, or no type.
pub(crate) fn may_have_dimension(ty: &Ty, dimension: Dimension) -> bool
    ensures { result ≡ may_have_dimension ty.now dimension }
{
    match ty {
        Ty::Vector(_) => matches!(dimension, Dimension::First),
        Ty::Matrix(_) | Ty::Untyped => true,
        _ => false,
    }
}
