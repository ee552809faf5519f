ghost use Rattle.std.specs.Prelude.{◌≡◌};
ghost use Rattle.sr_check_decl.specs.Bounds.{int_rule, static_int, fixed_length_rule, fixed_int_rule, ends_in_range, item_type_rule, is_length};

use sr_types::{Static, Ty, Typed, may_be_int};

/// The number, where the expression is an `int` that is known before the run.
pub fn known_int(value: &Static) -> Option<i32>
    ensures { result ≡ static_int value.now }
{
    match value {
        Static::Known(known) => known.as_int(),
        _ => None,
    }
}

/// Whether an expression may be the value that a semaphore begins with, or a bound or the length of a string where
/// it needn't be static.
pub fn may_be_bound(bound: &Typed) -> bool
    ensures { result ≡ int_rule bound.now }
{
    may_be_int(&bound.ty)
}

/// Whether an expression may be the length of a string where it must be static: it isn't below 0.
pub fn may_be_fixed_length(length: &Typed) -> bool
    ensures { result ≡ fixed_length_rule length.now }
{
    if length.ty.is_untyped() {
        return true;
    }
    may_be_int(&length.ty) && is_fixed_length(known_int(&length.value))
}

fn is_fixed_length(length: Option<i32>) -> bool
    ensures { result ≡ is_length length }
{
    match length {
        Some(number) => 0 <= number,
        None => false,
    }
}

/// Whether an expression may be one bound where it must be static.
pub(crate) fn may_be_fixed(bound: &Typed) -> bool
    ensures { result ≡ fixed_int_rule bound.now }
{
    if bound.ty.is_untyped() {
        return true;
    }
    may_be_int(&bound.ty) && known_int(&bound.value).is_some()
}

/// Whether two bounds are in range, as far as they are known.
pub(crate) fn are_in_range(lo: Option<i32>, hi: Option<i32>) -> bool
    ensures { result ≡ ends_in_range lo hi }
{
    match lo {
        None => true,
        Some(low) => match hi {
            None => true,
            Some(high) => i64::from(low) - 1 <= i64::from(high),
        },
    }
}

/// Whether an array's items may have this type: it is no array type.
pub fn may_be_item(ty: &Ty) -> bool
    ensures { result ≡ item_type_rule ty.now }
{
    !matches!(ty, Ty::Vector(_) | Ty::Matrix(_))
}
