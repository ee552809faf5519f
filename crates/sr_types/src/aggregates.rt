ghost use Rattle.std.specs.Prelude.{◌≡◌, IfOk, option_copied};
ghost use Rattle.sr_types.specs.Aggregates.{common_type, common_of_all, is_counted, are_counted, array_of, bracketed_rule};

use crate::fitting::fits;
use crate::kinds::may_be_int;
use crate::ty::Ty;
use crate::typed::{Outcome, Typed, unknown};
use sr_value::{Boxed, Duplicate, NoMemory};
use std::alloc::Global;

/// A part of a bracketed list: `e`, or `[n] e`.
#[derive(Drop)]
pub struct Repeated {
    /// How many times the value stands there, where a number is given.
    pub count: Option<Typed>,
    pub value: Typed,
}

/// `(e, ..)`: an array of one dimension from values of one type that is no array type, and one of two
/// dimensions from arrays of one dimension. Counts are `int`.
pub fn bracketed(alloc: Global, parts: &[Repeated]) -> Result<Outcome, NoMemory>
    ensures { IfOk result (λ outcome. outcome ≡ bracketed_rule parts.now) }
{
    match parts {
        [] => Ok(Outcome::Broken),
        [first, others @ ..] => match type_of_all(&first.value.ty, others) {
            Some(ty) => array(alloc, ty, counts_fit(parts)),
            None => Ok(Outcome::Broken),
        },
    }
}

/// An array of items of this type, or of arrays of this type.
fn array(alloc: Global, item: &Ty, met: bool) -> Result<Outcome, NoMemory>
    ensures { IfOk result (λ outcome. outcome ≡ array_of item.now met) }
{
    match item {
        Ty::Vector(inner) => Ok(unknown(
            met,
            Ty::Matrix(Boxed::new(alloc, inner.get().copy(alloc)?)?),
        )),
        Ty::Matrix(_) => Ok(Outcome::Broken),
        Ty::Untyped => Ok(unknown(met, Ty::Untyped)),
        _ => Ok(unknown(met, Ty::Vector(Boxed::new(alloc, item.copy(alloc)?)?))),
    }
}

/// The one type of a value of type `first` and of the values of all parts, where they have one.
fn type_of_all<'a>(first: &'a Ty, parts: &'a [Repeated]) -> Option<&'a Ty>
    ensures { option_copied result ≡ common_of_all first.now parts.now }
{
    let mut common = first;
    for part in parts {
        match type_of_both(common, &part.value.ty) {
            Some(ty) => common = ty,
            None => return None,
        }
    }
    Some(common)
}

/// The one type of two values, where they have one.
fn type_of_both<'a>(a: &'a Ty, b: &'a Ty) -> Option<&'a Ty>
    ensures { option_copied result ≡ common_type a.now b.now }
{
    if a.is_untyped() {
        return Some(b);
    }
    if fits(b, a) {
        return Some(a);
    }
    if fits(a, b) { Some(b) } else { None }
}

/// Whether all counts are `int`.
fn counts_fit(parts: &[Repeated]) -> bool
    ensures { result ≡ are_counted parts.now }
{
    for part in parts {
        if !count_fits(part) {
            return false;
        }
    }
    true
}

fn count_fits(part: &Repeated) -> bool
    ensures { result ≡ is_counted part.now }
{
    match &part.count {
        Some(count) => may_be_int(&count.ty),
        None => true,
    }
}
