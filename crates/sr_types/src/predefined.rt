ghost use Rattle.std.specs.Prelude.{◌≡◌, IfOk};
ghost use Rattle.sr_types.specs.Predefined.{number_rule, numbers_rule, low_rule, high_rule, bound_rule, length_rule, neighbour_rule};
ghost use Rattle.sr_types.specs.Outcomes.{computed};

use crate::kinds::{
    may_be_int, may_be_str, may_have_dimension, may_have_ends, may_have_neighbours,
};
use crate::spot::Spot;
use crate::ty::Ty;
use crate::typed::{Outcome, Static, Typed, found_value, unknown};
use sr_value::{Dimension, Duplicate, NoMemory, Shape, highest, lowest};
use std::alloc::Global;

/// `abs(i)`.
pub fn absolute(number: &Typed) -> Outcome
    ensures { result ≡ number_rule number.now }
{
    unknown(may_be_int(&number.ty), Ty::Int)
}

/// `min(i, j)` and `max(i, j)`.
pub fn least_or_greatest(a: &Typed, b: &Typed) -> Outcome
    ensures { result ≡ numbers_rule a.now b.now }
{
    unknown(may_be_int(&a.ty) && may_be_int(&b.ty), Ty::Int)
}

/// `low(T)`, where places of the type `T` have this shape. It is static.
pub fn low(alloc: Global, ty: &Ty, shape: &Shape) -> Result<Outcome, NoMemory>
    ensures { IfOk result (λ outcome. outcome ≡ low_rule ty.now shape.now) }
{
    if !may_have_ends(ty) {
        return Ok(Outcome::Broken);
    }
    Ok(Outcome::Met(Typed {
        ty: ty.copy(alloc)?,
        is_place: false,
        value: found_value(lowest(shape)),
    }))
}

/// `high(T)`, where places of the type `T` have this shape. It is static.
pub fn high(alloc: Global, ty: &Ty, shape: &Shape) -> Result<Outcome, NoMemory>
    ensures { IfOk result (λ outcome. outcome ≡ high_rule ty.now shape.now) }
{
    if !may_have_ends(ty) {
        return Ok(Outcome::Broken);
    }
    Ok(Outcome::Met(Typed {
        ty: ty.copy(alloc)?,
        is_place: false,
        value: found_value(highest(shape)),
    }))
}

/// `lb(a)`, `ub(a)`, `lb(a, 2)` and `ub(a, 2)`.
pub fn array_bound(array: &Typed, dimension: Dimension) -> Outcome
    ensures { result ≡ bound_rule array.now dimension }
{
    unknown(may_have_dimension(&array.ty, dimension), Ty::Int)
}

/// `length(s)`.
pub fn string_length(string: &Typed) -> Outcome
    ensures { result ≡ length_rule string.now }
{
    unknown(may_be_str(&string.ty), Ty::Int)
}

/// `pred(x)` and `succ(x)`.
pub fn neighbour(alloc: Global, value: &Typed) -> Result<Outcome, NoMemory>
    ensures { IfOk result (λ outcome. outcome ≡ neighbour_rule value.now) }
{
    if !may_have_neighbours(&value.ty) {
        return Ok(Outcome::Broken);
    }
    Ok(Outcome::Met(Typed {
        ty: value.ty.copy(alloc)?,
        is_place: false,
        value: Static::Unknown,
    }))
}

/// `EOF`. It isn't static.
pub fn end_of_file() -> Typed
    ensures { result ≡ computed Ty.Int Static.Unknown }
{
    Typed {
        ty: Ty::Int,
        is_place: false,
        value: Static::Unknown,
    }
}

/// `myresource()` in this resource.
pub fn own_instance(resource: Spot) -> Typed
    ensures { result ≡ computed (Ty.Resource resource) Static.Unknown }
{
    Typed {
        ty: Ty::Resource(resource),
        is_place: false,
        value: Static::Unknown,
    }
}

/// `myvm()`.
pub fn own_machine() -> Typed
    ensures { result ≡ computed Ty.Vm Static.Unknown }
{
    Typed {
        ty: Ty::Vm,
        is_place: false,
        value: Static::Unknown,
    }
}
