ghost use Rattle.std.specs.Prelude.{◌≡◌, IfOk};
ghost use Rattle.sr_types.specs.Parts.{item_of_one, item_of_two, index_one_rule, index_two_rule, field_rule, indexed, part_if};

use crate::kinds::may_be_int;
use crate::ty::Ty;
use crate::typed::{Outcome, Static, Typed};
use sr_value::{Duplicate, NoMemory};
use std::alloc::Global;

/// `a[i]`, of an array of one dimension or a string.
pub fn index_one(alloc: Global, whole: &Typed, at: &Typed) -> Result<Outcome, NoMemory>
    ensures { IfOk result (λ outcome. outcome ≡ index_one_rule whole.now at.now) }
{
    let item = item_of_vector(alloc, &whole.ty)?;
    Ok(item_of(whole, may_be_int(&at.ty), item))
}

/// `a[i, j]`, of an array of two dimensions.
pub fn index_two(
    alloc: Global,
    whole: &Typed,
    row: &Typed,
    column: &Typed,
) -> Result<Outcome, NoMemory>
    ensures { IfOk result (λ outcome. outcome ≡ index_two_rule whole.now row.now column.now) }
{
    let item = item_of_matrix(alloc, &whole.ty)?;
    Ok(item_of(whole, may_be_int(&row.ty) && may_be_int(&column.ty), item))
}

/// `r.f`, where the record has a field of that name, of this type.
pub fn field(alloc: Global, owner: &Typed, ty: &Ty) -> Result<Typed, NoMemory>
    ensures { IfOk result (λ whole. whole ≡ field_rule owner.now ty.now) }
{
    Ok(Typed {
        ty: ty.copy(alloc)?,
        is_place: owner.is_place,
        value: Static::Unknown,
    })
}

/// The item of a whole, where it has items and the indices are ones.
fn item_of(whole: &Typed, met: bool, item: Option<Ty>) -> Outcome
    ensures { result ≡ indexed whole.now met item }
{
    match item {
        Some(ty) => part(whole, met, ty),
        None => Outcome::Broken,
    }
}

fn part(whole: &Typed, met: bool, ty: Ty) -> Outcome
    ensures { result ≡ part_if whole.now met ty }
{
    if met {
        Outcome::Met(Typed {
            ty,
            is_place: whole.is_place,
            value: Static::Unknown,
        })
    } else {
        Outcome::Broken
    }
}

/// The type of what one index picks, where there is such a thing.
fn item_of_vector(alloc: Global, ty: &Ty) -> Result<Option<Ty>, NoMemory>
    ensures { IfOk result (λ item. item ≡ item_of_one ty.now) }
{
    match ty {
        Ty::Vector(item) => Ok(Some(item.get().copy(alloc)?)),
        Ty::Str => Ok(Some(Ty::Char)),
        Ty::Untyped => Ok(Some(Ty::Untyped)),
        _ => Ok(None),
    }
}

/// The type of what two indices pick, where there is such a thing.
fn item_of_matrix(alloc: Global, ty: &Ty) -> Result<Option<Ty>, NoMemory>
    ensures { IfOk result (λ item. item ≡ item_of_two ty.now) }
{
    match ty {
        Ty::Matrix(item) => Ok(Some(item.get().copy(alloc)?)),
        Ty::Untyped => Ok(Some(Ty::Untyped)),
        _ => Ok(None),
    }
}
