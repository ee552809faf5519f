ghost use Rattle.std.specs.Prelude.{◌≡◌, ◌↔◌, IsTrue, IfOk};
ghost use Rattle.sr_types.specs.Equality.{same_type};
ghost use Rattle.sr_types.specs.Types.{SameType, IsEquivalence};

use crate::spot::Spot;
use sr_value::{Boxed, Compare, Duplicate, NoMemory};
use std::alloc::Global;

/// A type.
#[derive(Drop)]
pub enum Ty {
    Int,
    Bool,
    Char,
    /// Strings, of whatever length.
    Str,
    /// The enumeration declared here.
    Enum(Spot),
    /// The record type declared here.
    Rec(Spot),
    /// Arrays of one dimension, with whatever bounds.
    Vector(Boxed<Ty>),
    /// Arrays of two dimensions, with whatever bounds.
    Matrix(Boxed<Ty>),
    /// `cap R` for the resource declared here.
    Resource(Spot),
    /// Capabilities for operations of the signature with this number, by which `Signatures` keeps it.
    Op(usize),
    /// `cap vm`
    Vm,
    /// The type of `null` and `noop`, which every capability type takes.
    NullCap,
    /// What stands where there is no type, as for an expression that was refused.
    Untyped,
}

/// Whether two types are equal: enumerations and record types by declaration, strings always, arrays by
/// dimensions and type of items, `cap R` by resource, capabilities for operations where they are of the
/// same signature, which has one number, and `cap vm` always. It takes no memory.
pub fn same(a: &Ty, b: &Ty) -> bool
    ensures value { result ≡ same_type a.now b.now }
    ensures exact { IsTrue result ↔ SameType a.now b.now }
    ensures equivalence { IsEquivalence SameType }
{
    same_ty(a, b)
}

impl Compare for Ty {
    fn same(&self, other: &Self) -> bool {
        same_ty(self, other)
    }
}

fn same_ty(mine: &Ty, theirs: &Ty) -> bool
    ensures value { result ≡ same_type mine.now theirs.now }
    ensures exact { IsTrue result ↔ (mine.now ≡ theirs.now) }
{
    match mine {
        Ty::Int => matches!(theirs, Ty::Int),
        Ty::Bool => matches!(theirs, Ty::Bool),
        Ty::Char => matches!(theirs, Ty::Char),
        Ty::Str => matches!(theirs, Ty::Str),
        Ty::Enum(spot) => match theirs {
            Ty::Enum(their_spot) => spot.same(their_spot),
            _ => false,
        },
        Ty::Rec(spot) => match theirs {
            Ty::Rec(their_spot) => spot.same(their_spot),
            _ => false,
        },
        Ty::Vector(item) => match theirs {
            Ty::Vector(their_item) => same_ty(item.get(), their_item.get()),
            _ => false,
        },
        Ty::Matrix(item) => match theirs {
            Ty::Matrix(their_item) => same_ty(item.get(), their_item.get()),
            _ => false,
        },
        Ty::Resource(spot) => match theirs {
            Ty::Resource(their_spot) => spot.same(their_spot),
            _ => false,
        },
        Ty::Op(number) => match theirs {
            Ty::Op(their_number) => number == their_number,
            _ => false,
        },
        Ty::Vm => matches!(theirs, Ty::Vm),
        Ty::NullCap => matches!(theirs, Ty::NullCap),
        Ty::Untyped => matches!(theirs, Ty::Untyped),
    }
}

impl Duplicate for Ty {
    fn copy(&self, alloc: Global) -> Result<Ty, NoMemory> {
        copied_ty(alloc, self)
    }
}

/// A copy of a type.
fn copied_ty(alloc: Global, ty: &Ty) -> Result<Ty, NoMemory>
    ensures { IfOk result (λ c. c ≡ ty.now) }
{
    match ty {
        Ty::Int => Ok(Ty::Int),
        Ty::Bool => Ok(Ty::Bool),
        Ty::Char => Ok(Ty::Char),
        Ty::Str => Ok(Ty::Str),
        Ty::Enum(spot) => Ok(Ty::Enum(*spot)),
        Ty::Rec(spot) => Ok(Ty::Rec(*spot)),
        Ty::Vector(item) => Ok(Ty::Vector(Boxed::new(alloc, copied_ty(alloc, item.get())?)?)),
        Ty::Matrix(item) => Ok(Ty::Matrix(Boxed::new(alloc, copied_ty(alloc, item.get())?)?)),
        Ty::Resource(spot) => Ok(Ty::Resource(*spot)),
        Ty::Op(number) => Ok(Ty::Op(*number)),
        Ty::Vm => Ok(Ty::Vm),
        Ty::NullCap => Ok(Ty::NullCap),
        Ty::Untyped => Ok(Ty::Untyped),
    }
}
