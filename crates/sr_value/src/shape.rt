ghost use Rattle.std.specs.Prelude.{◌≡◌, ◌↔◌, IsTrue, IfOk};

use crate::compare::Compare;
use crate::copies::Duplicate;
use crate::memory::NoMemory;
use crate::row::Row;
use crate::shared::Shared;
use std::alloc::Global;

/// The bounds of an array, of one dimension or two, each from its lowest index to its highest.
#[derive(Clone, Copy, Debug, PartialEq, Eq)]
pub enum Dims {
    One {
        lo: i32,
        hi: i32,
    },
    Two {
        lo: i32,
        hi: i32,
        lo2: i32,
        hi2: i32,
    },
}

impl Compare for Dims {
    fn same(&self, other: &Self) -> bool {
        match *self {
            Dims::One { lo, hi } => match *other {
                Dims::One {
                    lo: their_lo,
                    hi: their_hi,
                } => lo == their_lo && hi == their_hi,
                Dims::Two { .. } => false,
            },
            Dims::Two { lo, hi, lo2, hi2 } => match *other {
                Dims::One { .. } => false,
                Dims::Two {
                    lo: their_lo,
                    hi: their_hi,
                    lo2: their_lo2,
                    hi2: their_hi2,
                } => lo == their_lo && hi == their_hi && lo2 == their_lo2 && hi2 == their_hi2,
            },
        }
    }
}

/// A step from a place into one of its parts.
#[derive(Clone, Copy, Debug, PartialEq, Eq)]
pub enum Sel {
    /// An element of an array of one dimension, or a character of a string.
    At(i32),
    /// An element of an array of two dimensions.
    At2(i32, i32),
    /// A field of a record, counted from 0.
    Field(u32),
}

impl Compare for Sel {
    fn same(&self, other: &Self) -> bool {
        *self == *other
    }
}

/// What a place can hold.
#[derive(Debug, Drop)]
pub enum Shape {
    Int,
    Bool,
    Char,
    /// The literals of an enumeration, by its number and how many there are.
    Enum { ty: u32, count: u32 },
    /// Strings of at most `most` bytes.
    Str { most: u32 },
    Rec(Shared<Row<Shape>>),
    Arr { dims: Dims, item: Shared<Shape> },
    Capa,
}

impl Duplicate for Shape {
    fn copy(&self, alloc: Global) -> Result<Shape, NoMemory> {
        copied_shape(alloc, self)
    }
}

/// A copy of a shape.
fn copied_shape(alloc: Global, shape: &Shape) -> Result<Shape, NoMemory>
    ensures { IfOk result (λ c. c ≡ shape.now) }
{
    match shape {
        Shape::Int => Ok(Shape::Int),
        Shape::Bool => Ok(Shape::Bool),
        Shape::Char => Ok(Shape::Char),
        Shape::Enum { ty, count } => Ok(Shape::Enum {
            ty: *ty,
            count: *count,
        }),
        Shape::Str { most } => Ok(Shape::Str { most: *most }),
        Shape::Rec(fields) => Ok(Shape::Rec(fields.copy(alloc)?)),
        Shape::Arr { dims, item } => Ok(Shape::Arr {
            dims: *dims,
            item: item.copy(alloc)?,
        }),
        Shape::Capa => Ok(Shape::Capa),
    }
}

impl Compare for Shape {
    fn same(&self, other: &Self) -> bool {
        same_shape(self, other)
    }
}

/// Whether two shapes are the same.
#[cycle(same_shapes)]
fn same_shape(mine: &Shape, theirs: &Shape) -> bool
    ensures { IsTrue result ↔ (mine.now ≡ theirs.now) }
{
    match mine {
        Shape::Int => matches!(theirs, Shape::Int),
        Shape::Bool => matches!(theirs, Shape::Bool),
        Shape::Char => matches!(theirs, Shape::Char),
        Shape::Enum { ty, count } => match theirs {
            Shape::Enum {
                ty: their_ty,
                count: their_count,
            } => *ty == *their_ty && *count == *their_count,
            _ => false,
        },
        Shape::Str { most } => match theirs {
            Shape::Str { most: their_most } => *most == *their_most,
            _ => false,
        },
        Shape::Rec(fields) => match theirs {
            Shape::Rec(their_fields) => { same_shapes(fields.as_slice(), their_fields.as_slice()) },
            _ => false,
        },
        Shape::Arr { dims, item } => match theirs {
            Shape::Arr {
                dims: their_dims,
                item: their_item,
            } => dims.same(their_dims) && same_shape(item.get(), their_item.get()),
            _ => false,
        },
        Shape::Capa => matches!(theirs, Shape::Capa),
    }
}

#[cycle(same_shapes)]
fn same_shapes(mine: &[Shape], theirs: &[Shape]) -> bool
    ensures { IsTrue result ↔ (mine.now ≡ theirs.now) }
{
    let mut rest = theirs;
    for shape in mine {
        match rest {
            [] => return false,
            [first, others @ ..] => {
                if !same_shape(shape, first) {
                    return false;
                }
                rest = others;
            }
        }
    }
    rest.is_empty()
}
