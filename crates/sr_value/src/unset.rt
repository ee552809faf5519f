ghost use Rattle.std.specs.Prelude.{◌≡◌, ◌+◌, ◌*◌, ◌≤◌, min, map, sum, replicate, ◌^◌, nat_le, IfOk, IfSome, IsNone};
ghost use Rattle.std.specs.List.{list_all};
ghost use Rattle.sr_value.specs.Operators.{Answers};
ghost use Rattle.sr_value.specs.Shapes.{in_range, extent, dims_in_range, item_count, bounds_in_range, cell_count, strings_in_range, has_size, unset_value, shape_fault, default_value};

use crate::capability::Cap;
use crate::copies::Duplicate;
use crate::evaluation::MOST_BYTES;
use crate::fault::{Fault, ValueFail};
use crate::memory::NoMemory;
use crate::row::Row;
use crate::shape::{Dims, Shape};
use crate::text::Text;
use crate::value::Value;
use std::alloc::Global;

/// The most cells that a variable may have. A cell is a value that is no array or record.
pub const MOST_CELLS: u64 = 1_048_576;

/// Cells are counted up to here, and no further.
const TOO_MANY: u64 = 1_048_577;

/// Why no variable has this shape, where none has. A higher bound that is below the lower one by more
/// than 1 is E6; then more than [`MOST_CELLS`] cells, or a string place of more than 65,535 bytes, are
/// E10. It takes no memory.
pub fn shape_fault(shape: &Shape) -> Option<Fault>
    ensures { result ≡ shape_fault shape.now }
{
    if !has_bounds_in_range(shape) {
        return Some(Fault::Range);
    }
    if !has_few_cells(shape) || !has_strings_in_range(shape) {
        return Some(Fault::TooLarge);
    }
    None
}

/// The value of a variable of this shape that nothing was stored to, or the fault of [`shape_fault`].
pub fn default_of(alloc: Global, shape: &Shape) -> Result<Value, ValueFail>
    ensures { Answers result (default_value shape.now) }
{
    match shape_fault(shape) {
        Some(fault) => Err(ValueFail::Fault(fault)),
        None => match unset(alloc, shape) {
            Ok(value) => Ok(value),
            Err(_) => Err(ValueFail::NoMemory),
        },
    }
}

/// Whether all bounds within the shape are in range.
#[cycle(bounds)]
pub fn has_bounds_in_range(shape: &Shape) -> bool
    ensures { result ≡ bounds_in_range shape.now }
{
    match shape {
        Shape::Rec(fields) => have_bounds_in_range(fields.as_slice()),
        Shape::Arr { dims, item } => dims.is_in_range() && has_bounds_in_range(item.get()),
        _ => true,
    }
}

#[cycle(bounds)]
fn have_bounds_in_range(shapes: &[Shape]) -> bool
    ensures { result ≡ list_all (λ ok. ok) (map bounds_in_range shapes.now) }
{
    for shape in shapes {
        if !has_bounds_in_range(shape) {
            return false;
        }
    }
    true
}

/// Whether no string place within the shape is longer than a string may be.
#[cycle(strings)]
pub fn has_strings_in_range(shape: &Shape) -> bool
    ensures { result ≡ strings_in_range shape.now }
{
    match shape {
        Shape::Str { most } => *most as usize <= MOST_BYTES,
        Shape::Rec(fields) => have_strings_in_range(fields.as_slice()),
        Shape::Arr { dims: _, item } => has_strings_in_range(item.get()),
        _ => true,
    }
}

#[cycle(strings)]
fn have_strings_in_range(shapes: &[Shape]) -> bool
    ensures { result ≡ list_all (λ ok. ok) (map strings_in_range shapes.now) }
{
    for shape in shapes {
        if !has_strings_in_range(shape) {
            return false;
        }
    }
    true
}

/// Whether a place of this shape has at most [`MOST_CELLS`] cells.
pub fn has_few_cells(shape: &Shape) -> bool
    ensures { result ≡ nat_le (cell_count shape.now) MOST_CELLS }
{
    cells(shape) <= MOST_CELLS
}

/// The number of cells of a place, counted up to [`TOO_MANY`].
#[tactic(auto, using(crate::proofs::Counts::capped_product))]
#[cycle(cells)]
fn cells(shape: &Shape) -> u64
    ensures { result ≡ min (cell_count shape.now) TOO_MANY }
{
    match shape {
        Shape::Rec(fields) => cells_of_all(fields.as_slice()),
        Shape::Arr { dims, item } => product(items(*dims), cells(item.get())),
        _ => 1,
    }
}

#[cycle(cells)]
fn cells_of_all(shapes: &[Shape]) -> u64
    ensures { result ≡ min (sum (map cell_count shapes.now)) TOO_MANY }
{
    let mut total = 0;
    for shape in shapes {
        total = (total + cells(shape)).min(TOO_MANY);
    }
    total
}

/// The number of items of an array, counted up to [`TOO_MANY`].
fn items(dims: Dims) -> u64
    ensures { result ≡ min (item_count dims) TOO_MANY }
{
    match dims {
        Dims::One { lo, hi } => indices(lo, hi).min(TOO_MANY),
        Dims::Two { lo, hi, lo2, hi2 } => product(indices(lo, hi), indices(lo2, hi2)),
    }
}

/// The product of two counts, counted up to [`TOO_MANY`].
fn product(a: u64, b: u64) -> u64
    ensures { result ≡ min (a * b) TOO_MANY }
{
    a.saturating_mul(b).min(TOO_MANY)
}

/// How many indices there are from `lo` to `hi`.
pub fn indices(lo: i32, hi: i32) -> u64
    ensures value { result ≡ extent lo hi }
    ensures bound { result ≤ 4294967296 }
{
    if hi < lo {
        0
    } else {
        u64::from(hi.abs_diff(lo)) + 1
    }
}

impl Dims {
    /// Whether no higher bound is below its lower one by more than 1.
    pub fn is_in_range(&self) -> bool
        ensures { result ≡ dims_in_range self.now }
    {
        match *self {
            Dims::One { lo, hi } => is_range(lo, hi),
            Dims::Two { lo, hi, lo2, hi2 } => is_range(lo, hi) && is_range(lo2, hi2),
        }
    }

    /// The number of items of an array of these bounds, where the machine has a number for it.
    pub fn item_count(&self) -> Option<usize>
        ensures counted { IfSome result (λ count. count ≡ item_count self.now) }
        ensures too_many { IsNone result → 2 ^ 64 ≤ item_count self.now }
    {
        match *self {
            Dims::One { lo, hi } => Some(indices(lo, hi) as usize),
            Dims::Two { lo, hi, lo2, hi2 } => {
                (indices(lo, hi) as usize).checked_mul(indices(lo2, hi2) as usize)
            }
        }
    }
}

fn is_range(lo: i32, hi: i32) -> bool
    ensures { result ≡ in_range lo hi }
{
    i64::from(lo) - 1 <= i64::from(hi)
}

/// The unset value of a place of this shape, whatever its size.
#[cycle(unset)]
fn unset(alloc: Global, shape: &Shape) -> Result<Value, NoMemory>
    ensures { IfOk result (λ value. value ≡ unset_value shape.now) }
{
    match shape {
        Shape::Int => Ok(Value::Int(0)),
        Shape::Bool => Ok(Value::Bool(false)),
        Shape::Char => Ok(Value::Char(0)),
        Shape::Enum { ty, count: _ } => Ok(Value::Enum { ty: *ty, at: 0 }),
        Shape::Str { most: _ } => Ok(Value::Str(Text::new(alloc))),
        Shape::Rec(fields) => Ok(Value::Rec(unset_fields(alloc, fields.as_slice())?)),
        Shape::Arr { dims, item } => match dims.item_count() {
            None => Err(NoMemory),
            Some(0) => Ok(Value::Arr {
                dims: *dims,
                items: Row::new(alloc),
            }),
            Some(count) => {
                let value = unset(alloc, item.get())?;
                let items = repeated(alloc, &value, count)?;
                Ok(Value::Arr { dims: *dims, items })
            }
        },
        Shape::Capa => Ok(Value::Capa(Cap::Null)),
    }
}

#[cycle(unset)]
fn unset_fields(alloc: Global, shapes: &[Shape]) -> Result<Row<Value>, NoMemory>
    ensures { IfOk result (λ values. values ≡ map unset_value shapes.now) }
{
    let mut values = Row::new(alloc);
    for shape in shapes {
        values.push(unset(alloc, shape)?)?;
    }
    Ok(values)
}

/// A list of copies of a value.
fn repeated(alloc: Global, value: &Value, count: usize) -> Result<Row<Value>, NoMemory>
    ensures { IfOk result (λ values. values ≡ replicate count value.now) }
{
    let mut values = Vec::with_capacity(alloc, count)?;
    for _ in 0..count {
        values.push(value.copy(alloc)?)?;
    }
    Ok(Row::from_vec(values))
}
