ghost use Rattle.std.specs.Prelude.{◌≡◌, ◌++◌, IfOk, OnOk, replicate, option_copied};
ghost use Rattle.sr_value.specs.Operators.{Answers};
ghost use Rattle.sr_core.specs.Values.{array_of, count_all, flat, from_one, items_of, line_of, row_of, rows_of, table_of};

use crate::Piece;
use sr_value::{Dims, Duplicate, Fault, NoMemory, Row, Value, ValueFail};
use std::alloc::Global;

/// The number of parts as a bound; E6 where it is no int.
fn high_bound(pieces: &[Piece]) -> Result<i32, Fault>
    ensures { result ≡ from_one (count_all pieces.now) }
{
    let mut total: u32 = 0;
    for piece in pieces {
        let sum = u64::from(total) + u64::from(piece.count);
        if sum > 2_147_483_647 {
            return Err(Fault::Range);
        }
        total = sum as u32;
    }
    Ok(total as i32)
}

/// Copies of some items, after others.
fn copy_onto(alloc: Global, items: &mut Row<Value>, row: &[Value]) -> Result<(), NoMemory>
    ensures { OnOk result (items.new ≡ items.old ++ row.now) }
{
    for value in row {
        items.push(value.copy(alloc)?)?;
    }
    Ok(())
}

/// So many copies of some items, after others.
fn repeat_onto(
    alloc: Global,
    items: &mut Row<Value>,
    row: &[Value],
    times: u32,
) -> Result<(), NoMemory>
    ensures { OnOk result (items.new ≡ items.old ++ flat (replicate times row.now)) }
{
    for _ in 0..times {
        copy_onto(alloc, items, row)?;
    }
    Ok(())
}

/// So many copies of a value, after others.
fn repeat_value(
    alloc: Global,
    items: &mut Row<Value>,
    value: &Value,
    times: u32,
) -> Result<(), NoMemory>
    ensures { OnOk result (items.new ≡ items.old ++ replicate times value.now) }
{
    for _ in 0..times {
        items.push(value.copy(alloc)?)?;
    }
    Ok(())
}

/// The items of parts that aren't arrays.
fn line_items(alloc: Global, pieces: &[Piece]) -> Result<Row<Value>, NoMemory>
    ensures { IfOk result (λ items. items ≡ items_of pieces.now) }
{
    let mut items = Row::new(alloc);
    for piece in pieces {
        repeat_value(alloc, &mut items, &piece.value, piece.count)?;
    }
    Ok(items)
}

/// Parts that aren't arrays: an array of one dimension.
fn line(alloc: Global, pieces: &[Piece]) -> Result<Value, ValueFail>
    ensures { Answers result (line_of pieces.now) }
{
    match high_bound(pieces) {
        Ok(hi) => Ok(Value::Arr {
            dims: Dims::One { lo: 1, hi },
            items: line_items(alloc, pieces)?,
        }),
        Err(fault) => Err(ValueFail::Fault(fault)),
    }
}

/// The items of an array of one dimension.
fn row_in(value: &Value) -> Option<&[Value]>
    ensures { option_copied result ≡ row_of value.now }
{
    match value {
        Value::Arr { dims, items } => match dims {
            Dims::One { .. } => Some(items.as_slice()),
            Dims::Two { .. } => None,
        },
        _ => None,
    }
}

/// The rows of the parts; E4 where one is of another length.
fn rows(alloc: Global, width: usize, pieces: &[Piece]) -> Result<Row<Value>, ValueFail>
    ensures { Answers result (rows_of width pieces.now) }
{
    let mut items = Row::new(alloc);
    for piece in pieces {
        match row_in(&piece.value) {
            None => return Err(ValueFail::Fault(Fault::Shape)),
            Some(row) => {
                if row.len() != width {
                    return Err(ValueFail::Fault(Fault::Shape));
                }
                repeat_onto(alloc, &mut items, row, piece.count)?;
            }
        }
    }
    Ok(items)
}

/// The length of a row as a bound; E6 where it is no int.
fn row_bound(length: usize) -> Result<i32, Fault>
    ensures { result ≡ from_one length }
{
    match i32::try_from(length) {
        Ok(hi) => Ok(hi),
        Err(_) => Err(Fault::Range),
    }
}

/// Parts that are arrays of one dimension: an array of two.
fn table(alloc: Global, first: &[Value], pieces: &[Piece]) -> Result<Value, ValueFail>
    ensures { Answers result (table_of first.now pieces.now) }
{
    match rows(alloc, first.len(), pieces) {
        Ok(items) => match high_bound(pieces) {
            Ok(hi) => match row_bound(first.len()) {
                Ok(hi2) => Ok(Value::Arr {
                    dims: Dims::Two {
                        lo: 1,
                        hi,
                        lo2: 1,
                        hi2,
                    },
                    items,
                }),
                Err(fault) => Err(ValueFail::Fault(fault)),
            },
            Err(fault) => Err(ValueFail::Fault(fault)),
        },
        Err(fail) => Err(fail),
    }
}

/// The array of a bracketed list, whose first part says which kind it is; or its fault.
pub fn array(alloc: Global, pieces: &[Piece]) -> Result<Value, ValueFail>
    ensures { Answers result (array_of pieces.now) }
{
    match pieces {
        [] => line(alloc, pieces),
        [first, ..] => match row_in(&first.value) {
            Some(row) => table(alloc, row, pieces),
            None => line(alloc, pieces),
        },
    }
}
