ghost use Rattle.std.specs.Prelude.{◌≡◌, ◌+◌, ◌*◌, ◌^◌, ◌≤◌};
ghost use Rattle.sr_value.specs.Parts.{place_of, item_place, byte_place, field_place};

use crate::shape::{Dims, Sel};
use crate::unset::indices;

/// The place of an index among `lo` to `hi`, counted from 0, where it is one of them.
fn place_of(lo: i32, hi: i32, index: i32) -> Option<u32>
    ensures { result ≡ place_of lo hi index }
{
    if lo <= index && index <= hi {
        Some(index.abs_diff(lo))
    } else {
        None
    }
}

/// The place of an item in a later row of an array of two dimensions.
fn in_row(row: u32, width: u64, column: u32) -> usize
    requires { width ≤ 2 ^ 32 }
    ensures { result ≡ row * width + column }
{
    row as usize * width as usize + column as usize
}

/// Where the item that a step selects stands among the items of an array.
pub fn item_place(dims: Dims, step: Sel) -> Option<usize>
    ensures { result ≡ item_place dims step }
{
    match dims {
        Dims::One { lo, hi } => match step {
            Sel::At(index) => place_of(lo, hi, index).map(|at| at as usize),
            _ => None,
        },
        Dims::Two { lo, hi, lo2, hi2 } => match step {
            Sel::At2(row, column) => {
                let before = place_of(lo, hi, row)?;
                let within = place_of(lo2, hi2, column)?;
                Some(in_row(before, indices(lo2, hi2), within))
            }
            _ => None,
        },
    }
}

/// Where the byte of a string that a step selects stands. They are counted from 1.
pub fn byte_place(bytes: &[u8], step: Sel) -> Option<usize>
    ensures { result ≡ byte_place bytes.now step }
{
    match step {
        Sel::At(index) => match i32::try_from(bytes.len()) {
            Ok(last) => place_of(1, last, index).map(|at| at as usize),
            Err(_) => usize::try_from(index).ok().and_then(|at| at.checked_sub(1)),
        },
        _ => None,
    }
}

/// Where the field that a step selects stands among the fields of a record, counted from 0.
pub fn field_place(step: Sel) -> Option<usize>
    ensures { result ≡ field_place step }
{
    match step {
        Sel::Field(at) => Some(at as usize),
        _ => None,
    }
}
