ghost use Rattle.std.specs.Prelude.{◌≡◌, ◌<◌, ℕ, [], length, max, replicate, slice_index, IfOk, IfSome, OnOk};
ghost use Rattle.sr_clock_rows.specs.Rows.{with_one};

use sr_value::{NoMemory, Row};
use std::alloc::Global;

/// So many zeros.
pub(crate) fn zeros(alloc: Global, width: u32) -> Result<Row<u32>, NoMemory>
    ensures { IfOk result (λ row. row ≡ replicate width 0) }
{
    let mut row = Row::new(alloc);
    add_zeros(&mut row, width)?;
    Ok(row)
}

fn add_zeros(row: &mut Row<u32>, width: u32) -> Result<(), NoMemory>
    requires { row.old ≡ [] }
    ensures { OnOk result (row.new ≡ replicate width 0) }
{
    for _ in 0..width {
        row.push(0)?;
    }
    Ok(())
}

/// In each place the greater of the two.
pub(crate) fn raise(row: &mut Row<u32>, other: &[u32])
    requires { length row.old ≡ length other.now }
    ensures length { length row.new ≡ length row.old }
    ensures greater { (place : ℕ) → slice_index row.new place ≡ max (slice_index row.old place) (slice_index other.now place) }
{
    for place in 0..other.len() {
        let count = other[place];
        if row.as_slice()[place] < count {
            row.replace(place, count);
        }
    }
}

/// One more in a column.
pub(crate) fn count_one(row: &mut Row<u32>, column: Option<u32>)
    requires within { IfSome column (λ place. place < length row.old) }
    requires room { (place : ℕ) → slice_index row.old place < 4294967295 }
    ensures { row.new ≡ with_one column row.old }
{
    if let Some(place) = column {
        let at = place as usize;
        let count = row.as_slice()[at];
        row.replace(at, count + 1);
    }
}
