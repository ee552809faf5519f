ghost use Rattle.std.specs.Prelude.{◌≡◌, ◌==◌, ◌+◌, ◌/◌, ◌<◌, ◌≤◌, IfSome, find, length, position};
ghost use Rattle.std.specs.Option.{option_copied};
ghost use Rattle.sr_trace.specs.Drawing as drawing;

use crate::shown::Column;
use crate::traced::Traced;

/// The most columns of a picture.
pub const MOST_COLUMNS: usize = 40;

/// The most rows of a picture.
pub const MOST_ROWS: usize = 2000;

/// A spot in a picture.
#[derive(Clone, Copy)]
pub(crate) struct Spot {
    pub x: u32,
    pub y: u32,
}

/// The number in the middle of two.
fn middle(first: u32, second: u32) -> u32
    ensures { result ≡ (first + second) / 2 }
{
    ((u64::from(first) + u64::from(second)) / 2) as u32
}

/// The spot towards which a link leaves its first spot, and from which it comes to its last.
pub(crate) fn bend_of(from: Spot, to: Spot) -> Spot
    ensures { result ≡ drawing.bend_of from to }
{
    if from.x == to.x {
        Spot {
            x: from.x.saturating_sub(50),
            y: middle(from.y, to.y),
        }
    } else {
        Spot {
            x: middle(from.x, to.x),
            y: to.y,
        }
    }
}

/// The spot of an item.
pub(crate) fn spot_of(columns: &[Column], rows: &[Traced], item: u32) -> Spot
    requires columns { length columns.now ≤ MOST_COLUMNS }
    requires rows { length rows.now ≤ MOST_ROWS }
    ensures { result ≡ drawing.spot_of columns.now rows.now item }
{
    Spot {
        x: x_of(columns, process_of(rows, item)),
        y: y_of(rows, item),
    }
}

/// Which column is that of a process.
fn column_place(columns: &[Column], process: u32) -> Option<usize>
    ensures value { result ≡ position (λ column. column.process == process) columns.now }
    ensures within { IfSome result (λ place. place < length columns.now) }
{
    columns.iter().position(|column| column.process == process)
}

/// Where the column of a process stands.
pub(crate) fn x_of(columns: &[Column], process: u32) -> u32
    requires { length columns.now ≤ MOST_COLUMNS }
    ensures { result ≡ drawing.x_of columns.now process }
{
    match column_place(columns, process) {
        None => 70,
        Some(place) => 70 + 200 * place as u32,
    }
}

/// Which row is that of an item.
fn row_place(rows: &[Traced], item: u32) -> Option<usize>
    ensures value { result ≡ position (λ row. row.item == item) rows.now }
    ensures within { IfSome result (λ place. place < length rows.now) }
{
    rows.iter().position(|row| row.item == item)
}

/// Where the row of an item stands.
fn y_of(rows: &[Traced], item: u32) -> u32
    requires { length rows.now ≤ MOST_ROWS }
    ensures { result ≡ drawing.y_of rows.now item }
{
    match row_place(rows, item) {
        None => 100,
        Some(place) => 100 + 28 * place as u32,
    }
}

/// The row of an item.
fn row_of(rows: &[Traced], item: u32) -> Option<&Traced>
    ensures { option_copied result ≡ find (λ row. row.item == item) rows.now }
{
    rows.iter().find(|row| row.item == item)
}

/// The process that makes an item; 0 where the item isn't there.
fn process_of(rows: &[Traced], item: u32) -> u32
    ensures { result ≡ drawing.process_of rows.now item }
{
    match row_of(rows, item) {
        None => 0,
        Some(row) => row.process,
    }
}
