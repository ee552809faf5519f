ghost use Rattle.std.specs.Prelude.{◌≡◌, if◌then◌else◌};
ghost use Rattle.std.specs.List.{count_by, list_any};
ghost use Rattle.sr_trace.specs.Shown.{arrows, columns_of, is_arrow, is_column_of, is_link, is_row_of, shown};

use crate::traced::Traced;

/// A picture has an arrow from an item to another exactly where the other is linked from it.
pub fn arrows_are_links(rows: &[Traced], from: u32, to: u32)
    ensures { list_any (is_arrow from to) (arrows (shown rows.now)) ≡ list_any (is_link from to) rows.now }
{}

/// Each process of the rows that are drawn has exactly one column, and no other process has one.
pub fn one_column_each(rows: &[Traced], process: u32)
    ensures { count_by (is_column_of process) (columns_of rows.now) ≡ (if list_any (is_row_of process) rows.now then 1 else 0) }
{}
