ghost use Rattle.std.specs.Prelude.{◌≡◌, ◌≤◌, ◌++◌, IfOk, OnOk, Some, flat_map, length};
ghost use Rattle.sr_trace.specs.Drawing as drawing;
ghost use Rattle.sr_trace.specs.Pictures as pictures;

use crate::drawing::{push_arrow, push_column, push_mark, push_numbered};
use crate::shown::{Arrow, Column, arrows_of, columns_of, shown};
use crate::spot::{MOST_COLUMNS, MOST_ROWS};
use crate::traced::Traced;
use sr_core::Core;
use sr_value::{NoMemory, Text};
use std::alloc::Global;

/// How the parts look, and the tip of an arrow.
const STYLE: &[u8] = b"<style>
rect{fill:#fff}
.life{stroke:#bbb;stroke-dasharray:4 3}
.head{font-size:14px;font-weight:bold;text-anchor:middle}
.runs{text-anchor:middle}
.made,.after{fill:none;stroke:#b5452c;stroke-width:1.4;marker-end:url(#tip)}
.made{stroke:#4a7a3a;stroke-dasharray:6 3}
circle{fill:#2c5f8a}
.act{stroke:#fff;stroke-width:3;paint-order:stroke}
.act tspan{fill:#777}
</style>
<marker id='tip' viewBox='0 0 10 10' refX='14' refY='5' markerUnits='userSpaceOnUse' markerWidth='10' markerHeight='10' orient='auto'>
<path d='M0 1L10 5L0 9z' fill='#444'/></marker>
<rect width='100%' height='100%'/>
";

/// A picture of a trace, as an SVG text: a column for each process, a row for each item that is an end of a link, and an
/// arrow for each link. An item shows its line of the trace where one points at it, with the names of the files. There is no
/// picture of more than `MOST_COLUMNS` columns or `MOST_ROWS` rows.
pub fn picture_text(
    alloc: Global,
    core: &Core,
    names: &[Text],
    rows: &[Traced],
) -> Result<Option<Text>, NoMemory>
    ensures { IfOk result (λ text. text ≡ pictures.picture_of core.now names.now rows.now) }
{
    let kept = shown(alloc, rows)?;
    picture_within(alloc, core, names, kept.as_slice())
}

#[tactic(auto, unfolding(crate::specs::Pictures::picture_within))]
fn picture_within(
    alloc: Global,
    core: &Core,
    names: &[Text],
    rows: &[Traced],
) -> Result<Option<Text>, NoMemory>
    ensures { IfOk result (λ text. text ≡ pictures.picture_within core.now names.now rows.now) }
{
    if rows.len() > MOST_ROWS {
        return Ok(None);
    }
    let columns = columns_of(alloc, rows)?;
    picture_on(alloc, core, names, columns.as_slice(), rows)
}

#[tactic(auto, unfolding(crate::specs::Pictures::picture_on))]
fn picture_on(
    alloc: Global,
    core: &Core,
    names: &[Text],
    columns: &[Column],
    rows: &[Traced],
) -> Result<Option<Text>, NoMemory>
    requires { length rows.now ≤ MOST_ROWS }
    ensures { IfOk result (λ text. text ≡ pictures.picture_on core.now names.now columns.now rows.now) }
{
    if columns.len() > MOST_COLUMNS {
        return Ok(None);
    }
    let arrows = arrows_of(alloc, rows)?;
    draw(alloc, core, names, columns, rows, arrows.as_slice())
}

/// The picture of these columns, rows and arrows.
fn draw(
    alloc: Global,
    core: &Core,
    names: &[Text],
    columns: &[Column],
    rows: &[Traced],
    arrows: &[Arrow],
) -> Result<Option<Text>, NoMemory>
    requires columns { length columns.now ≤ MOST_COLUMNS }
    requires rows { length rows.now ≤ MOST_ROWS }
    ensures { IfOk result (λ text. text ≡ Some (pictures.drawn_with core.now names.now columns.now rows.now arrows.now)) }
{
    let mut text = Text::new(alloc);
    push_drawn(alloc, &mut text, core, names, columns, rows, arrows)?;
    Ok(Some(text))
}

#[tactic(auto, unfolding(crate::specs::Pictures::drawn_with))]
fn push_drawn(
    alloc: Global,
    text: &mut Text,
    core: &Core,
    names: &[Text],
    columns: &[Column],
    rows: &[Traced],
    arrows: &[Arrow],
) -> Result<(), NoMemory>
    requires columns { length columns.now ≤ MOST_COLUMNS }
    requires rows { length rows.now ≤ MOST_ROWS }
    ensures { OnOk result (text.new ≡ text.old ++ pictures.drawn_with core.now names.now columns.now rows.now arrows.now) }
{
    let width = 20 + 200 * columns.len() as u64;
    let height = 100 + 28 * rows.len() as u64;
    push_sheet(text, width, height)?;
    push_columns(alloc, text, core, height, columns)?;
    push_arrows(text, columns, rows, arrows)?;
    push_marks(alloc, text, core, names, columns, rows)?;
    text.push_all(b"</svg>\n")
}

/// Adds the head of the text.
#[tactic(auto, unfolding(crate::specs::Pictures::sheet_text))]
fn push_sheet(text: &mut Text, width: u64, height: u64) -> Result<(), NoMemory>
    ensures { OnOk result (text.new ≡ text.old ++ pictures.sheet_text width height) }
{
    push_size(text, width, height)?;
    push_box(text, width, height)?;
    text.push_all(b"' font-family='sans-serif' font-size='12'>\n")?;
    push_style(text)
}

#[tactic(auto, unfolding(crate::specs::Pictures::size_text))]
fn push_size(text: &mut Text, width: u64, height: u64) -> Result<(), NoMemory>
    ensures { OnOk result (text.new ≡ text.old ++ pictures.size_text width height) }
{
    push_numbered(
        text,
        b"<svg xmlns='http://www.w3.org/2000/svg' width='",
        width,
    )?;
    push_numbered(text, b"' height='", height)
}

#[tactic(auto, unfolding(crate::specs::Pictures::box_text))]
fn push_box(text: &mut Text, width: u64, height: u64) -> Result<(), NoMemory>
    ensures { OnOk result (text.new ≡ text.old ++ pictures.box_text width height) }
{
    push_numbered(text, b"' viewBox='0 0 ", width)?;
    push_numbered(text, b" ", height)
}

#[tactic(auto, unfolding(crate::specs::Pictures::style_text))]
fn push_style(text: &mut Text) -> Result<(), NoMemory>
    ensures { OnOk result (text.new ≡ text.old ++ pictures.style_text) }
{
    text.push_all(STYLE)
}

fn push_columns(
    alloc: Global,
    text: &mut Text,
    core: &Core,
    height: u64,
    columns: &[Column],
) -> Result<(), NoMemory>
    requires { length columns.now ≤ MOST_COLUMNS }
    ensures { OnOk result (text.new ≡ text.old ++ flat_map (drawing.column_text core.now height columns.now) columns.now) }
{
    for column in columns {
        push_column(alloc, text, core, height, columns, column)?;
    }
    Ok(())
}

fn push_arrows(
    text: &mut Text,
    columns: &[Column],
    rows: &[Traced],
    arrows: &[Arrow],
) -> Result<(), NoMemory>
    requires columns { length columns.now ≤ MOST_COLUMNS }
    requires rows { length rows.now ≤ MOST_ROWS }
    ensures { OnOk result (text.new ≡ text.old ++ flat_map (drawing.arrow_text columns.now rows.now) arrows.now) }
{
    for arrow in arrows {
        push_arrow(text, columns, rows, arrow)?;
    }
    Ok(())
}

fn push_marks(
    alloc: Global,
    text: &mut Text,
    core: &Core,
    names: &[Text],
    columns: &[Column],
    rows: &[Traced],
) -> Result<(), NoMemory>
    requires columns { length columns.now ≤ MOST_COLUMNS }
    requires rows { length rows.now ≤ MOST_ROWS }
    ensures { OnOk result (text.new ≡ text.old ++ flat_map (drawing.mark_text core.now names.now columns.now rows.now) rows.now) }
{
    for row in rows {
        push_mark(alloc, text, core, names, columns, rows, row)?;
    }
    Ok(())
}
