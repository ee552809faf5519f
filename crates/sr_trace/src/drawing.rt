ghost use Rattle.std.specs.Prelude.{◌≡◌, ◌++◌, ◌≤◌, [], IfOk, OnOk, length};
ghost use Rattle.sr_trace.specs.Drawing as drawing;
ghost use Rattle.sr_trace.specs.Words.{deed_words, runs_words};

use crate::escaping::push_escaped;
use crate::line::line_of;
use crate::shown::{Arrow, Column};
use crate::spot::{MOST_COLUMNS, MOST_ROWS, Spot, bend_of, spot_of, x_of};
use crate::traced::{Runs, Traced};
use crate::words::{push_deed, push_number, push_runs};
use sr_core::Core;
use sr_value::{NoMemory, Text};
use std::alloc::Global;

/// Adds bytes and a number.
#[tactic(auto, unfolding(crate::specs::Drawing::numbered))]
pub(crate) fn push_numbered(text: &mut Text, before: &[u8], number: u64) -> Result<(), NoMemory>
    ensures { OnOk result (text.new ≡ text.old ++ drawing.numbered before.now number) }
{
    text.push_all(before)?;
    push_number(text, number)
}

/// Adds bytes, a number and the end of a tag.
#[tactic(auto, unfolding(crate::specs::Drawing::closed))]
fn push_closed(text: &mut Text, before: &[u8], number: u64) -> Result<(), NoMemory>
    ensures { OnOk result (text.new ≡ text.old ++ drawing.closed before.now number) }
{
    push_numbered(text, before, number)?;
    text.push_all(b"'/>")
}

/// Adds what a process of a column runs, and its line.
#[tactic(auto, unfolding(crate::specs::Drawing::column_text))]
pub(crate) fn push_column(
    alloc: Global,
    text: &mut Text,
    core: &Core,
    height: u64,
    columns: &[Column],
    column: &Column,
) -> Result<(), NoMemory>
    requires { length columns.now ≤ MOST_COLUMNS }
    ensures { OnOk result (text.new ≡ text.old ++ drawing.column_text core.now height columns.now column.now) }
{
    let x = u64::from(x_of(columns, column.process));
    push_life(text, height, x)?;
    push_head(text, x, column.process)?;
    push_runner(alloc, text, core, x, column.runs)
}

#[tactic(auto, unfolding(crate::specs::Drawing::life_text))]
fn push_life(text: &mut Text, height: u64, x: u64) -> Result<(), NoMemory>
    ensures { OnOk result (text.new ≡ text.old ++ drawing.life_text height x) }
{
    push_numbered(text, b"<path class='life' d='M", x)?;
    push_closed(text, b" 60V", height)
}

#[tactic(auto, unfolding(crate::specs::Drawing::head_text))]
fn push_head(text: &mut Text, x: u64, process: u32) -> Result<(), NoMemory>
    ensures { OnOk result (text.new ≡ text.old ++ drawing.head_text x process) }
{
    push_numbered(text, b"<text class='head' y='28' x='", x)?;
    push_numbered(text, b"'>", u64::from(process))?;
    text.push_all(b"</text>")
}

/// The words for what runs.
fn runs_of(alloc: Global, core: &Core, runs: Runs) -> Result<Text, NoMemory>
    ensures { IfOk result (λ words. words ≡ runs_words core.now runs) }
{
    let mut words = Text::new(alloc);
    push_runs(&mut words, core, runs)?;
    Ok(words)
}

#[tactic(auto, unfolding(crate::specs::Drawing::runs_text))]
fn push_runner(
    alloc: Global,
    text: &mut Text,
    core: &Core,
    x: u64,
    runs: Runs,
) -> Result<(), NoMemory>
    ensures { OnOk result (text.new ≡ text.old ++ drawing.runs_text core.now x runs) }
{
    push_numbered(text, b"<text class='runs' y='48' x='", x)?;
    text.push_all(b"'>")?;
    let words = runs_of(alloc, core, runs)?;
    push_ended(text, words.as_bytes())
}

/// Adds the words of a text, and its end.
#[tactic(auto, unfolding(crate::specs::Drawing::ended))]
fn push_ended(text: &mut Text, words: &[u8]) -> Result<(), NoMemory>
    ensures { OnOk result (text.new ≡ text.old ++ drawing.ended words.now) }
{
    push_escaped(text, words)?;
    text.push_all(b"</text>\n")
}

fn arrow_class(begins: bool) -> &'static [u8]
    ensures { result.now ≡ drawing.arrow_class begins }
{
    if begins { b"made" } else { b"after" }
}

#[tactic(auto, unfolding(crate::specs::Drawing::spot_words))]
fn push_spot(text: &mut Text, before: &[u8], spot: Spot) -> Result<(), NoMemory>
    ensures { OnOk result (text.new ≡ text.old ++ drawing.spot_words before.now spot) }
{
    push_numbered(text, before, u64::from(spot.x))?;
    push_numbered(text, b" ", u64::from(spot.y))
}

#[tactic(auto, unfolding(crate::specs::Drawing::path_words))]
fn push_path(text: &mut Text, from: Spot, to: Spot) -> Result<(), NoMemory>
    ensures { OnOk result (text.new ≡ text.old ++ drawing.path_words from to) }
{
    push_spot(text, b"M", from)?;
    push_spot(text, b"Q", bend_of(from, to))?;
    push_spot(text, b" ", to)
}

#[tactic(auto, unfolding(crate::specs::Drawing::arrow_at))]
fn push_arrow_at(text: &mut Text, begins: bool, from: Spot, to: Spot) -> Result<(), NoMemory>
    ensures { OnOk result (text.new ≡ text.old ++ drawing.arrow_at begins from to) }
{
    text.push_all(b"<path class='")?;
    text.push_all(arrow_class(begins))?;
    text.push_all(b"' d='")?;
    push_path(text, from, to)?;
    text.push_all(b"'/>\n")
}

/// Adds the arrow of a link.
#[tactic(auto, unfolding(crate::specs::Drawing::arrow_text))]
pub(crate) fn push_arrow(
    text: &mut Text,
    columns: &[Column],
    rows: &[Traced],
    arrow: &Arrow,
) -> Result<(), NoMemory>
    requires columns { length columns.now ≤ MOST_COLUMNS }
    requires rows { length rows.now ≤ MOST_ROWS }
    ensures { OnOk result (text.new ≡ text.old ++ drawing.arrow_text columns.now rows.now arrow.now) }
{
    let from = spot_of(columns, rows, arrow.from);
    let to = spot_of(columns, rows, arrow.to);
    push_arrow_at(text, arrow.begins, from, to)
}

#[tactic(auto, unfolding(crate::specs::Drawing::circle_text))]
fn push_circle(text: &mut Text, x: u64, y: u64) -> Result<(), NoMemory>
    ensures { OnOk result (text.new ≡ text.old ++ drawing.circle_text x y) }
{
    push_numbered(text, b"<circle r='4' cx='", x)?;
    push_closed(text, b"' cy='", y)
}

/// The words for what an item does.
fn deed_of(alloc: Global, core: &Core, row: &Traced) -> Result<Text, NoMemory>
    ensures { IfOk result (λ words. words ≡ deed_words core.now row.now.act row.now.subject) }
{
    let mut words = Text::new(alloc);
    push_deed(&mut words, core, row)?;
    Ok(words)
}

#[tactic(auto, unfolding(crate::specs::Drawing::label_text))]
fn push_label(
    alloc: Global,
    text: &mut Text,
    core: &Core,
    spot: Spot,
    row: &Traced,
) -> Result<(), NoMemory>
    ensures { OnOk result (text.new ≡ text.old ++ drawing.label_text core.now spot row.now) }
{
    let number = u64::from(row.item) + 1;
    push_numbered(text, b"<text class='act' x='", u64::from(spot.x) + 6)?;
    push_numbered(text, b"' y='", u64::from(spot.y).saturating_sub(6))?;
    push_numbered(text, b"'><tspan>", number)?;
    text.push_all(b"</tspan> ")?;
    let words = deed_of(alloc, core, row)?;
    push_ended(text, words.as_bytes())
}

/// Adds the words of a title, and its end.
#[tactic(auto, unfolding(crate::specs::Drawing::titled))]
fn push_titled(text: &mut Text, words: &[u8]) -> Result<(), NoMemory>
    ensures { OnOk result (text.new ≡ text.old ++ drawing.titled words.now) }
{
    push_escaped(text, words)?;
    text.push_all(b"</title>")
}

/// Adds the line of an item, which is shown where one points at it.
#[tactic(auto, unfolding(crate::specs::Drawing::title_text))]
fn push_title(
    alloc: Global,
    text: &mut Text,
    core: &Core,
    names: &[Text],
    row: &Traced,
) -> Result<(), NoMemory>
    ensures { OnOk result (text.new ≡ text.old ++ drawing.title_text core.now names.now row.now) }
{
    text.push_all(b"<g><title>")?;
    let line = line_of(alloc, core, names, row)?;
    push_titled(text, line.as_bytes())
}

#[tactic(auto, unfolding(crate::specs::Drawing::mark_at))]
fn push_mark_at(
    alloc: Global,
    text: &mut Text,
    core: &Core,
    names: &[Text],
    spot: Spot,
    row: &Traced,
) -> Result<(), NoMemory>
    ensures { OnOk result (text.new ≡ text.old ++ drawing.mark_at core.now names.now spot row.now) }
{
    push_title(alloc, text, core, names, row)?;
    push_circle(text, u64::from(spot.x), u64::from(spot.y))?;
    push_label(alloc, text, core, spot, row)?;
    text.push_all(b"</g>\n")
}

/// Adds an item: its line, its spot, its number and what it does.
#[tactic(auto, unfolding(crate::specs::Drawing::mark_text))]
pub(crate) fn push_mark(
    alloc: Global,
    text: &mut Text,
    core: &Core,
    names: &[Text],
    columns: &[Column],
    rows: &[Traced],
    row: &Traced,
) -> Result<(), NoMemory>
    requires columns { length columns.now ≤ MOST_COLUMNS }
    requires rows { length rows.now ≤ MOST_ROWS }
    ensures { OnOk result (text.new ≡ text.old ++ drawing.mark_text core.now names.now columns.now rows.now row.now) }
{
    let spot = spot_of(columns, rows, row.item);
    push_mark_at(alloc, text, core, names, spot, row)
}
