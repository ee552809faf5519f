ghost use Rattle.std.specs.Prelude.{◌≡◌, ◌++◌, ◌∷◌, [], IfOk, OnOk, flat_map};
ghost use Rattle.sr_trace.specs.Lines as lines;

use crate::traced::Traced;
use crate::words::{push_deed, push_number, push_runs};
use sr_core::Core;
use sr_value::{NoMemory, Place, Text};
use std::alloc::Global;

/// The lines of a trace of a program in files of these names.
pub fn trace_text(
    alloc: Global,
    core: &Core,
    names: &[Text],
    rows: &[Traced],
) -> Result<Text, NoMemory>
    ensures { IfOk result (λ text. text ≡ lines.trace_text core.now names.now rows.now) }
{
    let mut text = Text::new(alloc);
    push_lines(&mut text, core, names, rows)?;
    Ok(text)
}

fn push_lines(text: &mut Text, core: &Core, names: &[Text], rows: &[Traced]) -> Result<(), NoMemory>
    ensures { OnOk result (text.new ≡ text.old ++ lines.trace_text core.now names.now rows.now) }
{
    for row in rows {
        push_line(text, core, names, row)?;
    }
    Ok(())
}

#[tactic(auto, unfolding(crate::specs::Lines::trace_line))]
fn push_line(text: &mut Text, core: &Core, names: &[Text], row: &Traced) -> Result<(), NoMemory>
    ensures { OnOk result (text.new ≡ text.old ++ lines.trace_line core.now names.now row.now) }
{
    push_words(text, core, names, row)?;
    text.push(b'\n')
}

/// The line of an item, without its end.
pub(crate) fn line_of(
    alloc: Global,
    core: &Core,
    names: &[Text],
    row: &Traced,
) -> Result<Text, NoMemory>
    ensures { IfOk result (λ words. words ≡ lines.line_words core.now names.now row.now) }
{
    let mut words = Text::new(alloc);
    push_words(&mut words, core, names, row)?;
    Ok(words)
}

/// Adds the line of an item, without its end.
#[tactic(auto, unfolding(crate::specs::Lines::line_words))]
fn push_words(text: &mut Text, core: &Core, names: &[Text], row: &Traced) -> Result<(), NoMemory>
    ensures { OnOk result (text.new ≡ text.old ++ lines.line_words core.now names.now row.now) }
{
    push_runner(text, core, row)?;
    push_deed(text, core, row)?;
    push_link(text, b" begun by ", row.begun_by)?;
    push_link(text, b" after ", row.after)?;
    push_place(text, names, row.place)
}

/// Adds the number of an item, its process and what that runs.
#[tactic(auto, unfolding(crate::specs::Lines::runner_words))]
fn push_runner(text: &mut Text, core: &Core, row: &Traced) -> Result<(), NoMemory>
    ensures { OnOk result (text.new ≡ text.old ++ lines.runner_words core.now row.now.item row.now.process row.now.runs) }
{
    push_number(text, u64::from(row.item) + 1)?;
    text.push(b' ')?;
    push_number(text, u64::from(row.process))?;
    text.push(b' ')?;
    push_runs(text, core, row.runs)?;
    text.push(b' ')
}

/// Adds the number of the item from which there is a link of this name.
fn push_link(text: &mut Text, name: &[u8], from: Option<u32>) -> Result<(), NoMemory>
    ensures { OnOk result (text.new ≡ text.old ++ lines.link_words name.now from) }
{
    match from {
        None => Ok(()),
        Some(item) => {
            text.push_all(name)?;
            push_number(text, u64::from(item) + 1)
        }
    }
}

fn push_place(text: &mut Text, names: &[Text], place: Option<Place>) -> Result<(), NoMemory>
    ensures { OnOk result (text.new ≡ text.old ++ lines.place_words names.now place) }
{
    match place {
        None => Ok(()),
        Some(place) => {
            text.push_all(b" at ")?;
            text.push_all(file_name(names, place.file))?;
            text.push(b':')?;
            push_number(text, u64::from(place.line))
        }
    }
}

fn file_name(names: &[Text], file: u32) -> &[u8]
    ensures { result.now ≡ lines.file_name names.now file }
{
    match names.get(file as usize) {
        None => b"",
        Some(name) => name.as_bytes(),
    }
}
