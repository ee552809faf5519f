ghost use Rattle.std.specs.Prelude.{◌≡◌, ◌++◌, map, OnOk, IfOk};
ghost use Rattle.std.specs.List.{concat};
ghost use Rattle.sr_journal.specs.Numbers.{number_text};
ghost use Rattle.sr_journal.specs.Journal.{file_line, files_text, limits_line, item_line, items_text, journal_text, version_line, IsInRange};

use crate::header::Header;
use itoa::Buffer;
use sr_ask::Item;
use sr_value::{NoMemory, Row, Text};
use std::alloc::Global;

/// The version that is written.
const VERSION: u32 = 1;

/// The text of a journal, version 1.
pub fn write_journal(alloc: Global, header: &Header, items: &Row<Item>) -> Result<Text, NoMemory>
    requires { IsInRange header.now items.now }
    ensures { IfOk result (λ text. text ≡ journal_text header.now items.now) }
{
    let mut text = Text::new(alloc);
    push_journal(&mut text, header, items)?;
    Ok(text)
}

fn push_journal(text: &mut Text, header: &Header, items: &Row<Item>) -> Result<(), NoMemory>
    ensures { OnOk result (text.new ≡ text.old ++ journal_text header.now items.now) }
{
    push_version(text, VERSION)?;
    push_files(text, header.files.as_slice())?;
    push_limits(text, header.steps, header.ticks)?;
    push_items(text, items.as_slice())?;
    text.push_all(b"end\n")
}

fn push_version(text: &mut Text, version: u32) -> Result<(), NoMemory>
    ensures { OnOk result (text.new ≡ text.old ++ version_line version) }
{
    text.push_all(b"SRJ")?;
    push_number(text, u64::from(version))?;
    text.push(b'\n')
}

fn push_files(text: &mut Text, files: &[(u32, Text)]) -> Result<(), NoMemory>
    ensures { OnOk result (text.new ≡ text.old ++ files_text files.now) }
{
    text.push_all(b"files ")?;
    push_number(text, files.len() as u64)?;
    text.push(b'\n')?;
    push_file_lines(text, files)
}

fn push_file_lines(text: &mut Text, files: &[(u32, Text)]) -> Result<(), NoMemory>
    ensures { OnOk result (text.new ≡ text.old ++ concat (map file_line files.now)) }
{
    for file in files {
        push_file(text, file)?;
    }
    Ok(())
}

fn push_file(text: &mut Text, file: &(u32, Text)) -> Result<(), NoMemory>
    ensures { OnOk result (text.new ≡ text.old ++ file_line file.now) }
{
    let (size, name) = file;
    push_number(text, u64::from(*size))?;
    text.push(b' ')?;
    push_number(text, name.len() as u64)?;
    text.push(b' ')?;
    text.push_all(name.as_bytes())?;
    text.push(b'\n')
}

fn push_limits(text: &mut Text, steps: u32, ticks: u32) -> Result<(), NoMemory>
    ensures { OnOk result (text.new ≡ text.old ++ limits_line steps ticks) }
{
    text.push_all(b"steps ")?;
    push_number(text, u64::from(steps))?;
    text.push_all(b" ticks ")?;
    push_number(text, u64::from(ticks))?;
    text.push(b'\n')
}

fn push_items(text: &mut Text, items: &[Item]) -> Result<(), NoMemory>
    ensures { OnOk result (text.new ≡ text.old ++ items_text items.now) }
{
    text.push_all(b"items ")?;
    push_number(text, items.len() as u64)?;
    text.push(b'\n')?;
    push_item_lines(text, items)
}

fn push_item_lines(text: &mut Text, items: &[Item]) -> Result<(), NoMemory>
    ensures { OnOk result (text.new ≡ text.old ++ concat (map item_line items.now)) }
{
    for item in items {
        push_item(text, *item)?;
    }
    Ok(())
}

fn push_item(text: &mut Text, item: Item) -> Result<(), NoMemory>
    ensures { OnOk result (text.new ≡ text.old ++ item_line item) }
{
    match item {
        Item::Step { actor, name } => {
            text.push_all(b"s ")?;
            push_number(text, u64::from(actor))?;
            text.push(b' ')?;
            push_number(text, u64::from(name))?;
        }
        Item::Quiesce { name } => {
            text.push_all(b"q ")?;
            push_number(text, u64::from(name))?;
        }
        Item::Tick { to } => {
            text.push_all(b"t ")?;
            push_number(text, u64::from(to))?;
        }
    }
    text.push(b'\n')
}

fn push_number(text: &mut Text, number: u64) -> Result<(), NoMemory>
    ensures { OnOk result (text.new ≡ text.old ++ number_text number) }
{
    let mut buffer = Buffer::new();
    text.push_all(buffer.format(number).as_bytes())
}
