//! What a call did, as text: its status, its diagnostic line, its output and its items.

use sr_ask::Item;
use sr_case_files::push_byte;
use sr_top::Report;
use sr_value::NoMemory;
use std::alloc::{AllocError, Global};

/// The items of one line.
const ITEMS_A_LINE: usize = 20;

/// Puts lines of bytes at the end of a text, each after a mark.
pub fn push_lines(text: &mut String, mark: &str, bytes: &[u8]) -> Result<(), AllocError> {
    let mut begins = true;
    for byte in bytes {
        if begins {
            text.push_str(mark)?;
        }
        begins = *byte == b'\n';
        if begins {
            text.push('\n')?;
        } else {
            push_byte(text, *byte)?;
        }
    }
    Ok(())
}

/// Puts the number of what an item made, after a plus sign.
fn push_made(text: &mut String, name: u32) -> Result<(), AllocError> {
    if name == 0 {
        Ok(())
    } else {
        write!(text, "+{name}")
    }
}

/// `3+5` is a step of process 3 that made 5, `rest` that the machine came to rest, and `@7` that time passed to moment 7.
fn push_item(text: &mut String, item: Item) -> Result<(), AllocError> {
    match item {
        Item::Step { actor, name } => {
            write!(text, "{actor}")?;
            push_made(text, name)
        }
        Item::Quiesce { name } => {
            text.push_str("rest")?;
            push_made(text, name)
        }
        Item::Tick { to } => write!(text, "@{to}"),
    }
}

/// Puts how many items there are, and the items, 20 to a line.
fn push_items(text: &mut String, items: &[Item]) -> Result<(), AllocError> {
    let count = items.len();
    write!(text, "{count} items")?;
    for (index, item) in items.iter().enumerate() {
        let before = if index % ITEMS_A_LINE == 0 { '\n' } else { ' ' };
        text.push(before)?;
        push_item(text, *item)?;
    }
    text.push('\n')
}

/// What a call did, with its items or without.
pub fn told(
    alloc: Global,
    report: &Report,
    output: &[u8],
    diag: &[u8],
    tells_items: bool,
) -> Result<String, NoMemory> {
    let status = report.status;
    let mut text = format!(in alloc; "status {status}\n")?;
    push_lines(&mut text, "", diag)?;
    push_lines(&mut text, "> ", output)?;
    if tells_items {
        push_items(&mut text, report.items.as_slice())?;
    }
    Ok(text)
}
