ghost use Rattle.std.specs.Prelude.{◌≡◌, ◌++◌, IfOk, OnOk, flat_map};
ghost use Rattle.sr_top.specs.Placing as placing;

use crate::diag::{decimal_text, file_name};
use sr_ask::Asks;
use sr_replay::ShownProcess;
use sr_value::{NoMemory, Text};
use std::alloc::Global;

/// Adds a line for each process that asks: at which place.
pub fn push_places(
    alloc: Global,
    text: &mut Text,
    names: &[Text],
    processes: &[ShownProcess],
) -> Result<(), NoMemory>
    ensures { OnOk result (text.new ≡ text.old ++ flat_map (placing.place_line names.now) processes.now) }
{
    for process in processes {
        push_place(alloc, text, names, process)?;
    }
    Ok(())
}

fn push_place(
    alloc: Global,
    text: &mut Text,
    names: &[Text],
    process: &ShownProcess,
) -> Result<(), NoMemory>
    ensures { OnOk result (text.new ≡ text.old ++ placing.place_line names.now process.now) }
{
    match &process.asks {
        Asks::OverTicks => Ok(()),
        Asks::Asked(ask) => {
            let number = decimal_text(alloc, process.process)?;
            let line = decimal_text(alloc, ask.place.line)?;
            push_words(
                text,
                number.as_bytes(),
                file_name(names, ask.place.file),
                line.as_bytes(),
            )
        }
    }
}

/// Adds the line of a process, a file and a line of it.
fn push_words(text: &mut Text, process: &[u8], file: &[u8], line: &[u8]) -> Result<(), NoMemory>
    ensures { OnOk result (text.new ≡ text.old ++ placing.words_of process.now file.now line.now) }
{
    text.push_all(b"process ")?;
    text.push_all(process)?;
    text.push_all(b" at ")?;
    text.push_all(file)?;
    text.push_all(b":")?;
    text.push_all(line)?;
    text.push_all(b"\n")
}
