//! Runs on a world that is divided and joined after every item.

ghost use Rattle.std.specs.Prelude.{◌≡◌, IfOk, length};

use sr_ask::Item;
use sr_compiled::Compiled;
use sr_divided::is_same_run;
use sr_front::compile;
use sr_process::Process;
use sr_text::FrontFail;
use sr_value::{NoMemory, Row, Text};
use std::alloc::Global;

/// The most items of a run that are made again.
const MOST_ITEMS: usize = 10_000;

/// The one file of a program, without its name.
fn file_of(alloc: Global, text: &str) -> Result<Row<(Text, Text)>, NoMemory>
    ensures { IfOk result (λ files. length files ≡ 1) }
{
    let content = Text::from_slice(alloc, text.as_bytes())?;
    let mut files = Row::new(alloc);
    files.push((Text::new(alloc), content))?;
    Ok(files)
}

/// Whether a program of one file makes these items and writes this also where its world is divided and joined after every
/// item, and its first steps change no other parts of it than those that they touch. A longer run isn't tried.
pub fn goes_the_same(
    alloc: Global,
    text: &str,
    input: &str,
    items: &[Item],
    output: &[u8],
) -> Result<bool, NoMemory> {
    if items.len() > MOST_ITEMS {
        return Ok(true);
    }
    let files = file_of(alloc, text)?;
    match compile(alloc, files.as_slice()) {
        Ok(program) => {
            let program = Compiled::new(program);
            is_same_run::<Process>(alloc, &program, input.as_bytes(), items, output)
        }
        Err(FrontFail::Refused(_)) => Ok(items.is_empty()),
        Err(FrontFail::NoMemory) => Err(NoMemory),
    }
}
