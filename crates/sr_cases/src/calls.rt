//! Calls of the top call with ports in memory.

use crate::divided::goes_the_same;
use crate::repeats::repeated;
use crate::telling::told;
use sr_case_files::{Case, Tally, cases_in};
use sr_ports::{FreeGate, MemFiles, MemSink, MemSource};
use sr_top::{Report, sr_top};
use sr_value::{NoMemory, Row, Text};
use std::alloc::Global;

/// The most bytes of one take and of one put.
const PIECE: usize = 4_096;

/// What is told of a run that goes another way on a world that is divided.
const OTHERWISE: &str = "another run where the world is divided\n";

/// The words `run` and the name of the file.
fn words_for(alloc: Global, file: &str) -> Result<Vec<String>, NoMemory> {
    let mut words = Vec::new(alloc);
    for word in ["run", file] {
        words.push(String::from_str(alloc, word)?)?;
    }
    Ok(words)
}

/// The one file of a program.
fn files_of(alloc: Global, file: &str, content: &str) -> Result<MemFiles, NoMemory> {
    let name = Text::from_slice(alloc, file.as_bytes())?;
    let content = Text::from_slice(alloc, content.as_bytes())?;
    let mut held = Row::new(alloc);
    held.push((name, content))?;
    Ok(MemFiles::new(held, Row::new(alloc)))
}

fn source_of(alloc: Global, input: &str) -> Result<MemSource, NoMemory> {
    let input = Text::from_slice(alloc, input.as_bytes())?;
    Ok(MemSource::new(input, PIECE, Row::new(alloc)))
}

fn empty_sink(alloc: Global) -> MemSink {
    MemSink::new(alloc, PIECE, Row::new(alloc))
}

/// Runs a program of one file, and hands out its report.
fn called(
    alloc: Global,
    file: &str,
    text: &str,
    input: &str,
    output: &mut MemSink,
    diag: &mut MemSink,
) -> Result<Report, NoMemory> {
    let words = words_for(alloc, file)?;
    let mut files = files_of(alloc, file, text)?;
    let mut input = source_of(alloc, input)?;
    let mut journal = empty_sink(alloc);
    Ok(sr_top(
        alloc,
        &words,
        &mut files,
        &mut input,
        output,
        diag,
        &mut journal,
        &FreeGate,
    ))
}

/// What a run of a case with this program did. Its items are told where the case tells items. It has to go the same way
/// on a world that is divided.
fn told_of(
    alloc: Global,
    case: &Case,
    text: &str,
    input: &str,
    report: &Report,
    output: &[u8],
    diag: &[u8],
) -> Result<String, NoMemory> {
    if !goes_the_same(alloc, text, input, report.items.as_slice(), output)? {
        return Ok(String::from_str(alloc, OTHERWISE)?);
    }
    let tells_items = case.wanted.contains(" items\n");
    told(alloc, report, output, diag, tells_items)
}

/// What is found of a case that has this program.
fn found_of(alloc: Global, case: &Case, text: &str) -> Result<String, NoMemory> {
    let name = case.name.as_str();
    let file = format!(in alloc; "{name}.sr")?;
    let input = match case.texts.get(1) {
        Some(input) => input.as_str(),
        None => "",
    };
    let mut output = empty_sink(alloc);
    let mut diag = empty_sink(alloc);
    let report = called(alloc, file.as_str(), text, input, &mut output, &mut diag)?;
    told_of(
        alloc,
        case,
        text,
        input,
        &report,
        output.held(),
        diag.held(),
    )
}

/// What is found of a case.
fn found(alloc: Global, case: &Case) -> Result<String, NoMemory> {
    let text = repeated(alloc, case.text())?;
    found_of(alloc, case, text.as_str())
}

/// Notes in the tally what was found of a case.
fn note_found(alloc: Global, case: &Case, found: &str, tally: &mut Tally) -> Result<(), NoMemory> {
    let wanted = repeated(alloc, case.wanted.as_str())?;
    tally.note(case.name.as_str(), wanted.as_str(), found)?;
    Ok(())
}

/// Notes a case in the tally.
fn note(alloc: Global, case: &Case, tally: &mut Tally) -> Result<(), NoMemory> {
    let found = found(alloc, case)?;
    note_found(alloc, case, found.as_str(), tally)
}

/// What is reported of a file of cases.
pub fn report_of(alloc: Global, name: &str, content: &str) -> Result<String, NoMemory> {
    let file = cases_in(alloc, content)?;
    let mut tally = Tally::new(alloc);
    for case in &file.cases {
        note(alloc, case, &mut tally)?;
    }
    Ok(tally.report(alloc, name)?)
}

/// Whether a program without input ends with status 0 and writes this, and nothing is told.
pub fn writes(alloc: Global, file: &str, text: &str, wanted: &str) -> Result<bool, NoMemory> {
    let mut output = empty_sink(alloc);
    let mut diag = empty_sink(alloc);
    let report = called(alloc, file, text, "", &mut output, &mut diag)?;
    Ok(report.status == 0 && diag.held().is_empty() && output.held() == wanted.as_bytes())
}
