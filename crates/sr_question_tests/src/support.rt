use sr_ports::{FreeGate, MemFiles, MemSink, MemSource};
use sr_top::{Report, sr_top};
use sr_value::{NoMemory, Row, Text};
use std::alloc::Global;

/// Names and contents of files.
pub type Files<'a> = &'a [(&'a str, &'a [u8])];

/// A call over files in memory, and its answer: the status, the output and the diagnostic text. `fails` has the numbers of the
/// puts of the output that fail.
#[derive(Clone, Copy)]
pub struct Question<'a> {
    pub words: &'a [&'a str],
    pub files: Files<'a>,
    pub fails: &'a [u64],
    pub status: u8,
    pub output: &'a [u8],
    pub diag: &'a [u8],
}

fn said(alloc: Global, words: &[&str]) -> Result<Vec<String>, NoMemory> {
    let mut said = Vec::new(alloc);
    for word in words {
        said.push(String::from_str(alloc, word)?)?;
    }
    Ok(said)
}

fn stored(alloc: Global, files: Files<'_>) -> Result<Row<(Text, Text)>, NoMemory> {
    let mut stored = Row::new(alloc);
    for (name, content) in files {
        let name = Text::from_slice(alloc, name.as_bytes())?;
        let content = Text::from_slice(alloc, content)?;
        stored.push((name, content))?;
    }
    Ok(stored)
}

/// Makes a call without input.
pub fn call(
    alloc: Global,
    words: &[&str],
    files: Files<'_>,
    output: &mut MemSink,
    diag: &mut MemSink,
    journal: &mut MemSink,
) -> Result<Report, NoMemory> {
    let stored = stored(alloc, files)?;
    let said = said(alloc, words)?;
    let mut source = MemSource::new(Text::new(alloc), 1, Row::new(alloc));
    let mut files = MemFiles::new(stored, Row::new(alloc));
    Ok(sr_top(
        alloc,
        &said,
        &mut files,
        &mut source,
        output,
        diag,
        journal,
        &FreeGate,
    ))
}

/// Whether a call is answered so, and puts no journal.
pub fn is_answered(alloc: Global, question: &Question<'_>) -> Result<bool, NoMemory> {
    let fails = Vec::from_slice(alloc, question.fails)?;
    let mut output = MemSink::new(alloc, 10_000, Row::from_vec(fails));
    let mut diag = MemSink::new(alloc, 10_000, Row::new(alloc));
    let mut journal = MemSink::new(alloc, 10_000, Row::new(alloc));
    let report = call(
        alloc,
        question.words,
        question.files,
        &mut output,
        &mut diag,
        &mut journal,
    )?;
    Ok(
        report.status == question.status
            && output.held() == question.output
            && diag.held() == question.diag
            && journal.held().is_empty(),
    )
}
