use sr_ask::Item;
use sr_journal::read_journal;
use sr_ports::{FreeGate, MemFiles, MemSink, MemSource};
use sr_top::{Ending, Report, Side, sr_top};
use sr_value::{NoMemory, Row, Text};
use std::alloc::Global;

/// What a call puts whose words it doesn't understand.
pub const USAGE: &[u8] =
    b"usage: sr run FILE... [--workers N] [--steps N] [--ticks N] [--journal]\n       sr check FILE...\n       sr classes FILE...\n       sr gen SEED [--workers N]\n       sr replay JOURNAL FILE... [--upto N] [--where]\n       sr races JOURNAL FILE...\n       sr trace JOURNAL FILE... [--upto N] [--picture]\n       sr fmt FILE\n";

/// A call with ports in memory: its words and its files, and the reads of these that fail; the input, and the takes of it
/// that fail; the puts of the output and of the journal that fail, and the most bytes of one put of each. Then what is to
/// come: the ending, where it is looked at, the status, the number of items, the output, the diagnostic text and the bytes
/// of the journal.
#[derive(Clone, Copy)]
pub struct Case<'a> {
    pub words: &'a [&'a str],
    pub files: &'a [(&'a str, &'a [u8])],
    pub read_fails: &'a [u64],
    pub input: &'a [u8],
    pub take_fails: &'a [u64],
    pub put_fails: &'a [u64],
    pub piece: usize,
    pub journal_fails: &'a [u64],
    pub most: usize,
    pub ending: Option<Ending>,
    pub status: u8,
    pub items: usize,
    pub output: &'a [u8],
    pub diag: &'a [u8],
    pub journal: &'a [u8],
}

/// A call that puts nothing and ends with status 0.
pub fn silent<'a>(words: &'a [&'a str], files: &'a [(&'a str, &'a [u8])]) -> Case<'a> {
    Case {
        words,
        files,
        read_fails: &[],
        input: b"",
        take_fails: &[],
        put_fails: &[],
        piece: 1000,
        journal_fails: &[],
        most: 1000,
        ending: None,
        status: 0,
        items: 0,
        output: b"",
        diag: b"",
        journal: b"",
    }
}

pub fn numbers(alloc: Global, of: &[u64]) -> Result<Row<u64>, NoMemory> {
    Ok(Row::from_vec(Vec::from_slice(alloc, of)?))
}

pub fn words_of(alloc: Global, of: &[&str]) -> Result<Vec<String>, NoMemory> {
    let mut words = Vec::new(alloc);
    for word in of {
        words.push(String::from_str(alloc, word)?)?;
    }
    Ok(words)
}

pub fn push_file(
    alloc: Global,
    files: &mut Row<(Text, Text)>,
    name: &[u8],
    content: &[u8],
) -> Result<(), NoMemory> {
    let name = Text::from_slice(alloc, name)?;
    let content = Text::from_slice(alloc, content)?;
    files.push((name, content))
}

fn files_of(alloc: Global, case: &Case<'_>) -> Result<MemFiles, NoMemory> {
    let fails = numbers(alloc, case.read_fails)?;
    let mut files = Row::new(alloc);
    for (name, content) in case.files {
        push_file(alloc, &mut files, name.as_bytes(), content)?;
    }
    Ok(MemFiles::new(files, fails))
}

/// The input of a case, in pieces of two bytes.
fn source_of(alloc: Global, case: &Case<'_>) -> Result<MemSource, NoMemory> {
    let fails = numbers(alloc, case.take_fails)?;
    let input = Text::from_slice(alloc, case.input)?;
    Ok(MemSource::new(input, 2, fails))
}

/// Makes a call with these words and files, and with the input of a case.
pub fn called_with(
    alloc: Global,
    case: &Case<'_>,
    words: &[String],
    files: &mut MemFiles,
    output: &mut MemSink,
    diag: &mut MemSink,
    journal: &mut MemSink,
) -> Result<Report, NoMemory> {
    let mut input = source_of(alloc, case)?;
    Ok(sr_top(
        alloc, words, files, &mut input, output, diag, journal, &FreeGate,
    ))
}

/// Makes a call of one file over this input and this output.
pub fn called_over(
    alloc: Global,
    words: &[&str],
    file: (&str, &[u8]),
    input: &mut MemSource,
    output: &mut MemSink,
) -> Result<Report, NoMemory> {
    let words = words_of(alloc, words)?;
    let mut files = Row::new(alloc);
    push_file(alloc, &mut files, file.0.as_bytes(), file.1)?;
    let mut files = MemFiles::new(files, Row::new(alloc));
    let mut diag = MemSink::new(alloc, 1, Row::new(alloc));
    let mut journal = MemSink::new(alloc, 1, Row::new(alloc));
    Ok(sr_top(
        alloc,
        &words,
        &mut files,
        input,
        output,
        &mut diag,
        &mut journal,
        &FreeGate,
    ))
}

/// Makes the call of a case.
pub fn called(
    alloc: Global,
    case: &Case<'_>,
    output: &mut MemSink,
    diag: &mut MemSink,
    journal: &mut MemSink,
) -> Result<Report, NoMemory> {
    let words = words_of(alloc, case.words)?;
    let mut files = files_of(alloc, case)?;
    called_with(alloc, case, &words, &mut files, output, diag, journal)
}

/// Whether a call ends as it should, where that is looked at, and its diagnostic text is put whole.
fn ends_so(report: &Report, ending: Option<Ending>) -> bool {
    match ending {
        Some(ending) => report.ending == ending && report.diag == Side::Whole,
        None => true,
    }
}

/// Whether the call of a case does what is to come.
pub fn goes_so(alloc: Global, case: &Case<'_>) -> Result<bool, NoMemory> {
    let fails = numbers(alloc, case.put_fails)?;
    let mut output = MemSink::new(alloc, case.piece.max(1), fails);
    let mut diag = MemSink::new(alloc, 1000, Row::new(alloc));
    let journal_fails = numbers(alloc, case.journal_fails)?;
    let mut journal = MemSink::new(alloc, case.most.max(1), journal_fails);
    let report = called(alloc, case, &mut output, &mut diag, &mut journal)?;
    Ok(
        report.status == case.status
            && report.items.len() == case.items
            && output.held() == case.output
            && diag.held() == case.diag
            && journal.held() == case.journal
            && ends_so(&report, case.ending),
    )
}

/// Whether bytes are a journal of these items.
pub fn tells(alloc: Global, bytes: &[u8], items: &[Item]) -> bool {
    match read_journal(alloc, bytes) {
        Ok((_header, read)) => read.as_slice() == items,
        Err(_) => false,
    }
}
