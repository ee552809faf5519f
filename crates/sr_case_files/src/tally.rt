//! How many cases there are, and which of them differ.

use crate::case_file::push_line;
use std::alloc::{AllocError, Global};

/// The cases of a file so far.
#[derive(Drop)]
pub struct Tally {
    cases: u64,
    differ: u64,
    /// A line for each case that differs, and what is wanted and found there.
    told: String,
}

/// The text without the end of its last line.
fn without_end(text: &str) -> &str {
    text.strip_suffix('\n').unwrap_or(text)
}

impl Tally {
    pub fn new(alloc: Global) -> Tally {
        Tally {
            cases: 0,
            differ: 0,
            told: String::new(alloc),
        }
    }

    /// Puts lines at the end of the told ones, each after a word.
    fn push_lines(&mut self, word: &str, lines: &str) -> Result<(), AllocError> {
        for line in lines.lines() {
            self.told.push_str(word)?;
            push_line(&mut self.told, line)?;
        }
        Ok(())
    }

    /// Takes a case in: its name, what is wanted and what is found.
    pub fn note(&mut self, name: &str, wanted: &str, found: &str) -> Result<(), AllocError> {
        self.cases = self.cases.wrapping_add(1);
        if without_end(wanted) == without_end(found) {
            return Ok(());
        }
        self.differ = self.differ.wrapping_add(1);
        self.push_lines("  ", name)?;
        self.push_lines("    wanted: ", wanted)?;
        self.push_lines("    found: ", found)
    }

    /// `names.txt: 12 cases, 0 differ`, and what is told of those that differ.
    pub fn report(&self, alloc: Global, file: &str) -> Result<String, AllocError> {
        let Tally {
            cases,
            differ,
            told,
        } = self;
        format!(in alloc; "{file}: {cases} cases, {differ} differ\n{told}")
    }
}
