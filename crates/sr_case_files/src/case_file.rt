//! Files of cases. A file begins with its head, up to the first line `=== NAME`. Each such line begins a case: the
//! lines of its text follow, a line `---`, and the lines that are wanted. A line `+++` begins another text of the case.
//! Where a name ends in `(bytes)`, `\xHH` stands for one byte in the case.

use crate::escape::unescaped;
use sr_value::{NoMemory, Row, Text};
use std::alloc::{AllocError, Global};

/// A case: its name, the texts that are tried, and what is wanted of them. Each line has its end.
#[derive(Drop)]
pub struct Case {
    pub name: String,
    pub texts: Vec<String>,
    pub wanted: String,
    is_past_texts: bool,
}

/// The head of a file, and its cases.
#[derive(Drop)]
pub struct CaseFile {
    pub head: String,
    pub cases: Vec<Case>,
}

/// Puts a line with its end at the end of a text.
pub fn push_line(text: &mut String, line: &str) -> Result<(), AllocError> {
    text.push_str(line)?;
    text.push('\n')
}

impl Case {
    fn new(alloc: Global, name: &str) -> Result<Case, AllocError> {
        let name = String::from_str(alloc, name)?;
        let texts = vec![in alloc; String::new(alloc)]?;
        Ok(Case {
            name,
            texts,
            wanted: String::new(alloc),
            is_past_texts: false,
        })
    }

    /// Takes in a line of the case.
    fn take(&mut self, alloc: Global, line: &str) -> Result<(), AllocError> {
        if self.is_past_texts {
            push_line(&mut self.wanted, line)
        } else if line == "---" {
            self.is_past_texts = true;
            Ok(())
        } else {
            self.take_text(alloc, line)
        }
    }

    /// Takes in a line of a text.
    fn take_text(&mut self, alloc: Global, line: &str) -> Result<(), AllocError> {
        if line == "+++" {
            self.texts.push(String::new(alloc))?;
            Ok(())
        } else if let Some(text) = self.texts.last_mut() {
            push_line(text, line)
        } else {
            Ok(())
        }
    }

    /// The bytes that a part of the case stands for.
    pub fn bytes_of(&self, alloc: Global, part: &str) -> Result<Vec<u8>, AllocError> {
        if self.name.ends_with("(bytes)") {
            unescaped(alloc, part)
        } else {
            Vec::from_slice(alloc, part.as_bytes())
        }
    }

    /// The first text.
    pub fn text(&self) -> &str {
        match self.texts.first() {
            Some(text) => text.as_str(),
            None => "",
        }
    }

    /// The bytes of the first text, without the end of its last line.
    pub fn fragment(&self, alloc: Global) -> Result<Vec<u8>, AllocError> {
        let text = self.text();
        self.bytes_of(alloc, text.strip_suffix('\n').unwrap_or(text))
    }

    /// The texts as the files of a program, without names.
    pub fn files(&self, alloc: Global) -> Result<Row<(Text, Text)>, NoMemory> {
        let mut files = Row::new(alloc);
        for text in &self.texts {
            let content = Text::from_vec(self.bytes_of(alloc, text)?);
            files.push((Text::new(alloc), content))?;
        }
        Ok(files)
    }
}

impl CaseFile {
    /// Takes in a line of the file.
    fn take(&mut self, alloc: Global, line: &str) -> Result<(), AllocError> {
        if let Some(name) = line.strip_prefix("=== ") {
            self.cases.push(Case::new(alloc, name)?)?;
            Ok(())
        } else if let Some(case) = self.cases.last_mut() {
            case.take(alloc, line)
        } else {
            push_line(&mut self.head, line)
        }
    }
}

/// The cases of a file with this content.
pub fn cases_in(alloc: Global, content: &str) -> Result<CaseFile, AllocError> {
    let mut file = CaseFile {
        head: String::new(alloc),
        cases: Vec::new(alloc),
    };
    for line in content.lines() {
        file.take(alloc, line)?;
    }
    Ok(file)
}
