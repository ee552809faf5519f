ghost use Rattle.std.specs.Prelude.{◌≡◌, ◌+◌, ◌-◌, ◌^◌, ◌<◌, ◌≤◌, IfOk, map, length};
ghost use Rattle.sr_text.specs.Lines.{line_at, content_of};

use sr_value::{Duplicate, NoMemory, Row, Text};
use std::alloc::Global;
use std::marker::Model;

/// The contents of the files of a program, to find the line of a byte.
#[derive(Debug, Drop)]
pub struct SourceMap {
    contents: Row<Text>,
}

impl Model for SourceMap {
    ghost use Rattle.std.specs.Prelude.{List, ℕ};

    ghost Value = { List (List ℕ) };

    ghost view = { λ sources. sources.contents };
}

impl SourceMap {
    /// Of files, each a name and a content.
    pub fn new(alloc: Global, files: &[(Text, Text)]) -> Result<SourceMap, NoMemory>
        ensures { IfOk result (λ sources. sources ≡ map (λ file. file.1) files.now) }
    {
        let mut contents = Row::new(alloc);
        for file in files {
            contents.push(file.1.copy(alloc)?)?;
        }
        Ok(SourceMap { contents })
    }

    /// The line, from 1, of the byte `at` of a file, which may be the place after its last byte.
    pub fn line_of(&self, file: u32, at: u32) -> u32
        requires known { file < length self.now }
        requires within { at ≤ length (content_of self.now file) }
        requires small { at < 2 ^ 32 - 1 }
        ensures { result ≡ line_at (content_of self.now file) at }
    {
        let content = &self.contents.as_slice()[file as usize];
        line_in(content.as_bytes(), at)
    }
}

/// The line, from 1, of the byte `at` of a content.
fn line_in(content: &[u8], at: u32) -> u32
    requires within { at ≤ length content.now }
    requires small { at < 2 ^ 32 - 1 }
    ensures { result ≡ line_at content.now at }
{
    let before = &content[..at as usize];
    let newlines = before.iter().filter(|byte| **byte == b'\n').count();
    newlines as u32 + 1
}
