//! Programs of cases.

use sr_code::Program;
use sr_front::compile;
use sr_text::FrontFail;
use sr_value::Text;
use std::alloc::Global;

/// The most files of a program.
const MOST_FILES: usize = 64;

/// The program of these files.
pub fn program_of(alloc: Global, files: &[(Text, Text)]) -> Result<Program, FrontFail> {
    if files.len() > MOST_FILES {
        return Err(FrontFail::NoMemory);
    }
    compile(alloc, files)
}
