//! What is told of the cores of programs: of abbreviations beside their long forms, of the classes of operations, and of
//! processes.

use crate::programs::program_of;
use sr_case_files::{Case, push_bytes, tell_fail};
use sr_case_reports::tell_process;
use sr_core::Operation;
use sr_text::FrontFail;
use sr_value::{NoMemory, Text};
use std::alloc::{AllocError, Global};

/// `a 0, b 1`
fn tell_numbers(
    alloc: Global,
    operations: &[Operation],
    classes: &[u32],
) -> Result<String, AllocError> {
    let mut out = String::new(alloc);
    for (operation, class) in operations.iter().zip(classes) {
        if !out.is_empty() {
            out.push_str(", ")?;
        }
        push_bytes(&mut out, operation.name.as_bytes())?;
        write!(out, " {class}")?;
    }
    Ok(out)
}

/// What is told of the classes of a program: the names of its operations with the numbers of their classes.
pub fn tell_classes(alloc: Global, case: &Case) -> Result<String, NoMemory> {
    let files = case.files(alloc)?;
    match program_of(alloc, files.as_slice()) {
        Ok(program) => Ok(tell_numbers(
            alloc,
            program.core.operations.as_slice(),
            program.classes.of.as_slice(),
        )?),
        Err(fail) => tell_fail(alloc, fail, 0),
    }
}

/// The core of a program of one file, as text.
fn core_text(alloc: Global, file: (Text, Text)) -> Result<String, FrontFail> {
    let program = program_of(alloc, &[file])?;
    let core = &program.core;
    Ok(format!(in alloc; "{core:?}")?)
}

/// The core of each of these programs of one file, as text.
fn core_texts(alloc: Global, files: Vec<(Text, Text)>) -> Result<Vec<String>, FrontFail> {
    let mut texts = Vec::new(alloc);
    for file in files {
        let text = core_text(alloc, file)?;
        texts.push(text)?;
    }
    Ok(texts)
}

/// What is told of the cores of two programs.
fn tell_pair(alloc: Global, cores: &[String]) -> Result<String, AllocError> {
    match cores {
        [one, other] if one.as_str() == other.as_str() => String::from_str(alloc, "the same core"),
        _ => String::from_str(alloc, "other cores"),
    }
}

/// What is told of the two texts of a case, each a program.
pub fn tell_abbreviation(alloc: Global, case: &Case) -> Result<String, NoMemory> {
    let files = case.files(alloc)?;
    match core_texts(alloc, files.into_vec()) {
        Ok(cores) => Ok(tell_pair(alloc, &cores)?),
        Err(fail) => tell_fail(alloc, fail, 0),
    }
}

/// What is told of the process of a case.
pub fn tell_asked(alloc: Global, case: &Case) -> Result<String, NoMemory> {
    let files = case.files(alloc)?;
    match program_of(alloc, files.as_slice()) {
        Ok(program) => tell_process(alloc, &program, case.wanted.as_str()),
        Err(fail) => tell_fail(alloc, fail, 0),
    }
}

/// What is told of the processes of a program that are given lists of answers.
pub fn tell_lists(alloc: Global, case: &Case) -> Result<String, NoMemory> {
    let files = case.files(alloc)?;
    match program_of(alloc, files.as_slice()) {
        Ok(program) => sr_case_lists::tell_program(alloc, &program),
        Err(fail) => tell_fail(alloc, fail, 0),
    }
}
