//! The program `sr_cases`: compares what the parts of the compiler say of the cases in files, and what programs do, with
//! what is written there. Its words are the names of the files. It prints a line for each file, and each case that
//! differs. In the files of `runs` are programs with what they do; long lists in them are written short. A word
//! `NAME.sr` is a program by itself, which stands in the one style, and whose output stands in `NAME.out`.
#![tactic(auto)]

mod calls;
mod checks;
mod cores;
mod divided;
mod layouts;
mod programs;
mod repeats;
mod subject;
mod telling;

use crate::layouts::is_laid_out;
use crate::subject::Subject;
use sr_value::NoMemory;
use std::alloc::Global;
use std::rt::{Env, Files};
use std::{env, fs, io};

/// What is reported of a file with this content.
fn report_of(alloc: Global, name: &str, content: &str) -> Result<String, NoMemory> {
    if name.starts_with("runs/") {
        return calls::report_of(alloc, name, content);
    }
    match Subject::of(name) {
        Some(subject) => subject::report_of(alloc, subject, name, content),
        None => Ok(format!(in alloc; "{name}: of no known subject\n")?),
    }
}

/// Prints what is reported of a file.
fn report<R: Files + AllocGlobal + Print>(rt: &R, name: &str) -> io::Result<()> {
    let content = fs::read_to_string(rt, name)?;
    match report_of(rt.alloc(), name, content.as_str()) {
        Ok(report) => print!(rt; "{report}"),
        Err(_) => println!(rt; "{name}: no memory"),
    }
}

/// Prints whether an example stands in the one style and writes what stands beside it.
fn try_example<R: Files + AllocGlobal + Print>(rt: &R, name: &str, stem: &str) -> io::Result<()> {
    let text = fs::read_to_string(rt, name)?;
    if !is_laid_out(rt.alloc(), text.as_bytes()) {
        return println!(rt; "{name}: isn't in the one style");
    }
    let output = format!(in rt.alloc(); "{stem}.out")?;
    let wanted = fs::read_to_string(rt, output.as_str())?;
    match calls::writes(rt.alloc(), name, text.as_str(), wanted.as_str()) {
        Ok(true) => println!(rt; "{name}: ok"),
        Ok(false) => println!(rt; "{name}: differs"),
        Err(_) => println!(rt; "{name}: no memory"),
    }
}

fn main(rt: HostRuntime) -> io::Result<()> {
    for name in env::args(&rt)?.skip(1) {
        match name.strip_suffix(".sr") {
            Some(stem) => try_example(&rt, name.as_str(), stem)?,
            None => report(&rt, name.as_str())?,
        }
    }
    Ok(())
}
