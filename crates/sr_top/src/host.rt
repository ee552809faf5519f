use crate::top::sr_top;
use sr_ports::{FileSink, FreeGate, HostFiles, HostSink, HostSource};
use sr_value::NoMemory;
use std::env;
use std::io::{ErrorKind, Read, Write};
use std::process::ExitCode;
use std::rt::{Env, Files};

/// The status where memory runs out before the top call.
const NO_MEMORY: u8 = 107;

/// The name of the file that a journal is put into.
const JOURNAL: &str = "sr.journal";

/// The words after the program's name. Words that are no text count as none, and so as no command.
fn words<R: Env + AllocGlobal>(rt: &R) -> Result<Vec<String>, NoMemory> {
    let mut words = Vec::new(rt.alloc());
    match env::args(rt) {
        Ok(args) => {
            for word in args.skip(1) {
                words.push(word)?;
            }
            Ok(words)
        }
        Err(error) if error.kind() == ErrorKind::OutOfMemory => Err(NoMemory),
        Err(_) => Ok(words),
    }
}

/// The whole program: hands the host's words and files, and these streams, to the top call, and ends with its status.
pub fn run_host<R, I, O, D>(rt: &R, input: I, output: O, diag: D) -> ExitCode
where
    R: Env + Files + Eprint + AllocGlobal,
    I: Read + Drop,
    O: Write + Drop,
    D: Write + Drop,
{
    let Ok(words) = words(rt) else {
        let _ = eprintln!(rt; "sr: no memory");
        return ExitCode::from(NO_MEMORY);
    };
    let report = sr_top(
        rt.alloc(),
        &words,
        &mut HostFiles::new(rt),
        &mut HostSource::new(input),
        &mut HostSink::new(output),
        &mut HostSink::new(diag),
        &mut FileSink::new(rt, JOURNAL),
        &FreeGate,
    );
    ExitCode::from(report.status)
}
