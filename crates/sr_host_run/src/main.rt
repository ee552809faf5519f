//! Runs the whole program over the host, and shows the journal that it left.
#![tactic(auto)]

use sr_top::run_host;
use std::fs;
use std::process::ExitCode;

fn main(rt: HostRuntime) -> ExitCode {
    let code = run_host(&rt, rt.stdin(), rt.stdout(), rt.stderr());
    if let Ok(journal) = fs::read_to_string(&rt, "sr.journal") {
        let _ = print!(rt; "{journal}");
    }
    code
}
