//! The program `sr`: runs the whole program over the host.
#![tactic(auto)]

use sr_top::run_host;
use std::process::ExitCode;

fn main(rt: HostRuntime) -> ExitCode {
    run_host(&rt, rt.stdin(), rt.stdout(), rt.stderr())
}
