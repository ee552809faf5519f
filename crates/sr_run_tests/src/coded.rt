use crate::program::{add_nap, no_program};
use sr_ask::{Role, Start};
use sr_code::Program;
use sr_core::{Classes, Core};
use sr_gen::generate;
use sr_value::{NoMemory, Row};
use std::alloc::Global;

/// A program with its code.
fn coded(alloc: Global, core: Core) -> Result<Program, NoMemory> {
    let code = generate(alloc, &core)?;
    let classes = Classes {
        of: Row::new(alloc),
    };
    Ok(Program {
        core,
        classes,
        code,
    })
}

/// The program of a nap of so long.
pub fn program_of(alloc: Global, time: i32) -> Result<Program, NoMemory> {
    let mut core = no_program(alloc);
    match add_nap(alloc, time, &mut core.components) {
        Ok(()) => coded(alloc, core),
        Err(fail) => Err(fail),
    }
}

/// What the process of the initial code is made with.
pub fn start_of(alloc: Global) -> Start {
    Start {
        process: 2,
        instance: 2,
        vm: 1,
        homes: Row::new(alloc),
        role: Role::Initial,
        code: 0,
        args: Row::new(alloc),
        back: 1,
    }
}
