use crate::ask::Role;
use sr_value::{Compare, Duplicate, NoMemory, Row, Value};
use std::alloc::Global;

/// What a process is made with.
#[derive(Debug, Drop)]
pub struct Start {
    /// Its own number.
    pub process: u32,
    /// The instance whose code it runs; 0 for the boot process.
    pub instance: u32,
    /// The machine that it runs on.
    pub vm: u32,
    /// The instances of the globals that its component imports, in the order of the core's list of them.
    pub homes: Row<u32>,
    pub role: Role,
    /// What it runs: the proc's number for a proc, else the component's.
    pub code: u32,
    /// The arguments of its invocation, or of the component that it makes.
    pub args: Row<Value>,
    /// The process that waits for it, or 0 where nobody does.
    pub back: u32,
}

impl Duplicate for Start {
    fn copy(&self, alloc: Global) -> Result<Start, NoMemory> {
        Ok(Start {
            process: self.process,
            instance: self.instance,
            vm: self.vm,
            homes: self.homes.copy(alloc)?,
            role: self.role,
            code: self.code,
            args: self.args.copy(alloc)?,
            back: self.back,
        })
    }
}

impl Compare for Start {
    fn same(&self, other: &Self) -> bool {
        self.process == other.process
            && self.instance == other.instance
            && self.vm == other.vm
            && self.homes.same(&other.homes)
            && self.role.same(&other.role)
            && self.code == other.code
            && self.args.same(&other.args)
            && self.back == other.back
    }
}
