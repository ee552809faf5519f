use crate::instruction::Instruction;
use sr_ask::Gives;
use sr_core::{Classes, Core};
use sr_value::{Place, Row};

/// An instruction, and the line of the statement or declaration that it is part of.
#[derive(Drop)]
pub struct Coded {
    pub place: Place,
    pub instruction: Instruction,
}

/// Where the code of a kind of process begins, and what such a process begins with.
#[derive(Drop)]
pub struct Entry {
    pub address: usize,
    /// The line at which the process ends.
    pub place: Place,
    /// How many own variables it has.
    pub owns: u32,
    /// What it gives to the one that waits for it.
    pub gives: Gives,
}

/// The code of a program: one row for all its processes, the last instruction of each first.
#[derive(Drop)]
pub struct Code {
    pub items: Row<Coded>,
    pub boot: Entry,
    /// The initial code of each component.
    pub initial: Row<Entry>,
    /// The final code of each component.
    pub final_code: Row<Entry>,
    pub procs: Row<Entry>,
}

/// A program that can run.
#[derive(Drop)]
pub struct Program {
    pub core: Core,
    pub classes: Classes,
    pub code: Code,
}
