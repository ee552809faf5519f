use crate::comparing::{Difference, Table, compared};
use sr_code::Program;
use sr_value::NoMemory;
use std::alloc::{AllocError, Global};

/// `the code of Proc 3 asks something else after 17 answers of list 5`
fn tell_difference(told: &mut String, difference: Difference) -> Result<(), AllocError> {
    let Difference {
        role,
        code,
        list,
        answers,
    } = difference;
    write!(
        told,
        "the code of {role:?} {code} asks something else after {answers} answers of list {list}\n"
    )
}

/// `4 processes`, and a line for each difference.
fn tell_table(alloc: Global, table: &Table) -> Result<String, AllocError> {
    let processes = table.processes;
    let mut told = format!(in alloc; "{processes} processes\n")?;
    for difference in table.differences.as_slice() {
        tell_difference(&mut told, *difference)?;
    }
    Ok(told)
}

/// How many processes a program has, and a line for each whose code asks something else than its tree.
pub fn tell_program(alloc: Global, program: &Program) -> Result<String, NoMemory> {
    let table = compared(alloc, program)?;
    Ok(tell_table(alloc, &table)?)
}
