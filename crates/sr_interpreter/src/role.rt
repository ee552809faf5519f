ghost use Rattle.std.specs.Prelude.{◌≡◌, IfOk, replicate};
ghost use Rattle.std.specs.Option.{option_copied};
ghost use Rattle.sr_meaning.specs.Processes.{body_for, component_for, component_of, component_of_proc, gives_for, line_of_component, main_of, own_service, owns_of, proc_at, proc_gives};

use sr_ask::{Gives, Own, Role, Service, Start};
use sr_core::{Body, Component, Core, Proc};
use sr_interpreter_parts::result_vars;
use sr_value::{NoMemory, Place, Row};
use std::alloc::Global;

/// The proc of a number.
pub fn proc_at(core: &Core, code: u32) -> Option<&Proc>
    ensures { option_copied result ≡ proc_at core.now code }
{
    core.procs.get(code as usize)
}

/// The component of a proc: the component of its operation.
fn component_of_proc(core: &Core, proc: &Proc) -> u32
    ensures { result ≡ component_of_proc core.now proc.now }
{
    match core.operations.get(proc.op as usize) {
        Some(operation) => operation.component,
        None => 0,
    }
}

/// The number of main, which is the last component.
pub fn main_of(core: &Core) -> usize
    ensures { result ≡ main_of core.now }
{
    core.components.len().saturating_sub(1)
}

/// The number of the component that a process belongs to. The boot process makes main.
fn component_for(role: Role, core: &Core, code: u32) -> usize
    ensures { result ≡ component_for role core.now code }
{
    match role {
        Role::Boot => main_of(core),
        Role::Proc => match proc_at(core, code) {
            Some(proc) => component_of_proc(core, proc) as usize,
            None => 0,
        },
        Role::Initial => code as usize,
        Role::Final => code as usize,
    }
}

/// The component that a process belongs to.
pub fn component_of<'a>(core: &'a Core, start: &Start) -> Option<&'a Component>
    ensures { option_copied result ≡ component_of core.now start.now }
{
    core.components
        .get(component_for(start.role, core, start.code))
}

/// The line of the component's first token.
pub fn first_line(component: Option<&Component>) -> Place
    ensures { result ≡ line_of_component (option_copied component.entry) }
{
    match component {
        None => Place { file: 0, line: 1 },
        Some(found) => found.place,
    }
}

/// What a process runs that is no boot process.
pub fn body_for<'a>(core: &'a Core, start: &Start) -> Option<&'a Body>
    ensures { option_copied result ≡ body_for start.now.role core.now start.now }
{
    match start.role {
        Role::Boot => None,
        Role::Initial => match component_of(core, start) {
            Some(component) => Some(&component.initial),
            None => None,
        },
        Role::Proc => match proc_at(core, start.code) {
            Some(proc) => Some(&proc.body),
            None => None,
        },
        Role::Final => match component_of(core, start) {
            Some(component) => component.final_code.as_ref(),
            None => None,
        },
    }
}

/// How many own variables a body has.
fn owns_of(body: Option<&Body>) -> u32
    ensures { result ≡ owns_of (option_copied body.entry) }
{
    match body {
        None => 0,
        Some(body) => body.owns,
    }
}

/// So many variables that aren't declared.
fn undeclared(alloc: Global, count: u32) -> Result<Row<Option<Own>>, NoMemory>
    ensures { IfOk result (λ own. own ≡ replicate count None) }
{
    let mut own = Row::new(alloc);
    for _ in 0..count {
        own.push(None)?;
    }
    Ok(own)
}

/// The own variables of a process as it begins.
pub fn own_variables(
    alloc: Global,
    core: &Core,
    start: &Start,
) -> Result<Row<Option<Own>>, NoMemory>
    ensures { IfOk result (λ own. own ≡ replicate (owns_of (body_for start.now.role core.now start.now)) None) }
{
    undeclared(alloc, owns_of(body_for(core, start)))
}

/// What a proc gives to the process that waits for it.
fn proc_gives(alloc: Global, proc: Option<&Proc>) -> Result<Gives, NoMemory>
    ensures { IfOk result (λ gives. gives ≡ proc_gives (option_copied proc.entry)) }
{
    match proc {
        None => Ok(Gives::Values(Row::new(alloc))),
        Some(proc) => Ok(Gives::Values(result_vars(
            alloc,
            proc.formals.as_slice(),
            &proc.returned,
        )?)),
    }
}

/// What a process gives to the one that waits for it.
fn gives_for(alloc: Global, core: &Core, start: &Start) -> Result<Gives, NoMemory>
    ensures { IfOk result (λ gives. gives ≡ gives_for start.now.role core.now start.now) }
{
    match start.role {
        Role::Boot => Ok(Gives::Values(Row::new(alloc))),
        Role::Initial => Ok(Gives::Instance),
        Role::Proc => proc_gives(alloc, proc_at(core, start.code)),
        Role::Final => Ok(Gives::Values(Row::new(alloc))),
    }
}

/// What a process holds from its beginning on.
pub fn own_service(alloc: Global, core: &Core, start: &Start) -> Result<Service, NoMemory>
    ensures { IfOk result (λ service. service ≡ own_service core.now start.now) }
{
    Ok(Service {
        held: start.process,
        back: start.back,
        answered: false,
        gives: gives_for(alloc, core, start)?,
    })
}
