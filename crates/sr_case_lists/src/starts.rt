use crate::picks::Picks;
use crate::values::some_arguments;
use sr_ask::{Role, Start};
use sr_core::{Component, Core, Proc};
use sr_value::{NoMemory, Row, Value};
use std::alloc::Global;

/// The number of the first component's instance.
const INSTANCE: u32 = 2;

/// The number of a process.
const PROCESS: u32 = 50;

/// The instance of a component.
fn instance_of(component: u32) -> u32 {
    component.saturating_add(INSTANCE)
}

/// The instances of the globals that a component imports.
fn homes(alloc: Global, component: Option<&Component>) -> Result<Row<u32>, NoMemory> {
    let mut homes = Row::new(alloc);
    if let Some(component) = component {
        for global in component.imports.as_slice() {
            homes.push(instance_of(*global))?;
        }
    }
    Ok(homes)
}

/// A process that runs code of a component.
fn start_in(
    alloc: Global,
    core: &Core,
    component: u32,
    role: Role,
    code: u32,
    args: Row<Value>,
) -> Result<Start, NoMemory> {
    let homes = homes(alloc, core.components.get(component as usize))?;
    Ok(Start {
        process: PROCESS,
        instance: instance_of(component),
        vm: 1,
        homes,
        role,
        code,
        args,
        back: 1,
    })
}

/// The boot process.
fn boot(alloc: Global) -> Start {
    Start {
        process: 1,
        instance: 0,
        vm: 1,
        homes: Row::new(alloc),
        role: Role::Boot,
        code: 0,
        args: Row::new(alloc),
        back: 0,
    }
}

fn add_initial(
    alloc: Global,
    core: &Core,
    picks: &mut Picks,
    starts: &mut Row<Start>,
) -> Result<(), NoMemory> {
    let mut code = 0u32;
    for component in core.components.as_slice() {
        let args = some_arguments(alloc, component.formals.as_slice(), picks)?;
        starts.push(start_in(alloc, core, code, Role::Initial, code, args)?)?;
        code = code.saturating_add(1);
    }
    Ok(())
}

/// The component of a proc.
fn component_of(core: &Core, proc: &Proc) -> u32 {
    match core.operations.get(proc.op as usize) {
        Some(operation) => operation.component,
        None => 0,
    }
}

fn add_procs(
    alloc: Global,
    core: &Core,
    picks: &mut Picks,
    starts: &mut Row<Start>,
) -> Result<(), NoMemory> {
    let mut code = 0u32;
    for proc in core.procs.as_slice() {
        let args = some_arguments(alloc, proc.formals.as_slice(), picks)?;
        let component = component_of(core, proc);
        starts.push(start_in(alloc, core, component, Role::Proc, code, args)?)?;
        code = code.saturating_add(1);
    }
    Ok(())
}

fn add_final(alloc: Global, core: &Core, starts: &mut Row<Start>) -> Result<(), NoMemory> {
    let mut code = 0u32;
    for component in core.components.as_slice() {
        if component.final_code.is_some() {
            let args = Row::new(alloc);
            starts.push(start_in(alloc, core, code, Role::Final, code, args)?)?;
        }
        code = code.saturating_add(1);
    }
    Ok(())
}

/// The processes of a program: the boot process, the initial code of each component, a process of each proc, and the
/// final code of the components that have it. Their arguments go by the number of a list.
pub fn starts_of(alloc: Global, core: &Core, list: u32) -> Result<Row<Start>, NoMemory> {
    let mut picks = Picks::of(list);
    let mut starts = Row::new(alloc);
    starts.push(boot(alloc))?;
    add_initial(alloc, core, &mut picks, &mut starts)?;
    add_procs(alloc, core, &mut picks, &mut starts)?;
    add_final(alloc, core, &mut starts)?;
    Ok(starts)
}
