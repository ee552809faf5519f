ghost use Rattle.std.specs.Prelude.{◌≡◌, ℕ, Some, IfOk, OnOk, length, slice_get};
ghost use Rattle.sr_ask.specs.declared.ask.Role.TheVariants.{Boot, Initial, Proc as proc_role, Final};
ghost use Rattle.sr_code.specs.Stretches.{Extends};
ghost use Rattle.sr_meaning.specs.Processes.{component_of_proc, line_of_component};
ghost use Rattle.sr_compiled.specs.Agreement.{AsksTheSame};
ghost use Rattle.sr_gen.specs.Programs.{Enters, LaysOut};

use crate::invocation::{item_number, result_vars};
use crate::role::{gen_boot, gen_final, gen_initial, gen_proc};
use sr_ask::Gives;
use sr_code::{Code, Coded, Entry};
use sr_core::{Component, Core, Proc};
use sr_value::{NoMemory, Place, Row};
use std::alloc::Global;

/// Emits the code of a program, with an entry for each kind of process.
pub fn generate(alloc: Global, core: &Core) -> Result<Code, NoMemory>
    ensures { IfOk result (λ code. AsksTheSame core.now code) }
{
    let mut items = Row::new(alloc);
    let procs = enter_procs(alloc, core, &mut items)?;
    let final_code = enter_finals(alloc, core, &mut items)?;
    let initial = enter_initials(alloc, core, &mut items)?;
    let boot = enter_boot(alloc, core, &mut items)?;
    Ok(Code {
        items,
        boot,
        initial,
        final_code,
        procs,
    })
}

/// Emits the code of the boot process.
fn enter_boot(alloc: Global, core: &Core, out: &mut Row<Coded>) -> Result<Entry, NoMemory>
    ensures grows { OnOk result (Extends out.old out.new) }
    ensures enters { IfOk result (λ entry. (number : ℕ) → Enters core.now Boot number entry out.new) }
{
    let main = item_number(core.components.len().saturating_sub(1))?;
    let place = line_at(core, main);
    gen_boot(core, place, main, out)?;
    Ok(Entry {
        address: out.len(),
        place,
        owns: 0,
        gives: Gives::Values(Row::new(alloc)),
    })
}

/// Emits the initial code of each component.
fn enter_initials(alloc: Global, core: &Core, out: &mut Row<Coded>) -> Result<Row<Entry>, NoMemory>
    ensures { IfOk result (λ entries. LaysOut core.now Initial (length core.now.components) entries out.old out.new) }
{
    let mut entries = Row::new(alloc);
    let components = core.components.as_slice();
    for component in components {
        let entry = enter_initial(alloc, core, component, out)?;
        entries.push(entry)?;
    }
    Ok(entries)
}

fn enter_initial(
    alloc: Global,
    core: &Core,
    component: &Component,
    out: &mut Row<Coded>,
) -> Result<Entry, NoMemory>
    ensures grows { OnOk result (Extends out.old out.new) }
    ensures enters { IfOk result (λ entry. (number : ℕ) → slice_get core.now.components number ≡ Some component.now → Enters core.now Initial number entry out.new) }
{
    gen_initial(alloc, core, component, out)?;
    Ok(Entry {
        address: out.len(),
        place: component.place,
        owns: component.initial.owns,
        gives: Gives::Instance,
    })
}

/// Emits the final code of each component that has some.
fn enter_finals(alloc: Global, core: &Core, out: &mut Row<Coded>) -> Result<Row<Entry>, NoMemory>
    ensures { IfOk result (λ entries. LaysOut core.now Final (length core.now.components) entries out.old out.new) }
{
    let mut entries = Row::new(alloc);
    let components = core.components.as_slice();
    for component in components {
        let entry = enter_final(alloc, core, component, out)?;
        entries.push(entry)?;
    }
    Ok(entries)
}

fn enter_final(
    alloc: Global,
    core: &Core,
    component: &Component,
    out: &mut Row<Coded>,
) -> Result<Entry, NoMemory>
    ensures grows { OnOk result (Extends out.old out.new) }
    ensures enters { IfOk result (λ entry. (number : ℕ) → slice_get core.now.components number ≡ Some component.now → Enters core.now Final number entry out.new) }
{
    let place = component.place;
    match &component.final_code {
        None => Ok(Entry {
            address: 0,
            place,
            owns: 0,
            gives: Gives::Values(Row::new(alloc)),
        }),
        Some(body) => {
            gen_final(alloc, core, place, body, out)?;
            Ok(Entry {
                address: out.len(),
                place,
                owns: body.owns,
                gives: Gives::Values(Row::new(alloc)),
            })
        }
    }
}

/// Emits the code of each proc.
fn enter_procs(alloc: Global, core: &Core, out: &mut Row<Coded>) -> Result<Row<Entry>, NoMemory>
    ensures { IfOk result (λ entries. LaysOut core.now proc_role (length core.now.procs) entries out.old out.new) }
{
    let mut entries = Row::new(alloc);
    let procs = core.procs.as_slice();
    for proc in procs {
        let entry = enter_proc(alloc, core, proc, out)?;
        entries.push(entry)?;
    }
    Ok(entries)
}

fn enter_proc(
    alloc: Global,
    core: &Core,
    proc: &Proc,
    out: &mut Row<Coded>,
) -> Result<Entry, NoMemory>
    ensures grows { OnOk result (Extends out.old out.new) }
    ensures enters { IfOk result (λ entry. (number : ℕ) → slice_get core.now.procs number ≡ Some proc.now → Enters core.now proc_role number entry out.new) }
{
    gen_proc(alloc, core, proc, out)?;
    let vars = result_vars(alloc, proc.formals.as_slice(), &proc.returned)?;
    Ok(Entry {
        address: out.len(),
        place: line_at(core, component_of(core, proc)),
        owns: proc.body.owns,
        gives: Gives::Values(vars),
    })
}

/// The line of a component.
fn line_at(core: &Core, component: u32) -> Place
    ensures { result ≡ line_of_component (slice_get core.now.components component) }
{
    match core.components.get(component as usize) {
        Some(found) => found.place,
        None => Place { file: 0, line: 1 },
    }
}

/// The component of a proc: that of its operation.
fn component_of(core: &Core, proc: &Proc) -> u32
    ensures { result ≡ component_of_proc core.now proc.now }
{
    match core.operations.get(proc.op as usize) {
        Some(operation) => operation.component,
        None => 0,
    }
}
