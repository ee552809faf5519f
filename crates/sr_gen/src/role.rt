ghost use Rattle.std.specs.Prelude.{◌≡◌, OnOk, Some};
ghost use Rattle.sr_value.specs.declared.place.Place.{Place};
ghost use Rattle.sr_meaning.specs.Processes.{boot_meaning, final_meaning, initial_meaning, main_of, proc_meaning};
ghost use Rattle.sr_gen.specs.Doing.{Ends, last_block};

use crate::statement::gen_block;
use crate::ways::one_way;
use sr_code::{Coded, Instruction};
use sr_core::{Body, Component, Core, Proc, Scope, Statement};
use sr_gen_expr::{emit, gen_ensured, gen_formals, gen_returned, needs};
use sr_value::{NoMemory, Place, Row};
use std::alloc::Global;

/// Emits a block after which the process ends.
fn gen_last(
    alloc: Global,
    core: &Core,
    place: Place,
    block: &[Statement],
    out: &mut Row<Coded>,
) -> Result<(), NoMemory>
    ensures { OnOk result (Ends core.now place (last_block block.now) out.old out.new) }
{
    emit(place, Instruction::Jump { to: 0 }, out)?;
    gen_block(alloc, core, one_way(0), block, out)?;
    Ok(())
}

/// Emits a proc: its formals, its returned name, its block.
pub fn gen_proc(
    alloc: Global,
    core: &Core,
    proc: &Proc,
    out: &mut Row<Coded>,
) -> Result<(), NoMemory>
    ensures { OnOk result ((line : Place) → Ends core.now line (proc_meaning (Some proc.now)) out.old out.new) }
{
    let place = proc.place;
    gen_last(alloc, core, place, proc.body.block.as_slice(), out)?;
    gen_returned(alloc, place, &proc.returned, out)?;
    gen_formals(alloc, place, Scope::Own, proc.formals.as_slice(), out)?;
    emit(place, Instruction::Arguments, out)?;
    Ok(())
}

/// Emits the initial code of a component: its formals, its block.
pub fn gen_initial(
    alloc: Global,
    core: &Core,
    component: &Component,
    out: &mut Row<Coded>,
) -> Result<(), NoMemory>
    ensures { OnOk result (Ends core.now component.now.place (initial_meaning (Some component.now)) out.old out.new) }
{
    let place = component.place;
    gen_last(alloc, core, place, component.initial.block.as_slice(), out)?;
    gen_formals(
        alloc,
        place,
        Scope::Shared,
        component.formals.as_slice(),
        out,
    )?;
    emit(place, Instruction::Arguments, out)?;
    Ok(())
}

/// Emits the final code of a component.
pub fn gen_final(
    alloc: Global,
    core: &Core,
    place: Place,
    body: &Body,
    out: &mut Row<Coded>,
) -> Result<(), NoMemory>
    ensures { OnOk result (Ends core.now place (final_meaning (Some body.now)) out.old out.new) }
{
    gen_last(alloc, core, place, body.block.as_slice(), out)?;
    Ok(())
}

/// Emits what makes the globals of main and main itself, and waits for it.
pub fn gen_boot(core: &Core, place: Place, main: u32, out: &mut Row<Coded>) -> Result<(), NoMemory>
    requires { main ≡ main_of core.now }
    ensures { OnOk result (Ends core.now place boot_meaning out.old out.new) }
{
    emit(place, Instruction::Jump { to: 0 }, out)?;
    emit(place, Instruction::DropValue, out)?;
    emit(place, Instruction::TakeInstance, out)?;
    emit(place, Instruction::Create { resource: main }, out)?;
    emit(place, Instruction::NoValues, out)?;
    gen_ensured(place, needs(core, main), out)?;
    emit(place, Instruction::ToCap, out)?;
    emit(place, Instruction::MyMachine, out)?;
    Ok(())
}
