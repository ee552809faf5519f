ghost use Rattle.std.specs.Prelude.{◌≡◌, IfOk, OnOk, filter, map};
ghost use Rattle.sr_core.specs.Formals.{is_back, result_vars};
ghost use Rattle.sr_core.specs.declared.component.Core.{Core};
ghost use Rattle.sr_meaning.specs.Statements.{optional_place, start_call};
ghost use Rattle.sr_gen.specs.Doing.{Acts, Stores, put_placed};
ghost use Rattle.sr_gen.specs.declared.ways.Ways.{Ways};
ghost use Rattle.sr_gen_expr.specs.Emitting.{Gives};
ghost use Rattle.sr_meaning.specs.Pieces.{call_part};

use crate::action::gen_ready;
use sr_code::{Coded, Instruction};
use sr_core::{CoCall, Core, Formal, Mode, PlaceExpr, Quantifier, Returned};
use sr_gen_expr::{default_of, emit, gen_place};
use sr_value::{Duplicate, NoMemory, Place, Row, Shape};
use std::alloc::Global;

/// Emits the invocation of an arm of a `co`.
pub fn gen_start(
    alloc: Global,
    core: &Core,
    place: Place,
    arm: u32,
    call: &CoCall,
    quantifiers: &[Quantifier],
    out: &mut Row<Coded>,
) -> Result<(), NoMemory>
    ensures { OnOk result ((ways : Ways) → Acts ways core.now place (start_call arm (call_part quantifiers.now call.now)) out.old out.new) }
{
    let vars = variables(alloc, quantifiers)?;
    let has_place = call.place.is_some();
    emit(
        place,
        Instruction::StartCall {
            arm,
            vars,
            has_place,
        },
        out,
    )?;
    gen_ready(alloc, core, place, &call.target, call.args.as_slice(), out)?;
    gen_optional_place(alloc, core, place, &call.place, out)?;
    Ok(())
}

fn gen_optional_place(
    alloc: Global,
    core: &Core,
    place: Place,
    at: &Option<PlaceExpr>,
    out: &mut Row<Coded>,
) -> Result<(), NoMemory>
    ensures { OnOk result (Gives put_placed core.now place (optional_place at.now) out.old out.new) }
{
    match at {
        None => Ok(()),
        Some(at) => {
            gen_place(alloc, core, place, at, out)?;
            Ok(())
        }
    }
}

/// The variables of quantifiers.
pub fn variables(alloc: Global, quantifiers: &[Quantifier]) -> Result<Row<u32>, NoMemory>
    ensures { IfOk result (λ vars. vars ≡ map (λ q. q.var) quantifiers.now) }
{
    let mut vars = Row::new(alloc);
    for quantifier in quantifiers {
        vars.push(quantifier.var)?;
    }
    Ok(vars)
}

/// The variables whose values an invocation gives back.
pub fn result_vars(
    alloc: Global,
    formals: &[Formal],
    returned: &Option<Returned>,
) -> Result<Row<u32>, NoMemory>
    ensures { IfOk result (λ vars. vars ≡ result_vars formals.now returned.now) }
{
    let mut vars = backs(alloc, formals)?;
    match returned {
        None => Ok(vars),
        Some(name) => {
            vars.push(name.var)?;
            Ok(vars)
        }
    }
}

/// The variables of the formals whose values go back.
fn backs(alloc: Global, formals: &[Formal]) -> Result<Row<u32>, NoMemory>
    ensures { IfOk result (λ vars. vars ≡ map (λ formal. formal.var) (filter is_back formals.now)) }
{
    let mut vars = Row::new(alloc);
    for formal in formals {
        if is_back(formal) {
            vars.push(formal.var)?;
        }
    }
    Ok(vars)
}

/// Whether the value of a formal goes back.
fn is_back(formal: &Formal) -> bool
    ensures { result ≡ is_back formal.now }
{
    match formal.mode {
        Mode::Val => false,
        Mode::Var => true,
        Mode::Res => true,
    }
}

/// The number of an item of a list, as far as there are numbers for items.
pub fn item_number(at: usize) -> Result<u32, NoMemory>
    ensures { IfOk result (λ number. number ≡ at) }
{
    match u32::try_from(at) {
        Ok(number) => Ok(number),
        Err(_) => Err(NoMemory),
    }
}

/// Emits what stores the results of a reply of a `co`, and its value.
pub fn gen_stored(
    alloc: Global,
    place: Place,
    returns: &Option<Shape>,
    out: &mut Row<Coded>,
) -> Result<(), NoMemory>
    ensures { OnOk result ((core : Core) → Stores core place returns.now out.old out.new) }
{
    emit(place, Instruction::StoreValue, out)?;
    let to = out.len();
    let default = default_of(alloc, returns)?;
    emit(place, default, out)?;
    let none = out.len();
    emit(place, Instruction::StoreResults { to }, out)?;
    emit(place, Instruction::GiveBack { none }, out)?;
    Ok(())
}
