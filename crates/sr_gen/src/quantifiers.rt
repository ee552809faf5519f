ghost use Rattle.std.specs.Prelude.{◌≡◌, [], IfOk, List, OnOk, length};
ghost use Rattle.sr_code.specs.Operands.{put_numbers};
ghost use Rattle.sr_code.specs.declared.code.Coded.{Coded};
ghost use Rattle.sr_gen.specs.Blocks.{bounds_meaning};
ghost use Rattle.sr_gen.specs.Doing.{Acts, Drops};
ghost use Rattle.sr_gen.specs.Quantifiers.{Encloses, Opened, Opens};
ghost use Rattle.sr_gen.specs.declared.ways.Ways.{Ways};
ghost use Rattle.sr_gen_expr.specs.Emitting.{Gives};
ghost use Rattle.sr_meaning.specs.Expressions.{Meaning};
ghost use Rattle.sr_meaning.specs.Statements.{quantified};
ghost use Rattle.sr_meaning.specs.declared.ending.Ending.{Ending};

use crate::condition::gen_condition;
use crate::patching::patch;
use crate::turns::Turns;
use crate::ways::Ways;
use sr_code::{Coded, Instruction};
use sr_core::{Core, Quantifier};
use sr_gen_expr::{emit, gen_number};
use sr_value::{NoMemory, Place, Row};
use std::alloc::Global;

/// Emits what drops the values of a quantifier and goes on at `to`.
fn gen_drop(place: Place, to: usize, out: &mut Row<Coded>) -> Result<(), NoMemory>
    ensures { OnOk result (Drops to out.old out.new) }
{
    emit(place, Instruction::Jump { to }, out)?;
    emit(place, Instruction::DropNumbers, out)?;
    Ok(())
}

/// Emits what stands before the turns of a quantifier.
fn open_turns(place: Place, ways: Ways, var: u32, out: &mut Row<Coded>) -> Result<Turns, NoMemory>
    ensures { IfOk result (λ turns. Opens place var ways turns out.old out.new) }
{
    let to = out.len();
    gen_drop(place, ways.returned, out)?;
    let returned = out.len();
    gen_drop(place, ways.left, out)?;
    let left = out.len();
    emit(place, Instruction::Jump { to }, out)?;
    let each = out.len();
    emit(place, Instruction::Each { var, head: 0 }, out)?;
    let turned = out.len();
    let inner = Ways {
        left,
        turned,
        returned,
    };
    Ok(Turns { each, inner })
}

/// Emits what stands before the turns of quantifiers, and notes these. Returns where what is inside them goes on.
pub fn open_all(
    place: Place,
    ways: Ways,
    quantifiers: &[Quantifier],
    turns: &mut Row<Turns>,
    out: &mut Row<Coded>,
) -> Result<Ways, NoMemory>
    requires { turns.old ≡ [] }
    ensures opened { IfOk result (λ inner. Opened place quantifiers.now turns.new ways out.old (length quantifiers.now) inner out.new) }
    ensures all { OnOk result (length turns.new ≡ length quantifiers.now) }
{
    let mut inner = ways;
    for quantifier in quantifiers {
        let opened = open_turns(place, inner, quantifier.var, out)?;
        turns.push(opened)?;
        inner = opened.inner;
    }
    Ok(inner)
}

/// Emits the bounds and the step of a quantifier, which become its values.
fn gen_bounds(
    alloc: Global,
    core: &Core,
    place: Place,
    quantifier: &Quantifier,
    out: &mut Row<Coded>,
) -> Result<(), NoMemory>
    ensures { OnOk result (Gives put_numbers core.now place (bounds_meaning quantifier.now) out.old out.new) }
{
    emit(place, Instruction::Quantify(quantifier.direction), out)?;
    gen_number(alloc, core, place, &quantifier.by, out)?;
    gen_number(alloc, core, place, &quantifier.to, out)?;
    gen_number(alloc, core, place, &quantifier.from, out)?;
    Ok(())
}

/// Emits what follows the inside of a quantifier.
fn close_turns(
    alloc: Global,
    core: &Core,
    place: Place,
    quantifier: &Quantifier,
    turns: Turns,
    out: &mut Row<Coded>,
) -> Result<(), NoMemory>
    ensures { OnOk result (Encloses core.now place quantifier.now turns out.old out.new) }
{
    let turned = turns.inner.turned;
    gen_condition(alloc, core, place, turned, &quantifier.condition, out)?;
    let each = Instruction::Each {
        var: quantifier.var,
        head: out.len(),
    };
    patch(place, each, turns.each, out);
    emit(place, Instruction::Jump { to: turned }, out)?;
    gen_bounds(alloc, core, place, quantifier, out)?;
    Ok(())
}

/// Emits what follows the inside of quantifiers, whose turns were noted.
pub fn close_all(
    alloc: Global,
    core: &Core,
    place: Place,
    quantifiers: &[Quantifier],
    turns: &[Turns],
    out: &mut Row<Coded>,
) -> Result<(), NoMemory>
    requires { length turns.now ≡ length quantifiers.now }
    ensures { OnOk result ((ways inner : Ways) (meaning : Meaning Ending) (first mid : List Coded) → Opened place quantifiers.now turns.now ways first (length quantifiers.now) inner mid → Acts inner core.now place meaning mid out.old → Acts ways core.now place (quantified quantifiers.now meaning) first out.new) }
{
    let mut at = quantifiers.len();
    while at > 0 {
        at -= 1;
        close_turns(alloc, core, place, &quantifiers[at], turns[at], out)?;
    }
    Ok(())
}
