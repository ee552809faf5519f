ghost use Rattle.std.specs.Prelude.{◌≡◌, [], OnOk, min, length, map};
ghost use Rattle.sr_core.specs.declared.component.Core.{Core};
ghost use Rattle.sr_core.specs.declared.statement.Statement.TheOpen.{Statement-F};
ghost use Rattle.sr_meaning.specs.Pieces.{co_part_of, each_block, guarded_of, optional_block};
ghost use Rattle.sr_meaning.specs.Statements.{block_of, co_meaning, do_meaning, first_true, if_meaning, in_meaning, meaning_of, no_guard, quantified, start_calls, statement_meaning};
ghost use Rattle.sr_gen.specs.Blocks.{fa_meaning, inner_meaning};
ghost use Rattle.sr_gen_expr.specs.Emitting.{Gives, put_nothing};
ghost use Rattle.sr_gen.specs.Doing.{Acts, Completes, CompletesEach, Rests, Serves, ServesEach, Tries};
ghost use Rattle.sr_gen.specs.declared.ways.Ways.{Ways};

use crate::action::gen_action;
use crate::condition::gen_truth;
use crate::inner::Inner;
use crate::invocation::{gen_start, gen_stored, item_number, result_vars, variables};
use crate::patching::patch;
use crate::quantifiers::{close_all, open_all};
use crate::sends::gen_sends;
use crate::site::{arms_of, gen_close, gen_named, has_else, names_of};
use crate::ways::{Ways, one_way};
use sr_code::{Coded, Instruction};
use sr_core::{Action, Arm, CoArm, Core, Declaration, Guarded, Quantifier, Scope, Statement};
use sr_gen_expr::{emit, gen_declaration, gen_formals, gen_returned};
use sr_value::{NoMemory, Place, Row};
use std::alloc::Global;

/// Emits a statement.
#[cycle(statement)]
#[tactic(auto, using(sr_meaning::proofs::Weights::weight_if, sr_meaning::proofs::Weights::weight_do, sr_meaning::proofs::Weights::weight_fa, sr_meaning::proofs::Weights::weight_in, sr_meaning::proofs::Weights::weight_co))]
pub fn gen_statement(
    alloc: Global,
    core: &Core,
    ways: Ways,
    statement: &Statement,
    out: &mut Row<Coded>,
) -> Result<(), NoMemory>
    ensures { OnOk result ((line : Place) → Acts ways core.now line (meaning_of statement.now) out.old out.new) }
{
    match statement {
        Statement::Declare { place, declaration } => {
            gen_declared(alloc, core, *place, declaration, out)?;
            Ok(())
        }
        Statement::Act { place, action } => {
            gen_act(alloc, core, ways, *place, action, out)?;
            Ok(())
        }
        Statement::If {
            place,
            guards,
            otherwise,
        } => {
            gen_if(
                alloc,
                core,
                ways,
                *place,
                guards.as_slice(),
                otherwise.as_slice(),
                out,
            )?;
            emit(*place, Instruction::Tick, out)?;
            Ok(())
        }
        Statement::Do {
            place,
            guards,
            otherwise,
        } => {
            gen_do(alloc, core, ways, *place, guards.as_slice(), otherwise, out)?;
            emit(*place, Instruction::Tick, out)?;
            Ok(())
        }
        Statement::Fa {
            place,
            quantifiers,
            body,
        } => {
            gen_fa(
                alloc,
                core,
                ways,
                *place,
                quantifiers.as_slice(),
                body.as_slice(),
                out,
            )?;
            emit(*place, Instruction::Tick, out)?;
            Ok(())
        }
        Statement::Sends {
            place,
            target,
            count,
        } => {
            gen_sends(alloc, core, *place, target, count, out)?;
            Ok(())
        }
        Statement::In {
            place,
            site,
            arms,
            otherwise,
        } => {
            gen_in(
                alloc,
                core,
                ways,
                *place,
                *site,
                arms.as_slice(),
                otherwise.as_slice(),
                out,
            )?;
            emit(*place, Instruction::Tick, out)?;
            Ok(())
        }
        Statement::Co { place, arms } => {
            gen_co(alloc, core, ways, *place, arms.as_slice(), out)?;
            emit(*place, Instruction::Tick, out)?;
            Ok(())
        }
    }
}

/// A declaration takes no tick.
fn gen_declared(
    alloc: Global,
    core: &Core,
    place: Place,
    declaration: &Declaration,
    out: &mut Row<Coded>,
) -> Result<(), NoMemory>
    ensures { OnOk result ((ways : Ways) (line : Place) → Acts ways core.now line (statement_meaning (Statement-F.Declare place declaration.now)) out.old out.new) }
{
    gen_declaration(alloc, core, place, declaration, out)?;
    Ok(())
}

/// A statement without blocks, with its tick.
fn gen_act(
    alloc: Global,
    core: &Core,
    ways: Ways,
    place: Place,
    action: &Action,
    out: &mut Row<Coded>,
) -> Result<(), NoMemory>
    ensures { OnOk result ((line : Place) → Acts ways core.now line (statement_meaning (Statement-F.Act place action.now)) out.old out.new) }
{
    gen_action(alloc, core, ways, place, action, out)?;
    emit(place, Instruction::Tick, out)?;
    Ok(())
}

/// Emits a block.
#[cycle(statement)]
#[tactic(auto, using(sr_meaning::proofs::Weights::item_within))]
pub fn gen_block(
    alloc: Global,
    core: &Core,
    ways: Ways,
    statements: &[Statement],
    out: &mut Row<Coded>,
) -> Result<(), NoMemory>
    ensures { OnOk result ((line : Place) → Acts ways core.now line (block_of statements.now) out.old out.new) }
{
    let mut at = statements.len();
    while at > 0 {
        at -= 1;
        gen_statement(alloc, core, ways, &statements[at], out)?;
    }
    Ok(())
}

/// `if` without its tick.
#[cycle(statement)]
fn gen_if(
    alloc: Global,
    core: &Core,
    ways: Ways,
    place: Place,
    guards: &[Guarded],
    otherwise: &[Statement],
    out: &mut Row<Coded>,
) -> Result<(), NoMemory>
    ensures { OnOk result (Acts ways core.now place (if_meaning (map guarded_of guards.now) (map meaning_of otherwise.now)) out.old out.new) }
{
    let through = out.len();
    gen_block(alloc, core, ways, otherwise, out)?;
    gen_guards(alloc, core, ways, through, place, guards, out)?;
    Ok(())
}

/// Emits guarded blocks, of which the first runs whose condition holds.
#[cycle(statement)]
#[tactic(auto, using(sr_meaning::proofs::Weights::item_within))]
fn gen_guards(
    alloc: Global,
    core: &Core,
    ways: Ways,
    through: usize,
    place: Place,
    guards: &[Guarded],
    out: &mut Row<Coded>,
) -> Result<(), NoMemory>
    ensures { OnOk result (Tries ways through core.now place (first_true (map guarded_of guards.now)) out.old out.new) }
{
    let mut at = guards.len();
    while at > 0 {
        at -= 1;
        gen_guarded(alloc, core, ways, through, place, &guards[at], out)?;
    }
    Ok(())
}

#[cycle(statement)]
#[tactic(auto, using(sr_meaning::proofs::Weights::weight_guarded))]
fn gen_guarded(
    alloc: Global,
    core: &Core,
    ways: Ways,
    through: usize,
    place: Place,
    guarded: &Guarded,
    out: &mut Row<Coded>,
) -> Result<(), NoMemory>
    ensures { OnOk result (Tries ways through core.now place (guarded_of guarded.now) out.old out.new) }
{
    let past = out.len();
    emit(place, Instruction::Jump { to: through }, out)?;
    gen_block(alloc, core, ways, guarded.body.as_slice(), out)?;
    gen_truth(alloc, core, place, past, &guarded.condition, out)?;
    Ok(())
}

/// `do` without its tick.
#[cycle(statement)]
fn gen_do(
    alloc: Global,
    core: &Core,
    ways: Ways,
    place: Place,
    guards: &[Guarded],
    otherwise: &Option<Row<Statement>>,
    out: &mut Row<Coded>,
) -> Result<(), NoMemory>
    ensures { OnOk result (Acts ways core.now place (do_meaning (map guarded_of guards.now) (optional_block otherwise.now)) out.old out.new) }
{
    let to = out.len();
    emit(place, Instruction::Again { to: 0 }, out)?;
    let again = out.len();
    let inner = Ways {
        left: to,
        turned: again,
        returned: ways.returned,
    };
    gen_otherwise(alloc, core, ways, place, to, again, otherwise, out)?;
    gen_guards(alloc, core, inner, again, place, guards, out)?;
    let head = out.len();
    patch(place, Instruction::Again { to: head }, to, out);
    emit(place, Instruction::Jump { to: again }, out)?;
    Ok(())
}

/// Emits what a turn of a `do` does where no guard holds.
#[cycle(statement)]
fn gen_otherwise(
    alloc: Global,
    core: &Core,
    ways: Ways,
    place: Place,
    to: usize,
    again: usize,
    otherwise: &Option<Row<Statement>>,
    out: &mut Row<Coded>,
) -> Result<(), NoMemory>
    ensures { OnOk result (again ≡ length out.old → Rests ways to again core.now place (no_guard (optional_block otherwise.now)) out.old out.new) }
{
    match otherwise {
        None => {
            emit(place, Instruction::Jump { to }, out)?;
            Ok(())
        }
        Some(block) => {
            let inner = Ways {
                left: to,
                turned: again,
                returned: ways.returned,
            };
            gen_block(alloc, core, inner, block.as_slice(), out)?;
            Ok(())
        }
    }
}

/// `fa` without its tick.
#[cycle(statement)]
fn gen_fa(
    alloc: Global,
    core: &Core,
    ways: Ways,
    place: Place,
    quantifiers: &[Quantifier],
    body: &[Statement],
    out: &mut Row<Coded>,
) -> Result<(), NoMemory>
    ensures { OnOk result (Acts ways core.now place (fa_meaning quantifiers.now (map meaning_of body.now)) out.old out.new) }
{
    let to = out.len();
    let inner = Ways {
        left: to,
        turned: ways.turned,
        returned: ways.returned,
    };
    gen_quantified(
        alloc,
        core,
        inner,
        place,
        quantifiers,
        &Inner::Block(body),
        out,
    )?;
    Ok(())
}

/// Emits what stands after quantifiers, for all their values.
#[cycle(statement)]
fn gen_quantified(
    alloc: Global,
    core: &Core,
    ways: Ways,
    place: Place,
    quantifiers: &[Quantifier],
    inner: &Inner,
    out: &mut Row<Coded>,
) -> Result<(), NoMemory>
    ensures { OnOk result (Acts ways core.now place (quantified quantifiers.now (inner_meaning inner.now)) out.old out.new) }
{
    let mut turns = Row::new(alloc);
    let inside = open_all(place, ways, quantifiers, &mut turns, out)?;
    gen_inner(alloc, core, inside, place, inner, out)?;
    close_all(alloc, core, place, quantifiers, turns.as_slice(), out)?;
    Ok(())
}

/// Emits what stands after quantifiers.
#[cycle(statement)]
fn gen_inner(
    alloc: Global,
    core: &Core,
    ways: Ways,
    place: Place,
    inner: &Inner,
    out: &mut Row<Coded>,
) -> Result<(), NoMemory>
    ensures { OnOk result (Acts ways core.now place (inner_meaning inner.now) out.old out.new) }
{
    match inner {
        Inner::Block(body) => {
            gen_block(alloc, core, ways, body, out)?;
            Ok(())
        }
        Inner::Call {
            arm,
            call,
            quantifiers,
        } => {
            gen_start(alloc, core, place, *arm, call, quantifiers, out)?;
            Ok(())
        }
    }
}

/// `in` without its tick.
#[cycle(statement)]
fn gen_in(
    alloc: Global,
    core: &Core,
    ways: Ways,
    place: Place,
    site: u32,
    blocks: &[Row<Statement>],
    otherwise: &[Statement],
    out: &mut Row<Coded>,
) -> Result<(), NoMemory>
    ensures { OnOk result (Acts ways core.now place (in_meaning site (each_block blocks.now) (map meaning_of otherwise.now)) out.old out.new) }
{
    let end = out.len();
    gen_block(alloc, core, ways, otherwise, out)?;
    let first = out.len();
    let arms = arms_of(core, site);
    let mut addresses = Row::new(alloc);
    gen_services(
        alloc,
        core,
        ways,
        end,
        place,
        arms,
        blocks,
        &mut addresses,
        out,
    )?;
    let select = Instruction::Select {
        site,
        count: blocks.len(),
        has_else: has_else(core, site),
        arms: addresses,
        otherwise: first,
        end,
    };
    emit(place, select, out)?;
    gen_named(place, names_of(core, site), out)?;
    Ok(())
}

/// Emits the services of the arms of an `in`, which go on at `to`, and notes their addresses.
#[cycle(statement)]
#[tactic(auto, using(sr_meaning::proofs::Weights::item_within))]
fn gen_services(
    alloc: Global,
    core: &Core,
    ways: Ways,
    to: usize,
    place: Place,
    arms: &[Arm],
    blocks: &[Row<Statement>],
    addresses: &mut Row<usize>,
    out: &mut Row<Coded>,
) -> Result<(), NoMemory>
    requires { addresses.old ≡ [] }
    ensures each { OnOk result (ServesEach ways to core.now place arms.now (each_block blocks.now) addresses.new out.old out.new) }
    ensures all { OnOk result (length addresses.new ≡ min (length arms.now) (length blocks.now)) }
{
    let count = arms.len().min(blocks.len());
    let mut at = 0;
    while at < count {
        gen_service(
            alloc,
            core,
            ways,
            to,
            place,
            &arms[at],
            blocks[at].as_slice(),
            out,
        )?;
        addresses.push(out.len())?;
        at += 1;
    }
    Ok(())
}

/// Emits the service of an invocation that an arm of an `in` was chosen for.
#[cycle(statement)]
fn gen_service(
    alloc: Global,
    core: &Core,
    ways: Ways,
    to: usize,
    place: Place,
    arm: &Arm,
    block: &[Statement],
    out: &mut Row<Coded>,
) -> Result<(), NoMemory>
    ensures { OnOk result (Serves ways to core.now place arm.now (map meaning_of block.now) out.old out.new) }
{
    gen_close(place, ways.left, out)?;
    let left = out.len();
    gen_close(place, ways.turned, out)?;
    let turned = out.len();
    gen_close(place, to, out)?;
    let returned = out.len();
    let inner = Ways {
        left,
        turned,
        returned,
    };
    gen_block(alloc, core, inner, block, out)?;
    gen_returned(alloc, place, &arm.returned, out)?;
    gen_formals(alloc, place, Scope::Own, arm.formals.as_slice(), out)?;
    let gives = result_vars(alloc, arm.formals.as_slice(), &arm.returned)?;
    emit(place, Instruction::OpenService { gives }, out)?;
    Ok(())
}

/// `co` without its tick.
#[cycle(statement)]
fn gen_co(
    alloc: Global,
    core: &Core,
    ways: Ways,
    place: Place,
    arms: &[CoArm],
    out: &mut Row<Coded>,
) -> Result<(), NoMemory>
    ensures { OnOk result (Acts ways core.now place (co_meaning (map co_part_of arms.now)) out.old out.new) }
{
    let to = out.len();
    emit(place, Instruction::Jump { to: ways.returned }, out)?;
    emit(place, Instruction::CloseCo, out)?;
    let returned = out.len();
    emit(place, Instruction::Jump { to }, out)?;
    emit(place, Instruction::CloseCo, out)?;
    let left = out.len();
    emit(place, Instruction::Jump { to: 0 }, out)?;
    let turned = out.len();
    let inner = Ways {
        left,
        turned,
        returned,
    };
    let mut addresses = Row::new(alloc);
    gen_replies(alloc, core, inner, turned, place, arms, &mut addresses, out)?;
    patch(place, Instruction::TakeReply { arms: addresses }, left, out);
    emit(place, Instruction::Jump { to: turned }, out)?;
    emit(place, Instruction::CountOuts, out)?;
    gen_calls(alloc, core, place, arms, out)?;
    emit(place, Instruction::OpenCo, out)?;
    Ok(())
}

/// Emits what each reply leads to, and notes the addresses.
#[cycle(statement)]
#[tactic(auto, using(sr_meaning::proofs::Weights::item_within))]
fn gen_replies(
    alloc: Global,
    core: &Core,
    ways: Ways,
    again: usize,
    place: Place,
    arms: &[CoArm],
    addresses: &mut Row<usize>,
    out: &mut Row<Coded>,
) -> Result<(), NoMemory>
    requires { addresses.old ≡ [] }
    ensures each { OnOk result (CompletesEach ways again core.now place (map co_part_of arms.now) addresses.new out.old out.new) }
    ensures all { OnOk result (length addresses.new ≡ length arms.now) }
{
    let count = arms.len();
    let mut at = 0;
    while at < count {
        gen_reply(alloc, core, ways, again, place, &arms[at], out)?;
        addresses.push(out.len())?;
        at += 1;
    }
    Ok(())
}

/// Emits the stores of a reply, and the block of its arm.
#[cycle(statement)]
#[tactic(auto, using(sr_meaning::proofs::Weights::weight_arm))]
fn gen_reply(
    alloc: Global,
    core: &Core,
    ways: Ways,
    again: usize,
    place: Place,
    arm: &CoArm,
    out: &mut Row<Coded>,
) -> Result<(), NoMemory>
    ensures { OnOk result (Completes ways again core.now place (co_part_of arm.now) out.old out.new) }
{
    emit(place, Instruction::Jump { to: again }, out)?;
    gen_block(alloc, core, ways, arm.body.as_slice(), out)?;
    gen_stored(alloc, place, &arm.call.returns, out)?;
    let vars = variables(alloc, arm.quantifiers.as_slice())?;
    emit(place, Instruction::SetTurn { vars }, out)?;
    Ok(())
}

/// Emits all invocations of a `co`.
#[cycle(statement)]
#[tactic(auto, using(sr_meaning::proofs::Weights::item_within, sr_meaning::proofs::Weights::weight_arm))]
fn gen_calls(
    alloc: Global,
    core: &Core,
    place: Place,
    arms: &[CoArm],
    out: &mut Row<Coded>,
) -> Result<(), NoMemory>
    ensures { OnOk result (Gives put_nothing core.now place (start_calls 0 (map co_part_of arms.now)) out.old out.new) }
{
    let mut at = arms.len();
    while at > 0 {
        at -= 1;
        let arm = &arms[at];
        let quantifiers = arm.quantifiers.as_slice();
        let inner = Inner::Call {
            arm: item_number(at)?,
            call: &arm.call,
            quantifiers,
        };
        let next = out.len();
        gen_quantified(alloc, core, one_way(next), place, quantifiers, &inner, out)?;
    }
    Ok(())
}
