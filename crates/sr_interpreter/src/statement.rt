ghost use Rattle.std.specs.Prelude.{◌≡◌, IfOk, map, option_map, slice_get};
ghost use Rattle.sr_ask.specs.Behaviors.{looped};
ghost use Rattle.sr_ask.specs.declared.environment.Out.{Out};
ghost use Rattle.sr_core.specs.declared.statement.Statement.TheOpen.{Statement-F};
ghost use Rattle.sr_meaning.specs.Pieces.{co_part_of, each_block, guarded_of, optional_block};
ghost use Rattle.sr_interpreter.specs.Blocks.{completing, inner_meaning, next_completion, value_turn};
ghost use Rattle.sr_meaning.specs.Statements.{block_of, complete_outs, do_turn, first_true, for_values, meaning_of, quantified, service_meaning, site_at, start_calls, statement_meaning};
ghost use Rattle.sr_frame.specs.Outs.{IsFirstOut};
ghost use Rattle.sr_interpreter_parts.specs.Turns.{AllFit, listed};
ghost use Rattle.sr_interpreter_expr.specs.Interpreters.{Agrees, here_of, stage_of};

use crate::action::act;
use crate::endings::{after_turn, left, served};
use crate::inner::Inner;
use crate::sends::run_sends;
use sr_ask::{Asks, Pick, Selection};
use sr_core::{Action, Arm, CoArm, Declaration, Guarded, Quantifier, Scope, Statement};
use sr_frame::number_own;
use sr_interpreter_expr::{
    HasCore, Interpreter, Scene, Stop, at_line, failed, give_back, holds, number_of, put_own, room,
    tick, truth_of,
};
use sr_interpreter_parts::{
    PlacedReply, Values, arm_at, arm_out, choose, declare, make_formals, make_returned, reply,
    service_for, set_out, set_service, set_turn, start_call, store_value, take_out, take_reply,
    value_at, values_of,
};
use sr_meaning::Ending;
use sr_value::{NoMemory, Place, Row};

/// What a statement asks, and how it ends.
#[cycle(execution)]
#[tactic(auto, using(sr_meaning::proofs::Weights::weight_if, sr_meaning::proofs::Weights::weight_do, sr_meaning::proofs::Weights::weight_fa, sr_meaning::proofs::Weights::weight_in, sr_meaning::proofs::Weights::weight_co, sr_meaning::proofs::Nodes::meaning_of_do))]
pub fn run<C: HasCore>(
    scene: &Scene<C>,
    interpreter: &mut Interpreter,
    statement: &Statement,
) -> Result<Ending, Stop>
    ensures { Agrees (meaning_of statement.now (here_of C.core_of scene.now) (stage_of interpreter.old)) result (stage_of interpreter.new) }
{
    match statement {
        Statement::Declare { place, declaration } => {
            run_declaration(scene, interpreter, *place, declaration)
        }
        Statement::Act { place, action } => run_action(scene, interpreter, *place, action),
        Statement::If {
            place,
            guards,
            otherwise,
        } => run_if(
            scene,
            interpreter,
            *place,
            guards.as_slice(),
            otherwise.as_slice(),
        ),
        Statement::Do {
            place,
            guards,
            otherwise,
        } => run_do(scene, interpreter, *place, guards.as_slice(), otherwise),
        Statement::Fa {
            place,
            quantifiers,
            body,
        } => run_fa(
            scene,
            interpreter,
            *place,
            quantifiers.as_slice(),
            body.as_slice(),
        ),
        Statement::In {
            place,
            site,
            arms,
            otherwise,
        } => run_in(
            scene,
            interpreter,
            *place,
            *site,
            arms.as_slice(),
            otherwise.as_slice(),
        ),
        Statement::Co { place, arms } => run_co(scene, interpreter, *place, arms.as_slice()),
        Statement::Sends {
            place,
            target,
            count,
        } => run_sends(scene, interpreter, *place, target, count),
    }
}

/// A declaration takes no tick.
fn run_declaration<C: HasCore>(
    scene: &Scene<C>,
    interpreter: &mut Interpreter,
    place: Place,
    declaration: &Declaration,
) -> Result<Ending, Stop>
    ensures { Agrees (statement_meaning (Statement-F.Declare place declaration.now) (here_of C.core_of scene.now) (stage_of interpreter.old)) result (stage_of interpreter.new) }
{
    declare(&at_line(scene, place), interpreter, declaration)?;
    Ok(Ending::Through)
}

/// A statement without blocks, with its tick.
fn run_action<C: HasCore>(
    scene: &Scene<C>,
    interpreter: &mut Interpreter,
    place: Place,
    action: &Action,
) -> Result<Ending, Stop>
    ensures { Agrees (statement_meaning (Statement-F.Act place action.now) (here_of C.core_of scene.now) (stage_of interpreter.old)) result (stage_of interpreter.new) }
{
    tick(interpreter)?;
    act(&at_line(scene, place), interpreter, action)
}

/// What a block asks, and how it ends.
#[cycle(execution)]
#[tactic(auto, using(sr_meaning::proofs::Weights::item_within, crate::proofs::Steps::before_other))]
pub fn run_block<C: HasCore>(
    scene: &Scene<C>,
    interpreter: &mut Interpreter,
    statements: &[Statement],
) -> Result<Ending, Stop>
    ensures { Agrees (block_of statements.now (here_of C.core_of scene.now) (stage_of interpreter.old)) result (stage_of interpreter.new) }
{
    for statement in statements {
        match run(scene, interpreter, statement)? {
            Ending::Through => {}
            ending => return Ok(ending),
        }
    }
    Ok(Ending::Through)
}

/// Runs the block of the first guard that holds, and says how it ended.
#[cycle(execution)]
#[tactic(auto, using(sr_meaning::proofs::Weights::item_within))]
fn run_guards<C: HasCore>(
    scene: &Scene<C>,
    interpreter: &mut Interpreter,
    guards: &[Guarded],
) -> Result<Option<Ending>, Stop>
    ensures { Agrees (first_true (map guarded_of guards.now) (here_of C.core_of scene.now) (stage_of interpreter.old)) result (stage_of interpreter.new) }
{
    for guarded in guards {
        if let Some(ending) = run_guarded(scene, interpreter, guarded)? {
            return Ok(Some(ending));
        }
    }
    Ok(None)
}

/// Runs a block where its condition holds.
#[cycle(execution)]
#[tactic(auto, using(sr_meaning::proofs::Weights::weight_guarded))]
fn run_guarded<C: HasCore>(
    scene: &Scene<C>,
    interpreter: &mut Interpreter,
    guarded: &Guarded,
) -> Result<Option<Ending>, Stop>
    ensures { Agrees (guarded_of guarded.now (here_of C.core_of scene.now) (stage_of interpreter.old)) result (stage_of interpreter.new) }
{
    if truth_of(scene, interpreter, &guarded.condition)? {
        let ending = run_block(scene, interpreter, guarded.body.as_slice())?;
        Ok(Some(ending))
    } else {
        Ok(None)
    }
}

/// `if` without a true guard runs its `else`.
#[cycle(execution)]
fn run_if<C: HasCore>(
    scene: &Scene<C>,
    interpreter: &mut Interpreter,
    place: Place,
    guards: &[Guarded],
    otherwise: &[Statement],
) -> Result<Ending, Stop>
    ensures { Agrees (statement_meaning (Statement-F.If place (map guarded_of guards.now) (map meaning_of otherwise.now)) (here_of C.core_of scene.now) (stage_of interpreter.old)) result (stage_of interpreter.new) }
{
    tick(interpreter)?;
    let scene = at_line(scene, place);
    match run_guards(&scene, interpreter, guards)? {
        Some(ending) => Ok(ending),
        None => run_block(&scene, interpreter, otherwise),
    }
}

/// `do`, with its tick.
#[cycle(execution)]
fn run_do<C: HasCore>(
    scene: &Scene<C>,
    interpreter: &mut Interpreter,
    place: Place,
    guards: &[Guarded],
    otherwise: &Option<Row<Statement>>,
) -> Result<Ending, Stop>
    ensures { Agrees (statement_meaning (Statement-F.Do place (map guarded_of guards.now) (optional_block otherwise.now)) (here_of C.core_of scene.now) (stage_of interpreter.old)) result (stage_of interpreter.new) }
{
    tick(interpreter)?;
    match run_turns(&at_line(scene, place), interpreter, guards, otherwise) {
        Ok(ending) => Ok(left(ending)),
        Err(stop) => Err(stop),
    }
}

/// The turns of a `do`, each with its tick.
#[cycle(execution)]
#[tactic(auto, using(crate::proofs::Steps::turns_step))]
fn run_turns<C: HasCore>(
    scene: &Scene<C>,
    interpreter: &mut Interpreter,
    guards: &[Guarded],
    otherwise: &Option<Row<Statement>>,
) -> Result<Ending, Stop>
    ensures { Agrees (looped scene.now.limit (do_turn (map guarded_of guards.now) (optional_block otherwise.now) (here_of C.core_of scene.now)) (stage_of interpreter.old)) result (stage_of interpreter.new) }
{
    let mut most = room(scene, interpreter) + 1;
    'turns: while most > 0 {
        most -= 1;
        tick(interpreter)?;
        if let Some(ending) = run_turn(scene, interpreter, guards, otherwise)? {
            return Ok(ending);
        }
    }
    Err(Stop::Asks(Asks::OverTicks))
}

/// One turn of a `do`: whether it ends the `do`, and how.
#[cycle(execution)]
fn run_turn<C: HasCore>(
    scene: &Scene<C>,
    interpreter: &mut Interpreter,
    guards: &[Guarded],
    otherwise: &Option<Row<Statement>>,
) -> Result<Option<Ending>, Stop>
    ensures { Agrees (do_turn (map guarded_of guards.now) (optional_block otherwise.now) (here_of C.core_of scene.now) (stage_of interpreter.old)) result (stage_of interpreter.new) }
{
    match run_guards(scene, interpreter, guards)? {
        Some(ending) => Ok(after_turn(ending)),
        None => match otherwise {
            None => Ok(Some(Ending::Through)),
            Some(block) => {
                let ending = run_block(scene, interpreter, block.as_slice())?;
                Ok(after_turn(ending))
            }
        },
    }
}

/// `fa`, with its tick.
#[cycle(execution)]
fn run_fa<C: HasCore>(
    scene: &Scene<C>,
    interpreter: &mut Interpreter,
    place: Place,
    quantifiers: &[Quantifier],
    body: &[Statement],
) -> Result<Ending, Stop>
    ensures { Agrees (statement_meaning (Statement-F.Fa place quantifiers.now (map meaning_of body.now)) (here_of C.core_of scene.now) (stage_of interpreter.old)) result (stage_of interpreter.new) }
{
    tick(interpreter)?;
    let ending = run_quantified(
        &at_line(scene, place),
        interpreter,
        quantifiers,
        &Inner::Block(body),
    )?;
    Ok(left(ending))
}

/// What stands after quantifiers, for all their values.
#[cycle(execution)]
fn run_quantified<C: HasCore>(
    scene: &Scene<C>,
    interpreter: &mut Interpreter,
    quantifiers: &[Quantifier],
    inner: &Inner,
) -> Result<Ending, Stop>
    ensures { Agrees (quantified quantifiers.now (inner_meaning inner.now) (here_of C.core_of scene.now) (stage_of interpreter.old)) result (stage_of interpreter.new) }
{
    match quantifiers {
        [] => run_inner(scene, interpreter, inner),
        [first, rest @ ..] => {
            let from = number_of(scene, interpreter, &first.from)?;
            let to = number_of(scene, interpreter, &first.to)?;
            let by = number_of(scene, interpreter, &first.by)?;
            match values_of(first.direction, from, to, by) {
                Ok(values) => run_values(scene, interpreter, first, rest, values, inner),
                Err(fault) => failed(scene, interpreter, fault),
            }
        }
    }
}

/// What stands after quantifiers.
#[cycle(execution)]
fn run_inner<C: HasCore>(
    scene: &Scene<C>,
    interpreter: &mut Interpreter,
    inner: &Inner,
) -> Result<Ending, Stop>
    ensures { Agrees (inner_meaning inner.now (here_of C.core_of scene.now) (stage_of interpreter.old)) result (stage_of interpreter.new) }
{
    match inner {
        Inner::Block(body) => run_block(scene, interpreter, body),
        Inner::Call {
            arm,
            call,
            quantifiers,
        } => start_call(scene, interpreter, *arm, call, quantifiers),
    }
}

/// What stands after a quantifier, for the values that it has.
#[cycle(execution)]
#[tactic(auto, using(crate::proofs::Steps::for_values_step, crate::proofs::Steps::listed_step))]
fn run_values<C: HasCore>(
    scene: &Scene<C>,
    interpreter: &mut Interpreter,
    first: &Quantifier,
    rest: &[Quantifier],
    values: Values,
    inner: &Inner,
) -> Result<Ending, Stop>
    requires { AllFit values }
    ensures { Agrees (for_values first.now.var first.now.condition (quantified rest.now (inner_meaning inner.now)) (listed values) (here_of C.core_of scene.now) (stage_of interpreter.old)) result (stage_of interpreter.new) }
{
    for k in 0..values.count {
        let value = value_at(&values, k);
        if let Some(ending) = run_value(scene, interpreter, first, rest, value, inner)? {
            return Ok(ending);
        }
    }
    Ok(Ending::Through)
}

/// What stands after a quantifier, for one value, with its tick.
#[cycle(execution)]
fn run_value<C: HasCore>(
    scene: &Scene<C>,
    interpreter: &mut Interpreter,
    first: &Quantifier,
    rest: &[Quantifier],
    value: i32,
    inner: &Inner,
) -> Result<Option<Ending>, Stop>
    ensures { Agrees (value_turn first.now.var first.now.condition (quantified rest.now (inner_meaning inner.now)) value (here_of C.core_of scene.now) (stage_of interpreter.old)) result (stage_of interpreter.new) }
{
    tick(interpreter)?;
    put_own(interpreter, first.var, number_own(value));
    if holds(scene, interpreter, &first.condition)? {
        let ending = run_quantified(scene, interpreter, rest, inner)?;
        Ok(after_turn(ending))
    } else {
        Ok(None)
    }
}

/// `in`, with its tick.
#[cycle(execution)]
fn run_in<C: HasCore>(
    scene: &Scene<C>,
    interpreter: &mut Interpreter,
    place: Place,
    site: u32,
    arms: &[Row<Statement>],
    otherwise: &[Statement],
) -> Result<Ending, Stop>
    ensures { Agrees (statement_meaning (Statement-F.In place site (each_block arms.now) (map meaning_of otherwise.now)) (here_of C.core_of scene.now) (stage_of interpreter.old)) result (stage_of interpreter.new) }
{
    tick(interpreter)?;
    let scene = at_line(scene, place);
    match choose(&scene, interpreter, site, arms.len()) {
        Ok(Selection::Service(pick)) => run_pick(&scene, interpreter, site, pick, arms),
        Ok(Selection::Otherwise) => run_block(&scene, interpreter, otherwise),
        Err(stop) => Err(stop),
    }
}

/// The service of a picked invocation.
#[cycle(execution)]
#[tactic(auto, using(sr_meaning::proofs::Weights::item_within))]
fn run_pick<C: HasCore>(
    scene: &Scene<C>,
    interpreter: &mut Interpreter,
    site: u32,
    pick: Pick,
    arms: &[Row<Statement>],
) -> Result<Ending, Stop>
    ensures { Agrees (service_meaning pick (slice_get (site_at site (here_of C.core_of scene.now)).arms pick.arm) (slice_get (each_block arms.now) pick.arm) (here_of C.core_of scene.now) (stage_of interpreter.old)) result (stage_of interpreter.new) }
{
    match arm_at(scene, site, pick.arm) {
        None => Ok(Ending::Through),
        Some(arm) => match arms.get(pick.arm as usize) {
            None => Ok(Ending::Through),
            Some(block) => run_service(scene, interpreter, pick, arm, block.as_slice()),
        },
    }
}

/// The service of an invocation: however its block ends, it replies if it hasn't.
#[cycle(execution)]
fn run_service<C: HasCore>(
    scene: &Scene<C>,
    interpreter: &mut Interpreter,
    pick: Pick,
    arm: &Arm,
    block: &[Statement],
) -> Result<Ending, Stop>
    ensures { Agrees (service_meaning pick (Some arm.now) (Some (map meaning_of block.now)) (here_of C.core_of scene.now) (stage_of interpreter.old)) result (stage_of interpreter.new) }
{
    let service = service_for(scene.alloc, &pick, arm)?;
    let outer = set_service(interpreter, service);
    make_formals(
        scene,
        interpreter,
        Scope::Own,
        arm.formals.as_slice(),
        pick.args.as_slice(),
    )?;
    make_returned(scene, interpreter, &arm.returned)?;
    let ending = run_block(scene, interpreter, block)?;
    reply(scene, interpreter)?;
    let _ = set_service(interpreter, outer);
    Ok(served(ending))
}

/// `co`, with its tick.
#[cycle(execution)]
fn run_co<C: HasCore>(
    scene: &Scene<C>,
    interpreter: &mut Interpreter,
    place: Place,
    arms: &[CoArm],
) -> Result<Ending, Stop>
    ensures { Agrees (statement_meaning (Statement-F.Co place (map co_part_of arms.now)) (here_of C.core_of scene.now) (stage_of interpreter.old)) result (stage_of interpreter.new) }
{
    tick(interpreter)?;
    let scene = at_line(scene, place);
    let outer = set_out(interpreter, Row::new(scene.alloc));
    start_calls(&scene, interpreter, arms)?;
    let ending = complete_outs(&scene, interpreter, arms)?;
    let _ = set_out(interpreter, outer);
    Ok(left(ending))
}

/// The number of an arm, as far as memory has numbers for arms.
fn arm_number(at: usize) -> Result<u32, NoMemory>
    ensures { IfOk result (λ number. number ≡ at) }
{
    match u32::try_from(at) {
        Ok(number) => Ok(number),
        Err(_) => Err(NoMemory),
    }
}

/// All invocations of a `co`, in the order of the text and of the quantifiers.
#[cycle(execution)]
#[tactic(auto, using(sr_meaning::proofs::Weights::item_within, sr_meaning::proofs::Weights::weight_arm, crate::proofs::Steps::start_calls_step))]
fn start_calls<C: HasCore>(
    scene: &Scene<C>,
    interpreter: &mut Interpreter,
    arms: &[CoArm],
) -> Result<(), Stop>
    ensures { Agrees (start_calls 0 (map co_part_of arms.now) (here_of C.core_of scene.now) (stage_of interpreter.old)) result (stage_of interpreter.new) }
{
    for (at, arm) in arms.iter().enumerate() {
        let inner = Inner::Call {
            arm: arm_number(at)?,
            call: &arm.call,
            quantifiers: arm.quantifiers.as_slice(),
        };
        match run_quantified(scene, interpreter, arm.quantifiers.as_slice(), &inner) {
            Ok(_) => {}
            Err(stop) => return Err(stop),
        }
    }
    Ok(())
}

/// Takes replies until none is out, or the statement is left.
#[cycle(execution)]
#[tactic(auto, using(crate::proofs::Steps::complete_step))]
fn complete_outs<C: HasCore>(
    scene: &Scene<C>,
    interpreter: &mut Interpreter,
    arms: &[CoArm],
) -> Result<Ending, Stop>
    ensures { Agrees (complete_outs (map co_part_of arms.now) (here_of C.core_of scene.now) (stage_of interpreter.old)) result (stage_of interpreter.new) }
{
    let mut count = interpreter.out.len();
    'replies: while count > 0 {
        count -= 1;
        if let Some(ending) = complete_next(scene, interpreter, arms)? {
            return Ok(ending);
        }
    }
    Ok(Ending::Through)
}

/// Takes one reply, and does what it leads to.
#[cycle(execution)]
#[tactic(auto, using(sr_meaning::proofs::Weights::item_within))]
fn complete_next<C: HasCore>(
    scene: &Scene<C>,
    interpreter: &mut Interpreter,
    arms: &[CoArm],
) -> Result<Option<Ending>, Stop>
    ensures { Agrees (next_completion (map co_part_of arms.now) (here_of C.core_of scene.now) (stage_of interpreter.old)) result (stage_of interpreter.new) }
{
    match take_reply(scene, interpreter) {
        Ok(reply) => complete_reply(scene, interpreter, reply, arms),
        Err(stop) => Err(stop),
    }
}

/// Does what a reply leads to.
#[cycle(execution)]
fn complete_reply<C: HasCore>(
    scene: &Scene<C>,
    interpreter: &mut Interpreter,
    reply: PlacedReply,
    arms: &[CoArm],
) -> Result<Option<Ending>, Stop>
    requires { IsFirstOut interpreter.old.out reply.at }
    ensures { (out : Out) → slice_get interpreter.old.out reply.at ≡ Some out → Agrees (completing out reply.results (option_map co_part_of (slice_get arms.now out.arm)) (here_of C.core_of scene.now) (stage_of interpreter.old)) result (stage_of interpreter.new) }
{
    match arms.get(arm_out(interpreter, reply.at) as usize) {
        None => Ok(None),
        Some(arm) => complete_arm(scene, interpreter, reply, arm),
    }
}

/// The stores of a reply, and then the block of its arm.
#[cycle(execution)]
#[tactic(auto, using(sr_meaning::proofs::Weights::weight_arm, crate::proofs::Steps::co_part_is))]
fn complete_arm<C: HasCore>(
    scene: &Scene<C>,
    interpreter: &mut Interpreter,
    reply: PlacedReply,
    arm: &CoArm,
) -> Result<Option<Ending>, Stop>
    requires { IsFirstOut interpreter.old.out reply.at }
    ensures { (out : Out) → slice_get interpreter.old.out reply.at ≡ Some out → Agrees (completing out reply.results (Some (co_part_of arm.now)) (here_of C.core_of scene.now) (stage_of interpreter.old)) result (stage_of interpreter.new) }
{
    let PlacedReply { at, results } = reply;
    let out = take_out(interpreter, at);
    set_turn(interpreter, arm.quantifiers.as_slice(), out.turn.as_slice());
    let value = give_back(
        scene,
        interpreter,
        out.backs.as_slice(),
        &arm.call.returns,
        &results,
    )?;
    store_value(scene, interpreter, &out.place, value)?;
    let ending = run_block(scene, interpreter, arm.body.as_slice())?;
    Ok(after_turn(ending))
}
