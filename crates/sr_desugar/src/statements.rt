//! What statements are in the core.
ghost use Rattle.std.specs.Prelude.{◌≡◌, ◌∷◌, ◌++◌, IfOk, OnOk, map};
ghost use Rattle.sr_core.specs.declared.statement.Action.TheVariants as actions;
ghost use Rattle.sr_core.specs.declared.statement.CoArm.{roll-CoArm};
ghost use Rattle.sr_core.specs.declared.statement.Statement.TheVariants as variants;
ghost use Rattle.sr_lower_expr.specs.Places.{site_number};
ghost use Rattle.sr_desugar.specs.Statements as statements;
ghost use Rattle.sr_names.specs.Spots.{spot_of};
ghost use Rattle.sr_tables.specs.Parts.{line_of};
ghost use Rattle.sr_tables.specs.Sites.{site_of};
ghost use Rattle.std.specs.Option.{option_map};
ghost use Rattle.sr_lower_expr.specs.Expressions.{core_place, core_sending, core_value};
ghost use Rattle.sr_check_expr.specs.Meanings.{function_called, meant_by};
ghost use Rattle.sr_outline.specs.Numbers as numbers;
ghost use Rattle.sr_tree.specs.declared.statement.Statement.{out-Statement};

use crate::declarations::{push_const, push_vars};
use crate::quantifiers::quantifiers_of;
use crate::receives::receive;
use crate::simple::{act, call, first_token, forward, send};
use sr_check_expr::{function_called, meant_by};
use sr_core::{Action, Bump, CoCall, Guarded, Quantifier, Scope, Site, Statement};
use sr_lower_expr::{
    Scene, Sent, boxed_value, core_create, core_place, core_sent, core_value, operation_number,
    optional_value, own_formals, own_returned, scope_of_operation,
};
use sr_names::{Predefined, Spot};
use sr_outline::{name_spots, returned_spot, wait_operation};
use sr_tables::{line_of, site_of};
use sr_tree::{Arm, ArmCondition, BlockItem, Branch, CoArm, Expr, Invocation, Name};
use sr_value::{Boxed, NoMemory, Row, Span};
use std::alloc::Global;

fn condition(
    alloc: Global,
    tree: &Option<ArmCondition>,
    scene: &Scene,
) -> Result<Option<sr_core::Expr>, NoMemory>
    ensures { IfOk result (λ expr. expr ≡ statements.condition_of scene.now tree.now) }
{
    match tree {
        None => Ok(None),
        Some(written) => Ok(Some(core_value(alloc, &written.condition, scene)?)),
    }
}

/// The head of an arm. Its names stand for the formals of its operation; its place is its first token.
fn arm(alloc: Global, tree: &Arm, scene: &Scene) -> Result<sr_core::Arm, NoMemory>
    ensures { IfOk result (λ arm. arm ≡ (statements.core_arm scene.now tree.now).made.arm) }
{
    let operation = meant_by(&scene.facts, &tree.operation);
    let spots = name_spots(alloc, tree.formals.as_slice())?;
    let op = operation_number(scene, operation)?;
    let formals = own_formals(alloc, scene, spots.as_slice(), operation)?;
    let returned = own_returned(alloc, scene, returned_spot(&tree.returned), operation)?;
    let returned = Boxed::new(alloc, returned)?;
    let guard = Boxed::new(alloc, condition(alloc, &tree.condition, scene)?)?;
    let by = optional_value(alloc, &tree.order, scene)?;
    Ok(sr_core::Arm {
        place: line_of(tree.span),
        op,
        formals,
        returned: returned.into_inner(),
        guard: guard.into_inner(),
        by,
    })
}

fn arms_of(alloc: Global, trees: &[Arm], scene: &Scene) -> Result<Row<sr_core::Arm>, NoMemory>
    ensures { IfOk result (λ arms. arms ≡ statements.arms_of (map (statements.core_arm scene.now) trees.now)) }
{
    let mut arms = Row::new(alloc);
    for tree in trees {
        arms.push(arm(alloc, tree, scene)?)?;
    }
    Ok(arms)
}

/// Whether the operation of an arm belongs to the instance or to the process.
fn scope_of_arm(tree: &Arm, scene: &Scene) -> Scope
    ensures { result ≡ (statements.core_arm scene.now tree.now).made.scope }
{
    let operation = meant_by(&scene.facts, &tree.operation);
    scope_of_operation(&scene.tables.operations, operation)
}

/// Whether the operations of an `in` belong to the instance or to the process. That of its first arm shows it.
fn scope_of_arms(trees: &[Arm], scene: &Scene) -> Scope
    ensures { result ≡ statements.scope_of_arms (map (statements.core_arm scene.now) trees.now) }
{
    match trees {
        [] => Scope::Shared,
        [tree, ..] => scope_of_arm(tree, scene),
    }
}

/// The place of the value of an arm of a `co`.
fn target_of(
    alloc: Global,
    target: &Option<Expr>,
    scene: &Scene,
) -> Result<Option<sr_core::PlaceExpr>, NoMemory>
    ensures { IfOk result (λ place. place ≡ option_map (core_place scene.now) target.now) }
{
    match target {
        None => Ok(None),
        Some(target) => Ok(Some(core_place(alloc, target, scene)?)),
    }
}

/// An invocation of a `co`, and the place of its value.
fn co_call(
    alloc: Global,
    target: &Option<Expr>,
    invocation: &Invocation,
    scene: &Scene,
) -> Result<CoCall, NoMemory>
    ensures { IfOk result (λ call. call ≡ statements.co_call scene.now target.now (core_sending scene.now invocation.now)) }
{
    let sent = core_sent(alloc, invocation, scene)?;
    let place = target_of(alloc, target, scene)?;
    let Sent {
        target,
        args,
        returns,
    } = sent;
    Ok(CoCall {
        place,
        target: target.into_inner(),
        args,
        returns: returns.into_inner(),
    })
}

/// Whether it is `P`.
fn is_p(function: Option<Predefined>) -> bool
    ensures { result ≡ numbers.is_p function }
{
    match function {
        None => false,
        Some(name) => match name {
            Predefined::P => true,
            _ => false,
        },
    }
}

/// A call: `P(s)` is `receive s()`, and every other is a statement without blocks.
fn call_statement(
    alloc: Global,
    span: Span,
    invocation: &Invocation,
    scene: &Scene,
    sites: &mut Row<Site>,
) -> Result<Statement, NoMemory>
    ensures value { IfOk result (λ statement. statement ≡ (statements.call_made scene.now span invocation.now (function_called scene.now.facts invocation.now)).made) }
    ensures sites { OnOk result (sites.new ≡ sites.old ++ (statements.call_made scene.now span invocation.now (function_called scene.now.facts invocation.now)).sites) }
{
    let function = function_called(invocation, &scene.facts);
    if is_p(function) {
        let operation = wait_operation(span, invocation, &scene.facts);
        return receive(alloc, span, operation, &[], scene, sites);
    }
    Ok(act(span, call(alloc, function, invocation, scene)?))
}

/// `receive`, by the name of the operation.
fn receive_named(
    alloc: Global,
    span: Span,
    operation: &Name,
    places: &[Expr],
    scene: &Scene,
    sites: &mut Row<Site>,
) -> Result<Statement, NoMemory>
    ensures value { IfOk result (λ statement. statement ≡ (statements.receive_made scene.now span (meant_by scene.now.facts operation.now) places.now).made) }
    ensures sites { OnOk result (sites.new ≡ sites.old ++ (statements.receive_made scene.now span (meant_by scene.now.facts operation.now) places.now).sites) }
{
    let operation = meant_by(&scene.facts, operation);
    receive(alloc, span, operation, places, scene, sites)
}

/// `place := value`.
fn assign(alloc: Global, place: &Expr, value: &Expr, scene: &Scene) -> Result<Action, NoMemory>
    ensures { IfOk result (λ action. action ≡ actions.Assign (core_place scene.now place.now) (core_value scene.now value.now)) }
{
    let place = Boxed::new(alloc, core_place(alloc, place, scene)?)?;
    let value = core_value(alloc, value, scene)?;
    Ok(Action::Assign {
        place: place.into_inner(),
        value,
    })
}

/// `left :=: right`.
fn exchange(alloc: Global, left: &Expr, right: &Expr, scene: &Scene) -> Result<Action, NoMemory>
    ensures { IfOk result (λ action. action ≡ actions.Swap (core_place scene.now left.now) (core_place scene.now right.now)) }
{
    let left = Boxed::new(alloc, core_place(alloc, left, scene)?)?;
    let right = core_place(alloc, right, scene)?;
    Ok(Action::Swap {
        left: left.into_inner(),
        right,
    })
}

/// A statement without blocks that isn't a call or a `receive`.
fn action(alloc: Global, tree: &sr_tree::Statement, scene: &Scene) -> Result<Action, NoMemory>
    ensures { IfOk result (λ action. action ≡ statements.plain_action scene.now (out-Statement tree.now)) }
{
    match tree {
        sr_tree::Statement::Exit { .. } => Ok(Action::Exit),
        sr_tree::Statement::Next { .. } => Ok(Action::Next),
        sr_tree::Statement::Return { .. } => Ok(Action::Return),
        sr_tree::Statement::Reply { .. } => Ok(Action::Reply),
        sr_tree::Statement::Stop { status, .. } => Ok(Action::Stop {
            status: optional_value(alloc, status, scene)?,
        }),
        sr_tree::Statement::Send { invocation, .. } => send(alloc, invocation, scene),
        sr_tree::Statement::Forward { invocation, .. } => forward(alloc, invocation, scene),
        sr_tree::Statement::Assign { place, value, .. } => assign(alloc, place, value, scene),
        sr_tree::Statement::Exchange { left, right, .. } => exchange(alloc, left, right, scene),
        sr_tree::Statement::Increment { place, .. } => Ok(Action::Bump {
            place: core_place(alloc, place, scene)?,
            bump: Bump::Increase,
        }),
        sr_tree::Statement::Decrement { place, .. } => Ok(Action::Bump {
            place: core_place(alloc, place, scene)?,
            bump: Bump::Decrease,
        }),
        sr_tree::Statement::Destroy { target, .. } => Ok(Action::Destroy {
            target: core_value(alloc, target, scene)?,
        }),
        sr_tree::Statement::Create { create, .. } => {
            Ok(Action::Evaluate(core_create(alloc, create, scene)?))
        }
        _ => Ok(Action::Skip),
    }
}

/// A statement without blocks that isn't a call or a `receive`, at its first token.
fn plain_statement(
    alloc: Global,
    tree: &sr_tree::Statement,
    scene: &Scene,
) -> Result<Statement, NoMemory>
    ensures { IfOk result (λ statement. statement ≡ statements.plain_core scene.now tree.now) }
{
    let action = action(alloc, tree, scene)?;
    Ok(act(first_token(tree), action))
}

/// An `if` of these parts.
fn if_of(span: Span, guards: Row<Guarded>, otherwise: Row<Statement>) -> Statement
    ensures { result ≡ variants.If (line_of span) guards otherwise }
{
    Statement::If {
        place: line_of(span),
        guards,
        otherwise,
    }
}

/// A `do` of these parts.
fn do_of(span: Span, guards: Row<Guarded>, otherwise: Option<Row<Statement>>) -> Statement
    ensures { result ≡ variants.Do (line_of span) guards otherwise }
{
    Statement::Do {
        place: line_of(span),
        guards,
        otherwise,
    }
}

/// An `in` of these parts.
fn in_of(
    scene: &Scene,
    span: Span,
    arms: Row<Row<Statement>>,
    otherwise: Row<Statement>,
) -> Result<Statement, NoMemory>
    ensures { IfOk result (λ statement. statement ≡ variants.In (line_of span) (site_number scene.now (spot_of span)) arms otherwise) }
{
    let site = scene.tables.sites.number(Spot::of(span))?;
    Ok(Statement::In {
        place: line_of(span),
        site,
        arms,
        otherwise,
    })
}

/// An arm of a `co` of these parts.
fn co_arm_of(quantifiers: Row<Quantifier>, call: CoCall, body: Row<Statement>) -> sr_core::CoArm
    ensures { result ≡ roll-CoArm (record { quantifiers = quantifiers; call = call; body = body }) }
{
    sr_core::CoArm {
        quantifiers,
        call,
        body,
    }
}

/// Appends an item of a block to other statements. What a block declares is the process's own.
#[cycle(statements)]
fn push_item(
    alloc: Global,
    item: &BlockItem,
    scene: &Scene,
    sites: &mut Row<Site>,
    code: &mut Row<Statement>,
) -> Result<(), NoMemory>
    ensures value { OnOk result (code.new ≡ code.old ++ (statements.core_block_item scene.now item.now).made) }
    ensures sites { OnOk result (sites.new ≡ sites.old ++ (statements.core_block_item scene.now item.now).sites) }
{
    match item {
        BlockItem::Const(constant) => push_const(alloc, scene, Scope::Own, constant, code),
        BlockItem::Var(variables) => push_vars(alloc, scene, Scope::Own, variables, code),
        BlockItem::Statement(tree) => code.push(statement(alloc, tree, scene, sites)?),
    }
}

/// The statements of a block, one item after another.
#[cycle(statements)]
fn block(
    alloc: Global,
    items: &[BlockItem],
    scene: &Scene,
    sites: &mut Row<Site>,
) -> Result<Row<Statement>, NoMemory>
    ensures value { IfOk result (λ code. code ≡ (statements.block_made (statements.core_items scene.now items.now)).made) }
    ensures sites { OnOk result (sites.new ≡ sites.old ++ (statements.block_made (statements.core_items scene.now items.now)).sites) }
{
    let mut code = Row::new(alloc);
    for item in items {
        push_item(alloc, item, scene, sites, &mut code)?;
    }
    Ok(code)
}

#[cycle(statements)]
fn guarded(
    alloc: Global,
    branch: &Branch,
    scene: &Scene,
    sites: &mut Row<Site>,
) -> Result<Guarded, NoMemory>
    ensures value { IfOk result (λ guarded. guarded ≡ (statements.core_branch scene.now branch.now).made) }
    ensures sites { OnOk result (sites.new ≡ sites.old ++ (statements.core_branch scene.now branch.now).sites) }
{
    let condition = boxed_value(alloc, &branch.guard, scene)?;
    let body = block(alloc, branch.block.as_slice(), scene, sites)?;
    Ok(Guarded {
        condition: condition.into_inner(),
        body,
    })
}

#[cycle(statements)]
fn guards(
    alloc: Global,
    branches: &[Branch],
    scene: &Scene,
    sites: &mut Row<Site>,
) -> Result<Row<Guarded>, NoMemory>
    ensures value { IfOk result (λ all. all ≡ statements.all_made (map (statements.core_branch scene.now) branches.now)) }
    ensures sites { OnOk result (sites.new ≡ sites.old ++ statements.all_sites (map (statements.core_branch scene.now) branches.now)) }
{
    let mut all = Row::new(alloc);
    for branch in branches {
        all.push(guarded(alloc, branch, scene, sites)?)?;
    }
    Ok(all)
}

#[cycle(statements)]
fn blocks(
    alloc: Global,
    arms: &[Arm],
    scene: &Scene,
    sites: &mut Row<Site>,
) -> Result<Row<Row<Statement>>, NoMemory>
    ensures value { IfOk result (λ all. all ≡ statements.blocks_of (map (statements.core_arm scene.now) arms.now)) }
    ensures sites { OnOk result (sites.new ≡ sites.old ++ statements.all_sites (map (statements.core_arm scene.now) arms.now)) }
{
    let mut all = Row::new(alloc);
    for arm in arms {
        all.push(block(alloc, arm.block.as_slice(), scene, sites)?)?;
    }
    Ok(all)
}

#[cycle(statements)]
fn co_arm(
    alloc: Global,
    tree: &CoArm,
    scene: &Scene,
    sites: &mut Row<Site>,
) -> Result<sr_core::CoArm, NoMemory>
    ensures value { IfOk result (λ arm. arm ≡ (statements.core_co_arm scene.now tree.now).made) }
    ensures sites { OnOk result (sites.new ≡ sites.old ++ (statements.core_co_arm scene.now tree.now).sites) }
{
    let quantifiers = quantifiers_of(alloc, tree.quantifiers.as_slice(), scene)?;
    let call = Boxed::new(
        alloc,
        co_call(alloc, &tree.target, &tree.invocation, scene)?,
    )?;
    match &tree.block {
        None => Ok(co_arm_of(quantifiers, call.into_inner(), Row::new(alloc))),
        Some(items) => {
            let body = block(alloc, items.as_slice(), scene, sites)?;
            Ok(co_arm_of(quantifiers, call.into_inner(), body))
        }
    }
}

#[cycle(statements)]
fn co_arms(
    alloc: Global,
    trees: &[CoArm],
    scene: &Scene,
    sites: &mut Row<Site>,
) -> Result<Row<sr_core::CoArm>, NoMemory>
    ensures value { IfOk result (λ all. all ≡ statements.all_made (map (statements.core_co_arm scene.now) trees.now)) }
    ensures sites { OnOk result (sites.new ≡ sites.old ++ statements.all_sites (map (statements.core_co_arm scene.now) trees.now)) }
{
    let mut all = Row::new(alloc);
    for tree in trees {
        all.push(co_arm(alloc, tree, scene, sites)?)?;
    }
    Ok(all)
}

/// A `co` of these arms.
#[cycle(statements)]
fn co_statement(
    alloc: Global,
    span: Span,
    trees: &[CoArm],
    scene: &Scene,
    sites: &mut Row<Site>,
) -> Result<Statement, NoMemory>
    ensures value { IfOk result (λ statement. statement ≡ (statements.co_made span (map (statements.core_co_arm scene.now) trees.now)).made) }
    ensures sites { OnOk result (sites.new ≡ sites.old ++ (statements.co_made span (map (statements.core_co_arm scene.now) trees.now)).sites) }
{
    let arms = co_arms(alloc, trees, scene, sites)?;
    Ok(Statement::Co {
        place: line_of(span),
        arms,
    })
}

/// The blocks of an `in`: its site goes before those in them.
#[cycle(statements)]
fn in_blocks(
    alloc: Global,
    trees: &[Arm],
    has_else: bool,
    scene: &Scene,
    sites: &mut Row<Site>,
) -> Result<Row<Row<Statement>>, NoMemory>
    ensures value { IfOk result (λ all. all ≡ statements.blocks_of (map (statements.core_arm scene.now) trees.now)) }
    ensures sites { OnOk result (sites.new ≡ sites.old ++ site_of (statements.scope_of_arms (map (statements.core_arm scene.now) trees.now)) (statements.arms_of (map (statements.core_arm scene.now) trees.now)) has_else ∷ statements.all_sites (map (statements.core_arm scene.now) trees.now)) }
{
    let arms = arms_of(alloc, trees, scene)?;
    sites.push(site_of(alloc, scope_of_arms(trees, scene), arms, has_else)?)?;
    blocks(alloc, trees, scene, sites)
}

/// `fa`: its block for each of the values of its quantifiers.
#[cycle(statements)]
fn for_all(
    alloc: Global,
    span: Span,
    quantifiers: &[sr_tree::Quantifier],
    items: &[BlockItem],
    scene: &Scene,
    sites: &mut Row<Site>,
) -> Result<Statement, NoMemory>
    ensures value { IfOk result (λ statement. statement ≡ (statements.for_all_made scene.now span quantifiers.now (statements.core_items scene.now items.now)).made) }
    ensures sites { OnOk result (sites.new ≡ sites.old ++ (statements.for_all_made scene.now span quantifiers.now (statements.core_items scene.now items.now)).sites) }
{
    let quantifiers = quantifiers_of(alloc, quantifiers, scene)?;
    let body = block(alloc, items, scene, sites)?;
    Ok(Statement::Fa {
        place: line_of(span),
        quantifiers,
        body,
    })
}

/// A statement in the core. The sites of the statements in it that wait are put after others.
#[cycle(statements)]
pub fn statement(
    alloc: Global,
    tree: &sr_tree::Statement,
    scene: &Scene,
    sites: &mut Row<Site>,
) -> Result<Statement, NoMemory>
    ensures value { IfOk result (λ statement. statement ≡ (statements.core_statement scene.now tree.now).made) }
    ensures sites { OnOk result (sites.new ≡ sites.old ++ (statements.core_statement scene.now tree.now).sites) }
{
    match tree {
        sr_tree::Statement::Call {
            span,
            invocation,
            ..
        } => { call_statement(alloc, *span, invocation, scene, sites) }
        sr_tree::Statement::Receive {
            span,
            operation,
            places,
        } => receive_named(alloc, *span, operation, places.as_slice(), scene, sites),
        sr_tree::Statement::If {
            span,
            branches,
            otherwise,
        } => {
            let guards = guards(alloc, branches.as_slice(), scene, sites)?;
            match otherwise {
                None => Ok(if_of(*span, guards, Row::new(alloc))),
                Some(items) => {
                    let otherwise = block(alloc, items.as_slice(), scene, sites)?;
                    Ok(if_of(*span, guards, otherwise))
                }
            }
        }
        sr_tree::Statement::Do {
            span,
            branches,
            otherwise,
        } => {
            let guards = guards(alloc, branches.as_slice(), scene, sites)?;
            match otherwise {
                None => Ok(do_of(*span, guards, None)),
                Some(items) => {
                    let otherwise = block(alloc, items.as_slice(), scene, sites)?;
                    Ok(do_of(*span, guards, Some(otherwise)))
                }
            }
        }
        sr_tree::Statement::ForAll {
            span,
            quantifiers,
            block,
        } => {
            for_all(
                alloc,
                *span,
                quantifiers.as_slice(),
                block.as_slice(),
                scene,
                sites,
            )
        }
        sr_tree::Statement::In {
            span,
            arms,
            otherwise,
        } => match otherwise {
            None => {
                let arms = in_blocks(alloc, arms.as_slice(), false, scene, sites)?;
                in_of(scene, *span, arms, Row::new(alloc))
            }
            Some(items) => {
                let arms = in_blocks(alloc, arms.as_slice(), true, scene, sites)?;
                let otherwise = block(alloc, items.as_slice(), scene, sites)?;
                in_of(scene, *span, arms, otherwise)
            }
        },
        sr_tree::Statement::Co { span, arms } => {
            co_statement(alloc, *span, arms.as_slice(), scene, sites)
        }
        _ => plain_statement(alloc, tree, scene),
    }
}
