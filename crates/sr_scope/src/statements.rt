ghost use Rattle.std.specs.Prelude.{◌≡◌, ◌++◌, OnOk, map};
ghost use Rattle.sr_names.specs.Diagnostics.{all_noted};
ghost use Rattle.sr_scope.specs.Declarations.{with_inner};
ghost use Rattle.sr_scope.specs.Exprs.{all_found, invocation_found};
ghost use Rattle.sr_scope.specs.Statements.{condition_found, statement_found, plain_statement_found, for_all_found, item_read, arm_found, branch_found, co_arm_found, block_found};
ghost use Rattle.sr_scope.specs.Types.{maybe_expr_found};

use crate::declarations::{constant, quantifiers, variables};
use crate::declares::{declare_name, declare_variables, open_formals};
use crate::exprs::{exprs, note_create, note_expr, note_invocation};
use crate::names::name;
use crate::types::maybe_expr;
use sr_names::{Blocks, Diagnostics, Place, Sort};
use sr_tree::{
    Arm, ArmCondition, BlockItem, Branch, CoArm, Expr, Invocation, Quantifier, Statement,
};
use sr_value::NoMemory;
use std::alloc::Global;

/// Notes what is found in a statement. The scopes are then as before.
#[cycle(statements)]
pub fn statement(
    alloc: Global,
    statement: &Statement,
    place: &Place,
    blocks: &mut Blocks,
    diagnostics: &mut Diagnostics,
) -> Result<(), NoMemory>
    ensures scopes { OnOk result (blocks.new ≡ blocks.old) }
    ensures noted { OnOk result (diagnostics.new ≡ all_noted diagnostics.old (statement_found statement.now place.now blocks.old)) }
{
    match statement {
        Statement::If {
            branches: all,
            otherwise,
            ..
        }
        | Statement::Do {
            branches: all,
            otherwise,
            ..
        } => {
            branches(alloc, all.as_slice(), place, blocks, diagnostics)?;
            match otherwise {
                Some(items) => block(alloc, items.as_slice(), place, blocks, diagnostics),
                None => Ok(()),
            }
        }
        Statement::ForAll {
            quantifiers: all,
            block: body,
            ..
        } => {
            for_all(
                alloc,
                all.as_slice(),
                body.as_slice(),
                place,
                blocks,
                diagnostics,
            )
        }
        Statement::In {
            arms: all,
            otherwise,
            ..
        } => {
            arms(alloc, all.as_slice(), place, blocks, diagnostics)?;
            match otherwise {
                Some(items) => block(alloc, items.as_slice(), place, blocks, diagnostics),
                None => Ok(()),
            }
        }
        Statement::Co { arms: all, .. } => co_arms(
            alloc,
            all.as_slice(),
            place,
            blocks,
            diagnostics,
        ),
        _ => plain_statement(statement, place, blocks, diagnostics),
    }
}

/// Notes what is found in a statement that holds no block, and nothing in any other.
fn plain_statement(
    statement: &Statement,
    place: &Place,
    blocks: &Blocks,
    diagnostics: &mut Diagnostics,
) -> Result<(), NoMemory>
    ensures { OnOk result (diagnostics.new ≡ all_noted diagnostics.old (plain_statement_found statement.now place.now blocks.now)) }
{
    match statement {
        Statement::Stop { status, .. } => maybe_expr(status, place, blocks, diagnostics),
        Statement::Call { invocation, .. }
        | Statement::Send { invocation, .. }
        | Statement::Forward { invocation, .. } => {
            note_invocation(invocation, place, blocks, diagnostics)
        }
        Statement::Receive {
            operation,
            places,
            ..
        } => {
            name(operation, place, blocks, diagnostics)?;
            exprs(places.as_slice(), place, blocks, diagnostics)
        }
        Statement::Assign {
            place: left,
            value: right,
            ..
        }
        | Statement::Exchange { left, right, .. } => {
            note_expr(left, place, blocks, diagnostics)?;
            note_expr(right, place, blocks, diagnostics)
        }
        Statement::Increment { place: target, .. }
        | Statement::Decrement { place: target, .. }
        | Statement::Destroy { target, .. } => note_expr(target, place, blocks, diagnostics),
        Statement::Create { create, .. } => note_create(create, place, blocks, diagnostics),
        _ => Ok(()),
    }
}

/// Notes what is found in quantifiers, which are a scope, and in a block within it.
#[cycle(statements)]
fn for_all(
    alloc: Global,
    all: &[Quantifier],
    items: &[BlockItem],
    place: &Place,
    blocks: &mut Blocks,
    diagnostics: &mut Diagnostics,
) -> Result<(), NoMemory>
    ensures scopes { OnOk result (blocks.new ≡ blocks.old) }
    ensures noted { OnOk result (diagnostics.new ≡ all_noted diagnostics.old (for_all_found all.now (map item_read items.now) place.now blocks.old)) }
{
    blocks.open(alloc)?;
    quantifiers(alloc, all, place, blocks, diagnostics)?;
    block(alloc, items, place, blocks, diagnostics)?;
    blocks.close();
    Ok(())
}

/// Notes what is found in a block, which is a scope of its own.
#[cycle(statements)]
fn block(
    alloc: Global,
    items: &[BlockItem],
    place: &Place,
    blocks: &mut Blocks,
    diagnostics: &mut Diagnostics,
) -> Result<(), NoMemory>
    ensures scopes { OnOk result (blocks.new ≡ blocks.old) }
    ensures noted { OnOk result (diagnostics.new ≡ all_noted diagnostics.old (block_found (map item_read items.now) place.now blocks.old)) }
{
    blocks.open(alloc)?;
    for item in items {
        block_item(alloc, item, place, blocks, diagnostics)?;
    }
    blocks.close();
    Ok(())
}

#[cycle(statements)]
fn block_item(
    alloc: Global,
    item: &BlockItem,
    place: &Place,
    blocks: &mut Blocks,
    diagnostics: &mut Diagnostics,
) -> Result<(), NoMemory>
    ensures scopes { OnOk result (blocks.new ≡ with_inner blocks.old (item_read item.now place.now blocks.old).inner) }
    ensures noted { OnOk result (diagnostics.new ≡ all_noted diagnostics.old (item_read item.now place.now blocks.old).found) }
{
    match item {
        BlockItem::Const(declared) => {
            constant(alloc, declared, place, blocks, diagnostics)?;
            declare_name(
                alloc,
                &declared.name,
                Sort::Constant,
                &mut blocks.inner,
                diagnostics,
            )
        }
        BlockItem::Var(declared) => {
            variables(alloc, declared, place, blocks, diagnostics)?;
            declare_variables(
                alloc,
                declared.decls.as_slice(),
                &mut blocks.inner,
                diagnostics,
            )
        }
        BlockItem::Statement(inner) => statement(alloc, inner, place, blocks, diagnostics),
    }
}

#[cycle(statements)]
fn branches(
    alloc: Global,
    branches: &[Branch],
    place: &Place,
    blocks: &mut Blocks,
    diagnostics: &mut Diagnostics,
) -> Result<(), NoMemory>
    ensures scopes { OnOk result (blocks.new ≡ blocks.old) }
    ensures noted { OnOk result (diagnostics.new ≡ all_noted diagnostics.old (all_found (map branch_found branches.now) place.now blocks.old)) }
{
    for branch in branches {
        note_expr(&branch.guard, place, blocks, diagnostics)?;
        block(alloc, branch.block.as_slice(), place, blocks, diagnostics)?;
    }
    Ok(())
}

#[cycle(statements)]
fn arms(
    alloc: Global,
    arms: &[Arm],
    place: &Place,
    blocks: &mut Blocks,
    diagnostics: &mut Diagnostics,
) -> Result<(), NoMemory>
    ensures scopes { OnOk result (blocks.new ≡ blocks.old) }
    ensures noted { OnOk result (diagnostics.new ≡ all_noted diagnostics.old (all_found (map arm_found arms.now) place.now blocks.old)) }
{
    for each in arms {
        arm(alloc, each, place, blocks, diagnostics)?;
    }
    Ok(())
}

#[cycle(statements)]
fn arm(
    alloc: Global,
    arm: &Arm,
    place: &Place,
    blocks: &mut Blocks,
    diagnostics: &mut Diagnostics,
) -> Result<(), NoMemory>
    ensures scopes { OnOk result (blocks.new ≡ blocks.old) }
    ensures noted { OnOk result (diagnostics.new ≡ all_noted diagnostics.old (arm_found arm.now place.now blocks.old)) }
{
    name(&arm.operation, place, blocks, diagnostics)?;
    open_formals(
        alloc,
        arm.formals.as_slice(),
        &arm.returned,
        blocks,
        diagnostics,
    )?;
    guards(&arm.condition, &arm.order, place, blocks, diagnostics)?;
    block(alloc, arm.block.as_slice(), place, blocks, diagnostics)?;
    blocks.close();
    Ok(())
}

/// Notes what is found in the condition and the order of an arm.
fn guards(
    written: &Option<ArmCondition>,
    order: &Option<Expr>,
    place: &Place,
    blocks: &Blocks,
    diagnostics: &mut Diagnostics,
) -> Result<(), NoMemory>
    ensures { OnOk result (diagnostics.new ≡ all_noted diagnostics.old (condition_found written.now place.now blocks.now ++ maybe_expr_found order.now place.now blocks.now)) }
{
    condition(written, place, blocks, diagnostics)?;
    maybe_expr(order, place, blocks, diagnostics)
}

fn condition(
    condition: &Option<ArmCondition>,
    place: &Place,
    blocks: &Blocks,
    diagnostics: &mut Diagnostics,
) -> Result<(), NoMemory>
    ensures { OnOk result (diagnostics.new ≡ all_noted diagnostics.old (condition_found condition.now place.now blocks.now)) }
{
    match condition {
        Some(written) => note_expr(&written.condition, place, blocks, diagnostics),
        None => Ok(()),
    }
}

#[cycle(statements)]
fn co_arms(
    alloc: Global,
    arms: &[CoArm],
    place: &Place,
    blocks: &mut Blocks,
    diagnostics: &mut Diagnostics,
) -> Result<(), NoMemory>
    ensures scopes { OnOk result (blocks.new ≡ blocks.old) }
    ensures noted { OnOk result (diagnostics.new ≡ all_noted diagnostics.old (all_found (map co_arm_found arms.now) place.now blocks.old)) }
{
    for each in arms {
        co_arm(alloc, each, place, blocks, diagnostics)?;
    }
    Ok(())
}

#[cycle(statements)]
fn co_arm(
    alloc: Global,
    arm: &CoArm,
    place: &Place,
    blocks: &mut Blocks,
    diagnostics: &mut Diagnostics,
) -> Result<(), NoMemory>
    ensures scopes { OnOk result (blocks.new ≡ blocks.old) }
    ensures noted { OnOk result (diagnostics.new ≡ all_noted diagnostics.old (co_arm_found arm.now place.now blocks.old)) }
{
    blocks.open(alloc)?;
    quantifiers(
        alloc,
        arm.quantifiers.as_slice(),
        place,
        blocks,
        diagnostics,
    )?;
    co_target(&arm.target, &arm.invocation, place, blocks, diagnostics)?;
    if let Some(items) = &arm.block {
        block(alloc, items.as_slice(), place, blocks, diagnostics)?;
    }
    blocks.close();
    Ok(())
}

/// Notes what is found in the machine and the invocation of an arm of `co`.
fn co_target(
    target: &Option<Expr>,
    invocation: &Invocation,
    place: &Place,
    blocks: &Blocks,
    diagnostics: &mut Diagnostics,
) -> Result<(), NoMemory>
    ensures { OnOk result (diagnostics.new ≡ all_noted diagnostics.old (maybe_expr_found target.now place.now blocks.now ++ invocation_found invocation.now place.now blocks.now)) }
{
    maybe_expr(target, place, blocks, diagnostics)?;
    note_invocation(invocation, place, blocks, diagnostics)
}
