ghost use Rattle.std.specs.Prelude.{◌≡◌, true, false, OnOk, map, is_some};
ghost use Rattle.std.specs.List.{list_any};
ghost use Rattle.sr_names.specs.Diagnostics.{all_noted};
ghost use Rattle.sr_check.specs.Contexts.{context_of, in_order, looping};
ghost use Rattle.sr_check.specs.Uses.{choice_rule};
ghost use Rattle.sr_check.specs.Quantifying.{maybe_with};
ghost use Rattle.sr_check.specs.Services.{operation_named, is_local_name, is_shared_name};
ghost use Rattle.sr_check.specs.Statements.{const_read, var_read, guards_found, condition_found, mixture_found, arms_at, co_arms_at, store_found, plain_found, statement_read, block_item_read, arm_read, branch_read, co_arm_read};

use crate::enclosing::Enclosing;
use crate::invoking::{may_reply, note_call, note_forward, note_send, note_started};
use crate::quantifying::{note_condition, quantifiers};
use crate::receiving::note_receive;
use crate::services::{
    bind_operation, is_local_name, is_shared_name, note_head, operation_named, spot_or,
};
use crate::serving::Serving;
use crate::storing::{note_assign, note_counter, note_destroy, note_exchange, note_stop};
use crate::uses::may_choose;
use sr_check_decl::{constant, declare_locals, declare_name, enter_written, note_variables};
use sr_check_expr::{Facts, Here, Info, create, expr, note_unless, note_value};
use sr_names::{Diagnostics, Rule, Spot};
use sr_tree::{Arm, ArmCondition, BlockItem, Branch, CoArm, ConstDecl, Expr, Statement, VarDecl};
use sr_value::{NoMemory, Span};
use std::alloc::Global;

/// Notes what is found in a constant of a block, and declares it.
pub(crate) fn local_const(
    alloc: Global,
    facts: &mut Facts,
    diagnostics: &mut Diagnostics,
    tree: &ConstDecl,
) -> Result<(), NoMemory>
    ensures known { OnOk result (facts.new ≡ (const_read tree.now facts.old).facts) }
    ensures noted { OnOk result (diagnostics.new ≡ all_noted diagnostics.old (const_read tree.now facts.old).found) }
{
    enter_written(alloc, facts, &tree.ty)?;
    let typed = constant(alloc, facts, diagnostics, false, tree)?;
    declare_name(facts, &tree.name, Info::Value(typed))
}

/// Notes what is found in variables of a block, and declares them.
pub(crate) fn local_var(
    alloc: Global,
    facts: &mut Facts,
    diagnostics: &mut Diagnostics,
    tree: &VarDecl,
) -> Result<(), NoMemory>
    ensures known { OnOk result (facts.new ≡ (var_read tree.now facts.old).facts) }
    ensures noted { OnOk result (diagnostics.new ≡ all_noted diagnostics.old (var_read tree.now facts.old).found) }
{
    enter_written(alloc, facts, &tree.ty)?;
    note_variables(alloc, facts, diagnostics, tree)?;
    declare_locals(alloc, facts, tree)
}

/// Within a loop or a `co`.
fn looping<'a>(enclosing: &Enclosing<'a>) -> Enclosing<'a>
    ensures { result ≡ record enclosing.now { in_loop = true } }
{
    Enclosing {
        procs: enclosing.procs,
        serving: enclosing.serving,
        in_loop: true,
    }
}

/// Within a service.
fn serving_for<'a>(enclosing: &Enclosing<'a>, operation: Spot) -> Enclosing<'a>
    ensures { result ≡ record enclosing.now { serving = Serving.Serves operation } }
{
    Enclosing {
        procs: enclosing.procs,
        serving: Serving::Serves(operation),
        in_loop: enclosing.in_loop,
    }
}

fn note_arm_condition(
    alloc: Global,
    facts: &Facts,
    diagnostics: &mut Diagnostics,
    tree: &Option<ArmCondition>,
) -> Result<(), NoMemory>
    ensures { OnOk result (diagnostics.new ≡ all_noted diagnostics.old (condition_found facts.now tree.now)) }
{
    match tree {
        None => Ok(()),
        Some(written) => note_condition(alloc, facts, diagnostics, &written.condition),
    }
}

/// Notes what is found in what stands after `by`.
fn note_order(
    alloc: Global,
    facts: &Facts,
    diagnostics: &mut Diagnostics,
    tree: &Option<Expr>,
) -> Result<(), NoMemory>
    ensures { OnOk result (diagnostics.new ≡ all_noted diagnostics.old (maybe_with choice_rule facts.now tree.now)) }
{
    match tree {
        None => Ok(()),
        Some(written) => {
            let order = expr(alloc, written, facts, diagnostics)?;
            note_value(diagnostics, &order)?;
            note_unless(
                diagnostics,
                may_choose(&order.typed),
                Rule::BadType,
                order.span,
            )
        }
    }
}

/// Notes what is found in what an arm says after `and` or `st`, and `by`.
fn note_guards(
    alloc: Global,
    facts: &mut Facts,
    diagnostics: &mut Diagnostics,
    condition: &Option<ArmCondition>,
    order: &Option<Expr>,
) -> Result<(), NoMemory>
    ensures known { OnOk result (facts.new ≡ facts.old) }
    ensures noted { OnOk result (diagnostics.new ≡ all_noted diagnostics.old (guards_found facts.old condition.now order.now)) }
{
    let here = facts.here;
    facts.here = Here {
        component: here.component,
        in_guard: true,
    };
    note_arm_condition(alloc, facts, diagnostics, condition)?;
    note_order(alloc, facts, diagnostics, order)?;
    facts.here = here;
    Ok(())
}

/// Whether some arm services an operation of the proc.
fn some_local(facts: &Facts, arms: &[Arm]) -> bool
    ensures { result ≡ list_any (λ arm. is_local_name facts.now arm.operation) (map arm_read arms.now) }
{
    for arm in arms {
        if is_local_name(facts, &arm.operation) {
            return true;
        }
    }
    false
}

/// Whether some arm services an operation of the component.
fn some_shared(facts: &Facts, arms: &[Arm]) -> bool
    ensures { result ≡ list_any (λ arm. is_shared_name facts.now arm.operation) (map arm_read arms.now) }
{
    for arm in arms {
        if is_shared_name(facts, &arm.operation) {
            return true;
        }
    }
    false
}

/// Notes an `in` over operations of the component and of the proc.
fn note_mixture(
    facts: &Facts,
    diagnostics: &mut Diagnostics,
    span: Span,
    arms: &[Arm],
) -> Result<(), NoMemory>
    ensures { OnOk result (diagnostics.new ≡ all_noted diagnostics.old (mixture_found facts.now span (map arm_read arms.now))) }
{
    let met = !(some_local(facts, arms) && some_shared(facts, arms));
    note_unless(diagnostics, met, Rule::BadUse, span)
}

/// Notes what is found in a statement that stores, ends an instance or makes one, and nothing in any other.
fn store_statement(
    alloc: Global,
    tree: &Statement,
    facts: &Facts,
    diagnostics: &mut Diagnostics,
) -> Result<(), NoMemory>
    ensures { OnOk result (diagnostics.new ≡ all_noted diagnostics.old (store_found tree.now facts.now)) }
{
    match tree {
        Statement::Assign { span, place, value } => {
            note_assign(alloc, facts, diagnostics, *span, place, value)
        }
        Statement::Exchange { span, left, right } => {
            note_exchange(alloc, facts, diagnostics, *span, left, right)
        }
        Statement::Increment { span, place } | Statement::Decrement { span, place } => {
            note_counter(alloc, facts, diagnostics, *span, place)
        }
        Statement::Destroy { span, target } => note_destroy(
            alloc,
            facts,
            diagnostics,
            *span,
            target,
        ),
        Statement::Create {
            create: created,
            ..
        } => {
            create(alloc, created, facts, diagnostics)?;
            Ok(())
        }
        _ => Ok(()),
    }
}

/// Notes what is found in a statement in which no others stand, and nothing in any other.
fn plain_statement(
    alloc: Global,
    tree: &Statement,
    enclosing: &Enclosing<'_>,
    facts: &Facts,
    diagnostics: &mut Diagnostics,
) -> Result<(), NoMemory>
    ensures { OnOk result (diagnostics.new ≡ all_noted diagnostics.old (plain_found tree.now (context_of enclosing.now facts.now))) }
{
    match tree {
        Statement::Exit { span } | Statement::Next { span } => {
            note_unless(diagnostics, enclosing.in_loop, Rule::BadUse, *span)
        }
        Statement::Reply { span } => {
            note_unless(
                diagnostics,
                may_reply(enclosing.serving),
                Rule::BadUse,
                *span,
            )
        }
        Statement::Stop { span, status } => note_stop(alloc, facts, diagnostics, *span, status),
        Statement::Call {
            span,
            invocation,
            ..
        } => note_call(alloc, facts, enclosing, diagnostics, *span, invocation),
        Statement::Send { span, invocation } => note_send(
            alloc,
            facts,
            diagnostics,
            *span,
            invocation,
        ),
        Statement::Forward { span, invocation } => {
            note_forward(alloc, facts, enclosing, diagnostics, *span, invocation)
        }
        Statement::Receive {
            span,
            operation,
            places,
        } => note_receive(
            alloc,
            facts,
            enclosing,
            diagnostics,
            *span,
            operation,
            places.as_slice(),
        ),
        _ => store_statement(alloc, tree, facts, diagnostics),
    }
}

/// Notes what is found in a statement. What is declared in it is then known.
#[cycle(statements)]
pub(crate) fn statement(
    alloc: Global,
    tree: &Statement,
    enclosing: &Enclosing<'_>,
    facts: &mut Facts,
    diagnostics: &mut Diagnostics,
) -> Result<(), NoMemory>
    ensures known { OnOk result (facts.new ≡ (statement_read tree.now (context_of enclosing.now facts.old)).facts) }
    ensures noted { OnOk result (diagnostics.new ≡ all_noted diagnostics.old (statement_read tree.now (context_of enclosing.now facts.old)).found) }
{
    match tree {
        Statement::If {
            branches: all,
            otherwise,
            ..
        } => {
            branches(alloc, all.as_slice(), enclosing, facts, diagnostics)?;
            match otherwise {
                Some(items) => block(alloc, items.as_slice(), enclosing, facts, diagnostics),
                None => Ok(()),
            }
        }
        Statement::Do {
            branches: all,
            otherwise,
            ..
        } => {
            let within = looping(enclosing);
            branches(alloc, all.as_slice(), &within, facts, diagnostics)?;
            match otherwise {
                Some(items) => block(alloc, items.as_slice(), &within, facts, diagnostics),
                None => Ok(()),
            }
        }
        Statement::ForAll {
            quantifiers: all,
            block: items,
            ..
        } => {
            quantifiers(alloc, facts, diagnostics, all.as_slice())?;
            block(
                alloc,
                items.as_slice(),
                &looping(enclosing),
                facts,
                diagnostics,
            )
        }
        Statement::In {
            span,
            arms: all,
            otherwise,
        } => {
            note_mixture(facts, diagnostics, *span, all.as_slice())?;
            arms(alloc, all.as_slice(), *span, enclosing, facts, diagnostics)?;
            match otherwise {
                Some(items) => block(alloc, items.as_slice(), enclosing, facts, diagnostics),
                None => Ok(()),
            }
        }
        Statement::Co { span, arms: all } => co_arms(
            alloc,
            all.as_slice(),
            *span,
            enclosing,
            facts,
            diagnostics,
        ),
        _ => plain_statement(alloc, tree, enclosing, facts, diagnostics),
    }
}

/// Notes what is found in a block.
#[cycle(statements)]
fn block(
    alloc: Global,
    items: &[BlockItem],
    enclosing: &Enclosing<'_>,
    facts: &mut Facts,
    diagnostics: &mut Diagnostics,
) -> Result<(), NoMemory>
    ensures known { OnOk result (facts.new ≡ (in_order (map block_item_read items.now) (context_of enclosing.now facts.old)).facts) }
    ensures noted { OnOk result (diagnostics.new ≡ all_noted diagnostics.old (in_order (map block_item_read items.now) (context_of enclosing.now facts.old)).found) }
{
    for item in items {
        block_item(alloc, item, enclosing, facts, diagnostics)?;
    }
    Ok(())
}

#[cycle(statements)]
fn block_item(
    alloc: Global,
    item: &BlockItem,
    enclosing: &Enclosing<'_>,
    facts: &mut Facts,
    diagnostics: &mut Diagnostics,
) -> Result<(), NoMemory>
    ensures known { OnOk result (facts.new ≡ (block_item_read item.now (context_of enclosing.now facts.old)).facts) }
    ensures noted { OnOk result (diagnostics.new ≡ all_noted diagnostics.old (block_item_read item.now (context_of enclosing.now facts.old)).found) }
{
    match item {
        BlockItem::Const(tree) => local_const(alloc, facts, diagnostics, tree),
        BlockItem::Var(tree) => local_var(alloc, facts, diagnostics, tree),
        BlockItem::Statement(inner) => statement(alloc, inner, enclosing, facts, diagnostics),
    }
}

#[cycle(statements)]
fn branches(
    alloc: Global,
    trees: &[Branch],
    enclosing: &Enclosing<'_>,
    facts: &mut Facts,
    diagnostics: &mut Diagnostics,
) -> Result<(), NoMemory>
    ensures known { OnOk result (facts.new ≡ (in_order (map branch_read trees.now) (context_of enclosing.now facts.old)).facts) }
    ensures noted { OnOk result (diagnostics.new ≡ all_noted diagnostics.old (in_order (map branch_read trees.now) (context_of enclosing.now facts.old)).found) }
{
    for tree in trees {
        branch(alloc, tree, enclosing, facts, diagnostics)?;
    }
    Ok(())
}

#[cycle(statements)]
fn branch(
    alloc: Global,
    tree: &Branch,
    enclosing: &Enclosing<'_>,
    facts: &mut Facts,
    diagnostics: &mut Diagnostics,
) -> Result<(), NoMemory>
    ensures known { OnOk result (facts.new ≡ (branch_read tree.now (context_of enclosing.now facts.old)).facts) }
    ensures noted { OnOk result (diagnostics.new ≡ all_noted diagnostics.old (branch_read tree.now (context_of enclosing.now facts.old)).found) }
{
    note_condition(alloc, facts, diagnostics, &tree.guard)?;
    block(alloc, tree.block.as_slice(), enclosing, facts, diagnostics)
}

#[cycle(statements)]
fn arms(
    alloc: Global,
    trees: &[Arm],
    span: Span,
    enclosing: &Enclosing<'_>,
    facts: &mut Facts,
    diagnostics: &mut Diagnostics,
) -> Result<(), NoMemory>
    ensures known { OnOk result (facts.new ≡ (in_order (arms_at span (map arm_read trees.now)) (context_of enclosing.now facts.old)).facts) }
    ensures noted { OnOk result (diagnostics.new ≡ all_noted diagnostics.old (in_order (arms_at span (map arm_read trees.now)) (context_of enclosing.now facts.old)).found) }
{
    for tree in trees {
        arm(alloc, tree, span, enclosing, facts, diagnostics)?;
    }
    Ok(())
}

/// Notes what is found in an arm of an `in` that stands at a span.
#[cycle(statements)]
fn arm(
    alloc: Global,
    tree: &Arm,
    span: Span,
    enclosing: &Enclosing<'_>,
    facts: &mut Facts,
    diagnostics: &mut Diagnostics,
) -> Result<(), NoMemory>
    ensures known { OnOk result (facts.new ≡ ((arm_read tree.now).steps span (context_of enclosing.now facts.old)).facts) }
    ensures noted { OnOk result (diagnostics.new ≡ all_noted diagnostics.old ((arm_read tree.now).steps span (context_of enclosing.now facts.old)).found) }
{
    let formals = tree.formals.as_slice();
    let operation = operation_named(alloc, facts, &tree.operation)?;
    note_head(
        facts,
        enclosing.procs,
        diagnostics,
        span,
        formals,
        tree.returned.is_some(),
        &operation,
    )?;
    bind_operation(alloc, facts, formals, &tree.returned, &operation)?;
    note_guards(alloc, facts, diagnostics, &tree.condition, &tree.order)?;
    let within = serving_for(
        enclosing,
        spot_or(Spot::of(tree.operation.span), &operation),
    );
    block(alloc, tree.block.as_slice(), &within, facts, diagnostics)
}

#[cycle(statements)]
fn co_arms(
    alloc: Global,
    trees: &[CoArm],
    span: Span,
    enclosing: &Enclosing<'_>,
    facts: &mut Facts,
    diagnostics: &mut Diagnostics,
) -> Result<(), NoMemory>
    ensures known { OnOk result (facts.new ≡ (in_order (co_arms_at span (map co_arm_read trees.now)) (context_of enclosing.now facts.old)).facts) }
    ensures noted { OnOk result (diagnostics.new ≡ all_noted diagnostics.old (in_order (co_arms_at span (map co_arm_read trees.now)) (context_of enclosing.now facts.old)).found) }
{
    for tree in trees {
        co_arm(alloc, tree, span, enclosing, facts, diagnostics)?;
    }
    Ok(())
}

/// Notes what is found in an arm of a `co` that stands at a span.
#[cycle(statements)]
fn co_arm(
    alloc: Global,
    tree: &CoArm,
    span: Span,
    enclosing: &Enclosing<'_>,
    facts: &mut Facts,
    diagnostics: &mut Diagnostics,
) -> Result<(), NoMemory>
    ensures known { OnOk result (facts.new ≡ (co_arm_read tree.now span (context_of enclosing.now facts.old)).facts) }
    ensures noted { OnOk result (diagnostics.new ≡ all_noted diagnostics.old (co_arm_read tree.now span (context_of enclosing.now facts.old)).found) }
{
    quantifiers(alloc, facts, diagnostics, tree.quantifiers.as_slice())?;
    note_started(
        alloc,
        facts,
        diagnostics,
        span,
        &tree.target,
        &tree.invocation,
    )?;
    match &tree.block {
        Some(items) => block(
            alloc,
            items.as_slice(),
            &looping(enclosing),
            facts,
            diagnostics,
        ),
        None => Ok(()),
    }
}
