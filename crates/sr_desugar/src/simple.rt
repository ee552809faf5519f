//! Invocations as statements.
ghost use Rattle.std.specs.Prelude.{◌≡◌, IfOk};
ghost use Rattle.sr_lower_expr.specs.Expressions as exprs;
ghost use Rattle.sr_desugar.specs.Statements as statements;
ghost use Rattle.sr_core.specs.declared.statement.Action.TheVariants as actions;
ghost use Rattle.sr_tree.specs.declared.statement.Statement.{out-Statement};

use sr_core::{Action, Expr, Statement};
use sr_lower_expr::{Scene, Sent, core_call, core_sent, core_values, nothing};
use sr_names::Predefined;
use sr_tables::line_of;
use sr_tree::Invocation;
use sr_value::{NoMemory, Row, Span};
use std::alloc::Global;

/// A statement without blocks, at the line of its first token.
pub fn act(span: Span, action: Action) -> Statement
    ensures { result ≡ statements.act span action }
{
    Statement::Act {
        place: line_of(span),
        action,
    }
}

/// `send f(a)`.
pub fn send(alloc: Global, tree: &Invocation, scene: &Scene) -> Result<Action, NoMemory>
    ensures { IfOk result (λ action. action ≡ statements.send_of scene.now (exprs.core_sending scene.now tree.now)) }
{
    let Sent { target, args, .. } = core_sent(alloc, tree, scene)?;
    Ok(Action::Send {
        target: target.into_inner(),
        args,
    })
}

/// `forward f(a)`.
pub fn forward(alloc: Global, tree: &Invocation, scene: &Scene) -> Result<Action, NoMemory>
    ensures { IfOk result (λ action. action ≡ statements.forward_of scene.now (exprs.core_sending scene.now tree.now)) }
{
    let Sent { target, args, .. } = core_sent(alloc, tree, scene)?;
    Ok(Action::Forward {
        target: target.into_inner(),
        args,
    })
}

/// The first of expressions.
fn first_of(exprs: Row<Expr>) -> Expr
    ensures { result ≡ statements.first_expr exprs }
{
    let mut exprs = exprs;
    exprs.truncate(1);
    match exprs.pop() {
        Some(expr) => expr,
        None => nothing(),
    }
}

/// `V(e)` is `send e()`.
#[tactic(auto, using(sr_lower_expr::proofs::Values::values_of_pairs))]
fn v_action(alloc: Global, tree: &Invocation, scene: &Scene) -> Result<Action, NoMemory>
    ensures { IfOk result (λ action. action ≡ statements.v_action (exprs.core_sending scene.now tree.now)) }
{
    let exprs = core_values(alloc, tree.arguments.as_slice(), scene)?;
    Ok(Action::Send {
        target: first_of(exprs),
        args: Row::new(alloc),
    })
}

/// `write` and `writes`.
#[tactic(auto, using(sr_lower_expr::proofs::Values::values_of_pairs))]
fn write(alloc: Global, tree: &Invocation, line: bool, scene: &Scene) -> Result<Action, NoMemory>
    ensures { IfOk result (λ action. action ≡ actions.Write (statements.all_told (exprs.core_sending scene.now tree.now)) line) }
{
    Ok(Action::Write {
        args: core_values(alloc, tree.arguments.as_slice(), scene)?,
        line,
    })
}

/// A call whose value isn't used.
fn evaluate(alloc: Global, tree: &Invocation, scene: &Scene) -> Result<Action, NoMemory>
    ensures { IfOk result (λ action. action ≡ statements.evaluation scene.now tree.now) }
{
    Ok(Action::Evaluate(core_call(alloc, tree, scene)?))
}

/// A call of a predefined function whose value isn't used.
fn call_named(
    alloc: Global,
    name: Predefined,
    tree: &Invocation,
    scene: &Scene,
) -> Result<Action, NoMemory>
    ensures { IfOk result (λ action. action ≡ statements.named_action scene.now tree.now name) }
{
    match name {
        Predefined::Write => write(alloc, tree, true, scene),
        Predefined::Writes => write(alloc, tree, false, scene),
        Predefined::V => v_action(alloc, tree, scene),
        _ => evaluate(alloc, tree, scene),
    }
}

/// A call whose value isn't used, by the predefined function that it calls.
pub fn call(
    alloc: Global,
    function: Option<Predefined>,
    tree: &Invocation,
    scene: &Scene,
) -> Result<Action, NoMemory>
    ensures { IfOk result (λ action. action ≡ statements.call_action scene.now tree.now function) }
{
    match function {
        None => evaluate(alloc, tree, scene),
        Some(name) => call_named(alloc, name, tree, scene),
    }
}

/// The first token of a statement.
pub fn first_token(tree: &sr_tree::Statement) -> Span
    ensures { result ≡ statements.first_token (out-Statement tree.now) }
{
    match tree {
        sr_tree::Statement::Skip { span }
        | sr_tree::Statement::Exit { span }
        | sr_tree::Statement::Next { span }
        | sr_tree::Statement::Return { span }
        | sr_tree::Statement::Reply { span }
        | sr_tree::Statement::Stop { span, .. }
        | sr_tree::Statement::Call { span, .. }
        | sr_tree::Statement::Send { span, .. }
        | sr_tree::Statement::Forward { span, .. }
        | sr_tree::Statement::Receive { span, .. }
        | sr_tree::Statement::Assign { span, .. }
        | sr_tree::Statement::Exchange { span, .. }
        | sr_tree::Statement::Increment { span, .. }
        | sr_tree::Statement::Decrement { span, .. }
        | sr_tree::Statement::If { span, .. }
        | sr_tree::Statement::Do { span, .. }
        | sr_tree::Statement::ForAll { span, .. }
        | sr_tree::Statement::In { span, .. }
        | sr_tree::Statement::Co { span, .. }
        | sr_tree::Statement::Destroy { span, .. }
        | sr_tree::Statement::Create { span, .. } => *span,
    }
}
