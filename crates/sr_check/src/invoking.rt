ghost use Rattle.std.specs.Prelude.{◌≡◌, ◌++◌, [], true, IfOk, OnOk};
ghost use Rattle.sr_names.specs.Diagnostics.{all_noted};
ghost use Rattle.sr_check_expr.specs.Arguments.{is_callable, returned_by};
ghost use Rattle.sr_check_expr.specs.Exprs.{infer_invocation};
ghost use Rattle.sr_check_expr.specs.Typings.{broken_unless, value_found};
ghost use Rattle.sr_check.specs.Contexts.{context_of};
ghost use Rattle.sr_check.specs.Invoking.{is_operation_name, callee_rule, invoked_found, written_found, named_operation, semaphore_found, p_found, v_found, function_called, called_found, call_found, send_found, is_serving, served_type, same_results, forward_found, may_reply, started_found, result_found, place_found};

use crate::enclosing::Enclosing;
use crate::operation::Operation;
use crate::results::same_results;
use crate::services::{note_service, operation_by};
use crate::serving::Serving;
use crate::uses::may_be_output;
use sr_check_expr::{
    Facts, Invoked, Named, TypedExpr, expr, function, invocation, is_callable, is_sendable, known,
    note_invocation, note_unless, note_value, note_values, returned_by, takes_as_many,
};
use sr_names::{Diagnostics, Predefined, Rule};
use sr_tree::{Expr, Invocation};
use sr_types::{Static, Ty, may_store};
use sr_value::{NoMemory, Span};
use std::alloc::Global;

/// Whether what is named may be an operation.
fn is_operation_name(named: &Named) -> bool
    ensures { result ≡ is_operation_name named.now }
{
    !matches!(named, Named::Predefined(_) | Named::Type(_))
}

/// Whether a callee is an operation with as many formals as there are arguments.
fn may_be_invoked(facts: &Facts, callee: &TypedExpr, arguments: &[TypedExpr]) -> bool
    ensures { result ≡ callee_rule facts.now callee.now arguments.now }
{
    is_operation_name(&callee.named)
        && takes_as_many(&facts.signatures, &callee.typed.ty, arguments)
}

/// Notes what is found at an invocation as a statement, in a form that its operation allows or not.
fn note_invoked(
    facts: &Facts,
    diagnostics: &mut Diagnostics,
    span: Span,
    allowed: bool,
    callee: &TypedExpr,
    arguments: &[TypedExpr],
) -> Result<(), NoMemory>
    ensures { OnOk result (diagnostics.new ≡ all_noted diagnostics.old (invoked_found facts.now span allowed callee.now arguments.now)) }
{
    note_invocation(facts, diagnostics, span, callee, arguments)?;
    note_unless(
        diagnostics,
        may_be_invoked(facts, callee, arguments),
        Rule::BadType,
        span,
    )?;
    note_unless(diagnostics, allowed, Rule::BadUse, span)
}

/// Notes the arguments that have no text.
fn note_written(diagnostics: &mut Diagnostics, arguments: &[TypedExpr]) -> Result<(), NoMemory>
    ensures { OnOk result (diagnostics.new ≡ all_noted diagnostics.old (written_found arguments.now)) }
{
    for argument in arguments {
        note_unless(
            diagnostics,
            may_be_output(&argument.typed),
            Rule::BadType,
            argument.span,
        )?;
    }
    Ok(())
}

/// The operation that an expression names.
fn named_operation(
    alloc: Global,
    facts: &Facts,
    named: &Named,
) -> Result<Option<Operation>, NoMemory>
    ensures { IfOk result (λ operation. operation ≡ named_operation facts.now named.now) }
{
    match named {
        Named::Operation(spot) => operation_by(alloc, *spot, facts.infos.get(*spot)),
        _ => Ok(None),
    }
}

fn note_semaphore(
    facts: &Facts,
    enclosing: &Enclosing<'_>,
    diagnostics: &mut Diagnostics,
    span: Span,
    operation: &Option<Operation>,
) -> Result<(), NoMemory>
    ensures { OnOk result (diagnostics.new ≡ all_noted diagnostics.old (semaphore_found (context_of enclosing.now facts.now) span operation.now)) }
{
    match operation {
        None => note_unless(diagnostics, false, Rule::BadType, span),
        Some(operation) => {
            note_unless(
                diagnostics,
                takes_as_many(&facts.signatures, &operation.ty, &[]),
                Rule::BadType,
                span,
            )?;
            note_service(facts, enclosing.procs, diagnostics, span, operation)
        }
    }
}

/// Notes what is found at `P(s)`, apart from its arguments.
fn note_p(
    alloc: Global,
    facts: &Facts,
    enclosing: &Enclosing<'_>,
    diagnostics: &mut Diagnostics,
    span: Span,
    arguments: &[TypedExpr],
) -> Result<(), NoMemory>
    ensures { OnOk result (diagnostics.new ≡ all_noted diagnostics.old (p_found (context_of enclosing.now facts.now) span arguments.now)) }
{
    match arguments {
        [semaphore] => {
            let operation = named_operation(alloc, facts, &semaphore.named)?;
            note_semaphore(facts, enclosing, diagnostics, span, &operation)
        }
        _ => note_unless(diagnostics, false, Rule::BadType, span),
    }
}

/// Notes what is found at `V(e)`.
fn note_v(
    facts: &Facts,
    diagnostics: &mut Diagnostics,
    span: Span,
    arguments: &[TypedExpr],
) -> Result<(), NoMemory>
    ensures { OnOk result (diagnostics.new ≡ all_noted diagnostics.old (v_found facts.now span arguments.now)) }
{
    match arguments {
        [callee] => {
            note_invoked(
                facts,
                diagnostics,
                span,
                is_sendable(&facts.signatures, &callee.typed.ty),
                callee,
                &[],
            )
        }
        _ => note_unless(diagnostics, false, Rule::BadType, span),
    }
}

/// Notes what is found at a call of a predefined function as a statement.
fn note_function(
    alloc: Global,
    facts: &Facts,
    enclosing: &Enclosing<'_>,
    diagnostics: &mut Diagnostics,
    span: Span,
    name: Predefined,
    arguments: &[TypedExpr],
) -> Result<(), NoMemory>
    ensures { OnOk result (diagnostics.new ≡ all_noted diagnostics.old (function_called (context_of enclosing.now facts.now) span name arguments.now)) }
{
    match name {
        Predefined::Write | Predefined::Writes => {
            note_values(diagnostics, arguments)?;
            note_written(diagnostics, arguments)
        }
        Predefined::Read => {
            function(alloc, facts, diagnostics, span, name, arguments)?;
            Ok(())
        }
        Predefined::P => {
            note_values(diagnostics, arguments)?;
            note_p(alloc, facts, enclosing, diagnostics, span, arguments)
        }
        Predefined::V => note_v(facts, diagnostics, span, arguments),
        _ => {
            note_values(diagnostics, arguments)?;
            note_unless(diagnostics, false, Rule::BadType, span)
        }
    }
}

/// Notes what is found at a call as a statement, apart from its parts.
fn note_called(
    alloc: Global,
    facts: &Facts,
    enclosing: &Enclosing<'_>,
    diagnostics: &mut Diagnostics,
    span: Span,
    parts: &Invoked,
) -> Result<(), NoMemory>
    ensures { OnOk result (diagnostics.new ≡ all_noted diagnostics.old (called_found (context_of enclosing.now facts.now) span parts.now.callee parts.now.arguments parts.now.callee.named)) }
{
    let arguments = parts.arguments.as_slice();
    match &parts.callee.named {
        Named::Predefined(name) => {
            note_function(alloc, facts, enclosing, diagnostics, span, *name, arguments)
        }
        _ => {
            let allowed = is_callable(&facts.signatures, &parts.callee.typed.ty);
            note_invoked(facts, diagnostics, span, allowed, &parts.callee, arguments)
        }
    }
}

/// Notes what is found at `call f(a)`, whose result is left.
pub(crate) fn note_call(
    alloc: Global,
    facts: &Facts,
    enclosing: &Enclosing<'_>,
    diagnostics: &mut Diagnostics,
    span: Span,
    tree: &Invocation,
) -> Result<(), NoMemory>
    ensures { OnOk result (diagnostics.new ≡ all_noted diagnostics.old (call_found (context_of enclosing.now facts.now) span (infer_invocation tree.now facts.now))) }
{
    let parts = invocation(alloc, tree, facts, diagnostics)?;
    note_called(alloc, facts, enclosing, diagnostics, span, &parts)
}

/// Notes what is found at `send f(a)`.
pub(crate) fn note_send(
    alloc: Global,
    facts: &Facts,
    diagnostics: &mut Diagnostics,
    span: Span,
    tree: &Invocation,
) -> Result<(), NoMemory>
    ensures { OnOk result (diagnostics.new ≡ all_noted diagnostics.old (send_found facts.now span (infer_invocation tree.now facts.now))) }
{
    let parts = invocation(alloc, tree, facts, diagnostics)?;
    let allowed = is_sendable(&facts.signatures, &parts.callee.typed.ty);
    note_invoked(
        facts,
        diagnostics,
        span,
        allowed,
        &parts.callee,
        parts.arguments.as_slice(),
    )
}

fn is_serving(serving: Serving) -> bool
    ensures { result ≡ is_serving serving }
{
    matches!(serving, Serving::Serves(_))
}

/// Whether what an operation gives back is what the one that is served gives back.
fn gives_same(alloc: Global, facts: &Facts, serving: Serving, callee: &Ty) -> Result<bool, NoMemory>
    ensures { IfOk result (λ same. same ≡ same_results facts.now (served_type facts.now serving) callee.now) }
{
    match serving {
        Serving::Serves(spot) => match operation_by(alloc, spot, facts.infos.get(spot))? {
            Some(operation) => same_types(alloc, facts, &operation.ty, callee),
            None => Ok(true),
        },
        _ => Ok(true),
    }
}

fn same_types(alloc: Global, facts: &Facts, own: &Ty, callee: &Ty) -> Result<bool, NoMemory>
    ensures { IfOk result (λ same. same ≡ same_results facts.now own.now callee.now) }
{
    match facts.signatures.of(own) {
        Some(own) => match facts.signatures.of(callee) {
            Some(callee) => same_results(alloc, own, callee),
            None => Ok(true),
        },
        None => Ok(true),
    }
}

/// Notes what is found at a `forward`, apart from its parts.
fn note_forwarded(
    alloc: Global,
    facts: &Facts,
    serving: Serving,
    diagnostics: &mut Diagnostics,
    span: Span,
    parts: &Invoked,
) -> Result<(), NoMemory>
    ensures { OnOk result (diagnostics.new ≡ all_noted diagnostics.old (invoked_found facts.now span true parts.now.callee parts.now.arguments
        ++ (broken_unless (is_serving serving) Rule.BadUse span
        ++ broken_unless (same_results facts.now (served_type facts.now serving) parts.now.callee.typed.ty) Rule.BadType span))) }
{
    let callee = &parts.callee;
    note_invoked(
        facts,
        diagnostics,
        span,
        true,
        callee,
        parts.arguments.as_slice(),
    )?;
    note_unless(diagnostics, is_serving(serving), Rule::BadUse, span)?;
    let same = gives_same(alloc, facts, serving, &callee.typed.ty)?;
    note_unless(diagnostics, same, Rule::BadType, span)
}

/// Notes what is found at `forward g(a)`.
pub(crate) fn note_forward(
    alloc: Global,
    facts: &Facts,
    enclosing: &Enclosing<'_>,
    diagnostics: &mut Diagnostics,
    span: Span,
    tree: &Invocation,
) -> Result<(), NoMemory>
    ensures { OnOk result (diagnostics.new ≡ all_noted diagnostics.old (forward_found (context_of enclosing.now facts.now) span (infer_invocation tree.now facts.now))) }
{
    let parts = invocation(alloc, tree, facts, diagnostics)?;
    note_forwarded(alloc, facts, enclosing.serving, diagnostics, span, &parts)
}

/// Whether `reply` may stand there.
pub(crate) fn may_reply(serving: Serving) -> bool
    ensures { result ≡ may_reply serving }
{
    !matches!(serving, Serving::Ends)
}

/// Notes where what an arm of a `co` gives back isn't stored to its place.
fn note_result(
    diagnostics: &mut Diagnostics,
    span: Span,
    target: &TypedExpr,
    returned: Option<Ty>,
    invoked: Span,
) -> Result<(), NoMemory>
    ensures { OnOk result (diagnostics.new ≡ all_noted diagnostics.old (result_found span target.now returned invoked)) }
{
    match returned {
        None => note_unless(diagnostics, false, Rule::BadType, invoked),
        Some(ty) => {
            let met = may_store(&target.typed, &known(ty, Static::Unknown));
            note_unless(diagnostics, met, Rule::BadType, span)
        }
    }
}

/// Notes what is found where what a callee of a type gives back goes to a place.
fn note_place(
    alloc: Global,
    facts: &Facts,
    diagnostics: &mut Diagnostics,
    span: Span,
    target: &TypedExpr,
    callee: &Ty,
    invoked: Span,
) -> Result<(), NoMemory>
    ensures { OnOk result (diagnostics.new ≡ all_noted diagnostics.old (value_found target.now ++ result_found span target.now (returned_by facts.now.signatures callee.now) invoked)) }
{
    note_value(diagnostics, target)?;
    let returned = returned_by(alloc, &facts.signatures, callee)?;
    note_result(diagnostics, span, target, returned, invoked)
}

/// Notes what is found at the place of an arm of a `co`.
fn note_target(
    alloc: Global,
    facts: &Facts,
    diagnostics: &mut Diagnostics,
    span: Span,
    target: &Option<Expr>,
    callee: &Ty,
    invoked: Span,
) -> Result<(), NoMemory>
    ensures { OnOk result (diagnostics.new ≡ all_noted diagnostics.old (place_found facts.now span target.now callee.now invoked)) }
{
    match target {
        None => Ok(()),
        Some(target) => {
            let target = expr(alloc, target, facts, diagnostics)?;
            note_place(alloc, facts, diagnostics, span, &target, callee, invoked)
        }
    }
}

/// Notes what is found at an arm of a `co`, apart from the parts of its invocation.
fn note_begun(
    alloc: Global,
    facts: &Facts,
    diagnostics: &mut Diagnostics,
    span: Span,
    target: &Option<Expr>,
    parts: &Invoked,
    invoked: Span,
) -> Result<(), NoMemory>
    ensures { OnOk result (diagnostics.new ≡ all_noted diagnostics.old (invoked_found facts.now invoked (is_callable facts.now.signatures parts.now.callee.typed.ty) parts.now.callee parts.now.arguments
        ++ place_found facts.now span target.now parts.now.callee.typed.ty invoked)) }
{
    let callee = &parts.callee;
    let allowed = is_callable(&facts.signatures, &callee.typed.ty);
    note_invoked(
        facts,
        diagnostics,
        invoked,
        allowed,
        callee,
        parts.arguments.as_slice(),
    )?;
    note_target(
        alloc,
        facts,
        diagnostics,
        span,
        target,
        &callee.typed.ty,
        invoked,
    )
}

/// Notes what is found at the place and the invocation of an arm of a `co` that stands at a span.
pub(crate) fn note_started(
    alloc: Global,
    facts: &Facts,
    diagnostics: &mut Diagnostics,
    span: Span,
    target: &Option<Expr>,
    tree: &Invocation,
) -> Result<(), NoMemory>
    ensures { OnOk result (diagnostics.new ≡ all_noted diagnostics.old (started_found facts.now span target.now (infer_invocation tree.now facts.now))) }
{
    let parts = invocation(alloc, tree, facts, diagnostics)?;
    note_begun(alloc, facts, diagnostics, span, target, &parts, tree.span)
}
