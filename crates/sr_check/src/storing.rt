ghost use Rattle.std.specs.Prelude.{◌≡◌, ◌++◌, OnOk};
ghost use Rattle.sr_names.specs.Diagnostics.{all_noted};
ghost use Rattle.sr_types.specs.Storing.{store_rule};
ghost use Rattle.sr_check_expr.specs.Exprs.{infer_expr};
ghost use Rattle.sr_check_expr.specs.Typings.{broken_unless, valued, value_found};
ghost use Rattle.sr_check.specs.Storing.{counter_rule, exchange_rule, assign_found, exchange_found, counter_found, status_found, destroy_found};

use crate::uses::{may_be_destroyed, may_be_number};
use sr_check_expr::{Facts, TypedExpr, expr, note_unless, note_value};
use sr_names::{Diagnostics, Rule};
use sr_tree::Expr;
use sr_types::{Typed, may_be_int, may_store};
use sr_value::{NoMemory, Span};
use std::alloc::Global;

/// Whether an expression may stand before `++` or `--`: a place of `int`.
fn may_be_counted(place: &Typed) -> bool
    ensures { result ≡ counter_rule place.now }
{
    place.is_place && may_be_int(&place.ty)
}

/// Whether two places may be exchanged: each may be stored to the other.
fn may_exchange(left: &Typed, right: &Typed) -> bool
    ensures { result ≡ exchange_rule left.now right.now }
{
    may_store(left, right) && may_store(right, left)
}

fn note_stored(
    diagnostics: &mut Diagnostics,
    span: Span,
    place: &TypedExpr,
    value: &TypedExpr,
) -> Result<(), NoMemory>
    ensures { OnOk result (diagnostics.new ≡ all_noted diagnostics.old (value_found value.now ++ broken_unless (store_rule place.now.typed value.now.typed) Rule.BadType span)) }
{
    let met = may_store(&place.typed, &value.typed);
    note_value(diagnostics, value)?;
    note_unless(diagnostics, met, Rule::BadType, span)
}

/// Notes what is found where an expression is assigned to what was judged already.
fn note_assign_to(
    alloc: Global,
    facts: &Facts,
    diagnostics: &mut Diagnostics,
    span: Span,
    place: &TypedExpr,
    tree: &Expr,
) -> Result<(), NoMemory>
    ensures { let value = infer_expr tree.now facts.now in OnOk result (diagnostics.new ≡ all_noted diagnostics.old (value_found place.now ++ (valued value ++ broken_unless (store_rule place.now.typed value.typed_expr.typed) Rule.BadType span))) }
{
    note_value(diagnostics, place)?;
    let value = expr(alloc, tree, facts, diagnostics)?;
    note_stored(diagnostics, span, place, &value)
}

/// Notes what is found at `place := value`.
pub(crate) fn note_assign(
    alloc: Global,
    facts: &Facts,
    diagnostics: &mut Diagnostics,
    span: Span,
    place: &Expr,
    value: &Expr,
) -> Result<(), NoMemory>
    ensures { OnOk result (diagnostics.new ≡ all_noted diagnostics.old (assign_found facts.now span place.now value.now)) }
{
    let place = expr(alloc, place, facts, diagnostics)?;
    note_assign_to(alloc, facts, diagnostics, span, &place, value)
}

fn note_exchanged(
    diagnostics: &mut Diagnostics,
    span: Span,
    left: &TypedExpr,
    right: &TypedExpr,
) -> Result<(), NoMemory>
    ensures { OnOk result (diagnostics.new ≡ all_noted diagnostics.old (value_found right.now ++ broken_unless (exchange_rule left.now.typed right.now.typed) Rule.BadType span)) }
{
    let met = may_exchange(&left.typed, &right.typed);
    note_value(diagnostics, right)?;
    note_unless(diagnostics, met, Rule::BadType, span)
}

/// Notes what is found where an expression is exchanged with what was judged already.
fn note_exchange_with(
    alloc: Global,
    facts: &Facts,
    diagnostics: &mut Diagnostics,
    span: Span,
    left: &TypedExpr,
    tree: &Expr,
) -> Result<(), NoMemory>
    ensures { let right = infer_expr tree.now facts.now in OnOk result (diagnostics.new ≡ all_noted diagnostics.old (value_found left.now ++ (valued right ++ broken_unless (exchange_rule left.now.typed right.typed_expr.typed) Rule.BadType span))) }
{
    note_value(diagnostics, left)?;
    let right = expr(alloc, tree, facts, diagnostics)?;
    note_exchanged(diagnostics, span, left, &right)
}

/// Notes what is found at `left :=: right`.
pub(crate) fn note_exchange(
    alloc: Global,
    facts: &Facts,
    diagnostics: &mut Diagnostics,
    span: Span,
    left: &Expr,
    right: &Expr,
) -> Result<(), NoMemory>
    ensures { OnOk result (diagnostics.new ≡ all_noted diagnostics.old (exchange_found facts.now span left.now right.now)) }
{
    let left = expr(alloc, left, facts, diagnostics)?;
    note_exchange_with(alloc, facts, diagnostics, span, &left, right)
}

/// Notes what is found at `place++` and `place--`.
pub(crate) fn note_counter(
    alloc: Global,
    facts: &Facts,
    diagnostics: &mut Diagnostics,
    span: Span,
    place: &Expr,
) -> Result<(), NoMemory>
    ensures { OnOk result (diagnostics.new ≡ all_noted diagnostics.old (counter_found facts.now span place.now)) }
{
    let place = expr(alloc, place, facts, diagnostics)?;
    note_value(diagnostics, &place)?;
    note_unless(
        diagnostics,
        may_be_counted(&place.typed),
        Rule::BadType,
        span,
    )
}

/// Notes what is found at `stop`.
pub(crate) fn note_stop(
    alloc: Global,
    facts: &Facts,
    diagnostics: &mut Diagnostics,
    span: Span,
    status: &Option<Expr>,
) -> Result<(), NoMemory>
    ensures { OnOk result (diagnostics.new ≡ all_noted diagnostics.old (status_found facts.now span status.now)) }
{
    match status {
        None => Ok(()),
        Some(status) => {
            let status = expr(alloc, status, facts, diagnostics)?;
            note_value(diagnostics, &status)?;
            note_unless(
                diagnostics,
                may_be_number(&status.typed),
                Rule::BadType,
                span,
            )
        }
    }
}

/// Notes what is found at `destroy`.
pub(crate) fn note_destroy(
    alloc: Global,
    facts: &Facts,
    diagnostics: &mut Diagnostics,
    span: Span,
    target: &Expr,
) -> Result<(), NoMemory>
    ensures { OnOk result (diagnostics.new ≡ all_noted diagnostics.old (destroy_found facts.now span target.now)) }
{
    let target = expr(alloc, target, facts, diagnostics)?;
    note_value(diagnostics, &target)?;
    note_unless(
        diagnostics,
        may_be_destroyed(&target.typed),
        Rule::BadType,
        span,
    )
}
