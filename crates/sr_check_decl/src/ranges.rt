ghost use Rattle.std.specs.Prelude.{◌≡◌, ◌++◌, IfOk, OnOk};
ghost use Rattle.sr_names.specs.Diagnostics.{all_noted};
ghost use Rattle.sr_check_expr.specs.Exprs.{infer_expr};
ghost use Rattle.sr_check_expr.specs.Typings.{broken_unless, value_found};
ghost use Rattle.sr_check_decl.specs.Bounds.{static_int};
ghost use Rattle.sr_check_decl.specs.TypeTrees.{bound_rule, length_rule, bound_found, length_found, ends_rule, star_found, range_found, second_range_found, dims_found, string_found};

use crate::bounds::{are_in_range, known_int, may_be_bound, may_be_fixed, may_be_fixed_length};
use crate::kind::BoundPolicy;
use sr_check_expr::{Facts, TypedExpr, expr, note_unless, note_value};
use sr_names::{Diagnostics, Rule};
use sr_tree::{DimsTree, Expr, RangeTree};
use sr_types::Typed;
use sr_value::{NoMemory, Span};
use std::alloc::Global;

/// Whether an expression may be a bound.
fn is_bound(fixed: bool, bound: &Typed) -> bool
    ensures { result ≡ bound_rule fixed bound.now }
{
    if fixed {
        may_be_fixed(bound)
    } else {
        may_be_bound(bound)
    }
}

/// Whether an expression may be the length of a string.
fn is_length(fixed: bool, length: &Typed) -> bool
    ensures { result ≡ length_rule fixed length.now }
{
    if fixed {
        may_be_fixed_length(length)
    } else {
        may_be_bound(length)
    }
}

fn bound_value(
    diagnostics: &mut Diagnostics,
    fixed: bool,
    typed_expr: &TypedExpr,
) -> Result<Option<i32>, NoMemory>
    ensures value { IfOk result (λ number. number ≡ static_int typed_expr.now.typed.value) }
    ensures noted { OnOk result (diagnostics.new ≡ all_noted diagnostics.old (value_found typed_expr.now ++ broken_unless (bound_rule fixed typed_expr.now.typed) Rule.BadType typed_expr.now.span)) }
{
    let met = is_bound(fixed, &typed_expr.typed);
    note_value(diagnostics, typed_expr)?;
    note_unless(diagnostics, met, Rule::BadType, typed_expr.span)?;
    Ok(known_int(&typed_expr.typed.value))
}

/// Notes what is found in a bound, and answers its number where it is known.
fn bound(
    alloc: Global,
    facts: &Facts,
    diagnostics: &mut Diagnostics,
    fixed: bool,
    tree: &Expr,
) -> Result<Option<i32>, NoMemory>
    ensures value { IfOk result (λ number. number ≡ static_int (infer_expr tree.now facts.now).typed_expr.typed.value) }
    ensures noted { OnOk result (diagnostics.new ≡ all_noted diagnostics.old (bound_found fixed (infer_expr tree.now facts.now))) }
{
    let typed_expr = expr(alloc, tree, facts, diagnostics)?;
    bound_value(diagnostics, fixed, &typed_expr)
}

fn note_length(
    diagnostics: &mut Diagnostics,
    fixed: bool,
    typed_expr: &TypedExpr,
) -> Result<(), NoMemory>
    ensures { OnOk result (diagnostics.new ≡ all_noted diagnostics.old (value_found typed_expr.now ++ broken_unless (length_rule fixed typed_expr.now.typed) Rule.BadType typed_expr.now.span)) }
{
    let met = is_length(fixed, &typed_expr.typed);
    note_value(diagnostics, typed_expr)?;
    note_unless(diagnostics, met, Rule::BadType, typed_expr.span)
}

/// Notes what is found in the length of a string.
fn length(
    alloc: Global,
    facts: &Facts,
    diagnostics: &mut Diagnostics,
    fixed: bool,
    tree: &Expr,
) -> Result<(), NoMemory>
    ensures { OnOk result (diagnostics.new ≡ all_noted diagnostics.old (length_found fixed (infer_expr tree.now facts.now))) }
{
    let typed_expr = expr(alloc, tree, facts, diagnostics)?;
    note_length(diagnostics, fixed, &typed_expr)
}

/// Whether two bounds are in range, where they have to be static.
fn are_ends(fixed: bool, low: Option<i32>, high: Option<i32>) -> bool
    ensures { result ≡ ends_rule fixed low high }
{
    !fixed || are_in_range(low, high)
}

/// Notes a `*` that may not stand there.
fn note_star(
    diagnostics: &mut Diagnostics,
    bound_policy: BoundPolicy,
    span: Span,
) -> Result<(), NoMemory>
    ensures { OnOk result (diagnostics.new ≡ all_noted diagnostics.old (star_found bound_policy span)) }
{
    note_unless(diagnostics, bound_policy.takes_star, Rule::BadType, span)
}

/// Notes what is found in the bounds of one dimension.
fn range(
    alloc: Global,
    facts: &Facts,
    diagnostics: &mut Diagnostics,
    bound_policy: BoundPolicy,
    tree: &RangeTree,
) -> Result<(), NoMemory>
    ensures { OnOk result (diagnostics.new ≡ all_noted diagnostics.old (range_found bound_policy facts.now tree.now)) }
{
    match tree {
        RangeTree::Length { span, length } => {
            let high = bound(alloc, facts, diagnostics, bound_policy.fixed, length)?;
            note_unless(
                diagnostics,
                are_ends(bound_policy.fixed, Some(1), high),
                Rule::BadType,
                *span,
            )
        }
        RangeTree::Bounds { span, low, high } => {
            let low = bound(alloc, facts, diagnostics, bound_policy.fixed, low)?;
            let high = bound(alloc, facts, diagnostics, bound_policy.fixed, high)?;
            note_unless(
                diagnostics,
                are_ends(bound_policy.fixed, low, high),
                Rule::BadType,
                *span,
            )
        }
        RangeTree::From { span, low } => {
            bound(alloc, facts, diagnostics, bound_policy.fixed, low)?;
            note_star(diagnostics, bound_policy, *span)
        }
        RangeTree::Any { span } => note_star(diagnostics, bound_policy, *span),
    }
}

fn second_range(
    alloc: Global,
    facts: &Facts,
    diagnostics: &mut Diagnostics,
    bound_policy: BoundPolicy,
    tree: &Option<RangeTree>,
) -> Result<(), NoMemory>
    ensures { OnOk result (diagnostics.new ≡ all_noted diagnostics.old (second_range_found bound_policy facts.now tree.now)) }
{
    match tree {
        Some(second) => range(alloc, facts, diagnostics, bound_policy, second),
        None => Ok(()),
    }
}

/// Notes what is found in the bounds of an array.
pub(crate) fn dims(
    alloc: Global,
    facts: &Facts,
    diagnostics: &mut Diagnostics,
    bound_policy: BoundPolicy,
    tree: &DimsTree,
) -> Result<(), NoMemory>
    ensures { OnOk result (diagnostics.new ≡ all_noted diagnostics.old (dims_found bound_policy facts.now tree.now)) }
{
    range(alloc, facts, diagnostics, bound_policy, &tree.first)?;
    second_range(alloc, facts, diagnostics, bound_policy, &tree.second)
}

/// Notes what is found in the length of a string, which may be `*`.
pub(crate) fn string(
    alloc: Global,
    facts: &Facts,
    diagnostics: &mut Diagnostics,
    bound_policy: BoundPolicy,
    span: Span,
    tree: &Option<Expr>,
) -> Result<(), NoMemory>
    ensures { OnOk result (diagnostics.new ≡ all_noted diagnostics.old (string_found bound_policy facts.now span tree.now)) }
{
    match tree {
        Some(given) => length(alloc, facts, diagnostics, bound_policy.fixed, given),
        None => note_star(diagnostics, bound_policy, span),
    }
}
