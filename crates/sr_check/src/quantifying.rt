ghost use Rattle.std.specs.Prelude.{◌≡◌, OnOk};
ghost use Rattle.sr_names.specs.Diagnostics.{all_noted};
ghost use Rattle.sr_check.specs.Uses.{condition_rule, number_rule};
ghost use Rattle.sr_check.specs.Quantifying.{expr_with, maybe_with, quantified, bounds_found, quantifier_found, quantifiers_found, quantifiers_known};

use crate::uses::{may_be_condition, may_be_number};
use sr_check_decl::declare_name;
use sr_check_expr::{Facts, Info, expr, known, note_unless, note_value};
use sr_names::{Diagnostics, Rule};
use sr_tree::{Expr, Name, Quantifier};
use sr_types::{Static, Ty};
use sr_value::NoMemory;
use std::alloc::Global;

/// Notes what is found in a condition: it is a `bool`.
pub(crate) fn note_condition(
    alloc: Global,
    facts: &Facts,
    diagnostics: &mut Diagnostics,
    tree: &Expr,
) -> Result<(), NoMemory>
    ensures { OnOk result (diagnostics.new ≡ all_noted diagnostics.old (expr_with condition_rule facts.now tree.now)) }
{
    let condition = expr(alloc, tree, facts, diagnostics)?;
    note_value(diagnostics, &condition)?;
    note_unless(
        diagnostics,
        may_be_condition(&condition.typed),
        Rule::BadType,
        condition.span,
    )
}

/// Notes what is found in a condition that may be left out.
pub(crate) fn note_maybe_condition(
    alloc: Global,
    facts: &Facts,
    diagnostics: &mut Diagnostics,
    tree: &Option<Expr>,
) -> Result<(), NoMemory>
    ensures { OnOk result (diagnostics.new ≡ all_noted diagnostics.old (maybe_with condition_rule facts.now tree.now)) }
{
    match tree {
        None => Ok(()),
        Some(condition) => note_condition(alloc, facts, diagnostics, condition),
    }
}

/// Notes what is found in a bound or a step: it is an `int`.
fn note_number(
    alloc: Global,
    facts: &Facts,
    diagnostics: &mut Diagnostics,
    tree: &Expr,
) -> Result<(), NoMemory>
    ensures { OnOk result (diagnostics.new ≡ all_noted diagnostics.old (expr_with number_rule facts.now tree.now)) }
{
    let number = expr(alloc, tree, facts, diagnostics)?;
    note_value(diagnostics, &number)?;
    note_unless(
        diagnostics,
        may_be_number(&number.typed),
        Rule::BadType,
        number.span,
    )
}

fn note_step(
    alloc: Global,
    facts: &Facts,
    diagnostics: &mut Diagnostics,
    tree: &Option<Expr>,
) -> Result<(), NoMemory>
    ensures { OnOk result (diagnostics.new ≡ all_noted diagnostics.old (maybe_with number_rule facts.now tree.now)) }
{
    match tree {
        None => Ok(()),
        Some(step) => note_number(alloc, facts, diagnostics, step),
    }
}

fn note_bounds(
    alloc: Global,
    facts: &Facts,
    diagnostics: &mut Diagnostics,
    tree: &Quantifier,
) -> Result<(), NoMemory>
    ensures { OnOk result (diagnostics.new ≡ all_noted diagnostics.old (bounds_found facts.now tree.now)) }
{
    note_number(alloc, facts, diagnostics, &tree.first)?;
    note_number(alloc, facts, diagnostics, &tree.last)?;
    note_step(alloc, facts, diagnostics, &tree.step)
}

/// Declares the variable of a quantifier.
fn declare_quantified(facts: &mut Facts, name: &Name) -> Result<(), NoMemory>
    ensures { OnOk result (facts.new ≡ quantified facts.old name.now) }
{
    declare_name(facts, name, Info::Value(known(Ty::Int, Static::Unknown)))
}

fn quantifier(
    alloc: Global,
    facts: &mut Facts,
    diagnostics: &mut Diagnostics,
    tree: &Quantifier,
) -> Result<(), NoMemory>
    ensures known { OnOk result (facts.new ≡ quantified facts.old tree.now.name) }
    ensures noted { OnOk result (diagnostics.new ≡ all_noted diagnostics.old (quantifier_found facts.old tree.now)) }
{
    note_bounds(alloc, facts, diagnostics, tree)?;
    declare_quantified(facts, &tree.name)?;
    note_maybe_condition(alloc, facts, diagnostics, &tree.such_that)
}

/// Declares the variables of quantifiers one after another, and notes what is found in them.
pub(crate) fn quantifiers(
    alloc: Global,
    facts: &mut Facts,
    diagnostics: &mut Diagnostics,
    trees: &[Quantifier],
) -> Result<(), NoMemory>
    ensures known { OnOk result (facts.new ≡ quantifiers_known facts.old trees.now) }
    ensures noted { OnOk result (diagnostics.new ≡ all_noted diagnostics.old (quantifiers_found facts.old trees.now)) }
{
    for tree in trees {
        quantifier(alloc, facts, diagnostics, tree)?;
    }
    Ok(())
}
