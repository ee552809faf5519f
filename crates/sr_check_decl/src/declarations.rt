ghost use Rattle.std.specs.Prelude.{◌≡◌, ◌++◌, OnOk};
ghost use Rattle.sr_names.specs.Diagnostics.{all_noted};
ghost use Rattle.sr_check_expr.specs.Exprs.{infer_expr};
ghost use Rattle.sr_check_expr.specs.Typings.{broken_unless, value_found};
ghost use Rattle.sr_check_decl.specs.Bounds.{int_rule};
ghost use Rattle.sr_check_decl.specs.Declarations.{ops_found, count_found, initial_found, sems_found, spec_item_found, spec_items_found};

use crate::bounds::may_be_bound;
use crate::constants::constant;
use crate::operations::op_type;
use crate::variables::note_variables;
use crate::written::{FIXED, signature, type_kind};
use sr_check_expr::{Facts, TypedExpr, expr, note_unless, note_value};
use sr_names::{Diagnostics, Rule};
use sr_tree::{Expr, OpItem, Semaphore, SpecItem};
use sr_value::NoMemory;
use std::alloc::Global;

/// Notes what is found in the declarations of operations.
pub fn note_operations(
    alloc: Global,
    facts: &Facts,
    diagnostics: &mut Diagnostics,
    items: &[OpItem],
) -> Result<(), NoMemory>
    ensures { OnOk result (diagnostics.new ≡ all_noted diagnostics.old (ops_found facts.now items.now)) }
{
    for item in items {
        op_type(alloc, facts, diagnostics, item)?;
    }
    Ok(())
}

fn note_typed_count(diagnostics: &mut Diagnostics, count: &TypedExpr) -> Result<(), NoMemory>
    ensures { OnOk result (diagnostics.new ≡ all_noted diagnostics.old (value_found count.now ++ broken_unless (int_rule count.now.typed) Rule.BadType count.now.span)) }
{
    note_value(diagnostics, count)?;
    note_unless(
        diagnostics,
        may_be_bound(&count.typed),
        Rule::BadType,
        count.span,
    )
}

/// Notes what is found in the value that a semaphore begins with.
fn note_count(
    alloc: Global,
    facts: &Facts,
    diagnostics: &mut Diagnostics,
    tree: &Expr,
) -> Result<(), NoMemory>
    ensures { OnOk result (diagnostics.new ≡ all_noted diagnostics.old (count_found (infer_expr tree.now facts.now))) }
{
    let count = expr(alloc, tree, facts, diagnostics)?;
    note_typed_count(diagnostics, &count)
}

fn note_initial(
    alloc: Global,
    facts: &Facts,
    diagnostics: &mut Diagnostics,
    tree: &Option<Expr>,
) -> Result<(), NoMemory>
    ensures { OnOk result (diagnostics.new ≡ all_noted diagnostics.old (initial_found facts.now tree.now)) }
{
    match tree {
        None => Ok(()),
        Some(value) => note_count(alloc, facts, diagnostics, value),
    }
}

/// Notes what is found in the declarations of semaphores.
pub fn note_semaphores(
    alloc: Global,
    facts: &Facts,
    diagnostics: &mut Diagnostics,
    semaphores: &[Semaphore],
) -> Result<(), NoMemory>
    ensures { OnOk result (diagnostics.new ≡ all_noted diagnostics.old (sems_found facts.now semaphores.now)) }
{
    for semaphore in semaphores {
        note_initial(alloc, facts, diagnostics, &semaphore.value)?;
    }
    Ok(())
}

/// Notes what is found in a declaration, which may stand in a spec.
pub fn note_spec_item(
    alloc: Global,
    facts: &Facts,
    diagnostics: &mut Diagnostics,
    in_spec: bool,
    item: &SpecItem,
) -> Result<(), NoMemory>
    ensures { OnOk result (diagnostics.new ≡ all_noted diagnostics.old (spec_item_found in_spec facts.now item.now)) }
{
    match item {
        SpecItem::Import(_) => Ok(()),
        SpecItem::Const(tree) => {
            constant(alloc, facts, diagnostics, in_spec, tree)?;
            Ok(())
        }
        SpecItem::Type(tree) => {
            type_kind(alloc, &tree.ty, facts, diagnostics, FIXED)?;
            Ok(())
        }
        SpecItem::OpType(tree) => {
            signature(alloc, &tree.signature, facts, diagnostics)?;
            Ok(())
        }
        SpecItem::Op(tree) => note_operations(alloc, facts, diagnostics, tree.items.as_slice()),
        SpecItem::Var(tree) => note_variables(alloc, facts, diagnostics, tree),
        SpecItem::Sem(tree) => note_semaphores(
            alloc,
            facts,
            diagnostics,
            tree.semaphores.as_slice(),
        ),
    }
}

/// Notes what is found in the declarations of a spec.
pub fn note_spec_items(
    alloc: Global,
    facts: &Facts,
    diagnostics: &mut Diagnostics,
    items: &[SpecItem],
) -> Result<(), NoMemory>
    ensures { OnOk result (diagnostics.new ≡ all_noted diagnostics.old (spec_items_found facts.now items.now)) }
{
    for item in items {
        note_spec_item(alloc, facts, diagnostics, true, item)?;
    }
    Ok(())
}
