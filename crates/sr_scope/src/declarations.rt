ghost use Rattle.std.specs.Prelude.{◌≡◌, OnOk};
ghost use Rattle.sr_names.specs.Diagnostics.{all_noted};
ghost use Rattle.sr_scope.specs.Declarations.{const_found, var_found, semaphores_found, op_item_found, op_items_found, quantifier_found, quantifiers_found, with_quantifier, with_quantifiers};

use crate::declares::declare_name;
use crate::exprs::{expr, exprs};
use crate::names::qualified_name;
use crate::types::{decls, maybe_expr, maybe_type, signature};
use sr_names::{Blocks, Diagnostics, Place, Sort};
use sr_tree::{ConstDecl, OpItem, Quantifier, Semaphore, VarDecl};
use sr_value::NoMemory;
use std::alloc::Global;

/// Notes what is found in the type and the value of a constant.
pub fn constant(
    alloc: Global,
    constant: &ConstDecl,
    place: &Place,
    blocks: &Blocks,
    diagnostics: &mut Diagnostics,
) -> Result<(), NoMemory>
    ensures { OnOk result (diagnostics.new ≡ all_noted diagnostics.old (const_found constant.now place.now blocks.now)) }
{
    maybe_type(alloc, &constant.ty, place, blocks, diagnostics)?;
    expr(&constant.value, place, blocks, diagnostics)?;
    Ok(())
}

/// Notes what is found in the bounds, the type and the values of variables.
pub fn variables(
    alloc: Global,
    variables: &VarDecl,
    place: &Place,
    blocks: &Blocks,
    diagnostics: &mut Diagnostics,
) -> Result<(), NoMemory>
    ensures { OnOk result (diagnostics.new ≡ all_noted diagnostics.old (var_found variables.now place.now blocks.now)) }
{
    decls(variables.decls.as_slice(), place, blocks, diagnostics)?;
    maybe_type(alloc, &variables.ty, place, blocks, diagnostics)?;
    exprs(variables.values.as_slice(), place, blocks, diagnostics)
}

/// Notes what is found in the values of semaphores.
pub fn semaphores(
    semaphores: &[Semaphore],
    place: &Place,
    blocks: &Blocks,
    diagnostics: &mut Diagnostics,
) -> Result<(), NoMemory>
    ensures { OnOk result (diagnostics.new ≡ all_noted diagnostics.old (semaphores_found semaphores.now place.now blocks.now)) }
{
    for semaphore in semaphores {
        maybe_expr(&semaphore.value, place, blocks, diagnostics)?;
    }
    Ok(())
}

/// Notes what is found in the signatures and types of operations.
pub fn operations(
    alloc: Global,
    items: &[OpItem],
    place: &Place,
    blocks: &Blocks,
    diagnostics: &mut Diagnostics,
) -> Result<(), NoMemory>
    ensures { OnOk result (diagnostics.new ≡ all_noted diagnostics.old (op_items_found items.now place.now blocks.now)) }
{
    for item in items {
        operation(alloc, item, place, blocks, diagnostics)?;
    }
    Ok(())
}

fn operation(
    alloc: Global,
    item: &OpItem,
    place: &Place,
    blocks: &Blocks,
    diagnostics: &mut Diagnostics,
) -> Result<(), NoMemory>
    ensures { OnOk result (diagnostics.new ≡ all_noted diagnostics.old (op_item_found item.now place.now blocks.now)) }
{
    match item {
        OpItem::Signed {
            signature: written,
            ..
        } => { signature(alloc, written, place, blocks, diagnostics) }
        OpItem::Typed { optype, .. } => qualified_name(optype, place, blocks, diagnostics),
    }
}

/// Declares quantifiers in the innermost scope one after another, and notes what is found in them.
pub fn quantifiers(
    alloc: Global,
    quantifiers: &[Quantifier],
    place: &Place,
    blocks: &mut Blocks,
    diagnostics: &mut Diagnostics,
) -> Result<(), NoMemory>
    ensures scopes { OnOk result (blocks.new ≡ with_quantifiers quantifiers.now blocks.old) }
    ensures noted { OnOk result (diagnostics.new ≡ all_noted diagnostics.old (quantifiers_found quantifiers.now place.now blocks.old)) }
{
    for each in quantifiers {
        quantifier(alloc, each, place, blocks, diagnostics)?;
    }
    Ok(())
}

fn quantifier(
    alloc: Global,
    quantifier: &Quantifier,
    place: &Place,
    blocks: &mut Blocks,
    diagnostics: &mut Diagnostics,
) -> Result<(), NoMemory>
    ensures scopes { OnOk result (blocks.new ≡ with_quantifier quantifier.now blocks.old) }
    ensures noted { OnOk result (diagnostics.new ≡ all_noted diagnostics.old (quantifier_found quantifier.now place.now blocks.old)) }
{
    expr(&quantifier.first, place, blocks, diagnostics)?;
    expr(&quantifier.last, place, blocks, diagnostics)?;
    maybe_expr(&quantifier.step, place, blocks, diagnostics)?;
    declare_name(
        alloc,
        &quantifier.name,
        Sort::Quantifier,
        &mut blocks.inner,
        diagnostics,
    )?;
    maybe_expr(&quantifier.such_that, place, blocks, diagnostics)
}
