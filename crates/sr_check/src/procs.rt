ghost use Rattle.std.specs.Prelude.{◌≡◌, false, OnOk, is_some};
ghost use Rattle.sr_names.specs.Diagnostics.{all_noted};
ghost use Rattle.sr_check_decl.specs.TypeTrees.{signature_read};
ghost use Rattle.sr_check.specs.Contexts.{context_of};
ghost use Rattle.sr_check.specs.Components.{proc_item_read, block_read, proc_rules, proc_serving, proc_read, returned_declared, signed_declared, procedure_read, quantifiers_formal, process_read, final_read};

use crate::enclosing::{Enclosing, Procs};
use crate::operation::Operation;
use crate::quantifying::quantifiers;
use crate::services::{bind_operation, is_own, may_head, operation_named, spot_or};
use crate::serving::Serving;
use crate::statements::{local_const, local_var, statement};
use sr_check_decl::{
    NamedParam, Signed, declare, declare_name, declare_operations, declare_params,
    declare_semaphores, enter_operations, note_operations, note_semaphores, signature, variable,
};
use sr_check_expr::{Facts, note_unless};
use sr_names::{Diagnostics, Rule, Spot};
use sr_tree::{FinalCode, Proc, ProcItem, Procedure, Process, Quantifier, Signature};
use sr_types::Ty;
use sr_value::{Duplicate, NoMemory};
use std::alloc::Global;

/// Notes what is found in an item of a proc, and declares what it declares.
fn proc_item(
    alloc: Global,
    item: &ProcItem,
    enclosing: &Enclosing<'_>,
    facts: &mut Facts,
    diagnostics: &mut Diagnostics,
) -> Result<(), NoMemory>
    ensures known { OnOk result (facts.new ≡ (proc_item_read item.now (context_of enclosing.now facts.old)).facts) }
    ensures noted { OnOk result (diagnostics.new ≡ all_noted diagnostics.old (proc_item_read item.now (context_of enclosing.now facts.old)).found) }
{
    match item {
        ProcItem::Const(tree) => local_const(alloc, facts, diagnostics, tree),
        ProcItem::Var(tree) => local_var(alloc, facts, diagnostics, tree),
        ProcItem::Op(tree) => {
            enter_operations(alloc, facts, tree.items.as_slice())?;
            declare_operations(alloc, facts, true, tree.items.as_slice())?;
            note_operations(alloc, facts, diagnostics, tree.items.as_slice())
        }
        ProcItem::Sem(tree) => {
            let semaphores = tree.semaphores.as_slice();
            note_semaphores(alloc, facts, diagnostics, semaphores)?;
            declare_semaphores(alloc, facts, true, semaphores)
        }
        ProcItem::Statement(inner) => statement(alloc, inner, enclosing, facts, diagnostics),
    }
}

/// Notes what is found in the block of a proc.
fn proc_block(
    alloc: Global,
    items: &[ProcItem],
    enclosing: &Enclosing<'_>,
    facts: &mut Facts,
    diagnostics: &mut Diagnostics,
) -> Result<(), NoMemory>
    ensures known { OnOk result (facts.new ≡ (block_read items.now (context_of enclosing.now facts.old)).facts) }
    ensures noted { OnOk result (diagnostics.new ≡ all_noted diagnostics.old (block_read items.now (context_of enclosing.now facts.old)).found) }
{
    for item in items {
        proc_item(alloc, item, enclosing, facts, diagnostics)?;
    }
    Ok(())
}

/// What is around code of its own: no loop.
pub(crate) fn beginning(procs: &Procs, serving: Serving) -> Enclosing<'_>
    ensures { result ≡ record { procs = procs.entry; serving = serving; in_loop = false } }
{
    Enclosing {
        procs,
        serving,
        in_loop: false,
    }
}

/// Notes what is found at the head of a proc.
fn note_proc(
    facts: &Facts,
    diagnostics: &mut Diagnostics,
    tree: &Proc,
    operation: &Option<Operation>,
) -> Result<(), NoMemory>
    ensures { OnOk result (diagnostics.new ≡ all_noted diagnostics.old (proc_rules facts.now tree.now operation.now)) }
{
    match operation {
        None => note_unless(diagnostics, false, Rule::BadType, tree.span),
        Some(operation) => {
            let met = may_head(
                &facts.signatures,
                tree.formals.as_slice(),
                tree.returned.is_some(),
                &operation.ty,
            );
            note_unless(diagnostics, met, Rule::BadType, tree.span)?;
            note_unless(
                diagnostics,
                is_own(facts, operation),
                Rule::BadUse,
                tree.span,
            )
        }
    }
}

/// Notes what is found in a proc that serves an operation.
fn proc_serving(
    alloc: Global,
    tree: &Proc,
    procs: &Procs,
    facts: &mut Facts,
    diagnostics: &mut Diagnostics,
    operation: &Option<Operation>,
) -> Result<(), NoMemory>
    ensures known { OnOk result (facts.new ≡ (proc_serving procs.now tree.now operation.now facts.old).facts) }
    ensures noted { OnOk result (diagnostics.new ≡ all_noted diagnostics.old (proc_serving procs.now tree.now operation.now facts.old).found) }
{
    note_proc(facts, diagnostics, tree, operation)?;
    let formals = tree.formals.as_slice();
    bind_operation(alloc, facts, formals, &tree.returned, operation)?;
    let served = spot_or(Spot::of(tree.name.span), operation);
    let enclosing = beginning(procs, Serving::Serves(served));
    proc_block(alloc, tree.block.as_slice(), &enclosing, facts, diagnostics)
}

/// Notes what is found in a proc.
pub(crate) fn proc(
    alloc: Global,
    tree: &Proc,
    procs: &Procs,
    facts: &mut Facts,
    diagnostics: &mut Diagnostics,
) -> Result<(), NoMemory>
    ensures known { OnOk result (facts.new ≡ (proc_read procs.now tree.now facts.old).facts) }
    ensures noted { OnOk result (diagnostics.new ≡ all_noted diagnostics.old (proc_read procs.now tree.now facts.old).found) }
{
    let operation = operation_named(alloc, facts, &tree.name)?;
    proc_serving(alloc, tree, procs, facts, diagnostics, &operation)
}

fn declare_returned(
    alloc: Global,
    facts: &mut Facts,
    returned: &Option<NamedParam>,
) -> Result<(), NoMemory>
    ensures { OnOk result (facts.new ≡ returned_declared returned.now facts.old) }
{
    match returned {
        None => Ok(()),
        Some(param) => declare(facts, param.spot, variable(param.ty.copy(alloc)?)),
    }
}

fn declare_signed(alloc: Global, facts: &mut Facts, signed: &Signed) -> Result<(), NoMemory>
    ensures { OnOk result (facts.new ≡ signed_declared signed.now facts.old) }
{
    declare_params(alloc, facts, signed.params.as_slice())?;
    declare_returned(alloc, facts, &signed.returned)
}

/// Notes what is found in the signature of a procedure, and declares what is known within it.
fn enter_procedure(
    alloc: Global,
    tree: &Signature,
    facts: &mut Facts,
    diagnostics: &mut Diagnostics,
) -> Result<(), NoMemory>
    ensures known { OnOk result (facts.new ≡ signed_declared (signature_read tree.now facts.old).signed facts.old) }
    ensures noted { OnOk result (diagnostics.new ≡ all_noted diagnostics.old (signature_read tree.now facts.old).found) }
{
    let signed = signature(alloc, tree, facts, diagnostics)?;
    declare_signed(alloc, facts, &signed)
}

/// Notes what is found in a procedure.
pub(crate) fn procedure(
    alloc: Global,
    tree: &Procedure,
    procs: &Procs,
    facts: &mut Facts,
    diagnostics: &mut Diagnostics,
) -> Result<(), NoMemory>
    ensures known { OnOk result (facts.new ≡ (procedure_read procs.now tree.now facts.old).facts) }
    ensures noted { OnOk result (diagnostics.new ≡ all_noted diagnostics.old (procedure_read procs.now tree.now facts.old).found) }
{
    enter_procedure(alloc, &tree.signature, facts, diagnostics)?;
    let enclosing = beginning(procs, Serving::Serves(Spot::of(tree.name.span)));
    proc_block(alloc, tree.block.as_slice(), &enclosing, facts, diagnostics)
}

/// In the body of a process the names of its quantifiers are formals.
fn declare_formals(facts: &mut Facts, trees: &[Quantifier]) -> Result<(), NoMemory>
    ensures { OnOk result (facts.new ≡ quantifiers_formal trees.now facts.old) }
{
    for tree in trees {
        declare_name(facts, &tree.name, variable(Ty::Int))?;
    }
    Ok(())
}

/// Notes what is found in a process.
pub(crate) fn process(
    alloc: Global,
    tree: &Process,
    procs: &Procs,
    facts: &mut Facts,
    diagnostics: &mut Diagnostics,
) -> Result<(), NoMemory>
    ensures known { OnOk result (facts.new ≡ (process_read procs.now tree.now facts.old).facts) }
    ensures noted { OnOk result (diagnostics.new ≡ all_noted diagnostics.old (process_read procs.now tree.now facts.old).found) }
{
    quantifiers(alloc, facts, diagnostics, tree.quantifiers.as_slice())?;
    declare_formals(facts, tree.quantifiers.as_slice())?;
    let enclosing = beginning(procs, Serving::Serves(Spot::of(tree.name.span)));
    proc_block(alloc, tree.block.as_slice(), &enclosing, facts, diagnostics)
}

/// Notes what is found in final code.
pub(crate) fn final_code(
    alloc: Global,
    tree: &FinalCode,
    procs: &Procs,
    facts: &mut Facts,
    diagnostics: &mut Diagnostics,
) -> Result<(), NoMemory>
    ensures known { OnOk result (facts.new ≡ (final_read procs.now tree.now facts.old).facts) }
    ensures noted { OnOk result (diagnostics.new ≡ all_noted diagnostics.old (final_read procs.now tree.now facts.old).found) }
{
    let enclosing = beginning(procs, Serving::Ends);
    proc_block(alloc, tree.block.as_slice(), &enclosing, facts, diagnostics)
}
