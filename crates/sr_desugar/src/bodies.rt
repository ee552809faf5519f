//! What procs, processes and initial and final code are in the core.
#![tactic(auto, using(crate::proofs::Appends::first_kept, crate::proofs::Appends::first_more))]

ghost use Rattle.std.specs.Prelude.{◌≡◌, [], ◌∷◌, ◌++◌, IfOk, OnOk, option_to_list};
ghost use Rattle.sr_desugar.specs.Bodies as bodies;

use crate::declarations::{push_const, push_vars};
use crate::quantifiers::{process_sends, push_semaphores};
use crate::statements::statement;
use sr_check_expr::meant_by;
use sr_core::{Body, Proc, Scope, Site, Statement};
use sr_lower_expr::{Scene, operation_number, own_formals, own_returned};
use sr_names::Spot;
use sr_outline::{
    formal_spots, name_spots, own_spots, quantifier_spots, returned_spot, signature_returned,
};
use sr_tables::{line_of, spot_named};
use sr_tree::{FinalCode, Item, ProcItem, Procedure, Process, SpecItem};
use sr_value::{NoMemory, Row, Span};
use std::alloc::Global;
use std::mem;

/// What the components of a program are so far besides their initial and final code.
#[derive(Drop)]
pub struct Gathered {
    pub procs: Row<Proc>,
    pub sites: Row<Site>,
}

/// Appends an item of a proc's block to other statements. What a proc declares is the process's own.
fn push_inner(
    alloc: Global,
    item: &ProcItem,
    scene: &Scene,
    sites: &mut Row<Site>,
    code: &mut Row<Statement>,
) -> Result<(), NoMemory>
    ensures value { OnOk result (code.new ≡ code.old ++ (bodies.inner_made scene.now item.now).made) }
    ensures sites { OnOk result (sites.new ≡ sites.old ++ (bodies.inner_made scene.now item.now).sites) }
{
    match item {
        ProcItem::Const(constant) => push_const(alloc, scene, Scope::Own, constant, code),
        ProcItem::Var(variables) => push_vars(alloc, scene, Scope::Own, variables, code),
        ProcItem::Op(_) => Ok(()),
        ProcItem::Sem(declared) => {
            push_semaphores(
                alloc,
                scene,
                declared.span,
                declared.semaphores.as_slice(),
                code,
            )
        }
        ProcItem::Statement(tree) => code.push(statement(alloc, tree, scene, sites)?),
    }
}

/// The code of a process, whose own variables the scene has.
fn body(
    alloc: Global,
    block: &[ProcItem],
    scene: &Scene,
    sites: &mut Row<Site>,
) -> Result<Body, NoMemory>
    ensures value { IfOk result (λ body. body ≡ (bodies.body_made scene.now block.now).made) }
    ensures sites { OnOk result (sites.new ≡ sites.old ++ (bodies.body_made scene.now block.now).sites) }
{
    let mut code = Row::new(alloc);
    for item in block {
        push_inner(alloc, item, scene, sites, &mut code)?;
    }
    Ok(Body {
        owns: scene.own.count()?,
        block: code,
    })
}

/// What a proc is written with.
#[derive(Drop)]
struct Service {
    span: Span,
    operation: Spot,
    formals: Row<Spot>,
    returned: Option<Spot>,
}

/// A proc, whose own variables the scene has.
fn served(
    alloc: Global,
    service: &Service,
    block: &[ProcItem],
    scene: &Scene,
    sites: &mut Row<Site>,
) -> Result<Proc, NoMemory>
    ensures value { IfOk result (λ proc. proc ≡ (bodies.served scene.now service.now.span service.now.operation service.now.formals (option_to_list service.now.returned) block.now).made) }
    ensures sites { OnOk result (sites.new ≡ sites.old ++ (bodies.served scene.now service.now.span service.now.operation service.now.formals (option_to_list service.now.returned) block.now).sites) }
{
    let op = operation_number(scene, service.operation)?;
    let formals = own_formals(alloc, scene, service.formals.as_slice(), service.operation)?;
    let body = body(alloc, block, scene, sites)?;
    let returned = own_returned(alloc, scene, service.returned, service.operation)?;
    Ok(Proc {
        place: line_of(service.span),
        op,
        formals,
        returned,
        body,
    })
}

/// Appends a proc to the others. The scene is the one of the initial code, before and after the call.
fn push_service(
    alloc: Global,
    service: &Service,
    block: &[ProcItem],
    scene: &mut Scene,
    gathered: &mut Gathered,
) -> Result<(), NoMemory>
    ensures gathered { OnOk result (gathered.new ≡ bodies.with_proc gathered.old (bodies.service scene.old service.now.span service.now.operation service.now.formals (option_to_list service.now.returned) block.now)) }
    ensures scene { OnOk result (scene.new ≡ scene.old) }
{
    let formals = service.formals.as_slice();
    let own = own_spots(alloc, formals, service.returned, block, &scene.facts)?;
    let around = mem::replace(&mut scene.own, own);
    let proc = served(alloc, service, block, scene, &mut gathered.sites)?;
    scene.own = around;
    gathered.procs.push(proc)
}

fn push_proc(
    alloc: Global,
    proc: &sr_tree::Proc,
    scene: &mut Scene,
    gathered: &mut Gathered,
) -> Result<(), NoMemory>
    ensures gathered { OnOk result (gathered.new ≡ bodies.with_proc gathered.old (bodies.proc_made scene.old proc.now)) }
    ensures scene { OnOk result (scene.new ≡ scene.old) }
{
    let formals = name_spots(alloc, proc.formals.as_slice())?;
    let service = Service {
        span: proc.span,
        operation: meant_by(&scene.facts, &proc.name),
        formals,
        returned: returned_spot(&proc.returned),
    };
    push_service(alloc, &service, proc.block.as_slice(), scene, gathered)
}

/// The proc of `procedure f` has the names of its signature.
fn push_procedure(
    alloc: Global,
    procedure: &Procedure,
    scene: &mut Scene,
    gathered: &mut Gathered,
) -> Result<(), NoMemory>
    ensures gathered { OnOk result (gathered.new ≡ bodies.with_proc gathered.old (bodies.procedure_made scene.old procedure.now)) }
    ensures scene { OnOk result (scene.new ≡ scene.old) }
{
    let formals = formal_spots(alloc, procedure.signature.formals.as_slice())?;
    let service = Service {
        span: procedure.span,
        operation: spot_named(&procedure.name),
        formals,
        returned: signature_returned(&procedure.signature),
    };
    push_service(alloc, &service, procedure.block.as_slice(), scene, gathered)
}

/// In the body of a process the names of its quantifiers are formals.
fn push_process(
    alloc: Global,
    process: &Process,
    scene: &mut Scene,
    gathered: &mut Gathered,
) -> Result<(), NoMemory>
    ensures gathered { OnOk result (gathered.new ≡ bodies.with_proc gathered.old (bodies.process_made scene.old process.now)) }
    ensures scene { OnOk result (scene.new ≡ scene.old) }
{
    let formals = quantifier_spots(alloc, process.quantifiers.as_slice())?;
    let service = Service {
        span: process.span,
        operation: spot_named(&process.name),
        formals,
        returned: None,
    };
    push_service(alloc, &service, process.block.as_slice(), scene, gathered)
}

/// Final code. The scene is the one of the initial code, before and after the call.
fn final_body(
    alloc: Global,
    last: &FinalCode,
    scene: &mut Scene,
    gathered: &mut Gathered,
) -> Result<Body, NoMemory>
    ensures value { IfOk result (λ body. body ≡ (bodies.final_made scene.old last.now).made) }
    ensures gathered { OnOk result (gathered.new ≡ record gathered.old { sites = gathered.old.sites ++ (bodies.final_made scene.old last.now).sites }) }
    ensures scene { OnOk result (scene.new ≡ scene.old) }
{
    let own = own_spots(alloc, &[], None, last.block.as_slice(), &scene.facts)?;
    let around = mem::replace(&mut scene.own, own);
    let body = body(alloc, last.block.as_slice(), scene, &mut gathered.sites)?;
    scene.own = around;
    Ok(body)
}

/// Appends what a declaration of a component is of the initial code to other statements.
pub fn push_spec_item(
    alloc: Global,
    item: &SpecItem,
    scene: &Scene,
    code: &mut Row<Statement>,
) -> Result<(), NoMemory>
    ensures { OnOk result (code.new ≡ code.old ++ bodies.spec_item_core scene.now item.now) }
{
    match item {
        SpecItem::Const(constant) => push_const(alloc, scene, Scope::Shared, constant, code),
        SpecItem::Var(variables) => push_vars(alloc, scene, Scope::Shared, variables, code),
        SpecItem::Sem(declared) => {
            push_semaphores(
                alloc,
                scene,
                declared.span,
                declared.semaphores.as_slice(),
                code,
            )
        }
        _ => Ok(()),
    }
}

/// What a component's initial and final code are so far.
#[derive(Drop)]
pub struct Codes {
    pub initial: Row<Statement>,
    pub last: Option<Body>,
}

/// Puts in final code. A resource has one, or none.
fn push_final(
    alloc: Global,
    last: &FinalCode,
    scene: &mut Scene,
    codes: &mut Codes,
    gathered: &mut Gathered,
) -> Result<(), NoMemory>
    ensures codes { OnOk result (codes.new ≡ bodies.with_codes codes.old (bodies.of_final (bodies.final_made scene.old last.now) ∷ [])) }
    ensures gathered { OnOk result (gathered.new ≡ bodies.with_outputs gathered.old (bodies.of_final (bodies.final_made scene.old last.now) ∷ [])) }
    ensures scene { OnOk result (scene.new ≡ scene.old) }
{
    let body = final_body(alloc, last, scene, gathered)?;
    if codes.last.is_none() {
        codes.last = Some(body);
    }
    Ok(())
}

/// Adds an item of a component's body.
pub fn push_item(
    alloc: Global,
    item: &Item,
    scene: &mut Scene,
    codes: &mut Codes,
    gathered: &mut Gathered,
) -> Result<(), NoMemory>
    ensures codes { OnOk result (codes.new ≡ bodies.with_codes codes.old (bodies.item_output scene.old item.now ∷ [])) }
    ensures gathered { OnOk result (gathered.new ≡ bodies.with_outputs gathered.old (bodies.item_output scene.old item.now ∷ [])) }
    ensures scene { OnOk result (scene.new ≡ scene.old) }
{
    match item {
        Item::Spec(inner) => push_spec_item(alloc, inner, scene, &mut codes.initial),
        Item::Proc(proc) => push_proc(alloc, proc, scene, gathered),
        Item::Procedure(procedure) => push_procedure(alloc, procedure, scene, gathered),
        Item::Process(process) => {
            codes.initial.push(process_sends(alloc, scene, process)?)?;
            push_process(alloc, process, scene, gathered)
        }
        Item::Final(last) => push_final(alloc, last, scene, codes, gathered),
        Item::Statement(tree) => {
            codes
                .initial
                .push(statement(alloc, tree, scene, &mut gathered.sites)?)
        }
    }
}
