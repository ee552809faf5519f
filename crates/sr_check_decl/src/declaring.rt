ghost use Rattle.std.specs.Prelude.{◌≡◌, None, IfOk, OnOk, map, flat_map};
ghost use Rattle.sr_names.specs.Spots.{spot_of};
ghost use Rattle.sr_tree.specs.Nested.{types_within, formal_types, written_types, signature_types};
ghost use Rattle.sr_check_decl.specs.Variables.{declare};
ghost use Rattle.sr_check_decl.specs.TypeTrees.{type_kinding, fixed_bounds};
ghost use Rattle.sr_check_decl.specs.Entering.{formals_entered, signed_entered};
ghost use Rattle.sr_check_decl.specs.Declaring.{declared_if, const_declared, var_declared, literal_info, literals_declared, enumeration_declared, field_info, fields_of, types_declared, type_declared, spec_item_declared, item_declared, spec_items_declared, items_declared, params_declared, making, component_typed, component_formals, with_formals, component_declared, components_declared, files_declared, components_named, files_named, no_facts, program_declared, declare_name, at_facts};

use crate::constants::{constant_value, is_static};
use crate::entering::{enter_formals, enter_operations, enter_signed, enter_type, enter_written};
use crate::kind::{NamedParam, Signed};
use crate::operations::{
    declare_operations, declare_optype, declare_procedure, declare_process, declare_semaphores,
};
use crate::parts::component_decl;
use crate::signatures::signature_type;
use crate::tally::{Tally, count_of, declare, declare_name, next, stand, variable};
use crate::variables::{declare_variables, may_be_untyped};
use crate::written::{FIXED, FREE, written_formals, written_type};
use sr_check_expr::{Facts, FieldInfo, Here, Info, Infos, type_spot};
use sr_names::{Decl, Members, Sort, Spot, Uses};
use sr_tree::{
    Component, ConstDecl, File, Formal, Item, Name, Returned, Signature, SpecItem, TypeDecl,
    TypeTree, VarDecl,
};
use sr_types::{Forms, Signatures, Static, Ty, Typed};
use sr_value::{Duplicate, NoMemory, Row, Span, Value};
use std::alloc::Global;

fn declare_if(facts: &mut Facts, met: bool, name: &Name, typed: Typed) -> Result<(), NoMemory>
    ensures { OnOk result (facts.new ≡ declared_if met name.now typed facts.old) }
{
    if !met {
        return Ok(());
    }
    declare_name(facts, name, Info::Value(typed))
}

/// Declares a constant that has a type, or whose value is known before the run.
fn declare_constant(
    alloc: Global,
    facts: &mut Facts,
    in_spec: bool,
    tree: &ConstDecl,
) -> Result<(), NoMemory>
    ensures { OnOk result (facts.new ≡ const_declared in_spec tree.now facts.old) }
{
    enter_written(alloc, facts, &tree.ty)?;
    let typed = constant_value(alloc, facts, in_spec, tree)?;
    let met = tree.ty.is_some() || is_static(&typed.value);
    declare_if(facts, met, &tree.name, typed)
}

/// Declares variables that have a type, or can't have one.
fn declare_var(alloc: Global, facts: &mut Facts, tree: &VarDecl) -> Result<(), NoMemory>
    ensures { OnOk result (facts.new ≡ var_declared tree.now facts.old) }
{
    enter_written(alloc, facts, &tree.ty)?;
    let decls = tree.decls.as_slice();
    match &tree.ty {
        None => {
            if may_be_untyped(decls, tree.values.as_slice()) {
                return Ok(());
            }
            declare_variables(alloc, facts, &Ty::Untyped, decls)
        }
        Some(written) => {
            let ty = written_type(alloc, written, facts, FREE)?;
            declare_variables(alloc, facts, &ty, decls)
        }
    }
}

/// What a literal of an enumeration is declared as.
fn literal(enumeration: Spot, number: u32, index: u32) -> Info
    ensures { result ≡ literal_info enumeration number index }
{
    Info::Value(Typed {
        ty: Ty::Enum(type_spot(enumeration)),
        is_place: false,
        value: Static::Known(Value::Enum {
            ty: number,
            at: index,
        }),
    })
}

/// Declares the literals of an enumeration.
fn declare_literals(
    facts: &mut Facts,
    enumeration: Spot,
    number: u32,
    literals: &[Name],
) -> Result<(), NoMemory>
    ensures { OnOk result (facts.new ≡ literals_declared enumeration number 0 literals.now facts.old) }
{
    let mut index = 0;
    for name in literals {
        declare_name(facts, name, literal(enumeration, number, index))?;
        index = next(index)?;
    }
    Ok(())
}

fn declare_enumeration(tally: &mut Tally, span: Span, literals: &[Name]) -> Result<(), NoMemory>
    ensures { OnOk result (tally.new ≡ enumeration_declared span literals.now tally.old) }
{
    let number = tally.enumerations;
    let spot = Spot::of(span);
    let info = Info::Enumeration {
        number,
        literals: count_of(literals)?,
    };
    declare(&mut tally.facts, spot, info)?;
    tally.enumerations = next(number)?;
    declare_literals(&mut tally.facts, spot, number, literals)
}

fn field_info(alloc: Global, param: &NamedParam) -> Result<FieldInfo, NoMemory>
    ensures { IfOk result (λ field. field ≡ field_info param.now) }
{
    Ok(FieldInfo {
        name: param.name.copy(alloc)?,
        ty: param.ty.copy(alloc)?,
    })
}

fn field_infos(alloc: Global, params: &[NamedParam]) -> Result<Row<FieldInfo>, NoMemory>
    ensures { IfOk result (λ fields. fields ≡ map field_info params.now) }
{
    let mut fields = Row::new(alloc);
    for param in params {
        fields.push(field_info(alloc, param)?)?;
    }
    Ok(fields)
}

fn fields_of(alloc: Global, facts: &Facts, trees: &[Formal]) -> Result<Row<FieldInfo>, NoMemory>
    ensures { IfOk result (λ fields. fields ≡ fields_of facts.now trees.now) }
{
    let params = written_formals(alloc, trees, facts, true)?;
    field_infos(alloc, params.as_slice())
}

fn declare_record(
    alloc: Global,
    facts: &mut Facts,
    span: Span,
    trees: &[Formal],
) -> Result<(), NoMemory>
    ensures { OnOk result (facts.new ≡ declare facts.old (spot_of span) (Info.Record (fields_of facts.old trees.now))) }
{
    let fields = fields_of(alloc, facts, trees)?;
    declare(facts, Spot::of(span), Info::Record(fields))
}

/// Declares the enumerations and records that are written in a type, in the order of the text.
#[cycle(within)]
#[tactic(auto, using(crate::proofs::TypesDeclared::record_declared))]
fn declare_within(alloc: Global, tally: &mut Tally, tree: &TypeTree) -> Result<(), NoMemory>
    ensures { OnOk result (tally.new ≡ types_declared (types_within tree.now) tally.old) }
{
    match tree {
        TypeTree::Enum { span, literals } => {
            declare_enumeration(tally, *span, literals.as_slice())
        }
        TypeTree::Rec { span, fields } => {
            declare_record(alloc, &mut tally.facts, *span, fields.as_slice())?;
            declare_within_formals(alloc, tally, fields.as_slice())
        }
        TypeTree::CapOperation { signature, .. } => {
            declare_within_signature(alloc, tally, signature)
        }
        TypeTree::Array { item, .. } => declare_within(alloc, tally, item.get()),
        TypeTree::Int { .. }
        | TypeTree::Bool { .. }
        | TypeTree::Char { .. }
        | TypeTree::Str { .. }
        | TypeTree::CapOf { .. }
        | TypeTree::CapMachine { .. }
        | TypeTree::Named { .. } => Ok(()),
    }
}

#[cycle(within)]
fn declare_within_formals(
    alloc: Global,
    tally: &mut Tally,
    formals: &[Formal],
) -> Result<(), NoMemory>
    ensures { OnOk result (tally.new ≡ types_declared (flat_map formal_types formals.now) tally.old) }
{
    for formal in formals {
        declare_within(alloc, tally, &formal.ty)?;
    }
    Ok(())
}

#[cycle(within)]
fn declare_within_returned(
    alloc: Global,
    tally: &mut Tally,
    returned: &Option<Returned>,
) -> Result<(), NoMemory>
    ensures { OnOk result (tally.new ≡ types_declared (written_types returned.now) tally.old) }
{
    match returned {
        Some(written) => declare_within(alloc, tally, written.ty.get()),
        None => Ok(()),
    }
}

#[cycle(within)]
#[tactic(auto, using(crate::proofs::TypesDeclared::signature_declared))]
fn declare_within_signature(
    alloc: Global,
    tally: &mut Tally,
    signature: &Signature,
) -> Result<(), NoMemory>
    ensures { OnOk result (tally.new ≡ types_declared (signature_types signature.now) tally.old) }
{
    declare_within_formals(alloc, tally, signature.formals.as_slice())?;
    declare_within_returned(alloc, tally, &signature.returned)
}

fn declare_type_name(alloc: Global, facts: &mut Facts, tree: &TypeDecl) -> Result<(), NoMemory>
    ensures { OnOk result (facts.new ≡ declare_name facts.old tree.now.name (Info.«Type» (type_kinding tree.now.ty facts.old fixed_bounds).kind.ty)) }
{
    let ty = written_type(alloc, &tree.ty, facts, FIXED)?;
    declare_name(facts, &tree.name, Info::Type(ty))
}

/// Declares a type, and the enumerations and records that are written in it.
fn declare_type(alloc: Global, tally: &mut Tally, tree: &TypeDecl) -> Result<(), NoMemory>
    ensures { OnOk result (tally.new ≡ type_declared tree.now tally.old) }
{
    enter_type(alloc, &mut tally.facts, &tree.ty)?;
    declare_within(alloc, tally, &tree.ty)?;
    declare_type_name(alloc, &mut tally.facts, tree)
}

fn declare_spec_item(
    alloc: Global,
    tally: &mut Tally,
    in_spec: bool,
    item: &SpecItem,
) -> Result<(), NoMemory>
    ensures { OnOk result (tally.new ≡ spec_item_declared in_spec item.now tally.old) }
{
    match item {
        SpecItem::Import(_) => Ok(()),
        SpecItem::Const(tree) => declare_constant(alloc, &mut tally.facts, in_spec, tree),
        SpecItem::Type(tree) => declare_type(alloc, tally, tree),
        SpecItem::OpType(tree) => declare_optype(alloc, &mut tally.facts, tree),
        SpecItem::Op(tree) => {
            enter_operations(alloc, &mut tally.facts, tree.items.as_slice())?;
            declare_operations(alloc, &mut tally.facts, false, tree.items.as_slice())
        }
        SpecItem::Var(tree) => declare_var(alloc, &mut tally.facts, tree),
        SpecItem::Sem(tree) => {
            declare_semaphores(alloc, &mut tally.facts, false, tree.semaphores.as_slice())
        }
    }
}

fn declare_item(alloc: Global, tally: &mut Tally, item: &Item) -> Result<(), NoMemory>
    ensures { OnOk result (tally.new ≡ item_declared item.now tally.old) }
{
    match item {
        Item::Spec(inner) => declare_spec_item(alloc, tally, false, inner),
        Item::Procedure(tree) => {
            declare_procedure(alloc, &mut tally.facts, &tree.name, &tree.signature)
        }
        Item::Process(tree) => declare_process(alloc, &mut tally.facts, tree),
        Item::Proc(_) | Item::Final(_) | Item::Statement(_) => Ok(()),
    }
}

fn declare_spec(alloc: Global, tally: &mut Tally, items: &[SpecItem]) -> Result<(), NoMemory>
    ensures { OnOk result (tally.new ≡ spec_items_declared items.now tally.old) }
{
    for item in items {
        declare_spec_item(alloc, tally, true, item)?;
    }
    Ok(())
}

fn declare_items(alloc: Global, tally: &mut Tally, items: &[Item]) -> Result<(), NoMemory>
    ensures { OnOk result (tally.new ≡ items_declared items.now tally.old) }
{
    for item in items {
        declare_item(alloc, tally, item)?;
    }
    Ok(())
}

/// Declares formals, under their types.
pub fn declare_params(
    alloc: Global,
    facts: &mut Facts,
    params: &[NamedParam],
) -> Result<(), NoMemory>
    ensures { OnOk result (facts.new ≡ params_declared params.now facts.old) }
{
    for param in params {
        declare(facts, param.spot, variable(param.ty.copy(alloc)?))?;
    }
    Ok(())
}

/// What makes an instance takes arguments like an operation of these formals.
fn making(params: Row<NamedParam>) -> Signed
    ensures { result ≡ making params }
{
    Signed {
        params,
        returned: None,
        forms: Forms::Both,
    }
}

/// Declares a component by the signature that makes its instances.
fn declare_component_type(
    alloc: Global,
    facts: &mut Facts,
    name: &Name,
    signed: &Signed,
) -> Result<(), NoMemory>
    ensures { OnOk result (facts.new ≡ component_typed name.now signed.now facts.old) }
{
    let ty = signature_type(alloc, facts, signed)?;
    declare_name(facts, name, Info::Component(ty))
}

/// Declares a component by the operation that makes its instances, and declares its formals.
fn declare_made(
    alloc: Global,
    facts: &mut Facts,
    name: &Name,
    signed: &Signed,
) -> Result<(), NoMemory>
    ensures { OnOk result (facts.new ≡ params_declared signed.now.params (component_typed name.now signed.now (signed_entered signed.now facts.old))) }
{
    enter_signed(alloc, facts, signed)?;
    declare_component_type(alloc, facts, name, signed)?;
    declare_params(alloc, facts, signed.params.as_slice())
}

fn with_formals(
    alloc: Global,
    facts: &mut Facts,
    name: &Name,
    params: Row<NamedParam>,
) -> Result<(), NoMemory>
    ensures { OnOk result (facts.new ≡ with_formals name.now params facts.old) }
{
    declare_made(alloc, facts, name, &making(params))
}

fn component_formals(
    alloc: Global,
    facts: &Facts,
    trees: &[Formal],
) -> Result<Row<NamedParam>, NoMemory>
    ensures { IfOk result (λ params. params ≡ component_formals facts.now trees.now) }
{
    written_formals(alloc, trees, facts, false)
}

/// Declares a component by its formals, and these.
fn declare_head(
    alloc: Global,
    facts: &mut Facts,
    name: &Name,
    formals: &[Formal],
) -> Result<(), NoMemory>
    ensures { let entered = formals_entered formals.now facts.old in OnOk result (facts.new ≡ with_formals name.now (component_formals entered formals.now) entered) }
{
    enter_formals(alloc, facts, formals)?;
    let params = component_formals(alloc, facts, formals)?;
    with_formals(alloc, facts, name, params)
}

fn declare_component(
    alloc: Global,
    tally: &mut Tally,
    component: &Component,
) -> Result<(), NoMemory>
    ensures { OnOk result (tally.new ≡ component_declared component.now tally.old) }
{
    stand(&mut tally.facts, component_decl(component));
    declare_spec(alloc, tally, component.spec())?;
    declare_head(
        alloc,
        &mut tally.facts,
        component.name(),
        component.formals(),
    )?;
    declare_items(alloc, tally, component.body())
}

fn declare_components(
    alloc: Global,
    tally: &mut Tally,
    components: &[Component],
) -> Result<(), NoMemory>
    ensures { OnOk result (tally.new ≡ components_declared components.now tally.old) }
{
    for component in components {
        declare_component(alloc, tally, component)?;
    }
    Ok(())
}

fn declare_files(alloc: Global, tally: &mut Tally, files: &[File]) -> Result<(), NoMemory>
    ensures { OnOk result (tally.new ≡ files_declared files.now tally.old) }
{
    for file in files {
        declare_components(alloc, tally, file.components.as_slice())?;
    }
    Ok(())
}

fn name_components(facts: &mut Facts, components: &[Component]) -> Result<(), NoMemory>
    ensures { OnOk result (facts.new ≡ components_named components.now facts.old) }
{
    for component in components {
        declare_name(facts, component.name(), Info::Component(Ty::Untyped))?;
    }
    Ok(())
}

fn name_files(facts: &mut Facts, files: &[File]) -> Result<(), NoMemory>
    ensures { OnOk result (facts.new ≡ files_named files.now facts.old) }
{
    for file in files {
        name_components(facts, file.components.as_slice())?;
    }
    Ok(())
}

/// Nothing is declared, and what follows stands in no component.
fn no_facts(alloc: Global, uses: Uses, specs: Members) -> Facts
    ensures { result ≡ no_facts uses specs }
{
    Facts {
        uses,
        specs,
        infos: Infos::new(alloc),
        signatures: Signatures::new(alloc),
        here: Here {
            component: Decl {
                sort: Sort::Global,
                spot: Spot { file: 0, from: 0 },
            },
            in_guard: false,
        },
    }
}

fn declare_program(alloc: Global, tally: &mut Tally, files: &[File]) -> Result<(), NoMemory>
    ensures { OnOk result (tally.new ≡ files_declared files.now (at_facts tally.old (files_named files.now tally.old.facts))) }
{
    name_files(&mut tally.facts, files)?;
    declare_files(alloc, tally, files)
}

/// What is declared outside of procs and blocks, as far as it has a type of its own.
pub(crate) fn program_declared(
    alloc: Global,
    uses: Uses,
    specs: Members,
    files: &[File],
) -> Result<Facts, NoMemory>
    ensures { IfOk result (λ facts. facts ≡ program_declared uses specs files.now) }
{
    let mut tally = Tally {
        facts: no_facts(alloc, uses, specs),
        enumerations: 0,
    };
    declare_program(alloc, &mut tally, files)?;
    Ok(tally.facts)
}
