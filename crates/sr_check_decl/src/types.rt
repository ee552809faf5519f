ghost use Rattle.std.specs.Prelude.{◌≡◌, IfOk, OnOk, option_copied};
ghost use Rattle.sr_names.specs.Diagnostics.{all_noted};
ghost use Rattle.sr_check_decl.specs.TypeTrees.{array_type, array_found, decl_found, decl_type, decls_found, declared_type, type_by, capability_of, capability_by, named_decl, kinding, named_kinding, capability_kinding};

use crate::bounds::may_be_item;
use crate::kind::{BoundPolicy, Kind};
use crate::ranges::dims;
use sr_check_expr::{Facts, Info, deciding, decl_info, decl_of, note_unless, type_spot};
use sr_names::{Decl, Diagnostics, Rule, Sort, Spot};
use sr_tree::{Decl as DeclTree, DimsTree, QualifiedName};
use sr_types::Ty;
use sr_value::{Boxed, Duplicate, NoMemory, Span};
use std::alloc::Global;

/// An array whose items have a type that isn't refused and is no array.
pub(crate) fn array(alloc: Global, tree: &DimsTree, item: Ty) -> Result<Ty, NoMemory>
    ensures { IfOk result (λ ty. ty ≡ array_type tree.now item) }
{
    if item.is_untyped() || !may_be_item(&item) {
        return Ok(Ty::Untyped);
    }
    let item = Boxed::new(alloc, item)?;
    match &tree.second {
        Some(_) => Ok(Ty::Matrix(item)),
        None => Ok(Ty::Vector(item)),
    }
}

/// Notes what is found at an array of these items.
pub(crate) fn note_array(
    alloc: Global,
    facts: &Facts,
    diagnostics: &mut Diagnostics,
    bound_policy: BoundPolicy,
    tree: &DimsTree,
    item: &Kind,
) -> Result<(), NoMemory>
    ensures { OnOk result (diagnostics.new ≡ all_noted diagnostics.old (array_found bound_policy facts.now tree.now item.now)) }
{
    dims(alloc, facts, diagnostics, bound_policy, tree)?;
    note_unless(diagnostics, may_be_item(&item.ty), Rule::BadType, item.span)
}

/// Notes what is found at the dims of a name that is declared.
pub(crate) fn note_decl(
    alloc: Global,
    facts: &Facts,
    diagnostics: &mut Diagnostics,
    bound_policy: BoundPolicy,
    item: &Kind,
    tree: &Option<DimsTree>,
) -> Result<(), NoMemory>
    ensures { OnOk result (diagnostics.new ≡ all_noted diagnostics.old (decl_found bound_policy facts.now item.now tree.now)) }
{
    match tree {
        Some(written) => note_array(alloc, facts, diagnostics, bound_policy, written, item),
        None => Ok(()),
    }
}

/// The type of a name that is declared.
pub fn decl_type(alloc: Global, tree: &Option<DimsTree>, ty: &Ty) -> Result<Ty, NoMemory>
    ensures { IfOk result (λ whole. whole ≡ decl_type tree.now ty.now) }
{
    let item = ty.copy(alloc)?;
    match tree {
        Some(written) => array(alloc, written, item),
        None => Ok(item),
    }
}

/// Notes what is found at the dims of names that are declared.
pub(crate) fn note_decls(
    alloc: Global,
    facts: &Facts,
    diagnostics: &mut Diagnostics,
    bound_policy: BoundPolicy,
    item: &Kind,
    decls: &[DeclTree],
) -> Result<(), NoMemory>
    ensures { OnOk result (diagnostics.new ≡ all_noted diagnostics.old (decls_found bound_policy facts.now item.now decls.now)) }
{
    for decl in decls {
        note_decl(alloc, facts, diagnostics, bound_policy, item, &decl.dims)?;
    }
    Ok(())
}

/// The type that a name stands for.
fn declared_type(alloc: Global, decl: Decl, info: &Info) -> Result<Option<Ty>, NoMemory>
    ensures { IfOk result (λ ty. ty ≡ declared_type decl info.now) }
{
    match info {
        Info::Type(ty) => Ok(Some(ty.copy(alloc)?)),
        Info::Enumeration { .. } => Ok(Some(Ty::Enum(type_spot(decl.spot)))),
        Info::Record(_) => Ok(Some(Ty::Rec(type_spot(decl.spot)))),
        _ => Ok(None),
    }
}

fn type_by(alloc: Global, decl: Option<Decl>, info: Option<&Info>) -> Result<Option<Ty>, NoMemory>
    ensures { IfOk result (λ ty. ty ≡ type_by decl (option_copied info.entry)) }
{
    match decl {
        None => Ok(None),
        Some(decl) => match info {
            Some(info) => declared_type(alloc, decl, info),
            None => Ok(None),
        },
    }
}

/// The type of the capabilities for a resource, or of the type of an operation.
fn capability_of(alloc: Global, decl: Decl, info: &Info) -> Result<Option<Ty>, NoMemory>
    ensures { IfOk result (λ ty. ty ≡ capability_of decl info.now) }
{
    match info {
        Info::OpType(ty) => Ok(Some(ty.copy(alloc)?)),
        Info::Component(_) => match decl.sort {
            Sort::Resource => Ok(Some(Ty::Resource(type_spot(decl.spot)))),
            _ => Ok(None),
        },
        _ => Ok(None),
    }
}

fn capability_by(
    alloc: Global,
    decl: Option<Decl>,
    info: Option<&Info>,
) -> Result<Option<Ty>, NoMemory>
    ensures { IfOk result (λ ty. ty ≡ capability_by decl (option_copied info.entry)) }
{
    match decl {
        None => Ok(None),
        Some(decl) => match info {
            Some(info) => capability_of(alloc, decl, info),
            None => Ok(None),
        },
    }
}

/// The declaration that a qualified name means.
pub(crate) fn named_decl(facts: &Facts, qualified: &QualifiedName) -> Option<Decl>
    ensures { result ≡ named_decl facts.now qualified.now }
{
    decl_of(facts.uses.get(Spot::of(deciding(qualified).span)))
}

/// Notes where a name is of another sort.
fn kind_named(
    diagnostics: &mut Diagnostics,
    span: Span,
    named: Option<Ty>,
) -> Result<Kind, NoMemory>
    ensures value { IfOk result (λ kind. kind ≡ (kinding span named).kind) }
    ensures noted { OnOk result (diagnostics.new ≡ all_noted diagnostics.old (kinding span named).found) }
{
    match named {
        Some(ty) => Ok(Kind { span, ty }),
        None => {
            note_unless(diagnostics, false, Rule::BadType, span)?;
            Ok(Kind {
                span,
                ty: Ty::Untyped,
            })
        }
    }
}

pub(crate) fn named_kind(
    alloc: Global,
    facts: &Facts,
    diagnostics: &mut Diagnostics,
    span: Span,
    qualified: &QualifiedName,
) -> Result<Kind, NoMemory>
    ensures value { IfOk result (λ kind. kind ≡ (named_kinding facts.now span qualified.now).kind) }
    ensures noted { OnOk result (diagnostics.new ≡ all_noted diagnostics.old (named_kinding facts.now span qualified.now).found) }
{
    let decl = named_decl(facts, qualified);
    let named = type_by(alloc, decl, decl_info(&facts.infos, decl))?;
    kind_named(diagnostics, span, named)
}

pub(crate) fn capability_kind(
    alloc: Global,
    facts: &Facts,
    diagnostics: &mut Diagnostics,
    span: Span,
    qualified: &QualifiedName,
) -> Result<Kind, NoMemory>
    ensures value { IfOk result (λ kind. kind ≡ (capability_kinding facts.now span qualified.now).kind) }
    ensures noted { OnOk result (diagnostics.new ≡ all_noted diagnostics.old (capability_kinding facts.now span qualified.now).found) }
{
    let decl = named_decl(facts, qualified);
    let named = capability_by(alloc, decl, decl_info(&facts.infos, decl))?;
    kind_named(diagnostics, span, named)
}
