ghost use Rattle.std.specs.Prelude.{◌≡◌, IfOk, OnOk, option_copied};
ghost use Rattle.sr_names.specs.Diagnostics.{all_noted};
ghost use Rattle.sr_check_expr.specs.Naming.{predefined_at, operation_at, info_typing, meaning_typing, name_typing, decl_of, decl_info, deciding, record_fields, field_named, spec_operation, field_part, capability_part, field_outcome};

use crate::facts::Facts;
use crate::info::{FieldInfo, Info};
use crate::infos::{Infos, name_spot, type_spot};
use crate::literals::known;
use crate::marks::{name_at, refuse, value_at};
use crate::typed_expr::{Named, TypedExpr};
use sr_names::{Decl, Diagnostics, Meaning, Predefined, Spot};
use sr_tree::{Name, QualifiedName};
use sr_types::{Outcome, Static, Ty, Typed, end_of_file, field, refused};
use sr_value::{Duplicate, NoMemory, Span};
use std::alloc::Global;

/// What an expression is that is the name of something predefined.
fn predefined_at(span: Span, name: Predefined) -> TypedExpr
    ensures { result ≡ predefined_at span name }
{
    match name {
        Predefined::Eof => value_at(span, end_of_file()),
        _ => name_at(span, Named::Predefined(name)),
    }
}

/// What an expression is that is the name of an operation: its capability.
fn operation_at(span: Span, spot: Spot, ty: Ty) -> TypedExpr
    ensures { result ≡ operation_at span spot ty }
{
    TypedExpr {
        span,
        typed: known(ty, Static::Unknown),
        named: Named::Operation(spot),
    }
}

/// What an expression is that is a declared name.
fn info_at(alloc: Global, span: Span, decl: Decl, info: &Info) -> Result<TypedExpr, NoMemory>
    ensures { IfOk result (λ typed_expr. typed_expr ≡ info_typing span decl info.now) }
{
    Ok(match info {
        Info::Value(typed) => value_at(span, typed.copy(alloc)?),
        Info::Type(ty) => name_at(span, Named::Type(ty.copy(alloc)?)),
        Info::Enumeration { .. } => name_at(span, Named::Type(Ty::Enum(type_spot(decl.spot)))),
        Info::Record(_) => name_at(span, Named::Type(Ty::Rec(type_spot(decl.spot)))),
        Info::OpType(_) => name_at(span, Named::OpType),
        Info::Operation { ty, .. } => operation_at(span, decl.spot, ty.copy(alloc)?),
        Info::Component(_) => name_at(span, Named::Component(decl)),
    })
}

/// Notes what is found at a name with this meaning, and answers what an expression is that is the name.
fn meaning_at(
    alloc: Global,
    infos: &Infos,
    diagnostics: &mut Diagnostics,
    span: Span,
    meaning: Option<Meaning>,
) -> Result<TypedExpr, NoMemory>
    ensures value { IfOk result (λ typed_expr. typed_expr ≡ (meaning_typing infos.now span meaning).typed_expr) }
    ensures noted { OnOk result (diagnostics.new ≡ all_noted diagnostics.old (meaning_typing infos.now span meaning).found) }
{
    match meaning {
        None => refuse(diagnostics, span),
        Some(Meaning::Predefined(name)) => Ok(predefined_at(span, name)),
        Some(Meaning::Declared(decl)) => match infos.get(decl.spot) {
            None => refuse(diagnostics, span),
            Some(info) => info_at(alloc, span, decl, info),
        },
    }
}

/// A name that stands at a span, in an expression that begins at another.
pub fn name(
    alloc: Global,
    facts: &Facts,
    diagnostics: &mut Diagnostics,
    span: Span,
    used: Span,
) -> Result<TypedExpr, NoMemory>
    ensures value { IfOk result (λ typed_expr. typed_expr ≡ (name_typing facts.now span used).typed_expr) }
    ensures noted { OnOk result (diagnostics.new ≡ all_noted diagnostics.old (name_typing facts.now span used).found) }
{
    let meaning = facts.uses.get(Spot::of(used));
    meaning_at(alloc, &facts.infos, diagnostics, span, meaning)
}

/// The declaration that a meaning is.
pub fn decl_of(meaning: Option<Meaning>) -> Option<Decl>
    ensures { result ≡ decl_of meaning }
{
    match meaning {
        Some(Meaning::Declared(decl)) => Some(decl),
        _ => None,
    }
}

/// What a declaration declares.
pub fn decl_info(infos: &Infos, decl: Option<Decl>) -> Option<&Info>
    ensures { option_copied result ≡ decl_info infos.now decl }
{
    match decl {
        Some(decl) => infos.get(decl.spot),
        None => None,
    }
}

/// The last name of a qualified one, which decides what it means.
pub fn deciding(qualified: &QualifiedName) -> &Name
    ensures { result.now ≡ deciding qualified.now }
{
    match &qualified.second {
        Some(name) => name,
        None => &qualified.first,
    }
}

/// The fields of the record type that is declared at a spot.
pub(crate) fn record_fields(infos: &Infos, spot: sr_types::Spot) -> &[FieldInfo]
    ensures { result.now ≡ record_fields infos.now spot }
{
    match infos.get(name_spot(spot)) {
        Some(Info::Record(fields)) => fields.as_slice(),
        _ => &[],
    }
}

/// The type of the field of this name.
fn field_named<'a>(fields: &'a [FieldInfo], name: &[u8]) -> Option<&'a Ty>
    ensures { option_copied result ≡ field_named fields.now name.now }
{
    let field = fields.iter().find(|field| field.name.as_bytes() == name)?;
    Some(&field.ty)
}

/// The type of an operation of a resource's spec.
fn spec_operation<'a>(facts: &'a Facts, resource: sr_types::Spot, name: &[u8]) -> Option<&'a Ty>
    ensures { option_copied result ≡ spec_operation facts.now resource name.now }
{
    let decl = facts.specs.get(name_spot(resource), name)?;
    match facts.infos.get(decl.spot)? {
        Info::Operation { ty, .. } => Some(ty),
        _ => None,
    }
}

/// What a part of this type of a record is, where there is such a field.
fn record_part(alloc: Global, owner: &Typed, ty: Option<&Ty>) -> Result<Outcome, NoMemory>
    ensures { IfOk result (λ outcome. outcome ≡ field_part owner.now (option_copied ty.entry)) }
{
    match ty {
        None => Ok(Outcome::Broken),
        Some(ty) => Ok(Outcome::Met(field(alloc, owner, ty)?)),
    }
}

/// What an operation of this type is through a capability, where there is such an operation.
fn capability_part(alloc: Global, ty: Option<&Ty>) -> Result<Outcome, NoMemory>
    ensures { IfOk result (λ outcome. outcome ≡ capability_part (option_copied ty.entry)) }
{
    match ty {
        None => Ok(Outcome::Broken),
        Some(ty) => Ok(Outcome::Met(known(ty.copy(alloc)?, Static::Unknown))),
    }
}

/// `r.f`: a field of a record, or an operation of the spec of a resource through a capability.
pub(crate) fn part_named(
    alloc: Global,
    facts: &Facts,
    owner: &Typed,
    name: &[u8],
) -> Result<Outcome, NoMemory>
    ensures { IfOk result (λ outcome. outcome ≡ field_outcome facts.now owner.now name.now) }
{
    match &owner.ty {
        Ty::Rec(spot) => {
            record_part(
                alloc,
                owner,
                field_named(record_fields(&facts.infos, *spot), name),
            )
        }
        Ty::Resource(spot) => capability_part(alloc, spec_operation(facts, *spot, name)),
        Ty::Untyped => Ok(Outcome::Met(refused())),
        _ => Ok(Outcome::Broken),
    }
}
