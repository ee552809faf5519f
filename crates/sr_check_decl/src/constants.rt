ghost use Rattle.std.specs.Prelude.{◌≡◌, ◌++◌, IfOk, OnOk};
ghost use Rattle.sr_names.specs.Diagnostics.{all_noted};
ghost use Rattle.sr_check_expr.specs.Exprs.{infer_expr};
ghost use Rattle.sr_check_expr.specs.Typings.{valued, value_found};
ghost use Rattle.sr_check_decl.specs.Constants.{is_static, is_fault, written_kind, written_found, has_type_of, const_rule, known_if, type_of_value, const_type, const_typed, const_of, const_value_found, const_found};

use crate::kind::Kind;
use crate::written::{FIXED, type_kind};
use sr_check_expr::{Facts, TypedExpr, expr, note_unless, note_value};
use sr_names::{Diagnostics, Rule};
use sr_tree::{ConstDecl, Expr, TypeTree};
use sr_types::{Static, Ty, Typed, fits};
use sr_value::NoMemory;
use std::alloc::Global;

/// Whether a value is known before the run.
pub(crate) fn is_static(value: &Static) -> bool
    ensures { result ≡ is_static value.now }
{
    matches!(value, Static::Known(_))
}

fn is_fault(value: &Static) -> bool
    ensures { result ≡ is_fault value.now }
{
    matches!(value, Static::Faults(_))
}

/// Notes what is found in the type that is written, where one is, and answers it.
pub(crate) fn written_kind(
    alloc: Global,
    facts: &Facts,
    diagnostics: &mut Diagnostics,
    tree: &Option<TypeTree>,
) -> Result<Option<Kind>, NoMemory>
    ensures value { IfOk result (λ kind. kind ≡ written_kind facts.now tree.now) }
    ensures noted { OnOk result (diagnostics.new ≡ all_noted diagnostics.old (written_found facts.now tree.now)) }
{
    match tree {
        None => Ok(None),
        Some(written) => Ok(Some(type_kind(alloc, written, facts, diagnostics, FIXED)?)),
    }
}

/// Whether a value has the type of its constant, or isn't of nothing but `null` and `noop` where that has none.
fn has_type_of(kind: &Option<Kind>, value: &Typed) -> bool
    ensures { result ≡ has_type_of kind.now value.now }
{
    match kind {
        None => !value.ty.is_of_nulls(),
        Some(kind) => fits(&value.ty, &kind.ty),
    }
}

/// Whether a constant may have this value.
fn may_be_const(in_spec: bool, kind: &Option<Kind>, value: &Typed) -> bool
    ensures { result ≡ const_rule in_spec kind.now value.now }
{
    if value.ty.is_untyped() {
        return true;
    }
    has_type_of(kind, value) && !is_fault(&value.value) && (!in_spec || is_static(&value.value))
}

/// What has the type of its value has none where that is of nothing but `null` and `noop`.
pub(crate) fn type_of_value(ty: Ty) -> Ty
    ensures { result ≡ type_of_value ty }
{
    if ty.is_of_nulls() { Ty::Untyped } else { ty }
}

fn const_type(kind: Option<Kind>, ty: Ty) -> Ty
    ensures { result ≡ const_type kind ty }
{
    match kind {
        None => type_of_value(ty),
        Some(kind) => kind.ty,
    }
}

fn known_if(met: bool, value: Static) -> Static
    ensures { result ≡ known_if met value }
{
    if met { value } else { Static::Unknown }
}

/// What a constant is by its value.
pub(crate) fn const_typed(in_spec: bool, kind: Option<Kind>, value: Typed) -> Typed
    ensures { result ≡ const_typed in_spec kind value }
{
    let met = may_be_const(in_spec, &kind, &value);
    Typed {
        ty: const_type(kind, value.ty),
        is_place: false,
        value: known_if(met, value.value),
    }
}

/// Notes where a constant may not have this value.
fn note_const(
    diagnostics: &mut Diagnostics,
    in_spec: bool,
    kind: &Option<Kind>,
    value: &TypedExpr,
) -> Result<(), NoMemory>
    ensures { OnOk result (diagnostics.new ≡ all_noted diagnostics.old (const_value_found in_spec kind.now value.now)) }
{
    let met = may_be_const(in_spec, kind, &value.typed);
    note_unless(diagnostics, met, Rule::BadType, value.span)
}

/// Notes where an expression is no value, or one that a constant may not have.
fn note_const_value(
    diagnostics: &mut Diagnostics,
    in_spec: bool,
    kind: &Option<Kind>,
    value: &TypedExpr,
) -> Result<(), NoMemory>
    ensures { OnOk result (diagnostics.new ≡ all_noted diagnostics.old (value_found value.now ++ const_value_found in_spec kind.now value.now)) }
{
    note_value(diagnostics, value)?;
    note_const(diagnostics, in_spec, kind, value)
}

/// Notes what is found in the value of a constant, and answers what that is.
fn const_value(
    alloc: Global,
    facts: &Facts,
    diagnostics: &mut Diagnostics,
    in_spec: bool,
    kind: &Option<Kind>,
    tree: &Expr,
) -> Result<Typed, NoMemory>
    ensures value { IfOk result (λ typed. typed ≡ (infer_expr tree.now facts.now).typed_expr.typed) }
    ensures noted { let value = infer_expr tree.now facts.now in OnOk result (diagnostics.new ≡ all_noted diagnostics.old (valued value ++ const_value_found in_spec kind.now value.typed_expr)) }
{
    let typed_expr = expr(alloc, tree, facts, diagnostics)?;
    note_const_value(diagnostics, in_spec, kind, &typed_expr)?;
    Ok(typed_expr.typed)
}

/// Notes what is found in the declaration of a constant, and answers what the constant is.
pub fn constant(
    alloc: Global,
    facts: &Facts,
    diagnostics: &mut Diagnostics,
    in_spec: bool,
    tree: &ConstDecl,
) -> Result<Typed, NoMemory>
    ensures value { IfOk result (λ typed. typed ≡ const_of in_spec facts.now tree.now) }
    ensures noted { OnOk result (diagnostics.new ≡ all_noted diagnostics.old (const_found in_spec facts.now tree.now)) }
{
    let kind = written_kind(alloc, facts, diagnostics, &tree.ty)?;
    let value = const_value(alloc, facts, diagnostics, in_spec, &kind, &tree.value)?;
    Ok(const_typed(in_spec, kind, value))
}

/// What a constant is, where what is found in its declaration is noted elsewhere.
pub(crate) fn constant_value(
    alloc: Global,
    facts: &Facts,
    in_spec: bool,
    tree: &ConstDecl,
) -> Result<Typed, NoMemory>
    ensures { IfOk result (λ typed. typed ≡ const_of in_spec facts.now tree.now) }
{
    constant(alloc, facts, &mut Diagnostics::new(alloc), in_spec, tree)
}
