ghost use Rattle.std.specs.Prelude.{◌≡◌, IfOk, OnOk};
ghost use Rattle.sr_names.specs.Diagnostics.{all_noted};
ghost use Rattle.sr_check_expr.specs.Typings.{typed_exprs_of};
ghost use Rattle.sr_check_decl.specs.Variables.{vars_declared, initial_value_found, values_found, typed_vars_found, has_no_dims, untyped_var_rule, nulls_found, no_kind, untyped_vars_found, var_rules_found, var_found, type_by_values, vars_type, local_var, typings_of};

use crate::constants::type_of_value;
use crate::kind::Kind;
use crate::tally::{declare_name, variable};
use crate::types::{decl_type, note_decls};
use crate::written::{FREE, type_kind, written_type};
use sr_check_expr::{Facts, TypedExpr, all, as_many, note_unless, note_values};
use sr_names::{Diagnostics, Rule};
use sr_tree::{Decl, DimsTree, Expr, VarDecl};
use sr_types::{Ty, fits};
use sr_value::{Duplicate, NoMemory, Row, Span};
use std::alloc::Global;

/// Declares variables of this type, apart from their own dims.
pub fn declare_variables(
    alloc: Global,
    facts: &mut Facts,
    ty: &Ty,
    decls: &[Decl],
) -> Result<(), NoMemory>
    ensures { OnOk result (facts.new ≡ vars_declared ty.now decls.now facts.old) }
{
    for decl in decls {
        declare_name(
            facts,
            &decl.name,
            variable(decl_type(alloc, &decl.dims, ty)?),
        )?;
    }
    Ok(())
}

/// Notes the initial values that aren't of the types of their variables.
fn note_initial(
    alloc: Global,
    diagnostics: &mut Diagnostics,
    ty: &Ty,
    decls: &[Decl],
    values: &[TypedExpr],
) -> Result<(), NoMemory>
    ensures { OnOk result (diagnostics.new ≡ all_noted diagnostics.old (values_found ty.now decls.now values.now)) }
{
    let mut rest = values;
    for decl in decls {
        match rest {
            [] => return Ok(()),
            [first, others @ ..] => {
                note_initial_value(alloc, diagnostics, ty, decl, first)?;
                rest = others;
            }
        }
    }
    Ok(())
}

fn note_initial_value(
    alloc: Global,
    diagnostics: &mut Diagnostics,
    ty: &Ty,
    decl: &Decl,
    value: &TypedExpr,
) -> Result<(), NoMemory>
    ensures { OnOk result (diagnostics.new ≡ all_noted diagnostics.old (initial_value_found ty.now decl.now value.now)) }
{
    let declared = decl_type(alloc, &decl.dims, ty)?;
    note_unless(
        diagnostics,
        fits(&value.typed.ty, &declared),
        Rule::BadType,
        value.span,
    )
}

/// Notes what is found at variables of a type that is written, apart from that and their values.
fn note_typed(
    alloc: Global,
    facts: &Facts,
    diagnostics: &mut Diagnostics,
    span: Span,
    decls: &[Decl],
    values: &[TypedExpr],
    kind: &Kind,
) -> Result<(), NoMemory>
    ensures { OnOk result (diagnostics.new ≡ all_noted diagnostics.old (typed_vars_found facts.now span decls.now values.now kind.now)) }
{
    note_decls(alloc, facts, diagnostics, FREE, kind, decls)?;
    let met = values.is_empty() || as_many(decls, values);
    note_unless(diagnostics, met, Rule::BadType, span)?;
    note_initial(alloc, diagnostics, &kind.ty, decls, values)
}

fn has_no_dims(dims: &Option<DimsTree>) -> bool
    ensures { result ≡ has_no_dims dims.now }
{
    dims.is_none()
}

/// Whether a declaration may be without a type: it is of one name without dims, and has one value.
pub(crate) fn may_be_untyped<T>(decls: &[Decl], values: &[T]) -> bool
    ensures { result ≡ untyped_var_rule decls.now values.now }
{
    match (decls, values) {
        ([decl], [_]) => has_no_dims(&decl.dims),
        _ => false,
    }
}

/// Notes the values that are of nothing but `null` and `noop`.
fn note_nulls(diagnostics: &mut Diagnostics, values: &[TypedExpr]) -> Result<(), NoMemory>
    ensures { OnOk result (diagnostics.new ≡ all_noted diagnostics.old (nulls_found values.now)) }
{
    for value in values {
        let met = !value.typed.ty.is_of_nulls();
        note_unless(diagnostics, met, Rule::BadType, value.span)?;
    }
    Ok(())
}

fn no_kind(span: Span) -> Kind
    ensures { result ≡ no_kind span }
{
    Kind {
        span,
        ty: Ty::Untyped,
    }
}

/// Notes what is found at variables without a type, apart from their values.
fn note_untyped(
    alloc: Global,
    facts: &Facts,
    diagnostics: &mut Diagnostics,
    span: Span,
    decls: &[Decl],
    values: &[TypedExpr],
) -> Result<(), NoMemory>
    ensures { OnOk result (diagnostics.new ≡ all_noted diagnostics.old (untyped_vars_found facts.now span decls.now values.now)) }
{
    let kind = no_kind(span);
    note_decls(alloc, facts, diagnostics, FREE, &kind, decls)?;
    note_unless(
        diagnostics,
        may_be_untyped(decls, values),
        Rule::BadType,
        span,
    )?;
    note_nulls(diagnostics, values)
}

/// Notes what is found at variables, apart from their values.
fn note_rules(
    alloc: Global,
    facts: &Facts,
    diagnostics: &mut Diagnostics,
    tree: &VarDecl,
    values: &[TypedExpr],
) -> Result<(), NoMemory>
    ensures { OnOk result (diagnostics.new ≡ all_noted diagnostics.old (var_rules_found facts.now tree.now.span tree.now.ty tree.now.decls values.now)) }
{
    let decls = tree.decls.as_slice();
    match &tree.ty {
        None => note_untyped(alloc, facts, diagnostics, tree.span, decls, values),
        Some(written) => {
            let kind = type_kind(alloc, written, facts, diagnostics, FREE)?;
            note_typed(alloc, facts, diagnostics, tree.span, decls, values, &kind)
        }
    }
}

/// Notes what is found in the declaration of variables.
pub fn note_variables(
    alloc: Global,
    facts: &Facts,
    diagnostics: &mut Diagnostics,
    tree: &VarDecl,
) -> Result<(), NoMemory>
    ensures { OnOk result (diagnostics.new ≡ all_noted diagnostics.old (var_found facts.now tree.now)) }
{
    let values = all(alloc, tree.values.as_slice(), facts, diagnostics)?;
    note_values(diagnostics, values.as_slice())?;
    note_rules(alloc, facts, diagnostics, tree, values.as_slice())
}

/// The type of variables by their values.
fn type_by_values(alloc: Global, values: &[TypedExpr]) -> Result<Ty, NoMemory>
    ensures { IfOk result (λ ty. ty ≡ type_by_values values.now) }
{
    match values {
        [value] => Ok(type_of_value(value.typed.ty.copy(alloc)?)),
        _ => Ok(Ty::Untyped),
    }
}

/// What values are, where what is found in them is noted elsewhere.
fn typed_values(alloc: Global, facts: &Facts, trees: &[Expr]) -> Result<Row<TypedExpr>, NoMemory>
    ensures { IfOk result (λ values. values ≡ typed_exprs_of (typings_of facts.now trees.now)) }
{
    all(alloc, trees, facts, &mut Diagnostics::new(alloc))
}

fn type_of_values(alloc: Global, facts: &Facts, trees: &[Expr]) -> Result<Ty, NoMemory>
    ensures { IfOk result (λ ty. ty ≡ type_by_values (typed_exprs_of (typings_of facts.now trees.now))) }
{
    let values = typed_values(alloc, facts, trees)?;
    type_by_values(alloc, values.as_slice())
}

/// The type of variables of a block: the type that is written, or the type of their value.
fn vars_type(alloc: Global, facts: &Facts, tree: &VarDecl) -> Result<Ty, NoMemory>
    ensures { IfOk result (λ ty. ty ≡ vars_type facts.now tree.now.ty tree.now.values) }
{
    match &tree.ty {
        Some(written) => written_type(alloc, written, facts, FREE),
        None => type_of_values(alloc, facts, tree.values.as_slice()),
    }
}

/// Declares the variables of a declaration in a block.
pub fn declare_locals(alloc: Global, facts: &mut Facts, tree: &VarDecl) -> Result<(), NoMemory>
    ensures { OnOk result (facts.new ≡ local_var tree.now facts.old) }
{
    let ty = vars_type(alloc, facts, tree)?;
    declare_variables(alloc, facts, &ty, tree.decls.as_slice())
}
