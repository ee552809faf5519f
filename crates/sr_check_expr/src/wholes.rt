ghost use Rattle.std.specs.Prelude.{◌≡◌, IfOk, OnOk, option_copied};
ghost use Rattle.sr_names.specs.Diagnostics.{all_noted};
ghost use Rattle.sr_types.specs.Aggregates.{bracketed_rule};
ghost use Rattle.sr_types.specs.Operators.{unary_rule};
ghost use Rattle.sr_check_expr.specs.Typings.{value_at, settled_typed, is_met, broken_unless};
ghost use Rattle.sr_check_expr.specs.Exprs.{around, operator_of, prefix_of, conversion_outcome, between, indexed, index_outcome, grouped, second_valued, field_typing, value_field, operation_component, pending_found, pending_outcome, pending_typing, part_valued, inferred_repeated};

use crate::facts::{Facts, Here};
use crate::info::Info;
use crate::literals::known;
use crate::marks::{note_unless, note_value, settle};
use crate::naming::{decl_info, decl_of, name, part_named};
use crate::operators::{converted, grouped, operator_of, prefix_of};
use crate::typed_expr::{Named, TypedExpr};
use sr_names::{Diagnostics, Rule, Spot};
use sr_tree::{BinaryOperator, Conversion, Name, UnaryOperator};
use sr_types::{
    Outcome, Repeated, Static, Ty, Typed, binary, bracketed, index_one, index_two, unary,
};
use sr_value::{Boxed, NoMemory, Row, Span};
use std::alloc::Global;

/// Notes what is found at a conversion, and answers what it is.
pub(crate) fn conversion(
    diagnostics: &mut Diagnostics,
    span: Span,
    written: Conversion,
    inner: Boxed<TypedExpr>,
) -> Result<TypedExpr, NoMemory>
    ensures value { IfOk result (λ typed_expr. typed_expr ≡ (around span inner (conversion_outcome written inner.typed)).typed_expr) }
    ensures noted { OnOk result (diagnostics.new ≡ all_noted diagnostics.old (around span inner (conversion_outcome written inner.typed)).found) }
{
    let inner = inner.get();
    note_value(diagnostics, inner)?;
    settle(diagnostics, span, converted(written, &inner.typed))
}

/// Notes what is found at an operator before its operand, and answers what the whole is.
pub(crate) fn before(
    alloc: Global,
    diagnostics: &mut Diagnostics,
    span: Span,
    written: UnaryOperator,
    operand: Boxed<TypedExpr>,
) -> Result<TypedExpr, NoMemory>
    ensures value { IfOk result (λ typed_expr. typed_expr ≡ (around span operand (unary_rule (prefix_of written) operand.typed)).typed_expr) }
    ensures noted { OnOk result (diagnostics.new ≡ all_noted diagnostics.old (around span operand (unary_rule (prefix_of written) operand.typed)).found) }
{
    let operand = operand.get();
    note_value(diagnostics, operand)?;
    let outcome = unary(alloc, prefix_of(written), &operand.typed)?;
    settle(diagnostics, span, outcome)
}

/// Notes what is found at a bracketed list, and answers what it is.
pub(crate) fn listed(
    alloc: Global,
    diagnostics: &mut Diagnostics,
    span: Span,
    parts: Row<Repeated>,
) -> Result<TypedExpr, NoMemory>
    ensures value { IfOk result (λ typed_expr. typed_expr ≡ value_at span (settled_typed (bracketed_rule parts))) }
    ensures noted { OnOk result (diagnostics.new ≡ all_noted diagnostics.old (broken_unless (is_met (bracketed_rule parts)) Rule.BadType span)) }
{
    settle(diagnostics, span, bracketed(alloc, parts.as_slice())?)
}

/// Notes what is found at brackets, and answers what stands in them.
pub(crate) fn group(
    diagnostics: &mut Diagnostics,
    span: Span,
    inner: Boxed<TypedExpr>,
) -> Result<TypedExpr, NoMemory>
    ensures value { IfOk result (λ typed_expr. typed_expr ≡ (around span inner (Outcome.Met (grouped inner.typed))).typed_expr) }
    ensures noted { OnOk result (diagnostics.new ≡ all_noted diagnostics.old (around span inner (Outcome.Met (grouped inner.typed))).found) }
{
    note_value(diagnostics, inner.get())?;
    settle(diagnostics, span, Outcome::Met(grouped(typed_of(inner))))
}

/// Notes what is found at an operator between two operands, and answers what the whole is.
pub(crate) fn between(
    alloc: Global,
    diagnostics: &mut Diagnostics,
    span: Span,
    written: BinaryOperator,
    left: Boxed<TypedExpr>,
    right: Boxed<TypedExpr>,
) -> Result<TypedExpr, NoMemory>
    ensures value { IfOk result (λ typed_expr. typed_expr ≡ (between span (operator_of written) left right).typed_expr) }
    ensures noted { OnOk result (diagnostics.new ≡ all_noted diagnostics.old (between span (operator_of written) left right).found) }
{
    let left = left.get();
    let right = right.get();
    note_value(diagnostics, left)?;
    note_value(diagnostics, right)?;
    let outcome = binary(alloc, operator_of(written), &left.typed, &right.typed)?;
    settle(diagnostics, span, outcome)
}

fn note_second(
    diagnostics: &mut Diagnostics,
    second: &Option<Boxed<TypedExpr>>,
) -> Result<(), NoMemory>
    ensures { OnOk result (diagnostics.new ≡ all_noted diagnostics.old (second_valued second.now)) }
{
    match second {
        Some(second) => note_value(diagnostics, second.get()),
        None => Ok(()),
    }
}

fn index_outcome(
    alloc: Global,
    whole: &Typed,
    first: &Typed,
    second: &Option<Boxed<TypedExpr>>,
) -> Result<Outcome, NoMemory>
    ensures { IfOk result (λ outcome. outcome ≡ index_outcome whole.now first.now second.now) }
{
    match second {
        Some(second) => index_two(alloc, whole, first, &second.get().typed),
        None => index_one(alloc, whole, first),
    }
}

/// Notes what is found at indices, and answers what they pick.
pub(crate) fn indexed(
    alloc: Global,
    diagnostics: &mut Diagnostics,
    span: Span,
    array: Boxed<TypedExpr>,
    first: Boxed<TypedExpr>,
    second: Option<Boxed<TypedExpr>>,
) -> Result<TypedExpr, NoMemory>
    ensures value { IfOk result (λ typed_expr. typed_expr ≡ (indexed span array first second).typed_expr) }
    ensures noted { OnOk result (diagnostics.new ≡ all_noted diagnostics.old (indexed span array first second).found) }
{
    picked(alloc, diagnostics, span, array.get(), first.get(), &second)
}

fn picked(
    alloc: Global,
    diagnostics: &mut Diagnostics,
    span: Span,
    array: &TypedExpr,
    first: &TypedExpr,
    second: &Option<Boxed<TypedExpr>>,
) -> Result<TypedExpr, NoMemory>
    ensures value { IfOk result (λ typed_expr. typed_expr ≡ (indexed span array.now first.now second.now).typed_expr) }
    ensures noted { OnOk result (diagnostics.new ≡ all_noted diagnostics.old (indexed span array.now first.now second.now).found) }
{
    note_value(diagnostics, array)?;
    note_value(diagnostics, first)?;
    note_second(diagnostics, second)?;
    let outcome = index_outcome(alloc, &array.typed, &first.typed, second)?;
    settle(diagnostics, span, outcome)
}

/// Notes what is found at a point, and answers what stands after it.
pub(crate) fn field(
    alloc: Global,
    facts: &Facts,
    diagnostics: &mut Diagnostics,
    span: Span,
    owner: Boxed<TypedExpr>,
    part: &Name,
) -> Result<TypedExpr, NoMemory>
    ensures value { IfOk result (λ typed_expr. typed_expr ≡ (field_typing facts.now span owner part.now owner.named).typed_expr) }
    ensures noted { OnOk result (diagnostics.new ≡ all_noted diagnostics.old (field_typing facts.now span owner part.now owner.named).found) }
{
    let owner = owner.get();
    match &owner.named {
        Named::Component(_) => name(alloc, facts, diagnostics, span, part.span),
        _ => value_field(alloc, facts, diagnostics, span, owner, part.text.as_bytes()),
    }
}

fn value_field(
    alloc: Global,
    facts: &Facts,
    diagnostics: &mut Diagnostics,
    span: Span,
    owner: &TypedExpr,
    part: &[u8],
) -> Result<TypedExpr, NoMemory>
    ensures value { IfOk result (λ typed_expr. typed_expr ≡ (value_field facts.now span owner.now part.now).typed_expr) }
    ensures noted { OnOk result (diagnostics.new ≡ all_noted diagnostics.old (value_field facts.now span owner.now part.now).found) }
{
    note_value(diagnostics, owner)?;
    let outcome = part_named(alloc, facts, &owner.typed, part)?;
    settle(diagnostics, span, outcome)
}

/// The component of an operation.
fn operation_component(info: Option<&Info>) -> Option<Spot>
    ensures { result ≡ operation_component (option_copied info.entry) }
{
    match info {
        Some(Info::Operation { component, .. }) => Some(*component),
        _ => None,
    }
}

fn note_pending(
    diagnostics: &mut Diagnostics,
    here: Here,
    span: Span,
    component: Option<Spot>,
) -> Result<(), NoMemory>
    ensures { OnOk result (diagnostics.new ≡ all_noted diagnostics.old (pending_found here span component)) }
{
    match component {
        Some(component) => {
            note_unless(
                diagnostics,
                component == here.component.spot,
                Rule::BadUse,
                span,
            )
        }
        None => Ok(()),
    }
}

fn pending_outcome(component: Option<Spot>) -> Outcome
    ensures { result ≡ pending_outcome component }
{
    match component {
        Some(_) => Outcome::Met(known(Ty::Int, Static::Unknown)),
        None => Outcome::Broken,
    }
}

/// Notes what is found at `?operation`, and answers what it is.
pub(crate) fn pending(
    facts: &Facts,
    diagnostics: &mut Diagnostics,
    span: Span,
    used: Span,
) -> Result<TypedExpr, NoMemory>
    ensures value { IfOk result (λ typed_expr. typed_expr ≡ (pending_typing facts.now span used).typed_expr) }
    ensures noted { OnOk result (diagnostics.new ≡ all_noted diagnostics.old (pending_typing facts.now span used).found) }
{
    let decl = decl_of(facts.uses.get(Spot::of(used)));
    let component = operation_component(decl_info(&facts.infos, decl));
    note_pending(diagnostics, facts.here, span, component)?;
    settle(diagnostics, span, pending_outcome(component))
}

/// Notes the count and the value of a part of a bracketed list that are no values.
fn note_part(
    diagnostics: &mut Diagnostics,
    count: &Option<Boxed<TypedExpr>>,
    value: &TypedExpr,
) -> Result<(), NoMemory>
    ensures { OnOk result (diagnostics.new ≡ all_noted diagnostics.old (part_valued count.now value.now)) }
{
    note_second(diagnostics, count)?;
    note_value(diagnostics, value)
}

/// Notes what is found at a part of a bracketed list, apart from its own parts, and answers what it is.
pub(crate) fn repeated_part(
    diagnostics: &mut Diagnostics,
    count: Option<Boxed<TypedExpr>>,
    value: Boxed<TypedExpr>,
) -> Result<Repeated, NoMemory>
    ensures value { IfOk result (λ part. part ≡ inferred_repeated count value) }
    ensures noted { OnOk result (diagnostics.new ≡ all_noted diagnostics.old (part_valued count value)) }
{
    note_part(diagnostics, &count, value.get())?;
    Ok(Repeated {
        count: count.map(typed_of),
        value: typed_of(value),
    })
}

/// The type and the value of a typed expression.
fn typed_of(typed_expr: Boxed<TypedExpr>) -> Typed
    ensures { result ≡ typed_expr.typed }
{
    typed_expr.into_inner().typed
}
