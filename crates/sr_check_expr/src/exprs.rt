ghost use Rattle.std.specs.Prelude.{◌≡◌, IfOk, OnOk, map};
ghost use Rattle.std.specs.Option.{option_map};
ghost use Rattle.sr_names.specs.Diagnostics.{all_noted};
ghost use Rattle.sr_check_expr.specs.Arguments.{all_found};
ghost use Rattle.sr_check_expr.specs.Calls.{parts_found as called_parts_found};
ghost use Rattle.sr_check_expr.specs.Exprs.{infer_expr, infer_create, infer_invocation, infer_part, infer_all, infer_parts, part_found, parts_found, repeated, second_found};
ghost use Rattle.sr_check_expr.specs.Typings.{typed_exprs_of};

use crate::arguments::Invoked;
use crate::calls::called;
use crate::creating::{instance, new_machine, resource_named};
use crate::facts::Facts;
use crate::literals::{basic, literal};
use crate::marks::name_at;
use crate::naming::name;
use crate::typed_expr::{Named, TypedExpr};
use crate::wholes::{
    before, between, conversion, field, group, indexed, listed, pending, repeated_part,
};
use sr_names::Diagnostics;
use sr_tree::{Create, Expr, Invocation, Part};
use sr_types::Repeated;
use sr_value::{Boxed, NoMemory, Row};
use std::alloc::Global;

/// Notes what is found in an expression, and answers what it is.
#[cycle(exprs)]
pub fn expr(
    alloc: Global,
    tree: &Expr,
    facts: &Facts,
    diagnostics: &mut Diagnostics,
) -> Result<TypedExpr, NoMemory>
    ensures value { IfOk result (λ typed_expr. typed_expr ≡ (infer_expr tree.now facts.now).typed_expr) }
    ensures noted { OnOk result (diagnostics.new ≡ all_noted diagnostics.old (infer_expr tree.now facts.now).found) }
{
    match tree {
        Expr::Literal {
            span,
            literal: written,
        } => literal(alloc, *span, written),
        Expr::Name(used) => name(alloc, facts, diagnostics, used.span, used.span),
        Expr::BasicType { span, basic: word } => Ok(name_at(*span, Named::Type(basic(*word)))),
        Expr::Conversion {
            span,
            conversion: written,
            value,
        } => {
            let inner = boxed(alloc, value.get(), facts, diagnostics)?;
            conversion(diagnostics, *span, *written, inner)
        }
        Expr::Group { span, inner } => {
            let inner = boxed(alloc, inner.get(), facts, diagnostics)?;
            group(diagnostics, *span, inner)
        }
        Expr::Parts { span, parts } => {
            let repeated = all_parts(alloc, parts.as_slice(), facts, diagnostics)?;
            listed(alloc, diagnostics, *span, repeated)
        }
        Expr::Field {
            span,
            record,
            field: part,
        } => {
            let owner = boxed(alloc, record.get(), facts, diagnostics)?;
            field(alloc, facts, diagnostics, *span, owner, part)
        }
        Expr::Index {
            span,
            array,
            first,
            second,
        } => {
            let array = boxed(alloc, array.get(), facts, diagnostics)?;
            let first = boxed(alloc, first.get(), facts, diagnostics)?;
            let second = optional(alloc, second, facts, diagnostics)?;
            indexed(alloc, diagnostics, *span, array, first, second)
        }
        Expr::Call(invoked) => {
            let parts = invocation(alloc, invoked, facts, diagnostics)?;
            called(alloc, facts, diagnostics, invoked.span, parts)
        }
        Expr::Create(made) => create(alloc, made, facts, diagnostics),
        Expr::Unary {
            span,
            operator,
            operand,
        } => {
            let operand = boxed(alloc, operand.get(), facts, diagnostics)?;
            before(alloc, diagnostics, *span, *operator, operand)
        }
        Expr::Pending { span, operation } => pending(facts, diagnostics, *span, operation.span),
        Expr::Binary {
            span,
            left,
            operator,
            right,
        } => {
            let left = boxed(alloc, left.get(), facts, diagnostics)?;
            let right = boxed(alloc, right.get(), facts, diagnostics)?;
            between(alloc, diagnostics, *span, *operator, left, right)
        }
    }
}

/// Notes what is found in an expression, and answers what it is, in a box in which it may wait for other parts.
#[cycle(exprs)]
fn boxed(
    alloc: Global,
    tree: &Expr,
    facts: &Facts,
    diagnostics: &mut Diagnostics,
) -> Result<Boxed<TypedExpr>, NoMemory>
    ensures value { IfOk result (λ typed_expr. typed_expr ≡ (infer_expr tree.now facts.now).typed_expr) }
    ensures noted { OnOk result (diagnostics.new ≡ all_noted diagnostics.old (infer_expr tree.now facts.now).found) }
{
    let typed_expr = expr(alloc, tree, facts, diagnostics)?;
    Boxed::new(alloc, typed_expr)
}

/// Notes what is found in an expression that may be left out, and answers what it is.
#[cycle(exprs)]
fn optional(
    alloc: Global,
    tree: &Option<Boxed<Expr>>,
    facts: &Facts,
    diagnostics: &mut Diagnostics,
) -> Result<Option<Boxed<TypedExpr>>, NoMemory>
    ensures value { IfOk result (λ typed_expr. typed_expr ≡ option_map (λ typing. typing.typed_expr) (option_map (λ infer. infer facts.now) (option_map infer_expr tree.now))) }
    ensures noted { OnOk result (diagnostics.new ≡ all_noted diagnostics.old (second_found (option_map (λ infer. infer facts.now) (option_map infer_expr tree.now)))) }
{
    match tree {
        Some(inner) => Ok(Some(boxed(alloc, inner.get(), facts, diagnostics)?)),
        None => Ok(None),
    }
}

/// Notes what is found in expressions, and answers what they are.
#[cycle(exprs)]
pub fn all(
    alloc: Global,
    trees: &[Expr],
    facts: &Facts,
    diagnostics: &mut Diagnostics,
) -> Result<Row<TypedExpr>, NoMemory>
    ensures value { IfOk result (λ typed_expr. typed_expr ≡ typed_exprs_of (infer_all (map infer_expr trees.now) facts.now)) }
    ensures noted { OnOk result (diagnostics.new ≡ all_noted diagnostics.old (all_found (infer_all (map infer_expr trees.now) facts.now))) }
{
    let mut typed_expr = Row::new(alloc);
    for tree in trees {
        typed_expr.push(expr(alloc, tree, facts, diagnostics)?)?;
    }
    Ok(typed_expr)
}

/// Notes what is found in the parts of an invocation, and answers what they are.
#[cycle(exprs)]
pub fn invocation(
    alloc: Global,
    tree: &Invocation,
    facts: &Facts,
    diagnostics: &mut Diagnostics,
) -> Result<Invoked, NoMemory>
    ensures value { IfOk result (λ invoked. invoked ≡ record { callee = (infer_invocation tree.now facts.now).callee.typed_expr; arguments = typed_exprs_of (infer_invocation tree.now facts.now).arguments }) }
    ensures noted { OnOk result (diagnostics.new ≡ all_noted diagnostics.old (called_parts_found (infer_invocation tree.now facts.now))) }
{
    let callee = boxed(alloc, tree.callee.get(), facts, diagnostics)?;
    let arguments = all(alloc, tree.arguments.as_slice(), facts, diagnostics)?;
    Ok(Invoked {
        callee: callee.into_inner(),
        arguments,
    })
}

/// Notes what is found in the making of an instance or a machine, and answers what it is.
#[cycle(exprs)]
pub fn create(
    alloc: Global,
    tree: &Create,
    facts: &Facts,
    diagnostics: &mut Diagnostics,
) -> Result<TypedExpr, NoMemory>
    ensures value { IfOk result (λ typed_expr. typed_expr ≡ (infer_create tree.now facts.now).typed_expr) }
    ensures noted { OnOk result (diagnostics.new ≡ all_noted diagnostics.old (infer_create tree.now facts.now).found) }
{
    match tree {
        Create::Resource {
            span,
            resource,
            arguments,
            machine,
        } => {
            let arguments = all(alloc, arguments.as_slice(), facts, diagnostics)?;
            let machine = optional(alloc, machine, facts, diagnostics)?;
            let resource = resource_named(facts, resource);
            instance(
                facts,
                diagnostics,
                *span,
                resource,
                arguments.as_slice(),
                &machine,
            )
        }
        Create::Machine { span } => new_machine(facts, diagnostics, *span),
    }
}

/// Notes what is found in a part of a bracketed list, and answers what it is.
#[cycle(exprs)]
fn part(
    alloc: Global,
    tree: &Part,
    facts: &Facts,
    diagnostics: &mut Diagnostics,
) -> Result<Repeated, NoMemory>
    ensures value { IfOk result (λ part. part ≡ repeated (infer_part tree.now facts.now)) }
    ensures noted { OnOk result (diagnostics.new ≡ all_noted diagnostics.old (part_found (infer_part tree.now facts.now))) }
{
    let count = optional(alloc, &tree.count, facts, diagnostics)?;
    let value = boxed(alloc, tree.value.get(), facts, diagnostics)?;
    repeated_part(diagnostics, count, value)
}

/// Notes what is found in the parts of a bracketed list, and answers what they are.
#[cycle(exprs)]
fn all_parts(
    alloc: Global,
    trees: &[Part],
    facts: &Facts,
    diagnostics: &mut Diagnostics,
) -> Result<Row<Repeated>, NoMemory>
    ensures value { IfOk result (λ parts. parts ≡ map repeated (infer_parts (map infer_part trees.now) facts.now)) }
    ensures noted { OnOk result (diagnostics.new ≡ all_noted diagnostics.old (parts_found (infer_parts (map infer_part trees.now) facts.now))) }
{
    let mut repeated = Row::new(alloc);
    for tree in trees {
        repeated.push(part(alloc, tree, facts, diagnostics)?)?;
    }
    Ok(repeated)
}
