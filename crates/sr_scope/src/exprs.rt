ghost use Rattle.std.specs.Prelude.{◌≡◌, IfOk, OnOk, map};
ghost use Rattle.std.specs.Option.{option_map};
ghost use Rattle.sr_names.specs.Diagnostics.{all_noted};
ghost use Rattle.sr_scope.specs.Exprs.{expr_reads, create_found, invocation_found, part_found, reads_found, optional_found, all_found};

use crate::names::{name, note_field, qualified_name};
use sr_names::{Blocks, Decl, Diagnostics, Place};
use sr_tree::{Create, Expr, Invocation, Part};
use sr_value::{Boxed, NoMemory};

/// Notes what is found in an expression, and answers the component that it names, where it is a bare name of one.
#[cycle(exprs)]
pub fn expr(
    expression: &Expr,
    place: &Place,
    blocks: &Blocks,
    diagnostics: &mut Diagnostics,
) -> Result<Option<Decl>, NoMemory>
    ensures component { IfOk result (λ component. component ≡ (expr_reads expression.now place.now blocks.now).component) }
    ensures noted { OnOk result (diagnostics.new ≡ all_noted diagnostics.old (expr_reads expression.now place.now blocks.now).found) }
{
    match expression {
        Expr::Literal { .. } | Expr::BasicType { .. } => {}
        Expr::Name(used) => return name(used, place, blocks, diagnostics),
        Expr::Conversion { value: inner, .. }
        | Expr::Group { inner, .. }
        | Expr::Unary { operand: inner, .. } => {
            expr(inner.get(), place, blocks, diagnostics)?;
        }
        Expr::Parts { parts, .. } => all_parts(parts.as_slice(), place, blocks, diagnostics)?,
        Expr::Field { record, field, .. } => {
            let component = expr(record.get(), place, blocks, diagnostics)?;
            note_field(component, field, place, diagnostics)?;
        }
        Expr::Index {
            array,
            first,
            second,
            ..
        } => {
            expr(array.get(), place, blocks, diagnostics)?;
            expr(first.get(), place, blocks, diagnostics)?;
            optional(second, place, blocks, diagnostics)?;
        }
        Expr::Call(invocation) => note_invocation(invocation, place, blocks, diagnostics)?,
        Expr::Create(create) => note_create(create, place, blocks, diagnostics)?,
        Expr::Pending { operation, .. } => {
            name(operation, place, blocks, diagnostics)?;
        }
        Expr::Binary { left, right, .. } => {
            expr(left.get(), place, blocks, diagnostics)?;
            expr(right.get(), place, blocks, diagnostics)?;
        }
    }
    Ok(None)
}

/// Notes what is found in an expression.
pub fn note_expr(
    expression: &Expr,
    place: &Place,
    blocks: &Blocks,
    diagnostics: &mut Diagnostics,
) -> Result<(), NoMemory>
    ensures { OnOk result (diagnostics.new ≡ all_noted diagnostics.old (expr_reads expression.now place.now blocks.now).found) }
{
    expr(expression, place, blocks, diagnostics)?;
    Ok(())
}

#[cycle(exprs)]
fn optional(
    optional: &Option<Boxed<Expr>>,
    place: &Place,
    blocks: &Blocks,
    diagnostics: &mut Diagnostics,
) -> Result<(), NoMemory>
    ensures { OnOk result (diagnostics.new ≡ all_noted diagnostics.old (optional_found (option_map expr_reads optional.now) place.now blocks.now)) }
{
    if let Some(inner) = optional {
        expr(inner.get(), place, blocks, diagnostics)?;
    }
    Ok(())
}

/// Notes what is found in expressions, one after another.
#[cycle(exprs)]
pub fn exprs(
    exprs: &[Expr],
    place: &Place,
    blocks: &Blocks,
    diagnostics: &mut Diagnostics,
) -> Result<(), NoMemory>
    ensures { OnOk result (diagnostics.new ≡ all_noted diagnostics.old (reads_found (map expr_reads exprs.now) place.now blocks.now)) }
{
    for each in exprs {
        expr(each, place, blocks, diagnostics)?;
    }
    Ok(())
}

#[cycle(exprs)]
fn all_parts(
    parts: &[Part],
    place: &Place,
    blocks: &Blocks,
    diagnostics: &mut Diagnostics,
) -> Result<(), NoMemory>
    ensures { OnOk result (diagnostics.new ≡ all_noted diagnostics.old (all_found (map part_found parts.now) place.now blocks.now)) }
{
    for part in parts {
        optional(&part.count, place, blocks, diagnostics)?;
        expr(part.value.get(), place, blocks, diagnostics)?;
    }
    Ok(())
}

/// Notes what is found in an invocation.
#[cycle(exprs)]
pub fn note_invocation(
    invocation: &Invocation,
    place: &Place,
    blocks: &Blocks,
    diagnostics: &mut Diagnostics,
) -> Result<(), NoMemory>
    ensures { OnOk result (diagnostics.new ≡ all_noted diagnostics.old (invocation_found invocation.now place.now blocks.now)) }
{
    expr(invocation.callee.get(), place, blocks, diagnostics)?;
    exprs(invocation.arguments.as_slice(), place, blocks, diagnostics)
}

/// Notes what is found in the making of an instance or a machine.
#[cycle(exprs)]
pub fn note_create(
    create: &Create,
    place: &Place,
    blocks: &Blocks,
    diagnostics: &mut Diagnostics,
) -> Result<(), NoMemory>
    ensures { OnOk result (diagnostics.new ≡ all_noted diagnostics.old (create_found create.now place.now blocks.now)) }
{
    match create {
        Create::Resource {
            resource,
            arguments,
            machine,
            ..
        } => {
            qualified_name(resource, place, blocks, diagnostics)?;
            exprs(arguments.as_slice(), place, blocks, diagnostics)?;
            optional(machine, place, blocks, diagnostics)
        }
        Create::Machine { .. } => Ok(()),
    }
}
