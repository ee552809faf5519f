ghost use Rattle.std.specs.Prelude.{◌≡◌, ◌++◌, IfOk, OnOk, map};
ghost use Rattle.std.specs.Option.{option_map};
ghost use Rattle.sr_check_decl.specs.NamesIn.{names_in, names_in_create, names_in_invocation, names_in_part, concat_spans, maybe_spans};

use sr_tree::{Create, Expr, Invocation, Part};
use sr_value::{Boxed, NoMemory, Row, Span};
use std::alloc::Global;

/// Appends the names that are used in an expression to those that are there.
#[cycle(names)]
pub(crate) fn push_names(tree: &Expr, names: &mut Row<Span>) -> Result<(), NoMemory>
    ensures { OnOk result (names.new ≡ names.old ++ names_in tree.now) }
{
    match tree {
        Expr::Literal { .. } | Expr::BasicType { .. } => Ok(()),
        Expr::Name(name) => names.push(name.span),
        Expr::Conversion { value: inner, .. } | Expr::Group { inner, .. } => {
            push_names(inner.get(), names)
        }
        Expr::Unary { operand, .. } => push_names(operand.get(), names),
        Expr::Parts { parts, .. } => push_parts(parts.as_slice(), names),
        Expr::Field { record, field, .. } => {
            push_names(record.get(), names)?;
            names.push(field.span)
        }
        Expr::Index {
            array,
            first,
            second,
            ..
        } => {
            push_names(array.get(), names)?;
            push_names(first.get(), names)?;
            push_optional(second, names)
        }
        Expr::Call(invocation) => push_invocation(invocation, names),
        Expr::Create(create) => push_create(create, names),
        Expr::Pending { operation, .. } => names.push(operation.span),
        Expr::Binary { left, right, .. } => {
            push_names(left.get(), names)?;
            push_names(right.get(), names)
        }
    }
}

#[cycle(names)]
fn push_optional(tree: &Option<Boxed<Expr>>, names: &mut Row<Span>) -> Result<(), NoMemory>
    ensures { OnOk result (names.new ≡ names.old ++ maybe_spans (option_map names_in tree.now)) }
{
    match tree {
        Some(inner) => push_names(inner.get(), names),
        None => Ok(()),
    }
}

#[cycle(names)]
fn push_all(trees: &[Expr], names: &mut Row<Span>) -> Result<(), NoMemory>
    ensures { OnOk result (names.new ≡ names.old ++ concat_spans (map names_in trees.now)) }
{
    for tree in trees {
        push_names(tree, names)?;
    }
    Ok(())
}

#[cycle(names)]
fn push_invocation(tree: &Invocation, names: &mut Row<Span>) -> Result<(), NoMemory>
    ensures { OnOk result (names.new ≡ names.old ++ names_in_invocation tree.now) }
{
    push_names(tree.callee.get(), names)?;
    push_all(tree.arguments.as_slice(), names)
}

#[cycle(names)]
fn push_create(tree: &Create, names: &mut Row<Span>) -> Result<(), NoMemory>
    ensures { OnOk result (names.new ≡ names.old ++ names_in_create tree.now) }
{
    match tree {
        Create::Resource {
            arguments,
            machine,
            ..
        } => {
            push_all(arguments.as_slice(), names)?;
            push_optional(machine, names)
        }
        Create::Machine { .. } => Ok(()),
    }
}

#[cycle(names)]
fn push_part(tree: &Part, names: &mut Row<Span>) -> Result<(), NoMemory>
    ensures { OnOk result (names.new ≡ names.old ++ names_in_part tree.now) }
{
    push_optional(&tree.count, names)?;
    push_names(tree.value.get(), names)
}

#[cycle(names)]
fn push_parts(trees: &[Part], names: &mut Row<Span>) -> Result<(), NoMemory>
    ensures { OnOk result (names.new ≡ names.old ++ concat_spans (map names_in_part trees.now)) }
{
    for tree in trees {
        push_part(tree, names)?;
    }
    Ok(())
}

/// The names that are used in an expression.
pub(crate) fn names_in(alloc: Global, tree: &Expr) -> Result<Row<Span>, NoMemory>
    ensures { IfOk result (λ names. names ≡ names_in tree.now) }
{
    let mut names = Row::new(alloc);
    push_names(tree, &mut names)?;
    Ok(names)
}
