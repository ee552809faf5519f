//! The lines that tell the classes of a program's operations.
#![tactic(auto)]

ghost use Rattle.std.specs.Prelude.{◌≡◌, ◌==◌, ◌++◌, ◌∷◌, [], IfOk, OnOk, if◌then◌else◌};
ghost use Rattle.std.specs.Option.{option_copied};
ghost use Rattle.sr_class_text.specs.Lines as lines;
ghost use Rattle.sr_classes.specs.Classes as classes_of;

use sr_core::{Classes, Component, Core, Operation};
use sr_value::{NoMemory, Text};
use std::alloc::Global;

/// A line for each class of a program's operations, in the order of their first operations. It has the name of the
/// component, `:`, and the name of each operation after a space.
pub fn class_text(alloc: Global, core: &Core, classes: &Classes) -> Result<Text, NoMemory>
    ensures { IfOk result (λ text. text ≡ lines.class_text core.now classes.now.of) }
{
    let mut text = Text::new(alloc);
    push_lines(&mut text, core, classes.of.as_slice())?;
    Ok(text)
}

fn push_lines(text: &mut Text, core: &Core, classes: &[u32]) -> Result<(), NoMemory>
    ensures { OnOk result (text.new ≡ text.old ++ lines.class_text core.now classes.now) }
{
    for op in 0..core.operations.len() {
        push_line_at(text, core, classes, op)?;
    }
    Ok(())
}

/// The line of the class of this operation, where it is the first of it.
fn push_line_at(text: &mut Text, core: &Core, classes: &[u32], op: usize) -> Result<(), NoMemory>
    ensures { OnOk result (text.new ≡ text.old ++ (if classes_of.class_of classes.now op == op then lines.class_line core.now classes.now op else [])) }
{
    if class_of(classes, op) == op {
        push_line(text, core, classes, op)
    } else {
        Ok(())
    }
}

/// The line of the class of this first operation.
fn push_line(text: &mut Text, core: &Core, classes: &[u32], first: usize) -> Result<(), NoMemory>
    ensures { OnOk result (text.new ≡ text.old ++ lines.class_line core.now classes.now first) }
{
    text.push_all(component_name(core.components.as_slice(), core.operations.get(first)))?;
    text.push(b':')?;
    push_members(text, core.operations.as_slice(), classes, first)?;
    text.push(b'\n')
}

fn push_members(
    text: &mut Text,
    operations: &[Operation],
    classes: &[u32],
    class: usize,
) -> Result<(), NoMemory>
    ensures { OnOk result (text.new ≡ text.old ++ lines.members_text operations.now classes.now class) }
{
    for op in 0..operations.len() {
        push_member_at(text, operations, classes, class, op)?;
    }
    Ok(())
}

/// An operation, where it is of this class.
fn push_member_at(
    text: &mut Text,
    operations: &[Operation],
    classes: &[u32],
    class: usize,
    op: usize,
) -> Result<(), NoMemory>
    ensures { OnOk result (text.new ≡ text.old ++ (if classes_of.class_of classes.now op == class then lines.member_text operations.now op else [])) }
{
    if class_of(classes, op) == class {
        push_member(text, operations.get(op))
    } else {
        Ok(())
    }
}

fn push_member(text: &mut Text, operation: Option<&Operation>) -> Result<(), NoMemory>
    ensures { OnOk result (text.new ≡ text.old ++ 32 ∷ lines.operation_name (option_copied operation.entry)) }
{
    text.push(b' ')?;
    match operation {
        None => Ok(()),
        Some(operation) => text.push_all(operation.name.as_bytes()),
    }
}

fn component_name<'a>(components: &'a [Component], operation: Option<&Operation>) -> &'a [u8]
    ensures { result.now ≡ lines.component_name components.now (option_copied operation.entry) }
{
    let Some(operation) = operation else {
        return b"";
    };
    match components.get(operation.component as usize) {
        None => b"",
        Some(component) => component.name.as_bytes(),
    }
}

/// The class of an operation; 0 where it has none.
fn class_of(classes: &[u32], op: usize) -> usize
    ensures { result ≡ classes_of.class_of classes.now op }
{
    match classes.get(op) {
        None => 0,
        Some(class) => *class as usize,
    }
}
