ghost use Rattle.std.specs.Prelude.{◌≡◌, ◌++◌, OnOk};
ghost use Rattle.sr_order.specs.Spans.{spans_in, co_arm_spans, block_statements, item_statements, component_statements, statement_spans};
ghost use Rattle.sr_fmt.specs.Starts.{block_spans, branches_spans, arms_spans, co_arms_spans};

use sr_tree::{Arm, BlockItem, Branch, CoArm, Component, File, Item, ProcItem, Statement};
use sr_value::{NoMemory, Row, Span};

/// Puts the first tokens of all statements of a file after the others.
pub(crate) fn note_file(file: &File, starts: &mut Row<Span>) -> Result<(), NoMemory>
    ensures { OnOk result (starts.new ≡ starts.old ++ statement_spans file.now) }
{
    for component in file.components.as_slice() {
        note_component(component, starts)?;
    }
    Ok(())
}

fn note_component(component: &Component, starts: &mut Row<Span>) -> Result<(), NoMemory>
    ensures { OnOk result (starts.new ≡ starts.old ++ component_statements component.now) }
{
    for item in component.body() {
        note_item(item, starts)?;
    }
    Ok(())
}

fn note_item(item: &Item, starts: &mut Row<Span>) -> Result<(), NoMemory>
    ensures { OnOk result (starts.new ≡ starts.old ++ item_statements item.now) }
{
    match item {
        Item::Spec(_) => Ok(()),
        Item::Proc(proc) => note_proc_block(proc.block.as_slice(), starts),
        Item::Procedure(procedure) => note_proc_block(procedure.block.as_slice(), starts),
        Item::Process(process) => note_proc_block(process.block.as_slice(), starts),
        Item::Final(last) => note_proc_block(last.block.as_slice(), starts),
        Item::Statement(statement) => note_statement(statement, starts),
    }
}

fn note_proc_block(block: &[ProcItem], starts: &mut Row<Span>) -> Result<(), NoMemory>
    ensures { OnOk result (starts.new ≡ starts.old ++ block_statements block.now) }
{
    for item in block {
        if let ProcItem::Statement(statement) = item {
            note_statement(statement, starts)?;
        }
    }
    Ok(())
}

/// Puts the first token of a statement after the others, and then those of the statements inside of it.
#[cycle(statements)]
fn note_statement(statement: &Statement, starts: &mut Row<Span>) -> Result<(), NoMemory>
    ensures { OnOk result (starts.new ≡ starts.old ++ spans_in statement.now) }
{
    match statement {
        Statement::If {
            span,
            branches,
            otherwise,
        }
        | Statement::Do {
            span,
            branches,
            otherwise,
        } => {
            starts.push(*span)?;
            note_branches(branches.as_slice(), starts)?;
            match otherwise {
                Some(block) => note_block(block.as_slice(), starts),
                None => Ok(()),
            }
        }
        Statement::ForAll { span, block, .. } => {
            starts.push(*span)?;
            note_block(block.as_slice(), starts)
        }
        Statement::In {
            span,
            arms,
            otherwise,
        } => {
            starts.push(*span)?;
            note_arms(arms.as_slice(), starts)?;
            match otherwise {
                Some(block) => note_block(block.as_slice(), starts),
                None => Ok(()),
            }
        }
        Statement::Co { span, arms } => {
            starts.push(*span)?;
            note_co_arms(arms.as_slice(), starts)
        }
        Statement::Skip { span }
        | Statement::Exit { span }
        | Statement::Next { span }
        | Statement::Return { span }
        | Statement::Reply { span }
        | Statement::Stop { span, .. }
        | Statement::Call { span, .. }
        | Statement::Send { span, .. }
        | Statement::Forward { span, .. }
        | Statement::Receive { span, .. }
        | Statement::Assign { span, .. }
        | Statement::Exchange { span, .. }
        | Statement::Increment { span, .. }
        | Statement::Decrement { span, .. }
        | Statement::Destroy { span, .. }
        | Statement::Create { span, .. } => starts.push(*span),
    }
}

#[cycle(statements)]
fn note_block(block: &[BlockItem], starts: &mut Row<Span>) -> Result<(), NoMemory>
    ensures { OnOk result (starts.new ≡ starts.old ++ block_spans block.now) }
{
    for item in block {
        if let BlockItem::Statement(statement) = item {
            note_statement(statement, starts)?;
        }
    }
    Ok(())
}

#[cycle(statements)]
fn note_branches(branches: &[Branch], starts: &mut Row<Span>) -> Result<(), NoMemory>
    ensures { OnOk result (starts.new ≡ starts.old ++ branches_spans branches.now) }
{
    for branch in branches {
        note_block(branch.block.as_slice(), starts)?;
    }
    Ok(())
}

#[cycle(statements)]
fn note_arms(arms: &[Arm], starts: &mut Row<Span>) -> Result<(), NoMemory>
    ensures { OnOk result (starts.new ≡ starts.old ++ arms_spans arms.now) }
{
    for arm in arms {
        note_block(arm.block.as_slice(), starts)?;
    }
    Ok(())
}

#[cycle(statements)]
fn note_co_arms(arms: &[CoArm], starts: &mut Row<Span>) -> Result<(), NoMemory>
    ensures { OnOk result (starts.new ≡ starts.old ++ co_arms_spans arms.now) }
{
    for arm in arms {
        note_co_arm(arm, starts)?;
    }
    Ok(())
}

#[cycle(statements)]
fn note_co_arm(arm: &CoArm, starts: &mut Row<Span>) -> Result<(), NoMemory>
    ensures { OnOk result (starts.new ≡ starts.old ++ co_arm_spans arm.now) }
{
    match &arm.block {
        Some(block) => note_block(block.as_slice(), starts),
        None => Ok(()),
    }
}
