ghost use Rattle.std.specs.Prelude.{◌≡◌, ◌++◌, ◌∷◌, [], OnOk, decimal};
ghost use Rattle.std.specs.Option.{option_copied};
ghost use Rattle.sr_trace.specs.Words as words;

use crate::traced::{Act, Runs, Subject, Traced};
use itoa::Buffer;
use sr_ask::Role;
use sr_core::{Component, Core, Operation, Proc};
use sr_value::{NoMemory, Text};

fn role_name(role: Role) -> &'static [u8]
    ensures { result.now ≡ words.role_name role }
{
    match role {
        Role::Boot => b"boot",
        Role::Initial => b"initial",
        Role::Proc => b"proc",
        Role::Final => b"final",
    }
}

fn act_words(act: Act) -> &'static [u8]
    ensures { result.now ≡ words.act_words act }
{
    match act {
        Act::Declare => b"declares a variable",
        Act::Load => b"reads a variable",
        Act::Store => b"assigns a variable",
        Act::Call => b"calls",
        Act::Send => b"sends",
        Act::Service => b"services",
        Act::Take => b"takes a reply",
        Act::Reply => b"replies",
        Act::Forward => b"forwards",
        Act::Count => b"counts",
        Act::Write => b"writes",
        Act::Read => b"reads input",
        Act::Import => b"imports",
        Act::Create => b"creates",
        Act::MakeMachine => b"creates vm",
        Act::Destroy => b"destroys an instance",
        Act::Finish => b"ends",
        Act::Stop => b"stops",
        Act::Fail => b"fails",
        Act::Age => b"asks the time",
        Act::Nap => b"naps",
        Act::Close => b"begins the final code",
        Act::End => b"ends the run",
        Act::Tick => b"lets time pass",
    }
}

/// Adds a number in decimal.
pub(crate) fn push_number(text: &mut Text, number: u64) -> Result<(), NoMemory>
    ensures { OnOk result (text.new ≡ text.old ++ decimal number) }
{
    let mut buffer = Buffer::new();
    text.push_all(buffer.format(number).as_bytes())
}

/// Adds the name of a component after a space.
fn push_component(text: &mut Text, component: Option<&Component>) -> Result<(), NoMemory>
    ensures { OnOk result (text.new ≡ text.old ++ words.component_words (option_copied component.entry)) }
{
    match component {
        None => Ok(()),
        Some(component) => {
            text.push(b' ')?;
            text.push_all(component.name.as_bytes())
        }
    }
}

/// Adds an operation after a space: the name of its component, a point, and its own name.
fn push_operation(
    text: &mut Text,
    core: &Core,
    operation: Option<&Operation>,
) -> Result<(), NoMemory>
    ensures { OnOk result (text.new ≡ text.old ++ words.operation_words core.now (option_copied operation.entry)) }
{
    match operation {
        None => Ok(()),
        Some(operation) => {
            push_component(text, core.components.get(operation.component as usize))?;
            text.push(b'.')?;
            text.push_all(operation.name.as_bytes())
        }
    }
}

/// Adds the operation that a proc services after a space.
fn push_proc(text: &mut Text, core: &Core, proc: Option<&Proc>) -> Result<(), NoMemory>
    ensures { OnOk result (text.new ≡ text.old ++ words.proc_words core.now (option_copied proc.entry)) }
{
    match proc {
        None => Ok(()),
        Some(proc) => push_operation(text, core, core.operations.get(proc.op as usize)),
    }
}

/// Adds what a process of this role runs.
fn push_code(text: &mut Text, core: &Core, role: Role, code: u32) -> Result<(), NoMemory>
    ensures { OnOk result (text.new ≡ text.old ++ words.code_words core.now role code) }
{
    match role {
        Role::Boot => Ok(()),
        Role::Initial => push_component(text, core.components.get(code as usize)),
        Role::Proc => push_proc(text, core, core.procs.get(code as usize)),
        Role::Final => push_component(text, core.components.get(code as usize)),
    }
}

/// Adds what runs: a role and the name of its code.
pub(crate) fn push_runs(text: &mut Text, core: &Core, runs: Runs) -> Result<(), NoMemory>
    ensures { OnOk result (text.new ≡ text.old ++ words.runs_words core.now runs) }
{
    match runs {
        Runs::Machine => text.push_all(b"machine"),
        Runs::Process { role, code } => {
            text.push_all(role_name(role))?;
            push_code(text, core, role, code)
        }
    }
}

fn push_subject(text: &mut Text, core: &Core, subject: Subject) -> Result<(), NoMemory>
    ensures { OnOk result (text.new ≡ text.old ++ words.subject_words core.now subject) }
{
    match subject {
        Subject::Nothing => Ok(()),
        Subject::Operation(op) => push_operation(text, core, core.operations.get(op as usize)),
        Subject::Component(component) => {
            push_component(text, core.components.get(component as usize))
        }
    }
}

/// Adds what an item does, and what that names.
pub(crate) fn push_deed(text: &mut Text, core: &Core, row: &Traced) -> Result<(), NoMemory>
    ensures { OnOk result (text.new ≡ text.old ++ words.deed_words core.now row.now.act row.now.subject) }
{
    text.push_all(act_words(row.act))?;
    push_subject(text, core, row.subject)
}
