ghost use Rattle.std.specs.Prelude.{◌≡◌, ◌++◌, ◌∷◌, [], IfOk, OnOk, flat_map};
ghost use Rattle.sr_replay.specs.Texts as texts;

use crate::lines::{
    asks_name, component_name, fault_name, push_number, push_operation, push_word, role_name,
    state_name,
};
use crate::snapshot::{ShownInstance, ShownProcess, Snapshot};
use sr_core::Core;
use sr_queue::Pending;
use sr_value::{NoMemory, Text};
use sr_world::End;
use std::alloc::Global;

/// The lines of a snapshot.
pub fn snapshot_text(alloc: Global, core: &Core, snapshot: &Snapshot) -> Result<Text, NoMemory>
    ensures { IfOk result (λ text. text ≡ texts.snapshot_text core.now snapshot.now) }
{
    let mut text = Text::new(alloc);
    push_head(alloc, &mut text, snapshot)?;
    push_instances(alloc, &mut text, core, snapshot.instances.as_slice())?;
    push_processes(alloc, &mut text, snapshot.processes.as_slice())?;
    push_pending(alloc, &mut text, core, snapshot.pending.as_slice())?;
    Ok(text)
}

fn push_head(alloc: Global, text: &mut Text, snapshot: &Snapshot) -> Result<(), NoMemory>
    ensures { OnOk result (text.new ≡ text.old ++ texts.head_lines snapshot.now) }
{
    push_line(alloc, text, b"items", u64::from(snapshot.items))?;
    text.push_all(b"ending")?;
    push_ending(alloc, text, snapshot.ending)?;
    text.push(b'\n')?;
    push_line(alloc, text, b"moment", u64::from(snapshot.moment))?;
    push_line(alloc, text, b"output", snapshot.output)
}

/// Adds a line of a word and a number.
fn push_line(alloc: Global, text: &mut Text, name: &[u8], number: u64) -> Result<(), NoMemory>
    ensures { OnOk result (text.new ≡ text.old ++ texts.number_line name.now number) }
{
    text.push_all(name)?;
    push_number(alloc, text, number)?;
    text.push(b'\n')
}

fn push_ending(alloc: Global, text: &mut Text, ending: Option<End>) -> Result<(), NoMemory>
    ensures { OnOk result (text.new ≡ text.old ++ texts.ending_words ending) }
{
    match ending {
        None => push_word(text, b"none"),
        Some(End::Quiet) => push_word(text, b"quiet"),
        Some(End::Stopped(status)) => {
            push_word(text, b"stopped")?;
            push_number(alloc, text, u64::from(status))
        }
        Some(End::Failed { fault, place }) => {
            push_word(text, b"failed")?;
            push_word(text, fault_name(fault))?;
            push_number(alloc, text, u64::from(place.line))
        }
    }
}

fn push_instances(
    alloc: Global,
    text: &mut Text,
    core: &Core,
    instances: &[ShownInstance],
) -> Result<(), NoMemory>
    ensures { OnOk result (text.new ≡ text.old ++ flat_map (texts.instance_line core.now) instances.now) }
{
    for instance in instances {
        push_instance(alloc, text, core, *instance)?;
    }
    Ok(())
}

fn push_instance(
    alloc: Global,
    text: &mut Text,
    core: &Core,
    instance: ShownInstance,
) -> Result<(), NoMemory>
    ensures { OnOk result (text.new ≡ text.old ++ texts.instance_line core.now instance) }
{
    text.push_all(b"instance")?;
    push_number(alloc, text, u64::from(instance.name))?;
    push_word(text, component_name(core, instance.component))?;
    push_word(text, state_name(instance.state))?;
    text.push(b'\n')
}

fn push_processes(
    alloc: Global,
    text: &mut Text,
    processes: &[ShownProcess],
) -> Result<(), NoMemory>
    ensures { OnOk result (text.new ≡ text.old ++ flat_map texts.process_line processes.now) }
{
    for process in processes {
        push_process(alloc, text, process)?;
    }
    Ok(())
}

fn push_process(alloc: Global, text: &mut Text, process: &ShownProcess) -> Result<(), NoMemory>
    ensures { OnOk result (text.new ≡ text.old ++ texts.process_line process.now) }
{
    text.push_all(b"process")?;
    push_number(alloc, text, u64::from(process.process))?;
    push_word(text, role_name(process.role))?;
    push_word(text, b"instance")?;
    push_number(alloc, text, u64::from(process.instance))?;
    push_word(text, b"asks")?;
    push_word(text, asks_name(&process.asks))?;
    text.push(b'\n')
}

fn push_pending(
    alloc: Global,
    text: &mut Text,
    core: &Core,
    pending: &[Pending],
) -> Result<(), NoMemory>
    ensures { OnOk result (text.new ≡ text.old ++ flat_map (texts.pending_line core.now) pending.now) }
{
    for one in pending {
        push_one_pending(alloc, text, core, one.id, one.op)?;
    }
    Ok(())
}

fn push_one_pending(
    alloc: Global,
    text: &mut Text,
    core: &Core,
    id: u32,
    op: u32,
) -> Result<(), NoMemory>
    ensures { OnOk result (text.new ≡ text.old ++ texts.pending_words core.now id op) }
{
    text.push_all(b"pending")?;
    push_number(alloc, text, u64::from(id))?;
    push_operation(text, core, core.operations.get(op as usize))?;
    text.push(b'\n')
}
