ghost use Rattle.std.specs.Prelude.{◌≡◌, ◌++◌, IfOk, OnOk, flat_map, length};
ghost use Rattle.sr_instances.specs.Instances.{instance_of};
ghost use Rattle.sr_replay.specs.Parts.{instance_at, instances_at, process_at, snapshot_with};
ghost use Rattle.sr_world.specs.Worlds.{started};

use crate::snapshot::{ShownInstance, ShownProcess, Snapshot};
use sr_ask::Asks;
use sr_instances::Places;
use sr_queue::{Pending, Queue};
use sr_value::{Duplicate, NoMemory, Row};
use sr_world::{End, World};
use std::alloc::Global;

/// A snapshot of a world whose processes ask this.
pub(crate) fn show(
    alloc: Global,
    world: &World,
    asks: &[(u32, Asks)],
    items: u32,
    ending: Option<End>,
) -> Result<Snapshot, NoMemory>
    ensures { IfOk result (λ snapshot. snapshot ≡ snapshot_with items ending asks.now world.now) }
{
    let instances = shown_instances(alloc, world.places())?;
    let processes = shown_processes(alloc, world, asks)?;
    let pending = shown_pending(alloc, world.queue())?;
    Ok(Snapshot {
        items,
        ending,
        moment: world.moment(),
        output: world.output().len() as u64,
        instances,
        processes,
        pending,
    })
}

fn shown_instances(alloc: Global, places: &Places) -> Result<Row<ShownInstance>, NoMemory>
    ensures { IfOk result (λ shown. shown ≡ instances_at places.now) }
{
    let names = places.instances().as_slice();
    let mut shown = Row::new(alloc);
    for name in names {
        push_instance(places, *name, &mut shown)?;
    }
    Ok(shown)
}

fn push_instance(places: &Places, name: u32, shown: &mut Row<ShownInstance>) -> Result<(), NoMemory>
    ensures { OnOk result (shown.new ≡ shown.old ++ instance_at (instance_of places.now name)) }
{
    match places.state_of(name) {
        Some(state) => shown.push(ShownInstance {
            name,
            component: places.component(name),
            state,
        }),
        None => Ok(()),
    }
}

fn shown_processes(
    alloc: Global,
    world: &World,
    asks: &[(u32, Asks)],
) -> Result<Row<ShownProcess>, NoMemory>
    ensures { IfOk result (λ shown. shown ≡ flat_map (λ one. process_at one.1 (started world.now one.0)) asks.now) }
{
    let mut shown = Row::new(alloc);
    for one in asks {
        push_process(alloc, world, one.0, &one.1, &mut shown)?;
    }
    Ok(shown)
}

fn push_process(
    alloc: Global,
    world: &World,
    process: u32,
    asks: &Asks,
    shown: &mut Row<ShownProcess>,
) -> Result<(), NoMemory>
    ensures { OnOk result (shown.new ≡ shown.old ++ process_at asks.now (started world.now process)) }
{
    match world.started(process) {
        Some(start) => {
            let asks = asks.copy(alloc)?;
            shown.push(ShownProcess {
                process: start.process,
                instance: start.instance,
                role: start.role,
                asks,
            })
        }
        None => Ok(()),
    }
}

fn shown_pending(alloc: Global, queue: &Queue) -> Result<Row<Pending>, NoMemory>
    ensures { IfOk result (λ shown. shown ≡ queue.now.items) }
{
    let mut shown = Row::new(alloc);
    for place in 0..queue.len() {
        let pending = queue.at(place).copy(alloc)?;
        shown.push(pending)?;
    }
    Ok(shown)
}
