ghost use Rattle.std.specs.Prelude.{◌≡◌, OnOk, IfOk, OnErr};
ghost use Rattle.std.specs.List.{list_all};
ghost use Rattle.sr_select.specs.Laws.{is_plain};
ghost use Rattle.sr_plain.specs.Noting.{IdlesAtArms, MaySetAside, Notes, WaitsAt, WaitsAtArms, WaitsForCount, WaitsForCounts, WaitsForRead, WaitsForReads};
ghost use Rattle.sr_plain.specs.Waiting.{IsWaiting, is_simple};
ghost use Rattle.sr_world.specs.declared.acted.Acted.TheVariants.{Cannot};

use crate::carrying::Carried;
use crate::change::{Woken, change_of, gone_by, owner_of};
use crate::variable::Variable;
use crate::waiters::{Place, Waiters};
use sr_ask::{Ask, Request};
use sr_core::{Arm, Core, Me, Site};
use sr_queue::class_of;
use sr_select::{block_of, names_listed};
use sr_value::{Fault, NoMemory, Value};
use sr_world::{Acted, World};

fn is_plain(arm: &Arm) -> bool
    ensures { result ≡ is_plain arm.now }
{
    arm.guard.is_none() && arm.by.is_none()
}

fn all_plain(arms: &[Arm]) -> bool
    ensures { result ≡ list_all is_plain arms.now }
{
    for arm in arms {
        if !is_plain(arm) {
            return false;
        }
    }
    true
}

fn is_simple(site: &Site) -> bool
    ensures { result ≡ is_simple site.now }
{
    all_plain(site.arms.as_slice()) && !site.has_else
}

/// Has a process wait for invocations of each arm, and for nothing else.
fn idle_at_arms(waiters: &mut Waiters, me: Me, site: &Site) -> Result<(), NoMemory>
    ensures { OnOk result (IdlesAtArms me site.now waiters.old waiters.new) }
{
    let owner = owner_of(site.scope, me);
    for arm in site.arms.as_slice() {
        waiters.wait(Place::Idle(class_of(owner, arm.op)), me.process)?;
    }
    Ok(())
}

/// Has a process wait for invocations of each arm.
fn wait_at_arms(waiters: &mut Waiters, me: Me, site: &Site) -> Result<(), NoMemory>
    ensures { OnOk result (WaitsAtArms me site.now waiters.old waiters.new) }
{
    let owner = owner_of(site.scope, me);
    for arm in site.arms.as_slice() {
        waiters.wait(Place::Served(class_of(owner, arm.op)), me.process)?;
    }
    Ok(())
}

/// Has a process wait for a shared variable, if there is one.
fn wait_for_read(
    waiters: &mut Waiters,
    me: Me,
    block: Result<u32, Fault>,
    var: u32,
) -> Result<(), NoMemory>
    ensures { OnOk result (WaitsForRead me var block waiters.old waiters.new) }
{
    match block {
        Ok(block) => waiters.wait(Place::Stored(Variable { block, var }), me.process),
        Err(_) => Ok(()),
    }
}

/// Has a process wait for each shared variable that a statement lists.
fn wait_for_reads(waiters: &mut Waiters, me: Me, site: &Site, env: &[Value]) -> Result<(), NoMemory>
    ensures { OnOk result (WaitsForReads me env.now site.now waiters.old waiters.new) }
{
    for read in site.reads.as_slice() {
        let block = block_of(me, site.names.as_slice(), env, read.home);
        wait_for_read(waiters, me, block, read.var)?;
    }
    Ok(())
}

/// Has a process wait for invocations of an operation that it counts.
fn wait_for_count(waiters: &mut Waiters, core: &Core, me: Me, op: u32) -> Result<(), NoMemory>
    ensures { OnOk result (WaitsForCount core.now me op waiters.old waiters.new) }
{
    match core.operations.get(op as usize) {
        Some(operation) => {
            let owner = owner_of(operation.scope, me);
            waiters.wait(Place::Served(class_of(owner, op)), me.process)
        }
        None => Ok(()),
    }
}

/// Has a process wait for invocations of each operation that a statement lists as counted.
fn wait_for_counts(waiters: &mut Waiters, core: &Core, me: Me, site: &Site) -> Result<(), NoMemory>
    ensures { OnOk result (WaitsForCounts core.now me site.now waiters.old waiters.new) }
{
    for op in site.counts.as_slice() {
        wait_for_count(waiters, core, me, *op)?;
    }
    Ok(())
}

/// Has a process wait for what lets its statement go on. Where the guards name more than is listed, that is any change.
fn wait_at(
    waiters: &mut Waiters,
    core: &Core,
    me: Me,
    site: &Site,
    env: &[Value],
) -> Result<(), NoMemory>
    ensures { OnOk result (WaitsAt core.now me env.now site.now waiters.old waiters.new) }
{
    if !names_listed(site) {
        return waiters.wait(Place::Watched, me.process);
    }
    wait_at_arms(waiters, me, site)?;
    wait_for_reads(waiters, me, site, env)?;
    wait_for_counts(waiters, core, me, site)
}

/// Has a process wait for what lets its request go on.
fn wait_for(waiters: &mut Waiters, core: &Core, me: Me, request: &Request) -> Result<(), NoMemory>
    ensures { OnOk result (IsWaiting core.now me request.now waiters.old waiters.new) }
{
    match request {
        Request::Take { .. } | Request::Wake { .. } => Ok(()),
        Request::Select { site, env } => match core.sites.get(*site as usize) {
            Some(site) => {
                if is_simple(site) {
                    return idle_at_arms(waiters, me, site);
                }
                wait_at(waiters, core, me, site, env.as_slice())
            }
            None => Ok(()),
        },
        _ => waiters.wait(Place::Watched, me.process),
    }
}

/// Notes what came of a request: whom it wakes, or, where it can't be done, what its process waits for.
pub(crate) fn note(
    waiters: &mut Waiters,
    core: &Core,
    me: Me,
    ask: &Ask,
    carried: &Carried,
) -> Result<Option<Woken>, NoMemory>
    ensures ok { IfOk result (λ woken. Notes core.now me ask.now carried.now waiters.old waiters.new woken) }
    ensures err { OnErr result (carried.now.acted ≡ Cannot) }
{
    match &carried.acted {
        Acted::Done(answer) => Ok(Some(Woken {
            change: change_of(core, me, ask, answer),
            caller: carried.caller,
            made: carried.name,
            gone: gone_by(&ask.request, me.process),
        })),
        Acted::Cannot => {
            wait_for(waiters, core, me, &ask.request)?;
            waiters.take_out(me.process);
            Ok(None)
        }
        Acted::Ends(_) | Acted::Undecided => Ok(None),
    }
}

/// Whether a request waits for a reply, or for an invocation at a statement without guards. Guards would be evaluated once
/// more.
fn is_patient(core: &Core, request: &Request) -> bool {
    match request {
        Request::Take { .. } => true,
        Request::Select { site, .. } => match core.sites.get(*site as usize) {
            Some(site) => is_simple(site),
            None => false,
        },
        _ => false,
    }
}

/// Sets a process aside that waits for a reply or an invocation which isn't there.
pub(crate) fn set_aside(
    waiters: &mut Waiters,
    world: &World,
    core: &Core,
    me: Me,
    ask: &Ask,
) -> Result<(), NoMemory>
    ensures { OnOk result (MaySetAside core.now world.now me ask.now waiters.old waiters.new) }
{
    if !is_patient(core, &ask.request) {
        return Ok(());
    }
    if world.is_ready(core, me.process, ask)? {
        return Ok(());
    }
    wait_for(waiters, core, me, &ask.request)?;
    waiters.take_out(me.process);
    Ok(())
}
