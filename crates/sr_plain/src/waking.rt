ghost use Rattle.std.specs.Prelude.{OnOk};
ghost use Rattle.sr_plain.specs.Waking.{AreMadeReady, ReadiesAll, ReadiesIfLives, WakesUp, WakesByChange};

use crate::change::{Change, Woken};
use crate::variable::Variable;
use crate::waiters::Waiters;
use sr_queue::class_of;
use sr_value::NoMemory;
use sr_world::World;

/// Makes all of them ready.
fn make_all_ready(waiters: &mut Waiters, processes: &[u32]) -> Result<(), NoMemory>
    ensures { OnOk result (AreMadeReady processes.now waiters.old waiters.new) }
{
    for process in processes {
        waiters.make_ready(*process)?;
    }
    Ok(())
}

#[cold]
#[inline(never)]
fn wake_all(waiters: &mut Waiters, world: &World) -> Result<(), NoMemory>
    ensures { OnOk result (ReadiesAll world.now waiters.new) }
{
    waiters.open_all();
    let living = world.living()?;
    make_all_ready(waiters, living.as_slice())
}

#[inline(always)]
fn wake_if_lives(waiters: &mut Waiters, world: &World, process: u32) -> Result<(), NoMemory>
    ensures { OnOk result (ReadiesIfLives world.now process waiters.old waiters.new) }
{
    if process == 0 {
        return Ok(());
    }
    match world.started(process) {
        Some(_) => waiters.make_ready(process),
        None => Ok(()),
    }
}

fn wake_by(waiters: &mut Waiters, world: &World, change: Change) -> Result<(), NoMemory>
    ensures { OnOk result (WakesByChange world.now change waiters.old waiters.new) }
{
    match change {
        Change::Nothing => Ok(()),
        Change::Watched => waiters.wake_watched(),
        Change::Class { owner, op } => {
            let class = class_of(owner, op);
            waiters.wake_watched()?;
            waiters.wake_served(class)?;
            waiters.open(class)
        }
        Change::Gone { owner, op } => {
            waiters.wake_watched()?;
            waiters.wake_served(class_of(owner, op))
        }
        Change::Variable { block, var } => {
            waiters.wake_watched()?;
            waiters.wake_stored(Variable { block, var })
        }
        Change::Everything => wake_all(waiters, world),
    }
}

/// Has those be asked in turn whom a step woke.
pub(crate) fn wake_up(waiters: &mut Waiters, world: &World, woken: Woken) -> Result<(), NoMemory>
    ensures { OnOk result (WakesUp world.now woken waiters.old waiters.new) }
{
    wake_by(waiters, world, woken.change)?;
    wake_if_lives(waiters, world, woken.caller)?;
    wake_if_lives(waiters, world, woken.made)
}
