ghost use Rattle.std.specs.Prelude.{◌≡◌, ◌&&◌, not, unwrap_or, if◌then◌else◌};
ghost use Rattle.sr_races.specs.Links.{global_asked, global_on as global_on_of, instance_ready};
ghost use Rattle.sr_races.specs.Origins.{owed as owed_of};
ghost use Rattle.sr_world.specs.Callers.{duty_by, waits_as};
ghost use Rattle.sr_world.specs.Invoking.{instance_of_process};

use sr_ask::Request;
use sr_instances::State;
use sr_value::Cap;
use sr_world::World;

/// What is kept of the world before a step, to tell afterwards what the step left.
#[derive(Clone, Copy)]
pub(crate) struct Before {
    /// The instance whose code the process runs.
    pub instance: u32,
    /// Whether that was ready.
    pub was_ready: bool,
    /// The number of the call whose duty the step has, or 0.
    pub duty: u32,
    /// The instance of the global that it asks for, or 0.
    pub global: u32,
}

impl Before {
    /// A look at the world before a process makes a step with this number.
    pub fn new(world: &World, process: u32, name: u32, request: &Request) -> Self
        ensures instance { result.instance ≡ instance_of_process world.now process }
        ensures was_ready { result.was_ready ≡ instance_ready result.instance world.now }
        ensures duty { result.duty ≡ owed_of (waits_as (duty_by world.now process name request.now)) }
        ensures global { result.global ≡ unwrap_or (global_asked world.now request.now) 0 }
    {
        let instance = instance_in(world, process);
        Before {
            instance,
            was_ready: is_ready(world, instance),
            duty: owed(world.duty(process, request, name)),
            global: global_in(world, request),
        }
    }

    /// The instance, where it became ready with the step, or 0.
    pub fn readied(&self, world: &World) -> u32
        ensures { result ≡ (if (not self.now.was_ready) && instance_ready self.now.instance world.now then self.now.instance else 0) }
    {
        if !self.was_ready && is_ready(world, self.instance) {
            self.instance
        } else {
            0
        }
    }
}

/// The instance whose code a process runs, or 0 where it doesn't live.
fn instance_in(world: &World, process: u32) -> u32
    ensures { result ≡ instance_of_process world.now process }
{
    match world.started(process) {
        Some(start) => start.instance,
        None => 0,
    }
}

fn is_ready(world: &World, instance: u32) -> bool
    ensures { result ≡ instance_ready instance world.now }
{
    matches!(world.places().state_of(instance), Some(State::Ready))
}

fn owed(duty: Option<(u32, u32)>) -> u32
    ensures { result ≡ owed_of duty }
{
    match duty {
        Some((_, number)) => number,
        None => 0,
    }
}

/// The instance of the global that a request asks for, where it stands, or 0.
fn global_in(world: &World, request: &Request) -> u32
    ensures { result ≡ unwrap_or (global_asked world.now request.now) 0 }
{
    match request {
        Request::EnsureGlobal { global, vm } => global_on(world, *global, vm),
        _ => 0,
    }
}

fn global_on(world: &World, global: u32, vm: &Cap) -> u32
    ensures { result ≡ unwrap_or (global_on_of world.now global vm.now) 0 }
{
    match vm {
        Cap::Vm(machine) => world.places().global_at(global, *machine).unwrap_or(0),
        _ => 0,
    }
}
