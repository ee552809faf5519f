ghost use Rattle.std.specs.Prelude.{◌≡◌, ◌++◌, ◌∷◌, [], IfOk, map};
ghost use Rattle.sr_instances.specs.Instances.{state_of, with_instance, with_state};
ghost use Rattle.sr_world.specs.Invoking.{instance_gone};
ghost use Rattle.sr_world.specs.Making.{is_open as open_state, is_ready as ready_state};
ghost use Rattle.sr_world.specs.Parts.{component_in, home_in, machine_in, ready_in, ready_own as ready_own_in};

use sr_ask::Role;
use sr_instances::{Places, State};
use sr_value::{NoMemory, Row};
use std::alloc::Global;

/// How far an instance has come, where it was added.
pub fn state_at(places: &Places, instance: u32) -> Option<State>
    ensures { result ≡ state_of places.now instance }
{
    places.state_of(instance)
}

/// Whether an instance has ended, or never was.
pub fn is_gone_at(places: &Places, instance: u32) -> bool
    ensures { result ≡ instance_gone (state_of places.now instance) }
{
    matches!(state_at(places, instance), None | Some(State::Gone))
}

/// Whether an instance is ready.
pub fn is_ready(state: Option<State>) -> bool
    ensures { result ≡ ready_state state }
{
    matches!(state, Some(State::Ready))
}

/// Whether an instance is starting or ready.
pub fn is_open(state: Option<State>) -> bool
    ensures { result ≡ open_state state }
{
    matches!(state, Some(State::Starting) | Some(State::Ready))
}

/// The machine of an instance; 0 for one that was never added.
pub fn machine_at(places: &Places, instance: u32) -> u32
    ensures { result ≡ machine_in places.now instance }
{
    if places.is_added(instance) {
        places.machine(instance)
    } else {
        0
    }
}

/// The component of an instance; 0 for one that was never added.
pub fn component_at(places: &Places, instance: u32) -> u32
    ensures { result ≡ component_in places.now instance }
{
    if places.is_added(instance) {
        places.component(instance)
    } else {
        0
    }
}

/// Puts an instance into a state. One that was never added changes nothing.
#[tactic(auto, using(crate::proofs::PlaceLemmas::unset_state))]
pub fn set_state(places: &mut Places, instance: u32, state: State)
    ensures { places.new ≡ with_state places.old instance state }
{
    if places.is_added(instance) {
        places.set(instance, state);
    }
}

/// Puts an instance that is starting into the state `Ready`.
pub fn make_ready(places: &mut Places, instance: u32)
    ensures { places.new ≡ ready_in places.old instance }
{
    if let Some(State::Starting) = state_at(places, instance) {
        set_state(places, instance, State::Ready);
    }
}

/// Initial code that answers its `create` makes its instance ready.
pub fn ready_own(places: &mut Places, role: Role, own: bool, instance: u32)
    ensures { places.new ≡ ready_own_in role own instance places.old }
{
    if role == Role::Initial && own {
        make_ready(places, instance);
    }
}

/// The instances of globals on a machine; 0 where there is none.
pub fn homes(
    alloc: Global,
    places: &Places,
    imports: &[u32],
    machine: u32,
) -> Result<Row<u32>, NoMemory>
    ensures { IfOk result (λ homes. homes ≡ map (home_in places.now machine) imports.now) }
{
    let mut homes = Row::new(alloc);
    for global in imports {
        homes.push(home(places, *global, machine))?;
    }
    Ok(homes)
}

fn home(places: &Places, global: u32, machine: u32) -> u32
    ensures { result ≡ home_in places.now machine global }
{
    match places.global_at(global, machine) {
        Some(instance) => instance,
        None => 0,
    }
}
