use sr_instances::{Places, State};
use sr_value::Duplicate;
use std::alloc::Global;

/// Adds instance 3 of component 70 on machine 1.
fn is_added(places: &mut Places) -> bool {
    !places.is_added(3) && places.add_instance(3, 70, 1).is_ok()
}

fn is_machine_added(places: &mut Places) -> bool {
    !places.machines().as_slice().contains(&1) && places.add_vm(1).is_ok()
}

/// Whether instance 3 goes on to its next state.
fn is_ready(places: &mut Places) -> bool {
    if !places.is_added(3) || places.state(3) != State::Starting {
        return false;
    }
    places.set(3, State::Ready);
    places.state_of(3) == Some(State::Ready) && places.first_of(70) == Some((3, State::Ready))
}

fn is_found(places: &Places) -> bool {
    places.is_added(3)
        && places.component(3) == 70
        && places.machine(3) == 1
        && places.global_at(70, 1) == Some(3)
}

fn is_copied(alloc: Global, places: &Places) -> bool {
    match places.copy(alloc) {
        Ok(copy) => copy.instances().len() == 1 && copy.machines().len() == 1,
        Err(_) => false,
    }
}

#[test]
fn instances_and_machines(rt: HostRuntime) {
    let mut places = Places::new(rt.alloc());
    let is_kept = is_machine_added(&mut places)
        && is_added(&mut places)
        && is_ready(&mut places)
        && is_found(&places)
        && is_copied(rt.alloc(), &places);
    drop(places);
    assert!(rt; is_kept);
}
