ghost use Rattle.std.specs.Prelude.{◌≡◌, is_some, slice_get};
ghost use Rattle.std.specs.List.{list_all};
ghost use Rattle.sr_world.specs.Acting.{Acts, NeedsNew};
ghost use Rattle.sr_world.specs.Making.{needs_at};
ghost use Rattle.sr_world.specs.Parts.{global_in_is_ready};
ghost use Rattle.sr_world.specs.Steps.{create as create_of, create_on as create_of_on, ensure_global as ensure_of, ensure_on as ensure_of_on, make_machine as make_machine_of};

use crate::acted::Acted;
use crate::duty::Duty;
use crate::ends::End;
use crate::places::{is_ready, state_at};
use crate::starting::NewInstance;
use crate::world::World;
use sr_ask::Answer;
use sr_core::Core;
use sr_instances::Places;
use sr_value::{Cap, Fault, NoMemory, Place, Row, Value};

/// The globals that a component needs.
pub fn needs(core: &Core, component: u32) -> &[u32]
    ensures { result.now ≡ needs_at core.now component }
{
    match core.components.get(component as usize) {
        Some(found) => found.needs.as_slice(),
        None => &[],
    }
}

/// Whether the program has a component of this number.
pub fn has_component(core: &Core, component: u32) -> bool
    ensures { result ≡ is_some (slice_get core.now.components component) }
{
    core.components.get(component as usize).is_some()
}

/// Whether the instances of all these globals are ready on a machine.
pub fn are_ready(places: &Places, globals: &[u32], machine: u32) -> bool
    ensures { result ≡ list_all (global_in_is_ready places.now machine) globals.now }
{
    globals
        .iter()
        .all(|global| is_global_ready(places, *global, machine))
}

/// Whether a global's instance is ready on a machine.
fn is_global_ready(places: &Places, global: u32, machine: u32) -> bool
    ensures { result ≡ global_in_is_ready places.now machine global }
{
    match places.global_at(global, machine) {
        Some(instance) => is_ready(state_at(places, instance)),
        None => false,
    }
}

impl World {
    /// Makes sure of a global's instance on a machine.
    #[inline(never)]
    pub(crate) fn ensure_global(
        &mut self,
        core: &Core,
        place: Place,
        name: u32,
        global: u32,
        target: Cap,
    ) -> Result<Acted, NoMemory>
        requires { NeedsNew (ensure_of core.now place name global target self.old) self.old name }
        ensures { Acts (ensure_of core.now place name global target self.old) self.old self.new result }
    {
        if !has_component(core, global) {
            return Ok(Acted::Cannot);
        }
        match target {
            Cap::Null | Cap::Noop => Ok(Acted::Ends(End::Failed {
                fault: Fault::NullCap,
                place,
            })),
            Cap::Vm(machine) => self.ensure_on(core, name, global, machine),
            _ => Ok(Acted::Cannot),
        }
    }

    fn ensure_on(
        &mut self,
        core: &Core,
        name: u32,
        global: u32,
        machine: u32,
    ) -> Result<Acted, NoMemory>
        requires { NeedsNew (ensure_of_on core.now name global self.old machine) self.old name }
        ensures { Acts (ensure_of_on core.now name global self.old machine) self.old self.new result }
    {
        match self.places.global_at(global, machine) {
            None => {
                let new = NewInstance {
                    name,
                    component: global,
                    machine,
                };
                self.make(core, new, &Row::new(self.alloc), None)?;
                Ok(Acted::Done(Answer::Made(name)))
            }
            Some(instance) => {
                if is_ready(state_at(&self.places, instance)) {
                    Ok(Acted::Done(Answer::Ready))
                } else {
                    Ok(Acted::Cannot)
                }
            }
        }
    }

    /// Makes an instance of a resource on a machine.
    #[inline(never)]
    pub(crate) fn create(
        &mut self,
        core: &Core,
        place: Place,
        duty: Duty,
        resource: u32,
        args: &Row<Value>,
        target: Cap,
    ) -> Result<Acted, NoMemory>
        requires { NeedsNew (create_of core.now place duty.back duty.back_id resource args.now target self.old) self.old duty.back_id }
        ensures { Acts (create_of core.now place duty.back duty.back_id resource args.now target self.old) self.old self.new result }
    {
        if !has_component(core, resource) {
            return Ok(Acted::Cannot);
        }
        match target {
            Cap::Null | Cap::Noop => Ok(Acted::Ends(End::Failed {
                fault: Fault::NullCap,
                place,
            })),
            Cap::Vm(machine) => {
                let new = NewInstance {
                    name: duty.back_id,
                    component: resource,
                    machine,
                };
                self.create_on(core, new, args, duty.back)
            }
            _ => Ok(Acted::Cannot),
        }
    }

    fn create_on(
        &mut self,
        core: &Core,
        new: NewInstance,
        args: &Row<Value>,
        actor: u32,
    ) -> Result<Acted, NoMemory>
        requires { NeedsNew (create_of_on core.now actor new.name new.component args.now self.old new.machine) self.old new.name }
        ensures { Acts (create_of_on core.now actor new.name new.component args.now self.old new.machine) self.old self.new result }
    {
        if !are_ready(&self.places, needs(core, new.component), new.machine) {
            return Ok(Acted::Cannot);
        }
        let duty = Duty {
            back: actor,
            back_id: new.name,
        };
        self.make(core, new, args, Some(duty))?;
        Ok(Acted::Done(Answer::Made(new.name)))
    }

    /// Makes a machine.
    #[inline(never)]
    pub(crate) fn make_machine(&mut self, name: u32) -> Result<Acted, NoMemory>
        requires { NeedsNew (make_machine_of name self.old) self.old name }
        ensures { Acts (make_machine_of name self.old) self.old self.new result }
    {
        self.used.reserve()?;
        self.places.add_vm(name)?;
        self.used.push(name);
        Ok(Acted::Done(Answer::Made(name)))
    }
}
