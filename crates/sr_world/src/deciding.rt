ghost use Rattle.std.specs.Prelude.{◌≡◌, ℕ};
ghost use Rattle.sr_core.specs.declared.component.Core as core;
ghost use Rattle.sr_world.specs.Deciding.{awaits_input, makes_call, makes_end, makes_global, makes_instance, makes_some};
ghost use Rattle.sr_world.specs.Does.{comes_to, is_made, is_undecided};
ghost use Rattle.sr_world.specs.Endings.{main_instance};
ghost use Rattle.sr_world.specs.Parts.{can_close};
ghost use Rattle.sr_world.specs.Steps.{does};

use crate::closing::{main_of, status_in};
use crate::ending::has_final_code;
use crate::making::{are_ready, has_component, needs};
use crate::places::{is_open, state_at};
use crate::reading::is_decided;
use crate::world::World;
use sr_ask::{Ask, Request};
use sr_core::Core;
use sr_value::Cap;

impl World {
    /// Whether the step of a request makes something, which has the step's number then, whoever asks. It
    /// takes no memory.
    pub fn makes(&self, core: &Core, ask: &Ask) -> bool
        ensures { (actor name : ℕ) → result ≡ is_made (comes_to (does core.now self.now actor ask.now name)) }
    {
        self.makes_some(core, &ask.request)
    }

    fn makes_some(&self, core: &Core, request: &Request) -> bool
        ensures { result ≡ makes_some core.now self.now request.now }
    {
        match request {
            Request::Invoke { target, .. } => self.makes_call(core, *target),
            Request::Forward { target, .. } => self.makes_call(core, *target),
            Request::EnsureGlobal { global, vm } => self.makes_global(core, *global, *vm),
            Request::Create { resource, vm, .. } => self.makes_instance(core, *resource, *vm),
            Request::MakeVm => true,
            Request::Destroy { target } => self.makes_end(*target),
            Request::Stop { status } => status_in(*status).is_some() && self.can_close(core),
            _ => false,
        }
    }

    fn makes_call(&self, core: &Core, target: Cap) -> bool
        ensures { result ≡ makes_call core.now self.now target }
    {
        match target {
            Cap::Noop => true,
            Cap::Op { owner, op } => {
                core.operations.get(op as usize).is_some() && !self.is_gone(owner)
            }
            _ => false,
        }
    }

    fn makes_global(&self, core: &Core, global: u32, target: Cap) -> bool
        ensures { result ≡ makes_global core.now self.now global target }
    {
        match target {
            Cap::Vm(machine) => {
                has_component(core, global) && self.places.global_at(global, machine).is_none()
            }
            _ => false,
        }
    }

    fn makes_instance(&self, core: &Core, resource: u32, target: Cap) -> bool
        ensures { result ≡ makes_instance core.now self.now resource target }
    {
        match target {
            Cap::Vm(machine) => {
                has_component(core, resource)
                    && are_ready(&self.places, needs(core, resource), machine)
            }
            _ => false,
        }
    }

    fn makes_end(&self, target: Cap) -> bool
        ensures { result ≡ makes_end self.now target }
    {
        match target {
            Cap::Noop => true,
            Cap::Res(instance) => is_open(state_at(&self.places, instance)),
            _ => false,
        }
    }

    /// Whether main's final code can begin.
    fn can_close(&self, core: &Core) -> bool
        ensures { result ≡ can_close core.now (main_instance core.now self.now) }
    {
        let main = main_of(core);
        match self.places.first_of(main) {
            Some((_, state)) => is_open(Some(state)) && has_final_code(core, main),
            None => false,
        }
    }

    /// Whether bytes of the input that may still come decide a request.
    pub fn wants_input(&self, ask: &Ask) -> bool
        ensures { (program : core.Core) (actor name : ℕ) → result ≡ is_undecided (comes_to (does program self.now actor ask.now name)) }
    {
        self.awaits_input(&ask.request)
    }

    fn awaits_input(&self, request: &Request) -> bool
        ensures { result ≡ awaits_input self.now request.now }
    {
        match request {
            Request::Read { kind } => !is_decided(*kind, &self.input, self.ended),
            _ => false,
        }
    }
}
