ghost use Rattle.std.specs.Prelude.{◌≡◌, ℕ, IfOk, IsOk, false};
ghost use Rattle.sr_world.specs.Deciding.{can_choose as can_choose_in, can_create as can_create_in, can_destroy as can_destroy_of, can_do as can_do_in, can_ensure as can_ensure_in, can_invoke as can_invoke_in, can_select as can_select_in, can_select_at as can_select_in_at, is_none_or_ready as none_or_ready, is_select};
ghost use Rattle.sr_world.specs.Does.{comes_to, is_possible};
ghost use Rattle.sr_world.specs.Steps.{does};

use crate::making::{are_ready, has_component, needs};
use crate::places::{is_ready, state_at};
use crate::world::World;
use sr_ask::{Ask, Request};
use sr_core::{Core, Site};
use sr_select::Choice;
use sr_value::{Cap, NoMemory, Row, Value};

/// Whether a capability of an operation is one that is in the program.
fn can_invoke(core: &Core, target: Cap) -> bool
    ensures { result ≡ can_invoke_in core.now target }
{
    match target {
        Cap::Null | Cap::Noop => true,
        Cap::Op { op, .. } => core.operations.get(op as usize).is_some(),
        _ => false,
    }
}

fn can_destroy(target: Cap) -> bool
    ensures { result ≡ can_destroy_of target }
{
    matches!(target, Cap::Null | Cap::Noop | Cap::Res(_))
}

impl World {
    /// Whether a request can be done now. Memory is taken only for guards of an `in` statement.
    pub fn is_ready(&self, core: &Core, actor: u32, ask: &Ask) -> Result<bool, NoMemory>
        ensures ready { IfOk result (λ ready. (name : ℕ) → ready ≡ is_possible (comes_to (does core.now self.now actor ask.now name))) }
        ensures memory { is_select ask.now.request ≡ false → IsOk result }
    {
        self.can_do(core, actor, &ask.request)
    }

    fn can_do(&self, core: &Core, actor: u32, request: &Request) -> Result<bool, NoMemory>
        ensures can { IfOk result (λ can. can ≡ can_do_in core.now self.now actor request.now) }
        ensures memory { is_select request.now ≡ false → IsOk result }
    {
        match request {
            Request::Invoke { target, .. } => Ok(can_invoke(core, *target)),
            Request::Select { site, env } => self.can_select(core, actor, *site, env),
            Request::Take { ids } => Ok(self.calls.has_reply(actor, ids)),
            Request::Forward { target, .. } => Ok(can_invoke(core, *target)),
            Request::Count { op } => Ok(core.operations.get(*op as usize).is_some()),
            Request::EnsureGlobal { global, vm } => Ok(self.can_ensure(core, *global, *vm)),
            Request::Create { resource, vm, .. } => Ok(self.can_create(core, *resource, *vm)),
            Request::Destroy { target } => Ok(can_destroy(*target)),
            Request::Wake { until } => Ok(self.moment >= *until),
            _ => Ok(true),
        }
    }

    fn can_ensure(&self, core: &Core, global: u32, target: Cap) -> bool
        ensures { result ≡ can_ensure_in core.now self.now global target }
    {
        if !has_component(core, global) {
            return false;
        }
        match target {
            Cap::Null | Cap::Noop => true,
            Cap::Vm(machine) => self.is_none_or_ready(self.places.global_at(global, machine)),
            _ => false,
        }
    }

    fn is_none_or_ready(&self, instance: Option<u32>) -> bool
        ensures { result ≡ none_or_ready self.now instance }
    {
        match instance {
            Some(instance) => is_ready(state_at(&self.places, instance)),
            None => true,
        }
    }

    fn can_create(&self, core: &Core, resource: u32, target: Cap) -> bool
        ensures { result ≡ can_create_in core.now self.now resource target }
    {
        if !has_component(core, resource) {
            return false;
        }
        match target {
            Cap::Null | Cap::Noop => true,
            Cap::Vm(machine) => are_ready(&self.places, needs(core, resource), machine),
            _ => false,
        }
    }

    fn can_select(
        &self,
        core: &Core,
        actor: u32,
        site: u32,
        env: &Row<Value>,
    ) -> Result<bool, NoMemory>
        ensures { IfOk result (λ can. can ≡ can_select_in core.now self.now actor site env.now) }
    {
        match core.sites.get(site as usize) {
            Some(site) => self.can_select_at(core, actor, site, env),
            None => Ok(false),
        }
    }

    fn can_select_at(
        &self,
        core: &Core,
        actor: u32,
        site: &Site,
        env: &Row<Value>,
    ) -> Result<bool, NoMemory>
        ensures { IfOk result (λ can. can ≡ can_select_in_at core.now self.now actor env.now site.now) }
    {
        let choice = self.choice(core, actor, site, env)?;
        Ok(self.can_choose(site, choice))
    }

    fn can_choose(&self, site: &Site, choice: Choice) -> bool
        ensures { result ≡ can_choose_in self.now site.now choice }
    {
        match choice {
            Choice::Service { place, .. } => place < self.queue.len(),
            Choice::Else => true,
            Choice::Nothing => false,
            Choice::Bad { arm, .. } => site.arms.get(arm as usize).is_some(),
        }
    }
}
