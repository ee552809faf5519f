ghost use Rattle.std.specs.Prelude.{◌≡◌};
ghost use Rattle.sr_world.specs.Acting.{Acts, NeedsNew};
ghost use Rattle.sr_world.specs.Steps.{does, duty_for as duty_of_call};

use crate::acted::Acted;
use crate::duty::{Duty, Forwarded, Sending};
use crate::ends::End;
use crate::world::World;
use sr_ask::{Ask, Request};
use sr_core::Core;
use sr_value::NoMemory;

/// The duty that a call makes. A `send` makes none.
pub(crate) fn duty_for(wants: bool, actor: u32, name: u32) -> Duty
    ensures { result ≡ duty_of_call wants actor name }
{
    Duty {
        back: if wants { actor } else { 0 },
        back_id: name,
    }
}

impl World {
    /// Carries a request of a process out. `name` is the number of the step, for what it makes.
    // Its arms stand in functions that aren't inlined: each call would fill the temporaries of all of them.
    pub fn act(&mut self, core: &Core, actor: u32, ask: &Ask, name: u32) -> Result<Acted, NoMemory>
        requires { NeedsNew (does core.now self.old actor ask.now name) self.old name }
        ensures { Acts (does core.now self.old actor ask.now name) self.old self.new result }
    {
        let place = ask.place;
        match &ask.request {
            Request::Declare { block, var, shape } => self.declare(place, *block, *var, shape),
            Request::Load { block, var, path } => self.load(place, *block, *var, path),
            Request::Store {
                block,
                var,
                path,
                value,
            } => self.store(place, *block, *var, path, value),
            Request::Invoke {
                target,
                args,
                wants,
            } => {
                let sending = Sending {
                    name,
                    duty: duty_for(*wants, actor, name),
                    forwarded: None,
                };
                self.invoke(core, place, *target, args, sending)
            }
            Request::Select { site, env } => self.select(core, actor, *site, env),
            Request::Take { ids } => self.take(actor, ids),
            Request::Reply { held, results, .. } => self.reply(ask.role, actor, *held, results),
            Request::Forward {
                held,
                target,
                args,
                ..
            } => {
                let sending = Sending {
                    name,
                    duty: self.duty_held(actor, *held),
                    forwarded: Some(Forwarded {
                        process: actor,
                        id: *held,
                    }),
                };
                self.invoke(core, place, *target, args, sending)
            }
            Request::Count { op } => self.count(core, actor, *op),
            Request::Write { bytes } => self.write(bytes),
            Request::Read { kind } => self.read(*kind),
            Request::EnsureGlobal { global, vm } => {
                self.ensure_global(core, place, name, *global, *vm)
            }
            Request::Create { resource, args, vm } => {
                let duty = duty_for(true, actor, name);
                self.create(core, place, duty, *resource, args, *vm)
            }
            Request::MakeVm => self.make_machine(name),
            Request::Destroy { target } => {
                self.destroy(core, place, name, *target, duty_for(true, actor, name))
            }
            Request::Finish {
                answered,
                back,
                results,
            } => self.finish(ask.role, actor, *answered, *back, results),
            Request::Stop { status } => self.stop(core, place, name, *status),
            Request::Fail { fault } => Ok(Acted::Ends(End::Failed {
                fault: *fault,
                place,
            })),
            Request::Age => self.age(),
            Request::Wake { until } => self.wake(*until),
        }
    }
}
