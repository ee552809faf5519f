ghost use Rattle.std.specs.Prelude.{◌≡◌, true};
ghost use Rattle.sr_world.specs.Answering.{no_duty as no_duty_of};
ghost use Rattle.sr_world.specs.Callers.{caller_in, duty_by as duty_by_of, duty_unless as duty_unless_of, waits_as};

use crate::act::duty_for;
use crate::duty::Duty;
use crate::world::World;
use sr_ask::Request;

/// Nobody waits for an invocation.
fn no_duty(id: u32) -> Duty
    ensures { result ≡ no_duty_of id }
{
    Duty {
        back: 0,
        back_id: id,
    }
}

impl World {
    /// Who waits for the answer that a request gives or hands on, or 0.
    pub fn caller(&self, actor: u32, request: &Request) -> u32
        ensures { result ≡ caller_in self.now actor request.now }
    {
        match request {
            Request::Reply { held, .. } => self.duty_held(actor, *held).back,
            Request::Forward { held, .. } => self.duty_held(actor, *held).back,
            Request::Finish { .. } => self.duty_held(actor, actor).back,
            _ => 0,
        }
    }

    /// Whom a request answers, or whose answer it hands on or asks for, and under which number. `name` is the number of
    /// the step. None where nobody waits.
    pub fn duty(&self, actor: u32, request: &Request, name: u32) -> Option<(u32, u32)>
        ensures { result ≡ waits_as (duty_by_of self.now actor name request.now) }
    {
        let duty = self.duty_by(actor, request, name);
        if duty.back == 0 {
            None
        } else {
            Some((duty.back, duty.back_id))
        }
    }

    fn duty_by(&self, actor: u32, request: &Request, name: u32) -> Duty
        ensures { result ≡ duty_by_of self.now actor name request.now }
    {
        match request {
            Request::Reply { held, .. } => self.duty_held(actor, *held),
            Request::Forward { held, .. } => self.duty_held(actor, *held),
            Request::Finish { answered, .. } => self.duty_unless(*answered, actor),
            Request::Invoke { wants, .. } => duty_for(*wants, actor, name),
            Request::Create { .. } => duty_for(true, actor, name),
            Request::Destroy { .. } => duty_for(true, actor, name),
            _ => no_duty(name),
        }
    }

    fn duty_unless(&self, answered: bool, actor: u32) -> Duty
        ensures { result ≡ duty_unless_of answered self.now actor }
    {
        if answered {
            no_duty(actor)
        } else {
            self.duty_held(actor, actor)
        }
    }
}
