ghost use Rattle.std.specs.Prelude.{◌≡◌, IfOk};
ghost use Rattle.sr_world.specs.Acting.{Acts};
ghost use Rattle.sr_world.specs.Selecting.{choice_of, fault_at, select as select_of, select_at as select_of_at, service_at as service_of_at};

use crate::acted::Acted;
use crate::ends::End;
use crate::reads::GuardReads;
use crate::world::World;
use sr_ask::Answer;
use sr_core::{Core, Me, Site};
use sr_queue::Pending;
use sr_select::{Choice, choose, unserviced};
use sr_value::{Fault, NoMemory, Row, Value};

impl World {
    /// What an `in` statement of a process does. It takes memory only where guards do.
    #[tactic(auto, using(crate::proofs::SelectLemmas::unserviced_is))]
    pub(crate) fn choice(
        &self,
        core: &Core,
        process: u32,
        site: &Site,
        env: &Row<Value>,
    ) -> Result<Choice, NoMemory>
        ensures { IfOk result (λ chosen. chosen ≡ choice_of core.now self.now process env.now site.now) }
    {
        if self.queue.len() == 0 {
            return Ok(unserviced(site));
        }
        let me = Me {
            process,
            instance: self.instance_of_process(process),
        };
        let reads = GuardReads {
            core,
            world: self,
            process,
        };
        choose(self.alloc, &self.queue, site, me, env, &reads)
    }

    /// A process services the invocation at a place of the list by an arm.
    fn service(&mut self, process: u32, place: u32, arm: u32) -> Result<Acted, NoMemory>
        ensures { Acts (service_of_at self.old process place arm) self.old self.new result }
    {
        if place >= self.queue.len() {
            return Ok(Acted::Cannot);
        }
        let pending = self.queue.at(place);
        self.calls
            .hold(process, pending.id, pending.back, pending.back_id)?;
        let Pending { id, args, back, .. } = self.queue.remove_at(place);
        Ok(Acted::Done(Answer::Picked {
            id,
            arm,
            args,
            back,
        }))
    }

    /// The run ends by the fault of a guard, at its arm.
    fn fail_at(&self, site: &Site, fault: Fault, arm: u32) -> Result<Acted, NoMemory>
        ensures { Acts (fault_at site.now fault arm) self.now self.now result }
    {
        match site.arms.get(arm as usize) {
            Some(arm) => Ok(Acted::Ends(End::Failed {
                fault,
                place: arm.place,
            })),
            None => Ok(Acted::Cannot),
        }
    }

    fn select_at(
        &mut self,
        core: &Core,
        process: u32,
        site: &Site,
        env: &Row<Value>,
    ) -> Result<Acted, NoMemory>
        ensures { Acts (select_of_at core.now self.old process env.now site.now) self.old self.new result }
    {
        match self.choice(core, process, site, env)? {
            Choice::Service { place, arm } => self.service(process, place, arm),
            Choice::Else => Ok(Acted::Done(Answer::Else)),
            Choice::Nothing => Ok(Acted::Cannot),
            Choice::Bad { fault, arm } => self.fail_at(site, fault, arm),
        }
    }

    /// Chooses an invocation for an `in` statement of a process, which services it.
    #[inline(never)]
    pub(crate) fn select(
        &mut self,
        core: &Core,
        process: u32,
        site: u32,
        env: &Row<Value>,
    ) -> Result<Acted, NoMemory>
        ensures { Acts (select_of core.now self.old process site env.now) self.old self.new result }
    {
        match core.sites.get(site as usize) {
            Some(site) => self.select_at(core, process, site, env),
            None => Ok(Acted::Cannot),
        }
    }
}
