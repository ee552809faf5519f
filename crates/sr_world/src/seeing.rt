ghost use Rattle.std.specs.Prelude.{◌≡◌, IfOk};
ghost use Rattle.sr_world.specs.Seeing.{seen_at as seen_at_of, seen_by};

use crate::reads::GuardReads;
use crate::world::World;
use sr_ask::{Request, Seen};
use sr_core::{Core, Me, Site};
use sr_select::{Chosen, choose_and_see};
use sr_value::{NoMemory, Row, Value};

impl World {
    /// What a request of a process reads for its choice, in order. The guards are evaluated for each invocation.
    pub fn seen(&self, core: &Core, process: u32, request: &Request) -> Result<Row<Seen>, NoMemory>
        ensures { IfOk result (λ seen. seen ≡ seen_by core.now self.now process request.now) }
    {
        match request {
            Request::Select { site, env } => match core.sites.get(*site as usize) {
                Some(site) => self.seen_at(core, process, site, env),
                None => Ok(Row::new(self.alloc)),
            },
            _ => Ok(Row::new(self.alloc)),
        }
    }

    fn seen_at(
        &self,
        core: &Core,
        process: u32,
        site: &Site,
        env: &Row<Value>,
    ) -> Result<Row<Seen>, NoMemory>
        ensures { IfOk result (λ seen. seen ≡ seen_at_of core.now self.now process env.now site.now) }
    {
        let me = Me {
            process,
            instance: self.instance_of_process(process),
        };
        let reads = GuardReads {
            core,
            world: self,
            process,
        };
        let Chosen { seen, .. } = choose_and_see(self.alloc, &self.queue, site, me, env, &reads)?;
        Ok(seen)
    }
}
