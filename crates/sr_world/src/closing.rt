ghost use Rattle.std.specs.Prelude.{◌≡◌, OnErr, OnOk};
ghost use Rattle.sr_meaning.specs.Processes.{main_of as main_in};
ghost use Rattle.sr_world.specs.Acting.{Acts};
ghost use Rattle.sr_world.specs.Endings.{final_or as final_of_or, quiesce as quiesce_of, rest_of as rest_of_fixed, status_in as status_of, stop as stop_of};
ghost use Rattle.sr_world.specs.Making.{run_final};
ghost use Rattle.sr_world.specs.Parts.{fixed_after as fixed_after_of};
ghost use Rattle.sr_world.specs.Updates.{end_all, fix};

use crate::acted::Acted;
use crate::ending::has_final_code;
use crate::ends::End;
use crate::places::{component_at, is_open, set_state};
use crate::starting::Running;
use crate::world::World;
use sr_ask::{Answer, Role};
use sr_calls::Calls;
use sr_core::Core;
use sr_instances::State;
use sr_value::{Fault, NoMemory, Place, Row};

/// The component of main. A program without components has none.
pub fn main_of(core: &Core) -> usize
    ensures { result ≡ main_in core.now }
{
    core.components.len().saturating_sub(1)
}

/// A status that a `stop` takes.
pub fn status_in(status: i32) -> Option<u8>
    ensures { result ≡ status_of status }
{
    match u8::try_from(status) {
        Ok(number) => { if number <= 100 { Some(number) } else { None } }
        Err(_) => None,
    }
}

/// The status that is fixed after another may have been.
fn fixed_after(status: Option<u8>, fixed: Option<u8>) -> Option<u8>
    ensures { result ≡ fixed_after_of status fixed }
{
    match status {
        Some(status) => Some(status),
        None => fixed,
    }
}

/// How a run ends that comes to rest.
fn rest_of(fixed: Option<u8>) -> End
    ensures { result ≡ rest_of_fixed fixed }
{
    match fixed {
        Some(status) => End::Stopped(status),
        None => End::Quiet,
    }
}

impl World {
    /// All processes end, and a process runs the final code of an instance.
    fn run_final(
        &mut self,
        core: &Core,
        name: u32,
        instance: u32,
        status: Option<u8>,
    ) -> Result<(), NoMemory>
        ensures ok { OnOk result (self.new ≡ run_final core.now name instance 0 (fix status (end_all self.old))) }
        ensures err { OnErr result (self.new ≡ self.old) }
    {
        self.processes.reserve()?;
        self.used.reserve()?;
        let running = Running {
            name,
            instance,
            role: Role::Final,
            code: component_at(&self.places, instance),
            back: 0,
        };
        let start = self.start_in(core, running, &Row::new(self.alloc))?;
        self.processes.end_all();
        self.calls = Calls::new(self.alloc);
        self.fixed = fixed_after(status, self.fixed);
        self.used.push(name);
        set_state(&mut self.places, instance, State::Closing);
        self.processes.add(start);
        Ok(())
    }

    /// Main's final code begins, where main lives and has some that hasn't begun; else the run ends so.
    fn final_or(
        &mut self,
        core: &Core,
        name: u32,
        status: Option<u8>,
        ending: End,
    ) -> Result<Acted, NoMemory>
        ensures { Acts (final_of_or core.now name status ending self.old) self.old self.new result }
    {
        let main = main_of(core);
        match self.places.first_of(main) {
            Some((instance, state)) => {
                if is_open(Some(state)) && has_final_code(core, main) {
                    self.run_final(core, name, instance, status)?;
                    return Ok(Acted::Done(Answer::Done));
                }
                Ok(Acted::Ends(ending))
            }
            None => Ok(Acted::Ends(ending)),
        }
    }

    /// Stops the run with a status.
    #[inline(never)]
    pub(crate) fn stop(
        &mut self,
        core: &Core,
        place: Place,
        name: u32,
        status: i32,
    ) -> Result<Acted, NoMemory>
        ensures { Acts (stop_of core.now place name status self.old) self.old self.new result }
    {
        match status_in(status) {
            Some(status) => self.final_or(core, name, Some(status), End::Stopped(status)),
            None => Ok(Acted::Ends(End::Failed {
                fault: Fault::BadStatus,
                place,
            })),
        }
    }

    /// What happens where no process can make a step: main's final code begins, as a process of this
    /// number, or the run ends.
    pub fn quiesce(&mut self, core: &Core, name: u32) -> Result<Acted, NoMemory>
        ensures { Acts (quiesce_of core.now name self.old) self.old self.new result }
    {
        let ending = rest_of(self.fixed);
        self.final_or(core, name, None, ending)
    }
}
