ghost use Rattle.std.specs.Prelude.{◌≡◌, ◌++◌, ◌∷◌, [], IfOk, OnErr, OnOk, map};
ghost use Rattle.sr_instances.specs.Instances.{IsAdded, with_instance};
ghost use Rattle.sr_processes.specs.Living.{IsLive};
ghost use Rattle.sr_world.specs.Making.{imports_at as imports_in, run_initial as initial_of, start_in as start_of};
ghost use Rattle.sr_world.specs.Parts.{back_of as back_for, home_in, make as make_of};
ghost use Rattle.sr_world.specs.Updates.{add_instance};

use crate::answering::hold_for;
use crate::duty::Duty;
use crate::places::{component_at, homes, machine_at};
use crate::world::World;
use sr_ask::{Role, Start};
use sr_core::Core;
use sr_instances::Places;
use sr_value::{Duplicate, NoMemory, Row, Value};
use std::alloc::Global;

/// What a new process runs: its number, the instance, its role, the number of the code, and who waits.
#[derive(Clone, Copy)]
pub struct Running {
    pub name: u32,
    pub instance: u32,
    pub role: Role,
    pub code: u32,
    pub back: u32,
}

/// A new instance: its number, its component and its machine.
#[derive(Clone, Copy)]
pub struct NewInstance {
    pub name: u32,
    pub component: u32,
    pub machine: u32,
}

/// The globals that a component imports.
fn imports(core: &Core, component: u32) -> &[u32]
    ensures { result.now ≡ imports_in core.now component }
{
    match core.components.get(component as usize) {
        Some(found) => found.imports.as_slice(),
        None => &[],
    }
}

/// The process that waits, or 0.
fn back_of(duty: Option<Duty>) -> u32
    ensures { result ≡ back_for duty }
{
    match duty {
        Some(duty) => duty.back,
        None => 0,
    }
}

/// The instances of globals on the machine of an instance that is to be added; 0 where there is none.
fn homes_of_new(
    alloc: Global,
    places: &Places,
    imports: &[u32],
    new: NewInstance,
) -> Result<Row<u32>, NoMemory>
    requires { ¬ IsAdded places.now new.name }
    ensures { IfOk result (λ homes. homes ≡ map (home_in (with_instance places.now new.name new.component new.machine) new.machine) imports.now) }
{
    let mut homes = Row::new(alloc);
    for global in imports {
        homes.push(home_of_new(places, *global, new))?;
    }
    Ok(homes)
}

#[tactic(auto, using(crate::proofs::StartLemmas::home_new))]
fn home_of_new(places: &Places, global: u32, new: NewInstance) -> u32
    ensures { result ≡ home_in (with_instance places.now new.name new.component new.machine) new.machine global }
{
    match places.global_at(global, new.machine) {
        Some(instance) => instance,
        None => { if global == new.component { new.name } else { 0 } }
    }
}

impl World {
    /// What a process that runs code of an instance is started with.
    pub fn start_in(
        &self,
        core: &Core,
        running: Running,
        args: &Row<Value>,
    ) -> Result<Start, NoMemory>
        ensures { IfOk result (λ start. start ≡ start_of core.now self.now running.name running.instance running.role running.code args.now running.back) }
    {
        let vm = machine_at(&self.places, running.instance);
        let component = component_at(&self.places, running.instance);
        let homes = homes(self.alloc, &self.places, imports(core, component), vm)?;
        let args = args.copy(self.alloc)?;
        Ok(Start {
            process: running.name,
            instance: running.instance,
            vm,
            homes,
            role: running.role,
            code: running.code,
            args,
            back: running.back,
        })
    }

    /// What the initial process of an instance that is to be added is started with.
    fn start_of_new(
        &self,
        core: &Core,
        new: NewInstance,
        args: &Row<Value>,
        back: u32,
    ) -> Result<Start, NoMemory>
        requires { ¬ IsAdded self.now.places new.name }
        ensures { IfOk result (λ start. start ≡ start_of core.now (add_instance new.name new.component new.machine self.now) new.name new.name Role.Initial new.component args.now back) }
    {
        let imports = imports(core, new.component);
        let homes = homes_of_new(self.alloc, &self.places, imports, new)?;
        let args = args.copy(self.alloc)?;
        Ok(Start {
            process: new.name,
            instance: new.name,
            vm: new.machine,
            homes,
            role: Role::Initial,
            code: new.component,
            args,
            back,
        })
    }

    /// Makes an instance and its initial process, which has the duty to answer where somebody waits.
    pub(crate) fn make(
        &mut self,
        core: &Core,
        new: NewInstance,
        args: &Row<Value>,
        duty: Option<Duty>,
    ) -> Result<(), NoMemory>
        requires process { ¬ IsLive self.old.live new.name }
        requires instance { ¬ IsAdded self.old.places new.name }
        ensures ok { OnOk result (self.new ≡ make_of core.now new.name new.component new.machine args.now duty self.old) }
        ensures err { OnErr result (self.new ≡ self.old) }
    {
        self.processes.reserve()?;
        self.used.reserve()?;
        self.calls.reserve(new.name)?;
        let start = self.start_of_new(core, new, args, back_of(duty))?;
        self.places
            .add_instance(new.name, new.component, new.machine)?;
        self.used.push(new.name);
        self.processes.add(start);
        hold_for(&mut self.calls, new.name, duty);
        Ok(())
    }
}
