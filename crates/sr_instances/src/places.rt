ghost use Rattle.std.specs.Prelude.{◌≡◌, ◌↔◌, [], IsTrue, OnErr, OnOk};
ghost use Rattle.std.specs.List.{Contains};
ghost use Rattle.sr_instances.specs.Instances.{IsAdded, component_of, first_among, global_in, machine_of, names_of, state_of, with_instance, with_machine, with_state};

use crate::state::State;
use crate::tables::{InstanceInfo, Spot, note_first, note_first_of, put};
use indexmap::IndexMap;
use sr_value::{Duplicate, NoMemory, Row};
use std::alloc::Global;
use std::marker::Model;

/// Instances and machines in the order in which they were added.
#[derive(Drop)]
pub struct Places {
    /// The instances by name.
    instances: IndexMap<u32, InstanceInfo>,
    /// Their names.
    names: Row<u32>,
    /// The first instance of each component on each machine.
    globals: IndexMap<Spot, u32>,
    machines: Row<u32>,
}

impl Model for Places {
    ghost use Rattle.sr_instances.specs.Instances.{Placed};

    ghost Value = { Placed };

    ghost use Rattle.sr_instances.specs.Tables.{instances_in, IsIndexed};

    ghost view = { λ places. record { instances = instances_in places.instances.entries; machines = places.machines } };

    ghost invariant = { λ places. IsIndexed places.instances.entries places.names places.globals.entries };
}

impl Places {
    /// No instances and no machines. It takes no memory.
    pub fn new(alloc: Global) -> Self
        ensures instances { result.instances ≡ [] }
        ensures machines { result.machines ≡ [] }
    {
        Places {
            instances: IndexMap::new(alloc),
            names: Row::new(alloc),
            globals: IndexMap::new(alloc),
            machines: Row::new(alloc),
        }
    }

    /// Adds an instance of a component on a machine. It is starting.
    pub fn add_instance(&mut self, name: u32, component: u32, vm: u32) -> Result<(), NoMemory>
        requires { ¬ IsAdded self.old name }
        ensures ok { OnOk result (self.new ≡ with_instance self.old name component vm) }
        ensures err { OnErr result (self.new ≡ self.old) }
    {
        self.instances.reserve(1)?;
        self.globals.reserve(1)?;
        self.names.push(name)?;
        let spot = Spot {
            component,
            machine: vm,
        };
        note_first(&mut self.globals, spot, name);
        let standing = InstanceInfo {
            component,
            machine: vm,
            state: State::Starting,
        };
        put(&mut self.instances, name, standing);
        Ok(())
    }

    /// Whether an instance of this name was added.
    pub fn is_added(&self, instance: u32) -> bool
        ensures { IsTrue result ↔ IsAdded self.now instance }
    {
        self.instances.contains_key(&instance)
    }

    /// Adds a machine.
    pub fn add_vm(&mut self, name: u32) -> Result<(), NoMemory>
        requires { ¬ Contains self.old.machines name }
        ensures ok { OnOk result (self.new ≡ with_machine self.old name) }
        ensures err { OnErr result (self.new ≡ self.old) }
    {
        self.machines.push(name)
    }

    /// The first instance of a component that was added on a machine, where there is one.
    pub fn global_at(&self, global: u32, vm: u32) -> Option<u32>
        ensures { result ≡ global_in self.now global vm }
    {
        let spot = Spot {
            component: global,
            machine: vm,
        };
        self.globals.get(&spot).copied()
    }

    /// The first instance of a component that was added, and how far it has come.
    pub fn first_of(&self, component: usize) -> Option<(u32, State)>
        ensures { result ≡ first_among component self.now.instances }
    {
        let mut first = None;
        for (name, info) in self.instances.iter() {
            note_first_of(&mut first, *name, *info, component);
        }
        first
    }

    /// How far an instance has come.
    pub fn state(&self, instance: u32) -> State
        requires { IsAdded self.now instance }
        ensures { state_of self.now instance ≡ Some result }
    {
        self.instances[&instance].state
    }

    /// How far an instance has come, where it was added.
    pub fn state_of(&self, instance: u32) -> Option<State>
        ensures { result ≡ state_of self.now instance }
    {
        match self.instances.get(&instance) {
            Some(info) => Some(info.state),
            None => None,
        }
    }

    /// Puts an instance into a state. All else stays.
    pub fn set(&mut self, instance: u32, state: State)
        requires { IsAdded self.old instance }
        ensures { self.new ≡ with_state self.old instance state }
    {
        if let Some(standing) = self.instances.get_mut(&instance) {
            standing.state = state;
        }
    }

    /// The component that an instance is of.
    pub fn component(&self, instance: u32) -> u32
        requires { IsAdded self.now instance }
        ensures { component_of self.now instance ≡ Some result }
    {
        self.instances[&instance].component
    }

    /// The machine that an instance stands on.
    pub fn machine(&self, instance: u32) -> u32
        requires { IsAdded self.now instance }
        ensures { machine_of self.now instance ≡ Some result }
    {
        self.instances[&instance].machine
    }

    /// The names of the instances in the order in which they were added.
    pub fn instances(&self) -> &Row<u32>
        ensures { result.now ≡ names_of self.now }
    {
        &self.names
    }

    /// The machines in the order in which they were added.
    pub fn machines(&self) -> &Row<u32>
        ensures { result.now ≡ self.now.machines }
    {
        &self.machines
    }
}

impl Duplicate for Places {
    fn copy(&self, alloc: Global) -> Result<Places, NoMemory> {
        let names = self.names.copy(alloc)?;
        let machines = self.machines.copy(alloc)?;
        let instances = self.instances.clone()?;
        let globals = self.globals.clone()?;
        Ok(Places {
            instances,
            names,
            globals,
            machines,
        })
    }
}
