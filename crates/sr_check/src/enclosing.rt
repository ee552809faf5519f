ghost use Rattle.std.specs.Prelude.{◌≡◌, [], OnOk};
ghost use Rattle.sr_check.specs.Procs.{proc_of, with_proc};

use crate::serving::Serving;
use indexmap::IndexMap;
use sr_names::Spot;
use sr_value::{NoMemory, Span};
use std::alloc::Global;
use std::marker::Model;

/// The procs of a component: by the operation that each serves, where it begins.
#[derive(Drop)]
pub struct Procs {
    spans: IndexMap<Spot, Span>,
}

impl Model for Procs {
    ghost use Rattle.sr_check.specs.Procs.{Procs};

    ghost Value = { Procs };

    ghost view = { λ procs. procs.spans.entries };
}

impl Procs {
    /// No procs. It takes no memory.
    pub fn new(alloc: Global) -> Self
        ensures { result ≡ [] }
    {
        Procs {
            spans: IndexMap::new(alloc),
        }
    }

    /// Where the proc of an operation begins.
    pub fn get(&self, operation: Spot) -> Option<Span>
        ensures { result ≡ proc_of self.now operation }
    {
        self.spans.get(&operation).copied()
    }

    /// Puts a proc in.
    pub fn insert(&mut self, operation: Spot, span: Span) -> Result<(), NoMemory>
        ensures { OnOk result (self.new ≡ with_proc self.old operation span) }
    {
        self.spans.insert(operation, span)?;
        Ok(())
    }
}

/// What is around a statement.
#[derive(Clone, Copy)]
pub struct Enclosing<'a> {
    /// The procs of the component.
    pub procs: &'a Procs,
    /// Whose service is innermost.
    pub serving: Serving,
    /// Whether there is a loop or a `co` to leave.
    pub in_loop: bool,
}
