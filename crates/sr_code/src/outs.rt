ghost use Rattle.std.specs.Prelude.{◌≡◌, ◌∷◌, ◌++◌, ◌<◌, ◌==◌, [], IfOk, OnOk, Some, length, map, option_map, position, remove, slice_get};

use sr_ask::{Out, SharedNumbers};
use sr_line::Line;
use sr_value::{Duplicate, NoMemory};
use std::alloc::Global;
use std::marker::Model;

/// The invocations of a `co` that are out. Contracts see them as a list.
///
/// Their numbers are kept beside them, so that a look for one goes over numbers alone.
#[derive(Drop)]
pub struct Outs {
    alloc: Global,
    ids: SharedNumbers,
    outs: Line<Out>,
}

impl Model for Outs {
    ghost use Rattle.std.specs.Prelude.{◌≡◌, List, map};
    ghost use Rattle.std.specs.Coded.{coded_list};
    ghost use Rattle.sr_ask.specs.contracts.environment.Out as out;
    ghost use Rattle.sr_ask.specs.declared.environment.Out.{Out};

    ghost Value = { List Out };

    ghost coded = { coded_list out.the_row.coded };

    ghost view = { λ outs. outs.outs.items };

    ghost invariant = { λ outs. outs.ids ≡ map (λ out. out.id) outs.outs.items };
}

impl Outs {
    /// None is out. It takes no memory.
    pub fn new(alloc: Global) -> Self
        ensures { result ≡ [] }
    {
        Outs {
            alloc,
            ids: SharedNumbers::new(alloc),
            outs: Line::new(alloc),
        }
    }

    /// How many are out.
    pub fn len(&self) -> usize
        ensures { result ≡ length self.now }
    {
        self.ids.len()
    }

    /// One more is out.
    pub fn push(&mut self, out: Out) -> Result<(), NoMemory>
        ensures { OnOk result (self.new ≡ self.old ++ out ∷ []) }
    {
        self.outs.reserve()?;
        self.ids.push(self.alloc, out.id)?;
        self.outs.push_reserved(out);
        Ok(())
    }

    /// Their numbers.
    pub fn ids(&self, alloc: Global) -> Result<SharedNumbers, NoMemory>
        ensures { IfOk result (λ ids. ids ≡ map (λ out. out.id) self.now) }
    {
        self.ids.copy(alloc)
    }

    /// Where an invocation is among them.
    pub fn place_of(&self, id: u32) -> Option<usize>
        ensures { result ≡ position (λ out. out.id == id) self.now }
    {
        self.ids.position(id)
    }

    /// The one at a place.
    pub fn at(&self, at: usize) -> &Out
        requires { at < length self.now }
        ensures { slice_get self.now at ≡ Some result.now }
    {
        self.outs.at(at)
    }

    /// The arm of the one at a place.
    pub fn arm_at(&self, at: usize) -> u32
        requires { at < length self.now }
        ensures { Some result ≡ option_map (λ out. out.arm) (slice_get self.now at) }
    {
        self.at(at).arm
    }

    /// Takes the one at a place out.
    pub fn take(&mut self, at: usize) -> Result<Out, NoMemory>
        requires { at < length self.old }
        ensures item { IfOk result (λ out. slice_get self.old at ≡ Some out) }
        ensures others { OnOk result (self.new ≡ remove self.old at) }
    {
        self.ids.remove(self.alloc, at)?;
        match self.outs.remove(at) {
            Some(out) => Ok(out),
            None => unreachable!(),
        }
    }
}
