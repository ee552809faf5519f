//! Tables by the spots of declarations. A number is a place in one of them.
ghost use Rattle.std.specs.Prelude.{◌≡◌, [], IfOk, OnOk, length, option_copied, position, slice_get};
ghost use Rattle.indexmap.specs.IndexSet.{insert_key};
ghost use Rattle.sr_names.specs.Spots.{same_spot};
ghost use Rattle.sr_tables.specs.Tables.{found_at, with_entry, keys_of, things_in, number_in};

use indexmap::{IndexMap, IndexSet};
use sr_core::{Operation, Parameter};
use sr_names::Spot;
use sr_value::{NoMemory, Row, Shape};
use std::alloc::Global;
use std::marker::Model;

/// Declarations, each once, in the order in which they were put in.
#[derive(Drop)]
pub struct Spots {
    spots: IndexSet<Spot>,
}

impl Model for Spots {
    ghost use Rattle.std.specs.Prelude.{List};
    ghost use Rattle.sr_names.specs.declared.spot.Spot.{Spot};

    ghost Value = { List Spot };

    ghost view = { λ spots. spots.spots.keys };
}

/// A place as a number. Past 2^32 places memory is said to be out.
pub fn number_of(place: usize) -> Result<u32, NoMemory>
    ensures { IfOk result (λ number. number ≡ place) }
{
    match u32::try_from(place) {
        Ok(number) => Ok(number),
        Err(_) => Err(NoMemory),
    }
}

impl Spots {
    /// No declarations. It takes no memory.
    pub fn new(alloc: Global) -> Self
        ensures { result ≡ [] }
    {
        Spots {
            spots: IndexSet::new(alloc),
        }
    }

    /// Appends a declaration to the others, unless it is there.
    pub fn insert(&mut self, spot: Spot) -> Result<(), NoMemory>
        ensures { OnOk result (self.new ≡ insert_key same_spot self.old spot) }
    {
        self.spots.insert(spot)?;
        Ok(())
    }

    /// The place of a declaration, where it is there.
    pub fn place(&self, spot: Spot) -> Option<usize>
        ensures { result ≡ position (same_spot spot) self.now }
    {
        self.spots.get_index_of(&spot)
    }

    /// The place of a declaration; 0 where it isn't there.
    pub fn number(&self, spot: Spot) -> Result<u32, NoMemory>
        ensures { IfOk result (λ number. number ≡ number_in self.now spot) }
    {
        number_of(self.place(spot).unwrap_or(0))
    }

    /// The declarations, in order.
    pub fn as_slice(&self) -> &[Spot]
        ensures { result.now ≡ self.now }
    {
        self.spots.as_slice()
    }

    /// How many declarations there are.
    pub fn count(&self) -> Result<u32, NoMemory>
        ensures { IfOk result (λ count. count ≡ length self.now) }
    {
        number_of(self.spots.len())
    }
}

/// What is known of each declaration, in the order in which it was put in.
#[derive(Drop)]
pub struct SpotMap<T: Drop> {
    entries: IndexMap<Spot, T>,
}

impl<T: Drop> Model for SpotMap<T> {
    ghost use Rattle.std.specs.Prelude.{List};
    ghost use Rattle.std.specs.Coded.{coded_list, coded×};
    ghost use Rattle.sr_names.specs.declared.spot.Spot.{Spot};
    ghost use Rattle.sr_names.specs.contracts.spot.Spot as spot;

    ghost Value = { List (Spot × T) };

    ghost coded = { coded_list (coded× spot.the_row.coded T.code) };

    ghost view = { λ table. table.entries.entries };
}

impl<T: Drop> SpotMap<T> {
    /// Nothing is known. It takes no memory.
    pub fn new(alloc: Global) -> Self
        ensures { result ≡ [] }
    {
        SpotMap {
            entries: IndexMap::new(alloc),
        }
    }

    /// What is known of a declaration.
    pub fn get(&self, spot: Spot) -> Option<&T>
        ensures { option_copied result ≡ found_at self.now spot }
    {
        self.entries.get(&spot)
    }

    /// Puts in what is known of a declaration.
    pub fn insert(&mut self, spot: Spot, thing: T) -> Result<(), NoMemory>
        ensures { OnOk result (self.new ≡ with_entry self.old spot thing) }
    {
        self.entries.insert(spot, thing)?;
        Ok(())
    }

    /// The place of a declaration; 0 where nothing is known of it.
    pub fn number(&self, spot: Spot) -> Result<u32, NoMemory>
        ensures { IfOk result (λ number. number ≡ number_in (keys_of self.now) spot) }
    {
        number_of(self.entries.get_index_of(&spot).unwrap_or(0))
    }

    /// What is known of the declaration at a place.
    pub fn at(&self, place: u32) -> Option<&T>
        ensures { option_copied result ≡ slice_get (things_in self.now) place }
    {
        let (_, thing) = self.entries.get_index(place as usize)?;
        Some(thing)
    }

    /// All that is known, in order.
    pub fn into_things(self, alloc: Global) -> Result<Row<T>, NoMemory>
        ensures { IfOk result (λ things. things ≡ things_in self) }
    {
        let SpotMap { entries } = self;
        let things = entries.into_values().collect(alloc)?;
        Ok(Row::from_vec(things))
    }
}

/// What a signature says of an operation.
#[derive(Drop)]
pub struct Head {
    pub parameters: Row<Parameter>,
    pub returns: Option<Shape>,
    pub can_call: bool,
    pub can_send: bool,
}

/// A shared variable: its component, and its number among the shared variables of that component.
#[derive(Clone, Copy, PartialEq, Eq)]
pub struct SharedVariable {
    pub component: u32,
    pub var: u32,
}

/// What a program declares outside of code, and the numbers of it.
#[derive(Drop)]
pub struct Tables {
    /// The components.
    pub components: Spots,
    /// The procs, each by the operation that it serves.
    pub procs: Spots,
    /// The statements that wait for invocations, each by its first token.
    pub sites: Spots,
    /// The shared variables of all components.
    pub shared: SpotMap<SharedVariable>,
    /// The shapes of places of the declared types.
    pub shapes: SpotMap<Shape>,
    /// The signatures that have names.
    pub heads: SpotMap<Head>,
    /// The operations.
    pub operations: SpotMap<Operation>,
}
