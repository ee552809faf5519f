ghost use Rattle.std.specs.Prelude.{◌≡◌, ◌++◌, ◌<◌, [], ℕ, IfOk, OnOk, length, map, slice_index};
ghost use Rattle.std.specs.List.Sorted.{IsStrictlySortedBy};
ghost use Rattle.std.specs.Ordering.{nat_cmp};
ghost use Rattle.sr_check_decl.specs.Needers.{needers_of, with_needer, with_needs, with_all_needs, needers_after, has_place};
ghost use Rattle.sr_check_decl.specs.Waits.{seen};

use crate::waiting::Waits;
use indexmap::IndexMap;
use sr_names::Spot;
use sr_value::{NoMemory, Row};
use std::alloc::Global;
use std::marker::Model;

/// The places of the declarations that name a declaration, by its spot.
#[derive(Drop)]
pub(crate) struct Needers {
    places: IndexMap<Spot, Row<usize>>,
}

impl Model for Needers {
    ghost use Rattle.std.specs.Prelude.{ℕ, List};
    ghost use Rattle.sr_names.specs.declared.spot.Spot.{Spot};

    ghost Value = { List (Spot × List ℕ) };

    ghost view = { λ needers. needers.places.entries };
}

impl Needers {
    /// Of no declarations. It takes no memory.
    fn new(alloc: Global) -> Self
        ensures { result ≡ [] }
    {
        Needers {
            places: IndexMap::new(alloc),
        }
    }

    /// The places of the declarations that name the one at a spot.
    fn at(&self, spot: Spot) -> &[usize]
        ensures { result.now ≡ needers_of self.now spot }
    {
        match self.places.get(&spot) {
            Some(places) => places.as_slice(),
            None => &[],
        }
    }

    /// Notes that the declaration at a place names the one at a spot.
    fn add(&mut self, alloc: Global, place: usize, spot: Spot) -> Result<(), NoMemory>
        ensures { OnOk result (self.new ≡ with_needer self.old place spot) }
    {
        let held = self.places.insert(spot, Row::new(alloc))?;
        let mut places = held.unwrap_or(Row::new(alloc));
        places.push(place)?;
        self.places.insert(spot, places)?;
        Ok(())
    }
}

fn add_all(
    needers: &mut Needers,
    alloc: Global,
    place: usize,
    spots: &[Spot],
) -> Result<(), NoMemory>
    ensures { OnOk result (needers.new ≡ with_needs needers.old place spots.now) }
{
    for spot in spots {
        needers.add(alloc, place, *spot)?;
    }
    Ok(())
}

/// Which declarations name which.
pub(crate) fn needers_of_all(alloc: Global, rows: &[Row<Spot>]) -> Result<Needers, NoMemory>
    ensures { IfOk result (λ needers. needers ≡ with_all_needs [] 0 rows.now) }
{
    let mut needers = Needers::new(alloc);
    for (place, spots) in rows.iter().enumerate() {
        add_all(&mut needers, alloc, place, spots.as_slice())?;
    }
    Ok(needers)
}

fn push_places(found: &mut Row<usize>, places: &[usize]) -> Result<(), NoMemory>
    ensures { OnOk result (found.new ≡ found.old ++ places.now) }
{
    for place in places {
        found.push(*place)?;
    }
    Ok(())
}

/// The places of the declarations that name one of these.
pub(crate) fn needers_after(
    alloc: Global,
    needers: &Needers,
    wave: &[Waits<'_>],
) -> Result<Row<usize>, NoMemory>
    ensures { IfOk result (λ places. places ≡ needers_after needers.now (map seen wave.now)) }
{
    let mut found = Row::new(alloc);
    for waiting in wave {
        push_places(&mut found, needers.at(waiting.spot))?;
    }
    Ok(found)
}

/// The same places in order, each once.
pub(crate) fn in_order(places: Row<usize>) -> Row<usize>
    ensures rising { IsStrictlySortedBy nat_cmp result }
    ensures same { (place : ℕ) → has_place result place ≡ has_place places place }
{
    let mut sorted = places.into_vec();
    sorted.sort_unstable();
    sorted.dedup();
    Row::from_vec(sorted)
}

/// All places of a list.
pub(crate) fn places_below(alloc: Global, count: usize) -> Result<Row<usize>, NoMemory>
    ensures long { IfOk result (λ places. length places ≡ count) }
    ensures each { IfOk result (λ places. (place : ℕ) → place < count → slice_index places place ≡ place) }
{
    let mut places = Row::new(alloc);
    for place in 0..count {
        places.push(place)?;
    }
    Ok(places)
}
