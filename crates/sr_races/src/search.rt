ghost use Rattle.std.specs.List.Sorted.{IsNonDecreasingBy, IsPermutation, IsStableByKey, IsStrictlyIncreasing};
ghost use Rattle.std.specs.Option.{option_copied};
ghost use Rattle.std.specs.Ordering.{nat_cmp};
ghost use Rattle.std.specs.Prelude.{◌≡◌, ◌+◌, ◌<◌, ◌↔◌, ℕ, Contains, [], IfOk, IsTrue, OnOk, OnSome, length, slice_get};
ghost use Rattle.sr_races.specs.Items.{Run};
ghost use Rattle.sr_races.specs.Kept.{HasRows};
ghost use Rattle.sr_races.specs.Marks.{AreNoted};
ghost use Rattle.sr_races.specs.Searches.{AreFirsts, AreRacesBefore, HasFound, HasSearched, IsRead, LooksRaced, first_of};
ghost use Rattle.sr_races.specs.Walks.{IsEntry};

use crate::access::any_conflict;
use crate::marks::{Line, Mark, add_item, look_for_each, no_marks};
use crate::race::{Race, Raced};
use crate::walk::Entry;
use sr_clock_rows::Clocks;
use sr_value::{NoMemory, Row};
use std::alloc::Global;

/// The greatest number of races.
const MOST_RACES: usize = 65_536;

/// The races among these items.
pub(crate) fn search(alloc: Global, entries: &[Entry], clocks: &Clocks) -> Result<Raced, NoMemory>
    requires { length entries.now < 4294967295 }
    ensures { (r : Run) → IsRead r clocks.now entries.now → IfOk result (HasFound r) }
{
    let mut races = Row::new(alloc);
    let all = push_all(alloc, entries, clocks, &mut races)?;
    let sorted = by_first(races)?;
    if !all {
        return Ok(Raced::TooMany);
    }
    Ok(Raced::Found(sorted))
}

/// The same races by their first items. Those of one first item stay in their order.
fn by_first(races: Row<Race>) -> Result<Row<Race>, NoMemory>
    ensures permutation { IfOk result (λ sorted. IsPermutation races sorted) }
    ensures rising { IfOk result (λ sorted. IsNonDecreasingBy first_of sorted) }
    ensures stable { IfOk result (λ sorted. IsStableByKey first_of nat_cmp races sorted) }
{
    let mut sorted = races.into_vec();
    sorted.sort_by_key(|race| race.first)?;
    Ok(Row::from_vec(sorted))
}

/// Adds the races by their second items, up to the first with which they are too many. Says whether all were added.
fn push_all(
    alloc: Global,
    entries: &[Entry],
    clocks: &Clocks,
    races: &mut Row<Race>,
) -> Result<bool, NoMemory>
    requires none { races.old ≡ [] }
    requires room { length entries.now < 4294967295 }
    ensures { (r : Run) → IsRead r clocks.now entries.now → IfOk result (λ all. HasSearched r (length entries.now) all races.new) }
{
    let mut spots = no_marks(alloc, entries.len() as u32)?;
    push_over(alloc, entries, clocks, &mut spots, races)
}

/// Adds the races by their second items, over spots at which nothing is marked yet.
fn push_over(
    alloc: Global,
    entries: &[Entry],
    clocks: &Clocks,
    spots: &mut Row<Row<Line>>,
    races: &mut Row<Race>,
) -> Result<bool, NoMemory>
    requires none { races.old ≡ [] }
    requires room { length entries.now < 4294967295 }
    requires size { length spots.old ≡ length entries.now }
    ensures { (r : Run) → IsRead r clocks.now entries.now → AreNoted r clocks.now (length entries.now) 0 spots.old → IfOk result (λ all. HasSearched r (length entries.now) all races.new) }
{
    for second in 0..entries.len() as u32 {
        push_of(alloc, entries, clocks, spots, second, races)?;
        if races.len() > MOST_RACES {
            return Ok(false);
        }
        note(alloc, entries, clocks, second, spots)?;
    }
    Ok(true)
}

/// Marks an item at the spots of its accesses.
fn note(
    alloc: Global,
    entries: &[Entry],
    clocks: &Clocks,
    second: u32,
    spots: &mut Row<Row<Line>>,
) -> Result<(), NoMemory>
    requires within { second < length entries.now }
    requires room { length entries.now < 4294967295 }
    requires size { length spots.old ≡ length entries.now }
    ensures size { OnOk result (length spots.new ≡ length spots.old) }
    ensures noted { (r : Run) → IsRead r clocks.now entries.now → AreNoted r clocks.now (length entries.now) second spots.old → OnOk result (AreNoted r clocks.now (length entries.now) (second + 1) spots.new) }
{
    let one = &entries[second as usize];
    if one.accesses.is_empty() {
        return Ok(());
    }
    let count = clocks.count(second, one.column);
    let mark = Mark {
        item: second,
        count,
    };
    let size = entries.len() as u32;
    add_item(
        alloc,
        spots,
        size,
        one.accesses.as_slice(),
        one.column,
        mark,
    )
}

/// Adds the races of which an item is the second.
fn push_of(
    alloc: Global,
    entries: &[Entry],
    clocks: &Clocks,
    spots: &Row<Row<Line>>,
    second: u32,
    races: &mut Row<Race>,
) -> Result<(), NoMemory>
    requires within { second < length entries.now }
    requires room { length entries.now < 4294967295 }
    ensures { (r : Run) → IsRead r clocks.now entries.now → AreNoted r clocks.now (length entries.now) second spots.now → AreRacesBefore r 0 second races.old → OnOk result (AreRacesBefore r 0 (second + 1) races.new) }
{
    let other = &entries[second as usize];
    let size = entries.len() as u32;
    let firsts = firsts_of(alloc, size, spots, other, clocks, second)?;
    push_each(entries, other, clocks, firsts.as_slice(), second, races)
}

/// Earlier items, in order, among which all are that are in a race with an item.
fn firsts_of(
    alloc: Global,
    size: u32,
    spots: &Row<Row<Line>>,
    other: &Entry,
    clocks: &Clocks,
    second: u32,
) -> Result<Row<u32>, NoMemory>
    requires { 0 < size }
    ensures { (r : Run) (count : ℕ) → HasRows r count clocks.now → second < count → IsEntry r clocks.now second other.now → AreNoted r clocks.now size second spots.now → IfOk result (AreFirsts r second) }
{
    let mut found = Row::new(alloc);
    let accesses = other.accesses.as_slice();
    look_for_each(alloc, spots, size, accesses, clocks, second, &mut found)?;
    Ok(in_order(found))
}

/// The same items in order, each once.
fn in_order(items: Row<u32>) -> Row<u32>
    ensures rises { IsStrictlyIncreasing result }
    ensures keeps { (item : ℕ) → Contains items item → Contains result item }
    ensures adds_none { (item : ℕ) → Contains result item → Contains items item }
{
    let mut sorted = items.into_vec();
    sorted.sort_unstable();
    sorted.dedup();
    Row::from_vec(sorted)
}

/// Adds the races of some first items with a second one.
fn push_each(
    entries: &[Entry],
    other: &Entry,
    clocks: &Clocks,
    firsts: &[u32],
    second: u32,
    races: &mut Row<Race>,
) -> Result<(), NoMemory>
    requires within { second < length entries.now }
    requires room { length entries.now < 4294967295 }
    ensures { (r : Run) → IsRead r clocks.now entries.now → IsEntry r clocks.now second other.now → AreFirsts r second firsts.now → AreRacesBefore r 0 second races.old → OnOk result (AreRacesBefore r 0 (second + 1) races.new) }
{
    for first in firsts {
        push_pair(entries, other, clocks, *first, second, races)?;
    }
    Ok(())
}

fn entry_at(entries: &[Entry], place: u32) -> Option<&Entry>
    ensures value { option_copied result ≡ slice_get entries.now place }
    ensures within { OnSome result (place < length entries.now) }
{
    entries.get(place as usize)
}

/// Adds two items, where they are a race.
fn push_pair(
    entries: &[Entry],
    other: &Entry,
    clocks: &Clocks,
    first: u32,
    second: u32,
    races: &mut Row<Race>,
) -> Result<(), NoMemory>
    requires within { second < length entries.now }
    requires room { length entries.now < 4294967295 }
    ensures { (r : Run) → IsRead r clocks.now entries.now → IsEntry r clocks.now second other.now → first < second → AreRacesBefore r first second races.old → OnOk result (AreRacesBefore r (first + 1) second races.new) }
{
    match entry_at(entries, first) {
        Some(one) => push_if(one, other, clocks, first, second, races),
        None => Ok(()),
    }
}

/// Adds two items, where they are a race.
fn push_if(
    one: &Entry,
    other: &Entry,
    clocks: &Clocks,
    first: u32,
    second: u32,
    races: &mut Row<Race>,
) -> Result<(), NoMemory>
    requires first { first < 4294967295 }
    requires second { second < 4294967295 }
    ensures { (r : Run) (count : ℕ) → HasRows r count clocks.now → IsEntry r clocks.now first one.now → IsEntry r clocks.now second other.now → first < second → second < count → AreRacesBefore r first second races.old → OnOk result (AreRacesBefore r (first + 1) second races.new) }
{
    if !looks_raced(clocks, one, other, first, second) {
        return Ok(());
    }
    races.push(Race {
        first: first + 1,
        second: second + 1,
        one: one.place,
        other: other.place,
    })
}

/// Whether an item and a later one are a race.
fn looks_raced(clocks: &Clocks, one: &Entry, other: &Entry, first: u32, second: u32) -> bool
    ensures { IsTrue result ↔ LooksRaced clocks.now one.now other.now first second }
{
    if one.process == other.process {
        return false;
    }
    if !any_conflict(one.accesses.as_slice(), other.accesses.as_slice()) {
        return false;
    }
    clocks.count(second, one.column) < clocks.count(first, one.column)
}
