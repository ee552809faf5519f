ghost use Rattle.std.specs.Prelude.{◌≡◌, ◌++◌, ◌<◌, IsTrue, IfOk, OnOk, false, length, map, take};
ghost use Rattle.sr_check_decl.specs.Needs.{needed_by, needs_among, needs_in, is_known, are_known, known_at, FirstAreKnown};
ghost use Rattle.sr_check_decl.specs.Waits.{seen};

use crate::names_in::names_in;
use crate::waiting::Waits;
use sr_check_expr::{Facts, decl_of};
use sr_names::{Decl, Spot};
use sr_value::{NoMemory, Row, Span};
use std::alloc::Global;

/// What the values of declarations name.
#[derive(Drop)]
pub(crate) struct Needs {
    /// For each declaration those that its value names.
    pub spots: Row<Row<Spot>>,
    /// For each declaration how many of the first of them are known to be declared.
    pub known: Row<usize>,
}

fn push_need(spots: &mut Row<Spot>, decl: Option<Decl>) -> Result<(), NoMemory>
    ensures { OnOk result (spots.new ≡ spots.old ++ needed_by decl) }
{
    match decl {
        None => Ok(()),
        Some(decl) => spots.push(decl.spot),
    }
}

/// The declarations that names mean.
fn needs_among(alloc: Global, facts: &Facts, names: &[Span]) -> Result<Row<Spot>, NoMemory>
    ensures { IfOk result (λ spots. spots ≡ needs_among facts.now.uses names.now) }
{
    let mut spots = Row::new(alloc);
    for name in names {
        push_need(&mut spots, decl_of(facts.uses.get(Spot::of(*name))))?;
    }
    Ok(spots)
}

/// The declarations that the value of a declaration names.
fn needs_in(alloc: Global, facts: &Facts, waiting: &Waits<'_>) -> Result<Row<Spot>, NoMemory>
    ensures { IfOk result (λ spots. spots ≡ needs_in facts.now.uses (seen waiting.now)) }
{
    let names = names_in(alloc, waiting.value)?;
    needs_among(alloc, facts, names.as_slice())
}

/// What the values of declarations name. Of none of it is it known that it is declared.
pub(crate) fn needs_of_all(
    alloc: Global,
    facts: &Facts,
    all: &[Waits<'_>],
) -> Result<Needs, NoMemory>
    ensures spots { IfOk result (λ needs. needs.spots ≡ map (needs_in facts.now.uses) (map seen all.now)) }
    ensures known { IfOk result (λ needs. FirstAreKnown facts.now needs.spots needs.known) }
{
    let mut needs = Needs {
        spots: Row::new(alloc),
        known: Row::new(alloc),
    };
    for waiting in all {
        needs.spots.push(needs_in(alloc, facts, waiting)?)?;
        needs.known.push(0)?;
    }
    Ok(needs)
}

fn is_known(facts: &Facts, spot: Spot) -> bool
    ensures { result ≡ is_known facts.now spot }
{
    facts.infos.get(spot).is_some()
}

/// The place, from one on, of the first that isn't declared, or the number of all.
fn first_unknown(facts: &Facts, spots: &[Spot], from: usize) -> usize
    ensures passed { IsTrue (are_known facts.now (take from spots.now)) → IsTrue (are_known facts.now (take result spots.now)) }
    ensures met { result < length spots.now → are_known facts.now spots.now ≡ false }
{
    for place in from..spots.len() {
        if !is_known(facts, spots[place]) {
            return place;
        }
    }
    spots.len()
}

impl Needs {
    /// Whether all that the value of the declaration at a place names is declared. What is known of it needn't be
    /// looked at again.
    pub(crate) fn are_known(&mut self, facts: &Facts, place: usize) -> bool
        requires { FirstAreKnown facts.now self.old.spots self.old.known }
        ensures value { result ≡ known_at facts.now self.old.spots place }
        ensures same { self.new.spots ≡ self.old.spots }
        ensures known { FirstAreKnown facts.now self.new.spots self.new.known }
    {
        match self.known.get(place).copied() {
            None => true,
            Some(from) => match self.spots.get(place) {
                None => true,
                Some(spots) => {
                    let first = first_unknown(facts, spots.as_slice(), from);
                    let count = spots.len();
                    self.known.replace(place, first);
                    count <= first
                }
            },
        }
    }
}
