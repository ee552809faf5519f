ghost use Rattle.std.specs.Prelude.{◌≡◌, [], IfOk, OnOk, map, slice_get};
ghost use Rattle.std.specs.Option.{option_map};
ghost use Rattle.sr_check_decl.specs.Waits.{seen};
ghost use Rattle.sr_check_decl.specs.Inferring.{is_settled, info_by, settled, all_settled, inferred, given_up, given_up_if, program_inferred, program_known};
ghost use Rattle.sr_check_decl.specs.Needers.{with_all_needs};
ghost use Rattle.sr_check_decl.specs.Needs.{needs_in, FirstAreKnown};
ghost use Rattle.sr_check_decl.specs.Picked.{settling, picked};
ghost use Rattle.sr_names.specs.Diagnostics.{all_noted};
ghost use Rattle.sr_check_expr.specs.Exprs.{infer_expr};
ghost use Rattle.sr_check_decl.specs.Cycles.{type_cycles_found, leads_left};
ghost use Rattle.sr_check_decl.specs.Waiting.{files_waiting};

use crate::constants::{const_typed, type_of_value};
use crate::cycles::note_left;
use crate::declaring::program_declared;
use crate::needers::{Needers, in_order, needers_after, needers_of_all, places_below};
use crate::needs::{Needs, needs_of_all};
use crate::tally::{declare, stand, variable};
use crate::waiting::{Waits, files_waiting};
use sr_check_expr::{Facts, Info, TypedExpr, expr};
use sr_names::{Diagnostics, Members, Uses};
use sr_tree::{Expr, File};
use sr_types::{Typed, refused};
use sr_value::{NoMemory, Row};
use std::alloc::Global;

/// Whether a declaration has its type.
pub(crate) fn is_settled(facts: &Facts, waiting: &Waits<'_>) -> bool
    ensures { result ≡ is_settled facts.now (seen waiting.now) }
{
    facts.infos.get(waiting.spot).is_some()
}

/// What a declaration is whose value is this.
fn info_by(is_constant: bool, in_spec: bool, value: Typed) -> Info
    ensures { result ≡ info_by is_constant in_spec value }
{
    if is_constant {
        Info::Value(const_typed(in_spec, None, value))
    } else {
        variable(type_of_value(value.ty))
    }
}

/// What a value is, where what is found in it is noted elsewhere.
fn typed_value(alloc: Global, facts: &Facts, value: &Expr) -> Result<TypedExpr, NoMemory>
    ensures { IfOk result (λ typed_expr. typed_expr ≡ (infer_expr value.now facts.now).typed_expr) }
{
    expr(alloc, value, facts, &mut Diagnostics::new(alloc))
}

/// Gives a declaration the type of its value.
fn settle(alloc: Global, facts: &mut Facts, waiting: &Waits<'_>) -> Result<(), NoMemory>
    ensures { OnOk result (facts.new ≡ settled facts.old (seen waiting.now)) }
{
    let around = facts.here;
    stand(facts, waiting.component);
    let typed_expr = typed_value(alloc, facts, waiting.value)?;
    facts.here = around;
    let info = info_by(waiting.is_constant, waiting.in_spec, typed_expr.typed);
    declare(facts, waiting.spot, info)
}

/// Gives the declarations of a wave their types.
fn settle_all(alloc: Global, facts: &mut Facts, wave: &[Waits<'_>]) -> Result<(), NoMemory>
    ensures { OnOk result (facts.new ≡ all_settled (map seen wave.now) facts.old) }
{
    for waiting in wave {
        settle(alloc, facts, waiting)?;
    }
    Ok(())
}

/// The declaration at a place, where it can have its type.
fn pick<'a>(
    facts: &Facts,
    all: &Row<Waits<'a>>,
    needs: &mut Needs,
    place: usize,
) -> Option<Waits<'a>>
    requires spots { needs.old.spots ≡ map (needs_in facts.now.uses) (map seen all.now) }
    requires known { FirstAreKnown facts.now needs.old.spots needs.old.known }
    ensures value { option_map seen result ≡ settling facts.now (slice_get (map seen all.now) place) }
    ensures same { needs.new.spots ≡ needs.old.spots }
    ensures known { FirstAreKnown facts.now needs.new.spots needs.new.known }
{
    match all.get(place) {
        None => None,
        Some(waiting) => {
            if is_settled(facts, waiting) {
                return None;
            }
            if needs.are_known(facts, place) {
                Some(*waiting)
            } else {
                None
            }
        }
    }
}

/// Those of some declarations that can have their types.
fn next_wave<'a>(
    alloc: Global,
    facts: &Facts,
    all: &Row<Waits<'a>>,
    needs: &mut Needs,
    places: &[usize],
) -> Result<Row<Waits<'a>>, NoMemory>
    requires spots { needs.old.spots ≡ map (needs_in facts.now.uses) (map seen all.now) }
    requires known { FirstAreKnown facts.now needs.old.spots needs.old.known }
    ensures value { IfOk result (λ wave. map seen wave ≡ picked facts.now (map seen all.now) places.now) }
    ensures same { needs.new.spots ≡ needs.old.spots }
    ensures known { FirstAreKnown facts.now needs.new.spots needs.new.known }
{
    let mut wave = Row::new(alloc);
    for place in places {
        if let Some(waiting) = pick(facts, all, needs, *place) {
            wave.push(waiting)?;
        }
    }
    Ok(wave)
}

/// Gives all declarations their types that can have one, in waves. After a wave only those are looked at that name
/// one of it.
fn infer_waves(
    alloc: Global,
    facts: &mut Facts,
    all: &Row<Waits<'_>>,
    needs: &mut Needs,
    needers: &Needers,
) -> Result<(), NoMemory>
    requires spots { needs.old.spots ≡ map (needs_in facts.old.uses) (map seen all.now) }
    requires known { FirstAreKnown facts.old needs.old.spots needs.old.known }
    requires needers { needers.now ≡ with_all_needs [] 0 needs.old.spots }
    ensures { OnOk result (facts.new ≡ inferred (map seen all.now) facts.old) }
{
    let mut places = places_below(alloc, all.len())?;
    for _wave in 0..all.len() {
        let wave = next_wave(alloc, facts, all, needs, places.as_slice())?;
        if wave.is_empty() {
            break;
        }
        settle_all(alloc, facts, wave.as_slice())?;
        places = in_order(needers_after(alloc, needers, wave.as_slice())?);
    }
    Ok(())
}

fn infer_by(
    alloc: Global,
    facts: &mut Facts,
    all: &Row<Waits<'_>>,
    needs: &mut Needs,
) -> Result<(), NoMemory>
    requires spots { needs.old.spots ≡ map (needs_in facts.old.uses) (map seen all.now) }
    requires known { FirstAreKnown facts.old needs.old.spots needs.old.known }
    ensures { OnOk result (facts.new ≡ inferred (map seen all.now) facts.old) }
{
    let needers = needers_of_all(alloc, needs.spots.as_slice())?;
    infer_waves(alloc, facts, all, needs, &needers)
}

/// Gives all declarations their types that can have one.
fn infer(alloc: Global, facts: &mut Facts, all: &Row<Waits<'_>>) -> Result<(), NoMemory>
    ensures { OnOk result (facts.new ≡ inferred (map seen all.now) facts.old) }
{
    let mut needs = needs_of_all(alloc, facts, all.as_slice())?;
    infer_by(alloc, facts, all, &mut needs)
}

fn give_up_one(facts: &mut Facts, waiting: &Waits<'_>) -> Result<(), NoMemory>
    ensures { OnOk result (facts.new ≡ given_up_if (is_settled facts.old (seen waiting.now)) facts.old (seen waiting.now)) }
{
    if is_settled(facts, waiting) {
        return Ok(());
    }
    declare(facts, waiting.spot, Info::Value(refused()))
}

/// Declares what has got no type as refused.
fn give_up(facts: &mut Facts, all: &[Waits<'_>]) -> Result<(), NoMemory>
    ensures { OnOk result (facts.new ≡ given_up (map seen all.now) facts.old) }
{
    for waiting in all {
        give_up_one(facts, waiting)?;
    }
    Ok(())
}

/// Declares those that wait for the types of their values, and notes those whose types lead to themselves.
fn declare_all(
    alloc: Global,
    facts: &mut Facts,
    all: &Row<Waits<'_>>,
    diagnostics: &mut Diagnostics,
) -> Result<(), NoMemory>
    ensures value { OnOk result (facts.new ≡ given_up (map seen all.now) (inferred (map seen all.now) facts.old)) }
    ensures noted { OnOk result (diagnostics.new ≡ all_noted diagnostics.old (type_cycles_found (leads_left (inferred (map seen all.now) facts.old) (map seen all.now)))) }
{
    infer(alloc, facts, all)?;
    note_left(alloc, facts, all.as_slice(), diagnostics)?;
    give_up(facts, all.as_slice())
}

fn declare_waiting(
    alloc: Global,
    facts: &mut Facts,
    files: &[File],
    diagnostics: &mut Diagnostics,
) -> Result<(), NoMemory>
    ensures value { OnOk result (facts.new ≡ given_up (files_waiting files.now) (inferred (files_waiting files.now) facts.old)) }
    ensures noted { OnOk result (diagnostics.new ≡ all_noted diagnostics.old (type_cycles_found (leads_left (inferred (files_waiting files.now) facts.old) (files_waiting files.now)))) }
{
    let all = files_waiting(alloc, files)?;
    declare_all(alloc, facts, &all, diagnostics)
}

/// Notes the declarations whose types lead to themselves, and answers all that is declared outside of procs and
/// blocks.
pub fn program(
    alloc: Global,
    uses: Uses,
    specs: Members,
    files: &[File],
    diagnostics: &mut Diagnostics,
) -> Result<Facts, NoMemory>
    ensures value { IfOk result (λ facts. facts ≡ program_known uses specs files.now) }
    ensures noted { OnOk result (diagnostics.new ≡ all_noted diagnostics.old (type_cycles_found (leads_left (program_inferred uses specs files.now) (files_waiting files.now)))) }
{
    let mut facts = program_declared(alloc, uses, specs, files)?;
    declare_waiting(alloc, &mut facts, files, diagnostics)?;
    Ok(facts)
}
