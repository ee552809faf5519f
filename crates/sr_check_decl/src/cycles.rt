ghost use Rattle.std.specs.Prelude.{◌≡◌, ◌++◌, IfOk, OnOk, map};
ghost use Rattle.sr_names.specs.Diagnostics.{all_noted};
ghost use Rattle.sr_check_decl.specs.Waits.{seen};
ghost use Rattle.sr_check_decl.specs.Inferring.{is_settled};
ghost use Rattle.sr_check_decl.specs.Cycles.{leads_to, leads_of, leads_unless, leads_left, refused_by, type_cycles_found};

use crate::inferring::is_settled;
use crate::names_in::names_in;
use crate::waiting::Waits;
use sr_check_expr::{Facts, decl_of, note_unless};
use sr_names::{Decl, Diagnostic, Diagnostics, Import, Link, Rule, Spot, note_cycles};
use sr_value::{NoMemory, Row, Span};
use std::alloc::Global;

fn push_lead(
    leads: &mut Row<Import>,
    waiting: &Waits<'_>,
    decl: Option<Decl>,
) -> Result<(), NoMemory>
    ensures { OnOk result (leads.new ≡ leads.old ++ leads_to (seen waiting.now) decl) }
{
    match decl {
        None => Ok(()),
        Some(decl) => leads.push(Import {
            link: Link {
                from: waiting.spot,
                to: decl.spot,
            },
            span: waiting.span,
        }),
    }
}

fn push_leads(
    facts: &Facts,
    leads: &mut Row<Import>,
    waiting: &Waits<'_>,
    names: &[Span],
) -> Result<(), NoMemory>
    ensures { OnOk result (leads.new ≡ leads.old ++ leads_of facts.now (seen waiting.now) names.now) }
{
    for name in names {
        push_lead(leads, waiting, decl_of(facts.uses.get(Spot::of(*name))))?;
    }
    Ok(())
}

fn push_left(
    alloc: Global,
    facts: &Facts,
    leads: &mut Row<Import>,
    waiting: &Waits<'_>,
) -> Result<(), NoMemory>
    ensures { OnOk result (leads.new ≡ leads.old ++ leads_unless (is_settled facts.now (seen waiting.now)) facts.now (seen waiting.now)) }
{
    if is_settled(facts, waiting) {
        return Ok(());
    }
    let names = names_in(alloc, waiting.value)?;
    push_leads(facts, leads, waiting, names.as_slice())
}

/// What the values of the declarations name that have no type.
fn leads_left(alloc: Global, facts: &Facts, all: &[Waits<'_>]) -> Result<Row<Import>, NoMemory>
    ensures { IfOk result (λ leads. leads ≡ leads_left facts.now (map seen all.now)) }
{
    let mut leads = Row::new(alloc);
    for waiting in all {
        push_left(alloc, facts, &mut leads, waiting)?;
    }
    Ok(leads)
}

/// Notes the first declaration that is refused.
fn note_refused(diagnostics: &mut Diagnostics, first: Option<Diagnostic>) -> Result<(), NoMemory>
    ensures { OnOk result (diagnostics.new ≡ all_noted diagnostics.old (refused_by first)) }
{
    match first {
        None => Ok(()),
        Some(diagnostic) => note_unless(diagnostics, false, Rule::BadType, diagnostic.span),
    }
}

/// Notes the first declaration that leads to itself.
fn note_type_cycles(
    alloc: Global,
    diagnostics: &mut Diagnostics,
    leads: &[Import],
) -> Result<(), NoMemory>
    ensures { OnOk result (diagnostics.new ≡ all_noted diagnostics.old (type_cycles_found leads.now)) }
{
    let mut cycles = Diagnostics::new(alloc);
    note_cycles(alloc, leads, &mut cycles)?;
    note_refused(diagnostics, cycles.first)
}

/// Notes the first of the declarations without a type that leads to itself.
pub(crate) fn note_left(
    alloc: Global,
    facts: &Facts,
    all: &[Waits<'_>],
    diagnostics: &mut Diagnostics,
) -> Result<(), NoMemory>
    ensures { OnOk result (diagnostics.new ≡ all_noted diagnostics.old (type_cycles_found (leads_left facts.now (map seen all.now)))) }
{
    let leads = leads_left(alloc, facts, all)?;
    note_type_cycles(alloc, diagnostics, leads.as_slice())
}
