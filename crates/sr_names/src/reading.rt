ghost use Rattle.std.specs.Prelude.{◌≡◌, IfOk, OnOk};
ghost use Rattle.sr_names.specs.Diagnostics.{all_noted};
ghost use Rattle.sr_names.specs.Readings.{reading, read_found, member_found, twice_found, twice_unless, declaration};
ghost use Rattle.sr_names.specs.Scopes.{denotes, member};
ghost use Rattle.sr_names.specs.Spots.{spot_of};
ghost use Rattle.sr_names.specs.Tables.{with_decl};

use crate::diagnostics::Diagnostics;
use crate::finding::{Diagnostic, Finding, Rule};
use crate::meaning::{Decl, Meaning, Sort};
use crate::place::{Blocks, Place};
use crate::spot::Spot;
use crate::table::Table;
use sr_value::{NoMemory, Span};
use std::alloc::Global;

/// Notes what a name means that is used at a span, or that it means nothing there, and answers the meaning.
pub fn read(
    place: &Place,
    blocks: &Blocks,
    diagnostics: &mut Diagnostics,
    name: &[u8],
    span: Span,
) -> Result<Option<Meaning>, NoMemory>
    ensures value { IfOk result (λ meaning. meaning ≡ denotes place.now blocks.now name.now (spot_of span)) }
    ensures noted { OnOk result (diagnostics.new ≡ all_noted diagnostics.old (read_found place.now blocks.now name.now span)) }
{
    let meaning = place.denotes(blocks, name, Spot::of(span));
    diagnostics.note(reading(meaning, span))?;
    Ok(meaning)
}

/// Notes what a name of a component's spec means that is used at a span, after the component's name and a point.
pub fn read_member(
    place: &Place,
    diagnostics: &mut Diagnostics,
    component: Decl,
    name: &[u8],
    span: Span,
) -> Result<(), NoMemory>
    ensures { OnOk result (diagnostics.new ≡ all_noted diagnostics.old (member_found place.now component name.now span)) }
{
    let meaning = place.member(component, name, Spot::of(span));
    diagnostics.note(reading(meaning, span))
}

/// Declares a name in a scope. Where the scope has the name, that is noted and the earlier declaration stands.
pub fn declare(
    alloc: Global,
    table: &mut Table,
    diagnostics: &mut Diagnostics,
    name: &[u8],
    span: Span,
    sort: Sort,
) -> Result<(), NoMemory>
    ensures table { OnOk result (table.new ≡ with_decl table.old name.now (declaration sort span)) }
    ensures noted { OnOk result (diagnostics.new ≡ all_noted diagnostics.old (twice_found table.old name.now span)) }
{
    let decl = Decl {
        sort,
        spot: Spot::of(span),
    };
    let is_new = table.declare(alloc, name, decl)?;
    note_twice(diagnostics, is_new, span)
}

fn note_twice(diagnostics: &mut Diagnostics, is_new: bool, span: Span) -> Result<(), NoMemory>
    ensures { OnOk result (diagnostics.new ≡ all_noted diagnostics.old (twice_unless is_new span)) }
{
    if is_new {
        return Ok(());
    }
    diagnostics.note(Finding::Broken(Diagnostic {
        rule: Rule::Twice,
        span,
    }))
}

/// What is found at a name that is used: its meaning, or that it has none.
fn reading(meaning: Option<Meaning>, span: Span) -> Finding
    ensures { result ≡ reading meaning span }
{
    match meaning {
        Some(meaning) => Finding::Use {
            spot: Spot::of(span),
            meaning,
        },
        None => Finding::Broken(Diagnostic {
            rule: Rule::Name,
            span,
        }),
    }
}
