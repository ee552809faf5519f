ghost use Rattle.std.specs.Prelude.{◌≡◌, IfOk, OnOk};
ghost use Rattle.sr_names.specs.Cycles.{links_of, together, together_found, all_together_found, AreGrouped, cycles_found};
ghost use Rattle.sr_names.specs.Diagnostics.{all_noted};

use crate::diagnostics::Diagnostics;
use crate::finding::{Diagnostic, Finding, Rule};
use crate::links::Link;
use crate::marks::{Mark, Marks};
use crate::search::Search;
use crate::targets::gather;
use sr_value::{NoMemory, Row, Span};
use std::alloc::Global;

/// An import that is a link, and where its name stands.
#[derive(Clone, Copy)]
pub struct Import {
    pub link: Link,
    pub span: Span,
}

/// Notes the imports that lie on a cycle of imports. Each spot and each import is looked at a fixed number of times.
pub fn note_cycles(
    alloc: Global,
    imports: &[Import],
    diagnostics: &mut Diagnostics,
) -> Result<(), NoMemory>
    ensures { OnOk result (diagnostics.new ≡ all_noted diagnostics.old (cycles_found imports.now)) }
{
    let links = links_of(alloc, imports)?;
    let groups = groups_of(alloc, links.as_slice())?;
    note_all(&groups, imports, diagnostics)
}

fn links_of(alloc: Global, imports: &[Import]) -> Result<Row<Link>, NoMemory>
    ensures { IfOk result (λ links. links ≡ links_of imports.now) }
{
    let mut links = Row::new(alloc);
    for import in imports {
        links.push(import.link)?;
    }
    Ok(links)
}

/// The groups of spots that lead to each other.
fn groups_of(alloc: Global, links: &[Link]) -> Result<Marks, NoMemory>
    ensures { IfOk result (λ groups. AreGrouped links.now groups) }
{
    let targets = gather(alloc, links)?;
    let mut search = Search::new(alloc, links)?;
    'search: loop {
        if !search.step(&targets)? {
            break 'search;
        }
    }
    Ok(search.marks)
}

/// Whether the ends of a link are in one group.
fn are_together(groups: &Marks, link: Link) -> bool
    ensures { result ≡ together groups.now link }
{
    match (groups.get(link.from), groups.get(link.to)) {
        (Some(Mark::Settled(from)), Some(Mark::Settled(to))) => from == to,
        _ => false,
    }
}

/// Notes the imports whose ends are in one group.
fn note_all(
    groups: &Marks,
    imports: &[Import],
    diagnostics: &mut Diagnostics,
) -> Result<(), NoMemory>
    ensures { OnOk result (diagnostics.new ≡ all_noted diagnostics.old (all_together_found groups.now imports.now)) }
{
    for import in imports {
        note_one(groups, *import, diagnostics)?;
    }
    Ok(())
}

/// Notes an import whose ends are in one group.
fn note_one(groups: &Marks, import: Import, diagnostics: &mut Diagnostics) -> Result<(), NoMemory>
    ensures { OnOk result (diagnostics.new ≡ all_noted diagnostics.old (together_found groups.now import)) }
{
    if !are_together(groups, import.link) {
        return Ok(());
    }
    diagnostics.note(Finding::Broken(Diagnostic {
        rule: Rule::Cycle,
        span: import.span,
    }))
}
