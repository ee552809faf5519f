ghost use Rattle.std.specs.Prelude.{◌≡◌, ◌-◌, ◌^◌, ◌<◌, length, IfOk, OnOk, Some};
ghost use Rattle.sr_names.specs.Components.{member_named};
ghost use Rattle.sr_names.specs.Diagnostics.{all_noted};
ghost use Rattle.sr_names.specs.Uses.{meaning_at};
ghost use Rattle.sr_scope.specs.Components.{last_component, can_be_main, main_found, start_of};
ghost use Rattle.sr_scope.specs.Resolved.{Answers, program, findings, resolved, no_place, kind_of, refusal_of, answered};

use crate::components::{collect_files, global_imports, walk_files};
use sr_names::{
    Decl, Diagnostic, Diagnostics, Finding, Meaning, Members, Place, Rule, Spot, Table, Uses,
    Visible, note_cycles,
};
use sr_text::{FrontFail, Kind, Refusal};
use sr_tree::{Component, File};
use sr_value::{NoMemory, Row, Span};
use std::alloc::Global;

/// What the names of a program mean.
#[derive(Drop)]
pub struct Names {
    /// The meaning of each use of a name, by its spot.
    pub uses: Uses,
    /// The names of the components' specs, for what stands after a point.
    pub specs: Members,
}

impl Names {
    /// The meaning of the name that is used at a spot.
    pub fn meaning(&self, spot: Spot) -> Option<Meaning>
        ensures { result ≡ meaning_at self.now.uses spot }
    {
        self.uses.get(spot)
    }

    /// What the spec of a component, which is known by the spot of its name, declares a name as.
    pub fn member(&self, component: Spot, name: &[u8]) -> Option<Decl>
        ensures { result ≡ member_named self.now.specs component name.now }
    {
        self.specs.get(component, name)
    }
}

/// What each name of a program means: the declaration of each use of a name. The program is refused where a name
/// is unknown, ambiguous or not yet usable (S4), where two declarations of one scope have one name or two procs
/// serve one operation (S5), where the last component can't be main (S9), and where globals import each other in
/// a cycle (S12): of all that is wrong the first by file and byte counts, and at one token the lowest number.
pub fn resolve(alloc: Global, files: &Row<File>) -> Result<Names, FrontFail>
    requires { length files.now < 2 ^ 32 }
    ensures { Answers result (resolved files.now) }
{
    let mut diagnostics = Diagnostics::new(alloc);
    let specs = note_files(alloc, files.as_slice(), &mut diagnostics)?;
    answer(diagnostics, specs)
}

/// Notes all that is found in the files, and answers the names of the components' specs.
fn note_files(
    alloc: Global,
    files: &[File],
    diagnostics: &mut Diagnostics,
) -> Result<Members, NoMemory>
    requires { length files.now < 2 ^ 32 }
    ensures specs { IfOk result (λ specs. specs ≡ (program files.now).specs) }
    ensures noted { OnOk result (diagnostics.new ≡ all_noted diagnostics.old (findings files.now)) }
{
    let mut place = empty_place(alloc);
    note_all(alloc, files, &mut place, diagnostics)?;
    Ok(place.specs)
}

/// Notes all that is found in the files, and collects their components in a place that has none.
fn note_all(
    alloc: Global,
    files: &[File],
    place: &mut Place,
    diagnostics: &mut Diagnostics,
) -> Result<(), NoMemory>
    requires fits { length files.now < 2 ^ 32 }
    requires empty { place.old ≡ no_place }
    ensures specs { OnOk result (place.new.specs ≡ (program files.now).specs) }
    ensures noted { OnOk result (diagnostics.new ≡ all_noted diagnostics.old (findings files.now)) }
{
    collect_files(alloc, files, place, diagnostics)?;
    note_main(files, diagnostics)?;
    let imports = global_imports(alloc, &place.components, files)?;
    note_cycles(alloc, imports.as_slice(), diagnostics)?;
    walk_files(alloc, files, place, diagnostics)
}

fn empty_place(alloc: Global) -> Place
    ensures { result ≡ no_place }
{
    Place {
        components: Table::new(alloc),
        specs: Members::new(alloc),
        own: Table::new(alloc),
        visible: Visible::new(alloc),
        within: None,
    }
}

fn can_be_main(component: &Component) -> bool
    ensures { result ≡ can_be_main (Some component.now) }
{
    match component {
        Component::Resource { formals, .. } => formals.as_slice().is_empty(),
        Component::SplitResource { formals, .. } => formals.as_slice().is_empty(),
        Component::Global { .. } => false,
    }
}

fn has_main(files: &[File]) -> bool
    ensures { result ≡ can_be_main (last_component files.now) }
{
    match files.last() {
        Some(file) => match file.components.as_slice().last() {
            Some(component) => can_be_main(component),
            None => false,
        },
        None => false,
    }
}

/// The first byte of the last of this many files.
fn start_of(files: usize) -> Span
    requires { files < 2 ^ 32 }
    ensures { result ≡ record { file = files - 1; from = 0; to = 0; line = 1 } }
{
    Span {
        file: files.saturating_sub(1) as u32,
        from: 0,
        to: 0,
        line: 1,
    }
}

fn note_main(files: &[File], diagnostics: &mut Diagnostics) -> Result<(), NoMemory>
    requires { length files.now < 2 ^ 32 }
    ensures { OnOk result (diagnostics.new ≡ all_noted diagnostics.old (main_found files.now)) }
{
    if has_main(files) {
        return Ok(());
    }
    diagnostics.note(Finding::Broken(Diagnostic {
        rule: Rule::Main,
        span: start_of(files.len()),
    }))
}

fn kind_of(rule: Rule) -> Kind
    ensures { result ≡ kind_of rule }
{
    match rule {
        Rule::Name => Kind::Name,
        Rule::Twice => Kind::Twice,
        Rule::BadType => Kind::BadType,
        Rule::BadUse => Kind::BadUse,
        Rule::Guard => Kind::Guard,
        Rule::Main => Kind::Main,
        Rule::Cycle => Kind::Cycle,
    }
}

/// The refusal of a program that breaks a rule, by its kind and its line.
pub fn refusal_of(diagnostic: Diagnostic) -> Refusal
    ensures { result ≡ refusal_of diagnostic }
{
    Refusal {
        kind: kind_of(diagnostic.rule),
        place: sr_value::Place {
            file: diagnostic.span.file,
            line: diagnostic.span.line,
        },
    }
}

fn answer(diagnostics: Diagnostics, specs: Members) -> Result<Names, FrontFail>
    ensures { Answers result (answered diagnostics specs) }
{
    match diagnostics.first {
        None => Ok(Names {
            uses: diagnostics.uses,
            specs,
        }),
        Some(diagnostic) => Err(FrontFail::Refused(refusal_of(diagnostic))),
    }
}
