ghost use Rattle.std.specs.Prelude.{◌≡◌, IfOk, OnOk};
ghost use Rattle.sr_names.specs.Diagnostics.{all_noted};
ghost use Rattle.sr_scope.specs.Names.{component, is_component, component_named, name_found, field_found, spec_name_found, qualified_found};

use sr_names::{
    Blocks, Decl, Diagnostic, Diagnostics, Finding, Meaning, Place, Rule, Sort, read, read_member,
};
use sr_tree::{Name, QualifiedName};
use sr_value::NoMemory;

/// Notes what a name means that is used, and answers the component that it names, where it names one.
pub fn name(
    name: &Name,
    place: &Place,
    blocks: &Blocks,
    diagnostics: &mut Diagnostics,
) -> Result<Option<Decl>, NoMemory>
    ensures component { IfOk result (λ component. component ≡ component_named place.now blocks.now name.now) }
    ensures noted { OnOk result (diagnostics.new ≡ all_noted diagnostics.old (name_found place.now blocks.now name.now)) }
{
    let meaning = read(place, blocks, diagnostics, name.text.as_bytes(), name.span)?;
    Ok(component(meaning))
}

/// The component that a meaning is, where it is one.
fn component(meaning: Option<Meaning>) -> Option<Decl>
    ensures { result ≡ component meaning }
{
    match meaning {
        Some(Meaning::Declared(decl)) if is_component(decl.sort) => Some(decl),
        _ => None,
    }
}

fn is_component(sort: Sort) -> bool
    ensures { result ≡ is_component sort }
{
    matches!(sort, Sort::Resource | Sort::Global)
}

/// Notes what a name means that is used, and what the name of its spec means that stands after it and a point.
pub fn qualified_name(
    qualified: &QualifiedName,
    place: &Place,
    blocks: &Blocks,
    diagnostics: &mut Diagnostics,
) -> Result<(), NoMemory>
    ensures { OnOk result (diagnostics.new ≡ all_noted diagnostics.old (qualified_found place.now blocks.now qualified.now)) }
{
    let component = name(&qualified.first, place, blocks, diagnostics)?;
    match &qualified.second {
        Some(second) => note_spec_name(component, second, place, diagnostics),
        None => Ok(()),
    }
}

/// Notes what a name means after a component and a point. After anything else it means nothing.
fn note_spec_name(
    component: Option<Decl>,
    name: &Name,
    place: &Place,
    diagnostics: &mut Diagnostics,
) -> Result<(), NoMemory>
    ensures { OnOk result (diagnostics.new ≡ all_noted diagnostics.old (spec_name_found place.now component name.now)) }
{
    match component {
        Some(component) => read_member(
            place,
            diagnostics,
            component,
            name.text.as_bytes(),
            name.span,
        ),
        None => diagnostics.note(Finding::Broken(Diagnostic {
            rule: Rule::Name,
            span: name.span,
        })),
    }
}

/// Notes what a name means after a point, where a component stands before it. After anything else it is a field.
pub fn note_field(
    component: Option<Decl>,
    name: &Name,
    place: &Place,
    diagnostics: &mut Diagnostics,
) -> Result<(), NoMemory>
    ensures { OnOk result (diagnostics.new ≡ all_noted diagnostics.old (field_found place.now component name.now)) }
{
    match component {
        Some(component) => read_member(
            place,
            diagnostics,
            component,
            name.text.as_bytes(),
            name.span,
        ),
        None => Ok(()),
    }
}
