ghost use Rattle.std.specs.Prelude.{◌≡◌, ◌++◌, IfOk, OnOk, []};
ghost use Rattle.sr_names.specs.Components.{with_members};
ghost use Rattle.sr_names.specs.Diagnostics.{all_noted};
ghost use Rattle.sr_names.specs.Scopes.{no_blocks};
ghost use Rattle.sr_names.specs.Visible.{with_component};
ghost use Rattle.sr_scope.specs.Components.{sort_of, decl_of, collected, collected_twice, all_collected, all_collected_twice, files_collected, files_collected_twice, imported_names, specs_imports, items_imports, imports_of, import_at, import_of_sorts, import_to, imports_to, all_imports, files_imports, import_found, imports_found, with_import, with_imports, visible_to, own_declared, own_twice, walked, component_found, components_found, files_found};
ghost use Rattle.sr_scope.specs.Items.{inside, specs_declared, specs_twice};

use crate::declares::declare_name;
use crate::items::{declare_items, declare_spec, items, note_served, spec_items};
use crate::types::{declare_formals, formals};
use sr_names::{
    Blocks, Decl, Diagnostic, Diagnostics, Finding, Import, Link, Meaning, Members, Place, Rule,
    Sort, Spot, Table, Visible,
};
use sr_tree::{Component, File, Item, Name, SpecItem};
use sr_value::{Duplicate, NoMemory, Row, Span};
use std::alloc::Global;

fn sort_of(component: &Component) -> Sort
    ensures { result ≡ sort_of component.now }
{
    match component {
        Component::Resource { .. } | Component::SplitResource { .. } => Sort::Resource,
        Component::Global { .. } => Sort::Global,
    }
}

fn decl_of(component: &Component) -> Decl
    ensures { result ≡ decl_of component.now }
{
    Decl {
        sort: sort_of(component),
        spot: Spot::of(component.name().span),
    }
}

/// Puts a component and the names of its spec among those of the program.
fn collect_component(
    alloc: Global,
    component: &Component,
    place: &mut Place,
    diagnostics: &mut Diagnostics,
) -> Result<(), NoMemory>
    ensures place { OnOk result (place.new ≡ collected component.now place.old) }
    ensures noted { OnOk result (diagnostics.new ≡ all_noted diagnostics.old (collected_twice component.now place.old)) }
{
    let name = component.name();
    declare_name(
        alloc,
        name,
        sort_of(component),
        &mut place.components,
        diagnostics,
    )?;
    let spot = Spot::of(name.span);
    collect_spec(alloc, spot, component.spec(), &mut place.specs, diagnostics)
}

/// Puts the names of a component's spec among those of all specs.
fn collect_spec(
    alloc: Global,
    component: Spot,
    items: &[SpecItem],
    specs: &mut Members,
    diagnostics: &mut Diagnostics,
) -> Result<(), NoMemory>
    ensures specs { OnOk result (specs.new ≡ with_members specs.old component (specs_declared items.now [])) }
    ensures noted { OnOk result (diagnostics.new ≡ all_noted diagnostics.old (specs_twice items.now [])) }
{
    let mut spec = Table::new(alloc);
    declare_spec(alloc, items, &mut spec, diagnostics)?;
    specs.insert(alloc, component, spec)
}

fn collect_components(
    alloc: Global,
    components: &[Component],
    place: &mut Place,
    diagnostics: &mut Diagnostics,
) -> Result<(), NoMemory>
    ensures place { OnOk result (place.new ≡ all_collected components.now place.old) }
    ensures noted { OnOk result (diagnostics.new ≡ all_noted diagnostics.old (all_collected_twice components.now place.old)) }
{
    for component in components {
        collect_component(alloc, component, place, diagnostics)?;
    }
    Ok(())
}

/// Puts the components of all files and the names of their specs among those of the program.
pub fn collect_files(
    alloc: Global,
    files: &[File],
    place: &mut Place,
    diagnostics: &mut Diagnostics,
) -> Result<(), NoMemory>
    ensures place { OnOk result (place.new ≡ files_collected files.now place.old) }
    ensures noted { OnOk result (diagnostics.new ≡ all_noted diagnostics.old (files_collected_twice files.now place.old)) }
{
    for file in files {
        collect_components(alloc, file.components.as_slice(), place, diagnostics)?;
    }
    Ok(())
}

fn push_names(alloc: Global, names: &[Name], all: &mut Row<Name>) -> Result<(), NoMemory>
    ensures { OnOk result (all.new ≡ all.old ++ names.now) }
{
    for name in names {
        all.push(Name {
            text: name.text.copy(alloc)?,
            span: name.span,
        })?;
    }
    Ok(())
}

fn push_imported(alloc: Global, item: &SpecItem, all: &mut Row<Name>) -> Result<(), NoMemory>
    ensures { OnOk result (all.new ≡ all.old ++ imported_names item.now) }
{
    match item {
        SpecItem::Import(imports) => push_names(alloc, imports.names.as_slice(), all),
        SpecItem::Const(_)
        | SpecItem::Type(_)
        | SpecItem::OpType(_)
        | SpecItem::Op(_)
        | SpecItem::Var(_)
        | SpecItem::Sem(_) => Ok(()),
    }
}

fn push_specs_imports(
    alloc: Global,
    items: &[SpecItem],
    all: &mut Row<Name>,
) -> Result<(), NoMemory>
    ensures { OnOk result (all.new ≡ all.old ++ specs_imports items.now) }
{
    for item in items {
        push_imported(alloc, item, all)?;
    }
    Ok(())
}

fn push_items_imports(alloc: Global, items: &[Item], all: &mut Row<Name>) -> Result<(), NoMemory>
    ensures { OnOk result (all.new ≡ all.old ++ items_imports items.now) }
{
    for item in items {
        if let Item::Spec(inner) = item {
            push_imported(alloc, inner, all)?;
        }
    }
    Ok(())
}

/// The names that a component imports.
fn imports_of(alloc: Global, component: &Component) -> Result<Row<Name>, NoMemory>
    ensures { IfOk result (λ names. names ≡ imports_of component.now) }
{
    let mut all = Row::new(alloc);
    push_specs_imports(alloc, component.spec(), &mut all)?;
    push_items_imports(alloc, component.body(), &mut all)?;
    Ok(all)
}

fn import_of(importer: Decl, target: Decl, span: Span) -> Option<Import>
    ensures { result ≡ import_of_sorts importer.sort target.sort (import_at importer.spot target.spot span) }
{
    match importer.sort {
        Sort::Global => match target.sort {
            Sort::Global => Some(Import {
                link: Link {
                    from: importer.spot,
                    to: target.spot,
                },
                span,
            }),
            _ => None,
        },
        _ => None,
    }
}

/// The import that a name is, where a global imports a global.
fn import_to(components: &Table, importer: Decl, name: &Name) -> Option<Import>
    ensures { result ≡ import_to components.now importer name.now }
{
    let target = components.get(name.text.as_bytes())?;
    import_of(importer, target, name.span)
}

fn push_imports(
    components: &Table,
    importer: Decl,
    names: &[Name],
    imports: &mut Row<Import>,
) -> Result<(), NoMemory>
    ensures { OnOk result (imports.new ≡ imports.old ++ imports_to components.now importer names.now) }
{
    for name in names {
        if let Some(import) = import_to(components, importer, name) {
            imports.push(import)?;
        }
    }
    Ok(())
}

fn push_all_imports(
    alloc: Global,
    components: &Table,
    all: &[Component],
    imports: &mut Row<Import>,
) -> Result<(), NoMemory>
    ensures { OnOk result (imports.new ≡ imports.old ++ all_imports components.now all.now) }
{
    for component in all {
        let names = imports_of(alloc, component)?;
        push_imports(components, decl_of(component), names.as_slice(), imports)?;
    }
    Ok(())
}

/// The imports of globals by globals.
pub fn global_imports(
    alloc: Global,
    components: &Table,
    files: &[File],
) -> Result<Row<Import>, NoMemory>
    ensures { IfOk result (λ imports. imports ≡ files_imports components.now files.now) }
{
    let mut imports = Row::new(alloc);
    for file in files {
        push_all_imports(alloc, components, file.components.as_slice(), &mut imports)?;
    }
    Ok(imports)
}

fn imported(components: &Table, name: &Name) -> Finding
    ensures { result ≡ import_found components.now name.now }
{
    match components.get(name.text.as_bytes()) {
        Some(decl) => Finding::Use {
            spot: Spot::of(name.span),
            meaning: Meaning::Declared(decl),
        },
        None => Finding::Broken(Diagnostic {
            rule: Rule::Name,
            span: name.span,
        }),
    }
}

/// Notes what the names in the imports of a component mean.
fn note_imports(
    components: &Table,
    names: &[Name],
    diagnostics: &mut Diagnostics,
) -> Result<(), NoMemory>
    ensures { OnOk result (diagnostics.new ≡ all_noted diagnostics.old (imports_found components.now names.now)) }
{
    for name in names {
        diagnostics.note(imported(components, name))?;
    }
    Ok(())
}

fn import(components: &Table, name: &Name, visible: &mut Visible) -> Result<(), NoMemory>
    ensures { OnOk result (visible.new ≡ with_import components.now name.now visible.old) }
{
    match components.get(name.text.as_bytes()) {
        Some(decl) => visible.add(decl),
        None => Ok(()),
    }
}

/// The components whose names a component can use that imports these names.
fn visible_to(
    alloc: Global,
    components: &Table,
    importer: Decl,
    names: &[Name],
) -> Result<Visible, NoMemory>
    ensures { IfOk result (λ visible. visible ≡ with_imports components.now names.now (with_component [] importer)) }
{
    let mut visible = Visible::new(alloc);
    visible.add(importer)?;
    for name in names {
        import(components, name, &mut visible)?;
    }
    Ok(visible)
}

/// Notes what is found within a component, outside of all blocks, once its names are known.
fn walk(
    alloc: Global,
    component: &Component,
    place: &mut Place,
    blocks: &mut Blocks,
    diagnostics: &mut Diagnostics,
) -> Result<(), NoMemory>
    requires { blocks.old ≡ no_blocks }
    ensures place { OnOk result (place.new ≡ inside place.old place.new.within) }
    ensures noted { OnOk result (diagnostics.new ≡ all_noted diagnostics.old (walked component.now place.old)) }
{
    note_served(alloc, component.body(), place, blocks, diagnostics)?;
    spec_items(alloc, component.spec(), place, blocks, diagnostics)?;
    place.within = None;
    formals(alloc, component.formals(), place, blocks, diagnostics)?;
    items(alloc, component.body(), place, blocks, diagnostics)
}

/// Declares the names of a component in the scope of its own, which is empty.
fn declare_own(
    alloc: Global,
    component: &Component,
    own: &mut Table,
    diagnostics: &mut Diagnostics,
) -> Result<(), NoMemory>
    requires { own.old ≡ [] }
    ensures own { OnOk result (own.new ≡ own_declared component.now) }
    ensures noted { OnOk result (diagnostics.new ≡ all_noted diagnostics.old (own_twice component.now)) }
{
    declare_spec(alloc, component.spec(), own, diagnostics)?;
    declare_formals(alloc, component.formals(), own, diagnostics)?;
    declare_items(alloc, component.body(), own, diagnostics)
}

/// Notes what the imports of a component mean, and answers the components whose names it can use.
fn note_visible(
    alloc: Global,
    component: &Component,
    components: &Table,
    diagnostics: &mut Diagnostics,
) -> Result<Visible, NoMemory>
    ensures visible { IfOk result (λ visible. visible ≡ visible_to components.now component.now) }
    ensures noted { OnOk result (diagnostics.new ≡ all_noted diagnostics.old (imports_found components.now (imports_of component.now))) }
{
    let names = imports_of(alloc, component)?;
    note_imports(components, names.as_slice(), diagnostics)?;
    visible_to(alloc, components, decl_of(component), names.as_slice())
}

/// Notes what is found in a component.
fn component(
    alloc: Global,
    component: &Component,
    place: &mut Place,
    diagnostics: &mut Diagnostics,
) -> Result<(), NoMemory>
    ensures components { OnOk result (place.new.components ≡ place.old.components) }
    ensures specs { OnOk result (place.new.specs ≡ place.old.specs) }
    ensures noted { OnOk result (diagnostics.new ≡ all_noted diagnostics.old (component_found place.old.components place.old.specs component.now)) }
{
    place.own = Table::new(alloc);
    declare_own(alloc, component, &mut place.own, diagnostics)?;
    place.visible = note_visible(alloc, component, &place.components, diagnostics)?;
    place.within = None;
    let mut blocks = Blocks::new(alloc);
    walk(alloc, component, place, &mut blocks, diagnostics)
}

fn components(
    alloc: Global,
    components: &[Component],
    place: &mut Place,
    diagnostics: &mut Diagnostics,
) -> Result<(), NoMemory>
    ensures components { OnOk result (place.new.components ≡ place.old.components) }
    ensures specs { OnOk result (place.new.specs ≡ place.old.specs) }
    ensures noted { OnOk result (diagnostics.new ≡ all_noted diagnostics.old (components_found place.old.components place.old.specs components.now)) }
{
    for each in components {
        component(alloc, each, place, diagnostics)?;
    }
    Ok(())
}

/// Notes what is found in the components of all files.
pub fn walk_files(
    alloc: Global,
    files: &[File],
    place: &mut Place,
    diagnostics: &mut Diagnostics,
) -> Result<(), NoMemory>
    ensures specs { OnOk result (place.new.specs ≡ place.old.specs) }
    ensures noted { OnOk result (diagnostics.new ≡ all_noted diagnostics.old (files_found place.old.components place.old.specs files.now)) }
{
    for file in files {
        components(alloc, file.components.as_slice(), place, diagnostics)?;
    }
    Ok(())
}
