//! The core of a program.
#![tactic(auto, using(crate::proofs::Appends::first_kept, crate::proofs::Appends::first_more, sr_outline::proofs::Appends::enumerate_append))]

ghost use Rattle.std.specs.Prelude.{◌≡◌, [], ◌∷◌, ◌+◌, ◌++◌, IfOk, OnOk, length, map};
ghost use Rattle.sr_desugar.specs.Core as whole;
ghost use Rattle.sr_desugar.specs.Bodies as bodies;
ghost use Rattle.sr_desugar.specs.Declarations.{var_number};
ghost use Rattle.sr_core.specs.declared.statement.Scope.TheVariants.{Shared};
ghost use Rattle.sr_outline.specs.Outline as outline;
ghost use Rattle.sr_outline.specs.Heads.{parameters_of};
ghost use Rattle.sr_outline.specs.Numbers as numbers;
ghost use Rattle.sr_outline.specs.Numbers.{formal_names};
ghost use Rattle.sr_lower_expr.specs.Places.{formals_of};
ghost use Rattle.sr_tables.specs.Parts.{components_in};
ghost use Rattle.sr_tables.specs.Tables.{things_in};
ghost use Rattle.sr_tree.specs.Parts.{body_of};

use crate::bodies::{Codes, Gathered, push_item, push_spec_item};
use crate::declarations::var_number;
use sr_check_expr::{Facts, Here};
use sr_core::{Body, Component, Core, Formal, Operation, Parameter, Scope, Statement};
use sr_lower_expr::{Scene, formals_of};
use sr_names::Spot;
use sr_outline::{
    all_imports, enumerations_of, formal_spots, imports_at, initial_spots, needs_of, parameters_of,
    tables_of,
};
use sr_tables::{SpotMap, Spots, Tables, component_decl, kind_of, line_of, number_of};
use sr_tree::{File, Item, SpecItem};
use sr_value::{Boxed, Duplicate, EnumNames, NoMemory, Row};
use std::alloc::Global;
use std::mem;

/// The numbers of shared variables.
fn shared_numbers(alloc: Global, scene: &Scene, spots: &[Spot]) -> Result<Row<u32>, NoMemory>
    ensures { IfOk result (λ numbers. numbers ≡ map (var_number scene.now Shared) spots.now) }
{
    let mut numbers = Row::new(alloc);
    for spot in spots {
        numbers.push(var_number(scene, Scope::Shared, *spot)?)?;
    }
    Ok(numbers)
}

/// The formals of a component, which are shared variables.
fn component_formals(
    alloc: Global,
    scene: &Scene,
    formals: &[sr_tree::Formal],
) -> Result<Row<Formal>, NoMemory>
    ensures { IfOk result (λ all. all ≡ formals_of (map (var_number scene.now Shared) (formal_names formals.now)) (parameters_of scene.now.facts scene.now.tables.shapes formals.now)) }
{
    let parameters = parameters_of(alloc, formals, &scene.facts, &scene.tables.shapes)?;
    let spots = formal_spots(alloc, formals)?;
    let vars = shared_numbers(alloc, scene, spots.as_slice())?;
    formals_of(alloc, vars.as_slice(), parameters.as_slice())
}

/// The initial code that stands in a spec.
fn spec_code(alloc: Global, items: &[SpecItem], scene: &Scene) -> Result<Row<Statement>, NoMemory>
    ensures { IfOk result (λ code. code ≡ whole.spec_code scene.now items.now) }
{
    let mut code = Row::new(alloc);
    for item in items {
        push_spec_item(alloc, item, scene, &mut code)?;
    }
    Ok(code)
}

/// Adds the items of a component's body.
fn push_items(
    alloc: Global,
    items: &[Item],
    scene: &mut Scene,
    codes: &mut Codes,
    gathered: &mut Gathered,
) -> Result<(), NoMemory>
    ensures codes { OnOk result (codes.new ≡ bodies.with_codes codes.old (bodies.item_outputs scene.old items.now)) }
    ensures gathered { OnOk result (gathered.new ≡ bodies.with_outputs gathered.old (bodies.item_outputs scene.old items.now)) }
    ensures scene { OnOk result (scene.new ≡ scene.old) }
{
    for item in items {
        push_item(alloc, item, scene, codes, gathered)?;
    }
    Ok(())
}

/// The initial and the final code of a component. Its procs and sites are appended.
fn codes_of(
    alloc: Global,
    component: &sr_tree::Component,
    scene: &mut Scene,
    gathered: &mut Gathered,
) -> Result<Boxed<Codes>, NoMemory>
    ensures codes { IfOk result (λ codes. codes ≡ whole.component_codes scene.old component.now) }
    ensures gathered { OnOk result (gathered.new ≡ bodies.with_outputs gathered.old (bodies.item_outputs scene.old (body_of component.now))) }
    ensures scene { OnOk result (scene.new ≡ scene.old) }
{
    let initial = spec_code(alloc, component.spec(), scene)?;
    let mut codes = Codes {
        initial,
        last: None,
    };
    push_items(alloc, component.body(), scene, &mut codes, gathered)?;
    Boxed::new(alloc, codes)
}

fn copied(alloc: Global, numbers: &[u32]) -> Result<Row<u32>, NoMemory>
    ensures { IfOk result (λ copies. copies ≡ numbers.now) }
{
    let mut copies = Row::new(alloc);
    for number in numbers {
        copies.push(*number)?;
    }
    Ok(copies)
}

/// Goes to a component that the facts are seen from.
fn stand(
    alloc: Global,
    component: &sr_tree::Component,
    number: u32,
    imports: &[Row<u32>],
    scene: &mut Scene,
) -> Result<(), NoMemory>
    ensures { OnOk result (scene.new ≡ record { facts = scene.old.facts; component = number; imports = outline.imports_at imports.now number; own = numbers.initial_spots scene.old.facts component.now; tables = scene.old.tables }) }
{
    let globals = copied(alloc, imports_at(imports, number))?;
    let own = initial_spots(alloc, component, &scene.facts)?;
    scene.component = number;
    scene.imports = globals;
    scene.own = own;
    Ok(())
}

/// A component with this code, where the scene stands at it.
fn component_with(
    alloc: Global,
    component: &sr_tree::Component,
    imports: &[Row<u32>],
    scene: &Scene,
    codes: Boxed<Codes>,
) -> Result<Component, NoMemory>
    ensures { IfOk result (λ made. made ≡ whole.component_with scene.now imports.now component.now codes) }
{
    let name = component.name().text.copy(alloc)?;
    let globals = copied(alloc, scene.imports.as_slice())?;
    let needs = needs_of(alloc, imports, scene.component)?;
    let owns = scene.own.count()?;
    let formals = component_formals(alloc, scene, component.formals())?;
    let Codes { initial, last } = codes.into_inner();
    Ok(Component {
        name,
        place: line_of(component.span()),
        kind: kind_of(component),
        formals,
        imports: globals,
        needs,
        initial: Body {
            owns,
            block: initial,
        },
        final_code: last,
    })
}

/// A component, where the scene stands at it.
fn component_core(
    alloc: Global,
    component: &sr_tree::Component,
    imports: &[Row<u32>],
    scene: &mut Scene,
    gathered: &mut Gathered,
) -> Result<Component, NoMemory>
    ensures value { IfOk result (λ made. made ≡ (whole.whole_in scene.old imports.now component.now).component) }
    ensures gathered { OnOk result (gathered.new ≡ whole.with_wholes gathered.old (whole.whole_in scene.old imports.now component.now ∷ [])) }
    ensures scene { OnOk result (scene.new ≡ scene.old) }
{
    let codes = codes_of(alloc, component, scene, gathered)?;
    component_with(alloc, component, imports, scene, codes)
}

/// Appends a component to the others. The facts are afterwards seen from where they were before.
fn push_component(
    alloc: Global,
    component: &sr_tree::Component,
    number: u32,
    imports: &[Row<u32>],
    scene: &mut Scene,
    gathered: &mut Gathered,
    components: &mut Row<Component>,
) -> Result<(), NoMemory>
    ensures components { OnOk result (components.new ≡ components.old ++ (whole.whole_of scene.old.facts scene.old.tables imports.now (number, component.now)).component ∷ []) }
    ensures gathered { OnOk result (gathered.new ≡ whole.with_wholes gathered.old (whole.whole_of scene.old.facts scene.old.tables imports.now (number, component.now) ∷ [])) }
    ensures facts { OnOk result (scene.new.facts ≡ scene.old.facts) }
    ensures tables { OnOk result (scene.new.tables ≡ scene.old.tables) }
{
    let here = Here {
        component: component_decl(component),
        in_guard: false,
    };
    let around = mem::replace(&mut scene.facts.here, here);
    stand(alloc, component, number, imports, scene)?;
    let made = component_core(alloc, component, imports, scene, gathered)?;
    scene.facts.here = around;
    components.push(made)
}

/// Appends components, numbered from this number on. Returns the number after the last.
fn push_components(
    alloc: Global,
    trees: &[sr_tree::Component],
    first: usize,
    imports: &[Row<u32>],
    scene: &mut Scene,
    gathered: &mut Gathered,
    components: &mut Row<Component>,
) -> Result<usize, NoMemory>
    ensures components { OnOk result (components.new ≡ components.old ++ whole.all_components (whole.wholes_from scene.old.facts scene.old.tables imports.now first trees.now)) }
    ensures gathered { OnOk result (gathered.new ≡ whole.with_wholes gathered.old (whole.wholes_from scene.old.facts scene.old.tables imports.now first trees.now)) }
    ensures facts { OnOk result (scene.new.facts ≡ scene.old.facts) }
    ensures tables { OnOk result (scene.new.tables ≡ scene.old.tables) }
    ensures next { IfOk result (λ next. next ≡ first + length trees.now) }
{
    let mut number = first;
    for component in trees {
        let at = number_of(number)?;
        push_component(alloc, component, at, imports, scene, gathered, components)?;
        number += 1;
    }
    Ok(number)
}

fn components_of(
    alloc: Global,
    files: &[File],
    imports: &[Row<u32>],
    scene: &mut Scene,
    gathered: &mut Gathered,
) -> Result<Row<Component>, NoMemory>
    ensures value { IfOk result (λ all. all ≡ whole.all_components (whole.wholes_from scene.old.facts scene.old.tables imports.now 0 (components_in files.now))) }
    ensures gathered { OnOk result (gathered.new ≡ whole.with_wholes gathered.old (whole.wholes_from scene.old.facts scene.old.tables imports.now 0 (components_in files.now))) }
    ensures tables { OnOk result (scene.new.tables ≡ scene.old.tables) }
{
    let mut components = Row::new(alloc);
    let mut number = 0usize;
    for file in files {
        let trees = file.components.as_slice();
        number = push_components(
            alloc,
            trees,
            number,
            imports,
            scene,
            gathered,
            &mut components,
        )?;
    }
    Ok(components)
}

/// What a program is in the core besides its operations.
#[derive(Drop)]
struct Parts {
    components: Row<Component>,
    gathered: Gathered,
    names: EnumNames,
}

/// The components of all files, their procs and sites, and the names of enumerations.
fn parts_in(alloc: Global, files: &[File], scene: &mut Scene) -> Result<Parts, NoMemory>
    ensures components { IfOk result (λ parts. parts.components ≡ whole.all_components (whole.wholes_of scene.old.facts (components_in files.now) scene.old.tables)) }
    ensures gathered { IfOk result (λ parts. parts.gathered ≡ whole.with_wholes (record { procs = []; sites = [] }) (whole.wholes_of scene.old.facts (components_in files.now) scene.old.tables)) }
    ensures names { IfOk result (λ parts. parts.names ≡ outline.enumerations_of (components_in files.now)) }
    ensures tables { OnOk result (scene.new.tables ≡ scene.old.tables) }
{
    let mut gathered = Gathered {
        procs: Row::new(alloc),
        sites: Row::new(alloc),
    };
    let imports = all_imports(alloc, files, &scene.facts, &scene.tables.components)?;
    let names = enumerations_of(alloc, files)?;
    let components = components_of(alloc, files, imports.as_slice(), scene, &mut gathered)?;
    Ok(Parts {
        components,
        gathered,
        names,
    })
}

/// Takes the operations out of the tables.
fn take_operations(alloc: Global, tables: &mut Tables) -> Result<Row<Operation>, NoMemory>
    ensures { IfOk result (λ operations. operations ≡ things_in tables.old.operations) }
{
    let operations = mem::replace(&mut tables.operations, SpotMap::new(alloc));
    operations.into_things(alloc)
}

/// A program of these parts and operations.
fn core_with(parts: Parts, operations: Row<Operation>) -> Core
    ensures { result ≡ record { components = parts.components; operations = operations; procs = parts.gathered.procs; sites = parts.gathered.sites; names = parts.names } }
{
    let Parts {
        components,
        gathered,
        names,
    } = parts;
    let Gathered { procs, sites } = gathered;
    Core {
        components,
        operations,
        procs,
        sites,
        names,
    }
}

/// The core of a program whose tables the scene has. The operations go from the tables to the core.
fn core_in(alloc: Global, files: &[File], scene: &mut Scene) -> Result<Core, NoMemory>
    ensures { IfOk result (λ program. program ≡ whole.core_by scene.old.facts (components_in files.now) scene.old.tables) }
{
    let parts = parts_in(alloc, files, scene)?;
    let parts = Boxed::new(alloc, parts)?;
    let operations = take_operations(alloc, &mut scene.tables)?;
    Ok(core_with(parts.into_inner(), operations))
}

/// The core of the components of all files, by what is known of the program.
pub fn to_core(alloc: Global, files: &[File], facts: Facts) -> Result<Core, NoMemory>
    ensures { IfOk result (λ program. program ≡ whole.core_of files.now facts) }
{
    let tables = tables_of(alloc, files, &facts)?;
    let mut scene = Scene {
        facts,
        component: 0,
        imports: Row::new(alloc),
        own: Spots::new(alloc),
        tables,
    };
    core_in(alloc, files, &mut scene)
}
