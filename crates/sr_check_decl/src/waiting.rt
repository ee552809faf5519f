ghost use Rattle.std.specs.Prelude.{◌≡◌, ◌∷◌, ◌++◌, [], IfOk, OnOk, map};
ghost use Rattle.sr_check_decl.specs.Waits.{seen};
ghost use Rattle.sr_check_decl.specs.Waiting.{const_waiting, vars_waiting, spec_item_waiting, spec_items_waiting, item_waiting, items_waiting, component_waiting, components_waiting, files_waiting, unless_typed};

use crate::parts::component_decl;
use crate::variables::may_be_untyped;
use sr_names::{Decl, Spot};
use sr_tree::{Component, ConstDecl, Expr, File, Item, SpecItem, VarDecl};
use sr_value::{NoMemory, Row, Span};
use std::alloc::Global;

/// A declaration without a type. It waits for the type of its value.
#[derive(Clone, Copy)]
pub(crate) struct Waits<'a> {
    pub span: Span,
    /// Where the name stands.
    pub spot: Spot,
    /// The component that declares it.
    pub component: Decl,
    pub is_constant: bool,
    pub in_spec: bool,
    pub value: &'a Expr,
}

fn push_const<'a>(
    all: &mut Row<Waits<'a>>,
    component: Decl,
    in_spec: bool,
    tree: &'a ConstDecl,
) -> Result<(), NoMemory>
    ensures { OnOk result (map seen all.new ≡ map seen all.old ++ unless_typed tree.now.ty (const_waiting in_spec component tree.now ∷ [])) }
{
    match &tree.ty {
        Some(_) => Ok(()),
        None => all.push(Waits {
            span: tree.span,
            spot: Spot::of(tree.name.span),
            component,
            is_constant: true,
            in_spec,
            value: &tree.value,
        }),
    }
}

fn push_vars<'a>(
    all: &mut Row<Waits<'a>>,
    component: Decl,
    span: Span,
    decls: &'a [sr_tree::Decl],
    values: &'a [Expr],
) -> Result<(), NoMemory>
    ensures { OnOk result (map seen all.new ≡ map seen all.old ++ vars_waiting component span decls.now values.now) }
{
    if !may_be_untyped(decls, values) {
        return Ok(());
    }
    match (decls, values) {
        ([decl], [value]) => all.push(Waits {
            span,
            spot: Spot::of(decl.name.span),
            component,
            is_constant: false,
            in_spec: false,
            value,
        }),
        _ => Ok(()),
    }
}

fn push_var<'a>(
    all: &mut Row<Waits<'a>>,
    component: Decl,
    tree: &'a VarDecl,
) -> Result<(), NoMemory>
    ensures { OnOk result (map seen all.new ≡ map seen all.old ++ unless_typed tree.now.ty (vars_waiting component tree.now.span tree.now.decls tree.now.values)) }
{
    match &tree.ty {
        Some(_) => Ok(()),
        None => push_vars(
            all,
            component,
            tree.span,
            tree.decls.as_slice(),
            tree.values.as_slice(),
        ),
    }
}

fn push_spec_item<'a>(
    all: &mut Row<Waits<'a>>,
    component: Decl,
    in_spec: bool,
    item: &'a SpecItem,
) -> Result<(), NoMemory>
    ensures { OnOk result (map seen all.new ≡ map seen all.old ++ spec_item_waiting in_spec component item.now) }
{
    match item {
        SpecItem::Const(tree) => push_const(all, component, in_spec, tree),
        SpecItem::Var(tree) => push_var(all, component, tree),
        SpecItem::Import(_)
        | SpecItem::Type(_)
        | SpecItem::OpType(_)
        | SpecItem::Op(_)
        | SpecItem::Sem(_) => Ok(()),
    }
}

fn push_spec<'a>(
    all: &mut Row<Waits<'a>>,
    component: Decl,
    items: &'a [SpecItem],
) -> Result<(), NoMemory>
    ensures { OnOk result (map seen all.new ≡ map seen all.old ++ spec_items_waiting component items.now) }
{
    for item in items {
        push_spec_item(all, component, true, item)?;
    }
    Ok(())
}

fn push_item<'a>(all: &mut Row<Waits<'a>>, component: Decl, item: &'a Item) -> Result<(), NoMemory>
    ensures { OnOk result (map seen all.new ≡ map seen all.old ++ item_waiting component item.now) }
{
    match item {
        Item::Spec(inner) => push_spec_item(all, component, false, inner),
        Item::Proc(_)
        | Item::Procedure(_)
        | Item::Process(_)
        | Item::Final(_)
        | Item::Statement(_) => Ok(()),
    }
}

fn push_items<'a>(
    all: &mut Row<Waits<'a>>,
    component: Decl,
    items: &'a [Item],
) -> Result<(), NoMemory>
    ensures { OnOk result (map seen all.new ≡ map seen all.old ++ items_waiting component items.now) }
{
    for item in items {
        push_item(all, component, item)?;
    }
    Ok(())
}

fn push_component<'a>(all: &mut Row<Waits<'a>>, component: &'a Component) -> Result<(), NoMemory>
    ensures { OnOk result (map seen all.new ≡ map seen all.old ++ component_waiting component.now) }
{
    let decl = component_decl(component);
    push_spec(all, decl, component.spec())?;
    push_items(all, decl, component.body())
}

fn push_components<'a>(
    all: &mut Row<Waits<'a>>,
    components: &'a [Component],
) -> Result<(), NoMemory>
    ensures { OnOk result (map seen all.new ≡ map seen all.old ++ components_waiting components.now) }
{
    for component in components {
        push_component(all, component)?;
    }
    Ok(())
}

/// The declarations outside of procs and blocks that wait for the type of their value.
pub(crate) fn files_waiting(alloc: Global, files: &[File]) -> Result<Row<Waits<'_>>, NoMemory>
    ensures { IfOk result (λ all. map seen all ≡ files_waiting files.now) }
{
    let mut all = Row::new(alloc);
    for file in files {
        push_components(&mut all, file.components.as_slice())?;
    }
    Ok(all)
}
