//! The parts of components.
ghost use Rattle.std.specs.Prelude.{◌≡◌};
ghost use Rattle.sr_tables.specs.Parts as parts;

use sr_core::Kind;
use sr_names::{Decl, Sort, Spot};
use sr_tree::{Component, Name, OpItem, QualifiedName};
use sr_value::{Place, Span};

/// The line of a token.
pub fn line_of(span: Span) -> Place
    ensures { result ≡ parts.line_of span }
{
    Place {
        file: span.file,
        line: span.line,
    }
}

/// The spot of a name, by which its declaration is known.
pub fn spot_named(name: &Name) -> Spot
    ensures { result ≡ parts.spot_named name.now }
{
    Spot::of(name.span)
}

/// The last name of `name` or `component.name`, which decides what it means.
pub fn deciding(qualified: &QualifiedName) -> &Name
    ensures { result.now ≡ parts.deciding qualified.now }
{
    match &qualified.second {
        Some(name) => name,
        None => &qualified.first,
    }
}

/// Whether a component is a resource or a global, in the core.
pub fn kind_of(component: &Component) -> Kind
    ensures { result ≡ parts.kind_of component.now }
{
    match component {
        Component::Resource { .. } | Component::SplitResource { .. } => Kind::Resource,
        Component::Global { .. } => Kind::Global,
    }
}

/// The declaration of a component.
pub fn component_decl(component: &Component) -> Decl
    ensures { result ≡ parts.component_decl component.now }
{
    let sort = match component {
        Component::Resource { .. } | Component::SplitResource { .. } => Sort::Resource,
        Component::Global { .. } => Sort::Global,
    };
    Decl {
        sort,
        spot: spot_named(component.name()),
    }
}

/// The name of an operation that is declared.
pub fn op_item_name(op: &OpItem) -> &Name
    ensures { result.now ≡ parts.op_item_name op.now }
{
    match op {
        OpItem::Signed { name, .. } | OpItem::Typed { name, .. } => name,
    }
}
