//! The parts of a component, whichever way it is written.
ghost use Rattle.std.specs.Prelude.{◌≡◌};
ghost use Rattle.sr_tree.specs.Parts.{span_of, name_of, spec_of, formals_of, body_of};

use crate::component::{Component, Item, SpecItem};
use crate::name::Name;
use crate::types::Formal;
use sr_value::Span;

impl Component {
    /// The first token of a component.
    pub fn span(&self) -> Span
        ensures { result ≡ span_of self.now }
    {
        match self {
            Component::Resource { span, .. }
            | Component::SplitResource { span, .. }
            | Component::Global { span, .. } => *span,
        }
    }

    /// The name of a component.
    pub fn name(&self) -> &Name
        ensures { result.now ≡ name_of self.now }
    {
        match self {
            Component::Resource { name, .. }
            | Component::SplitResource { name, .. }
            | Component::Global { name, .. } => name,
        }
    }

    /// The spec of a component. A resource that has its formals directly after its name is all body.
    pub fn spec(&self) -> &[SpecItem]
        ensures { result.now ≡ spec_of self.now }
    {
        match self {
            Component::Resource { .. } => &[],
            Component::SplitResource { spec, .. } | Component::Global { spec, .. } => {
                spec.as_slice()
            }
        }
    }

    /// The formals of a component; a global has none.
    pub fn formals(&self) -> &[Formal]
        ensures { result.now ≡ formals_of self.now }
    {
        match self {
            Component::Resource { formals, .. } | Component::SplitResource { formals, .. } => {
                formals.as_slice()
            }
            Component::Global { .. } => &[],
        }
    }

    /// The body of a component.
    pub fn body(&self) -> &[Item]
        ensures { result.now ≡ body_of self.now }
    {
        match self {
            Component::Resource { items, .. } | Component::SplitResource { items, .. } => {
                items.as_slice()
            }
            Component::Global { body, .. } => match body {
                Some(items) => items.as_slice(),
                None => &[],
            },
        }
    }
}
