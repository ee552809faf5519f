ghost use Rattle.std.specs.Prelude.{◌≡◌};
ghost use Rattle.sr_check_decl.specs.Parts.{sort_of, component_decl};

use sr_names::{Decl, Sort, Spot};
use sr_tree::Component;

fn sort_of(component: &Component) -> Sort
    ensures { result ≡ sort_of component.now }
{
    match component {
        Component::Resource { .. } | Component::SplitResource { .. } => Sort::Resource,
        Component::Global { .. } => Sort::Global,
    }
}

/// The declaration that a component is.
pub fn component_decl(component: &Component) -> Decl
    ensures { result ≡ component_decl component.now }
{
    Decl {
        sort: sort_of(component),
        spot: Spot::of(component.name().span),
    }
}
