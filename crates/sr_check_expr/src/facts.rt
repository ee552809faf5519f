use crate::infos::Infos;
use sr_names::{Decl, Members, Uses};
use sr_types::Signatures;

/// Where a construct stands.
#[derive(Clone, Copy)]
pub struct Here {
    /// The component.
    pub component: Decl,
    /// Whether it stands in what an arm says after `and`, `st` or `by`.
    pub in_guard: bool,
}

/// What rules may look at: what names mean, what is declared, and where a construct stands.
#[derive(Drop)]
pub struct Facts {
    /// The meaning of each use of a name.
    pub uses: Uses,
    /// The names of the components' specs.
    pub specs: Members,
    /// What declared names are.
    pub infos: Infos,
    /// The signatures of operations, whose numbers types keep.
    pub signatures: Signatures,
    pub here: Here,
}
