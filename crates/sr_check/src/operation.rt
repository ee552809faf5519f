use sr_names::Spot;
use sr_types::Ty;

/// An operation.
#[derive(Drop)]
pub struct Operation {
    /// Its declaration.
    pub spot: Spot,
    pub ty: Ty,
    /// The component that declares it.
    pub component: Spot,
    /// Whether a proc declares it.
    pub is_local: bool,
}
