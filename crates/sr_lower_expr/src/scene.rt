use sr_check_expr::Facts;
use sr_core::{Expr, PlaceExpr};
use sr_tables::{Spots, Tables};
use sr_value::Row;

/// Where code stands, with all that is known there.
#[derive(Drop)]
pub struct Scene {
    /// What names mean and what is declared, as seen from the component.
    pub facts: Facts,
    /// The number of the component.
    pub component: u32,
    /// The globals that the component imports.
    pub imports: Row<u32>,
    /// The own variables of the process whose code it is.
    pub own: Spots,
    pub tables: Tables,
}

/// What an expression becomes in the core.
#[derive(Drop)]
pub enum Lowered {
    /// A place: a variable or a part of one.
    Place(PlaceExpr),
    /// A value that stands at no place.
    Value(Expr),
}
