//! The parts of components, tables by the spots of declarations, and what the core of an expression names.
#![tactic(auto)]

mod parts;
mod shapes;
mod sites;
mod tables;

pub use parts::{component_decl, deciding, kind_of, line_of, op_item_name, spot_named};
pub use shapes::{MOST_BYTES, copy_shape, shape_at};
pub use sites::site_of;
pub use tables::{Head, SharedVariable, SpotMap, Spots, Tables, number_of};
