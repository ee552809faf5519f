//! The rules of types and declarations over finished trees: what types are written, what declarations declare, and
//! what is found in them.
#![tactic(auto)]

mod bounds;
mod constants;
mod cycles;
mod declarations;
mod declaring;
mod entering;
mod inferring;
mod kind;
mod names_in;
mod needers;
mod needs;
mod operations;
mod parts;
mod ranges;
mod signatures;
mod tally;
mod types;
mod variables;
mod waiting;
mod written;

pub use constants::constant;
pub use declarations::{note_operations, note_semaphores, note_spec_item, note_spec_items};
pub use declaring::declare_params;
pub use entering::{enter_operations, enter_written};
pub use inferring::program;
pub use kind::{BoundPolicy, Kind, NamedParam, Signed};
pub use operations::{declare_operations, declare_semaphores};
pub use parts::component_decl;
pub use tally::{declare, declare_name, stand, variable};
pub use types::decl_type;
pub use variables::{declare_locals, declare_variables, note_variables};
pub use written::{all_formals, signature, type_kind};
