//! What expressions are in the core: values, places, and invocations.
//!
//! What an expression is it takes from [`sr_check_expr::Facts`], and numbers from [`sr_tables::Tables`].
#![tactic(auto)]

mod exprs;
mod functions;
mod invoked;
mod operators;
mod places;
mod scene;
mod shapes;

pub use exprs::{
    Sent, boxed_value, core_call, core_create, core_place, core_sent, core_value, core_values,
    optional_value,
};
pub use places::{
    formals_of, nothing, operation_expr, operation_number, own_formals, own_number, own_place,
    own_returned, scope_of_operation,
};
pub use scene::{Lowered, Scene};
pub use shapes::shape_of_type;
