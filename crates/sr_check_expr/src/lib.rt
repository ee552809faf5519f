//! The rules of expressions over finished trees: what is found in an expression, and what it is.
//!
//! Each construct gets the findings and the types of its parts, and adds the findings of its own rules. A part that was
//! refused has no type, so the constructs around it report no further error.
#![tactic(auto)]

mod arguments;
mod calls;
mod creating;
mod exprs;
mod facts;
mod functions;
mod info;
mod infos;
mod literals;
mod marks;
mod meanings;
mod naming;
mod operators;
mod typed_expr;
mod uses;
mod wholes;

pub use arguments::{
    Invoked, as_many, is_callable, is_sendable, note_values, returned_by, takes_as_many,
};
pub use calls::note_invocation;
pub use exprs::{all, create, expr, invocation};
pub use facts::{Facts, Here};
pub use functions::{function, note_guard};
pub use info::{FieldInfo, Info};
pub use infos::{Infos, name_spot, type_spot};
pub use literals::{basic, known};
pub use marks::{name_at, note_unless, note_value, refuse, settle, value_at};
pub use meanings::{
    constant_at, function_called, infer, is_constant, literals_of, meant_by, operation_meant,
    returns_something, type_at, type_of,
};
pub use naming::{deciding, decl_info, decl_of, name};
pub use typed_expr::{Named, TypedExpr};
pub use uses::{may_be_input, may_be_machine};
