//! The code of expressions: of their places, arguments, calls, `create`s and `read`s; and of declarations and
//! formals.
//!
//! Code is emitted backwards: what runs last is emitted first.
#![tactic(auto)]

mod call;
mod create;
mod declaration;
mod emitting;
mod expression;
mod formals;
mod leaf;
mod reading;
mod shape;
mod typed;

pub use call::{default_of, gen_answer};
pub use create::{gen_ensured, needs};
pub use declaration::gen_declaration;
pub use emitting::emit;
pub use expression::{gen_arguments, gen_expr, gen_list, gen_place};
pub use formals::{gen_formals, gen_returned};
pub use shape::gen_shape;
pub use typed::{gen_cap, gen_number};
