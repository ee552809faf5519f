//! The code of statements, of the kinds of processes, and of a whole program.
//!
//! Code is emitted backwards: what runs last is emitted first.
#![tactic(auto)]

mod action;
mod condition;
mod inner;
mod invocation;
mod patching;
mod program;
mod quantifiers;
mod role;
mod sends;
mod site;
mod statement;
mod turns;
mod ways;

pub use action::gen_action;
pub use condition::{gen_condition, gen_truth};
pub use program::generate;
pub use role::{gen_boot, gen_final, gen_initial, gen_proc};
pub use statement::{gen_block, gen_statement};
pub use ways::Ways;
