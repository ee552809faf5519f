//! The rules of kinds and types: whether a program whose names have meanings meets them, and what is known of it
//! then.
//!
//! Each construct has findings, the rules that it breaks, in the order of the text; what is declared is threaded
//! through them. [`check`] answers the first rule that is broken, or all that is declared: with it the type and the
//! static value of each expression are what [`sr_check_expr::expr`] gives.
#![tactic(auto)]

mod components;
mod enclosing;
mod invoking;
mod laws;
mod operation;
mod procs;
mod program;
mod quantifying;
mod receiving;
mod results;
mod services;
mod serving;
mod statements;
mod storing;
mod uses;

pub use laws::{declared_stay_known, known_are_declared, services_its_own, waited_have_no_proc};
pub use program::check;
