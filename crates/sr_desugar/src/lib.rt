//! From checked files to the core: each abbreviation written out, and names as numbers.
//!
//! The typed program is the trees of the files together with [`sr_check_expr::Facts`].
#![tactic(auto)]

mod bodies;
mod declarations;
mod laws;
mod program;
mod quantifiers;
mod receives;
mod simple;
mod statements;

pub use laws::{each_wait_has_its_site, numbers_exist};
pub use program::to_core;
