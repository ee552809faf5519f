//! What each name of a program means, or why it means nothing.
//!
//! Each construct has findings: the uses of its names and the rules of names that it breaks, in the order of the
//! text. [`resolve`] notes the findings of all files and answers the meanings, or the first rule that is broken.
#![tactic(auto)]

mod components;
mod declarations;
mod declares;
mod exprs;
mod items;
mod laws;
mod literals;
mod names;
mod procs;
mod program;
mod statements;
mod types;

pub use laws::{one_meaning, procs_mean_shared, served_once};
pub use program::{Names, refusal_of, resolve};
