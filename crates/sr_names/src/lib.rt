//! What the names of a program mean: declarations, the scopes that hold them, and what is found out about them.
//!
//! A declaration is known by the spot of its name. What a phase finds is a list of findings: uses of names with
//! their meanings, and rules that are broken. [`Diagnostics`] keeps the uses, and of the broken rules the first.
#![tactic(auto)]

mod cycles;
mod declarers;
mod diagnostics;
mod finding;
mod laws;
mod links;
mod marks;
mod meaning;
mod members;
mod place;
mod predefined;
mod reading;
mod search;
mod spot;
mod spots;
mod table;
mod targets;
mod visible;

pub use cycles::{Import, note_cycles};
pub use diagnostics::{Diagnostics, Uses};
pub use finding::{Diagnostic, Finding, Rule};
pub use laws::keeps_first;
pub use links::{Link, connects_along_ways};
pub use meaning::{Decl, Meaning, Sort};
pub use members::Members;
pub use place::{Blocks, Place};
pub use predefined::Predefined;
pub use reading::{declare, read, read_member};
pub use spot::Spot;
pub use spots::Spots;
pub use table::Table;
pub use visible::Visible;
