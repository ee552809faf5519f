//! The front of the compiler: from the bytes of the files of a program to their trees and the meanings of their
//! names, and on to its core and its code; or the refusal of the program.
#![tactic(auto)]

mod compiling;
mod cores;
mod laws;
mod phases;
mod program;
mod sources;

pub use compiling::compile;
pub use cores::core_of;
pub use laws::{one_verdict, spots_apart};
pub use phases::MOST_BYTES;
pub use program::{Checked, accept};
pub use sources::read;
