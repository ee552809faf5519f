//! Which of the 32 parts of a world a request touches.
//!
//! A step that touches some parts alone can be made beside steps that touch others. A wide request can't.
#![tactic(auto)]

mod homes;
mod invoked;
mod parts;
mod site;
mod touch;

pub use homes::line_home;
pub use parts::Parts;
pub use touch::{is_wide, touched};
