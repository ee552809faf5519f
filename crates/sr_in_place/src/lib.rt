//! Stores of a value into a place that stands.
#![tactic(auto)]

mod checking;
mod extents;
mod fitting;
mod laws;
mod putting;

pub use checking::check_put;
pub use fitting::fit;
pub use laws::store_is_to_one_place;
pub use putting::put;
