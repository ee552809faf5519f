//! What a process holds of its own while it runs: variables, services, invocations that are out.
#![tactic(auto)]

mod answers;
mod copies;
mod results;
mod scene;
mod services;
mod shapes;
mod variables;
mod writing;

pub use answers::{done, got, made, moment, number, read_item, ready, selected, took};
pub use copies::{
    copied_gives, copied_out, copied_pick, copied_pieces, copied_service, copied_variables,
};
pub use results::{instance_in, value_after};
pub use scene::Scene;
pub use services::{results_now, service_with, whole};
pub use shapes::bounded_by;
pub use variables::{
    number_held, number_own, own_copies, own_copy, own_stored, own_value, set_number, set_own,
    set_vars, turn_held, undeclared,
};
pub use writing::{joined, texts_in};
