//! What the parts of statements without blocks ask, by a walk over the tree.
#![tactic(auto)]

mod co;
mod declarations;
mod formals;
mod lasting;
mod select;
mod service;
mod values;
mod writing;

pub use co::{
    PlacedReply, arm_out, set_out, set_turn, start_call, store_value, take_out, take_reply,
};
pub use declarations::declare;
pub use formals::{make_formals, make_returned, result_vars};
pub use lasting::ask_for_good;
pub use select::{arm_at, choose, service_for, set_service};
pub use service::{forward, reply, results};
pub use values::{Values, value_at, values_of};
pub use writing::settle_texts;
