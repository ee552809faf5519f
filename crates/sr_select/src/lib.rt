//! Which pending invocation an `in` statement services: the guards of its arms, and the choice.
#![tactic(auto)]

mod allowed;
mod arm;
mod choice;
mod choosing;
mod closed;
mod counted;
mod expression;
mod formals;
mod laws;
mod leaf;
mod least;
mod letting_go;
mod listed;
mod named;
mod names;
mod naming;
mod reads;
mod selection;
mod sight;

pub use choice::Choice;
pub use choosing::{Chosen, choose, choose_and_see, owner_in, unserviced};
pub use laws::{
    oldest_goes_first, one_class_decides, others_change_nothing, the_serviced_is_pending,
    what_was_read_decides, what_was_read_is_there,
};
pub use listed::names_listed;
pub use names::block_of;
pub use reads::Reads;
