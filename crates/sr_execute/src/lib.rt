//! Single instructions of flat code: carried out up to a request, and gone on with after an answer.
#![tactic(auto)]

mod calls;
mod co;
mod execution;
mod frame;
pub mod laws;
mod operators;
mod parts;
mod places;
mod putting;
mod quick;
mod quick_calls;
mod quick_variables;
mod reading;
mod results;
mod resumption;
mod services;
mod shapes;
mod simple;
mod step;
mod ticks;
mod tops;
mod variables;
mod writing;

pub use execution::execute;
pub use frame::Frame;
pub use quick::{Carried, execute_quickly};
pub use resumption::resume;
pub use step::Step;
