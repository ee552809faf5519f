//! What the expressions of an SR program ask, by a walk over the tree.
#![tactic(auto)]

mod apply;
mod array;
mod call;
mod expression;
mod globals;
mod interpreter;
mod invoke;
mod leaf;
mod listening;
mod places;
mod reading;
mod scene;
mod settle;
mod stop;
mod ticking;
mod typed;

pub use call::{give_back, places_in, values_in};
pub use expression::{evaluate, evaluate_all, evaluate_arguments, locate};
pub use globals::{ensure, needs};
pub use interpreter::Interpreter;
pub use invoke::reply_to;
pub use listening::{IsDone, IsMade, IsMoment, Takes, ask};
pub use places::{load, put_own, store};
pub use scene::{HasCore, Scene};
pub use settle::{count, failed, operated};
pub use stop::Stop;
pub use ticking::{at_line, room, tick};
pub use typed::{cap_of, holds, number_of, truth_of};
