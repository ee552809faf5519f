//! What a process of an SR program asks of the machine that runs it, what the machine answers, and the
//! items that a run is made of.
#![tactic(auto)]

mod answer;
mod ask;
mod block;
mod entry;
mod environment;
mod forms;
mod item;
mod numbers;
mod request;
mod start;

pub use answer::Answer;
pub use ask::{Ask, Asks, Role};
pub use entry::{Entry, Seen};
pub use environment::{Gives, Located, Out, Own, ReadTarget, Sent, Service, Spot};
pub use forms::{InputItem, Pick, Selection, Taken};
pub use item::Item;
pub use numbers::SharedNumbers;
pub use request::{ReadKind, Request};
pub use start::Start;
