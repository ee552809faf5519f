//! Laws of lists: acts on parts of a whole in different orders, lists that ascend, and the merging of several lists
//! into one. No function here does anything: each carries a law in its contract.
#![tactic(auto)]

mod acts;
mod ascending;
mod merged;

pub use acts::{Acting, Recorded, journals_replay, orders_agree, parts_decide};
pub use ascending::{Placed, places_give_all};
pub use merged::{Entered, merge_is_one, merge_keeps_parts};
