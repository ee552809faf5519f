//! Who holds which invocation, and which replies wait for whom.
//!
//! What a process holds and the replies to it stand together, and are found by its number.
#![tactic(auto)]

mod bucket;
mod calls;
mod held;
mod laws;
mod process_calls;

pub use bucket::Bucket;
pub use calls::Calls;
pub use held::{Held, Reply};
pub use laws::{each_has_its_own_replies, each_holds_its_own, earlier_reply_goes_first};
