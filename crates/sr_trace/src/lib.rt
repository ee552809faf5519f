//! The text and the picture of a trace: what each item of a run did, and from which items it is linked.
#![tactic(auto)]

mod asking;
mod drawing;
mod escaping;
mod laws;
mod line;
mod picture;
mod shown;
mod spot;
mod traced;
mod words;

pub use asking::{act_of, subject_of};
pub use laws::{arrows_are_links, one_column_each};
pub use line::trace_text;
pub use picture::picture_text;
pub use traced::{Act, Runs, Subject, Traced};
