use crate::ends::End;
use sr_ask::Answer;

/// What a request came to.
#[derive(Drop)]
pub enum Acted {
    /// It is done, with this answer.
    Done(Answer),
    /// It can't be done now.
    Cannot,
    /// The run ends.
    Ends(End),
    /// Bytes of the input that may still come decide.
    Undecided,
}
