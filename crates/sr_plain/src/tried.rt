use crate::plainly::Plainly;

/// What a try of a process came to.
#[derive(Drop)]
pub enum Tried {
    /// It hasn't begun, and nothing was done.
    Unbegun,
    /// It was asked, and made a step, or can't make one.
    Asked(Option<Plainly>),
}
