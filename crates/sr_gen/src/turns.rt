use crate::ways::Ways;

/// The turns of a quantifier: the address at which its next value is taken, and where what is inside it goes on.
#[derive(Clone, Copy)]
pub struct Turns {
    pub each: usize,
    pub inner: Ways,
}
