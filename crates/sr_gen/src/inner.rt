use sr_core::{CoCall, Quantifier, Statement};

/// What stands after quantifiers.
#[derive(Clone, Copy)]
pub enum Inner<'a> {
    /// The block of a `fa`.
    Block(&'a [Statement]),
    /// The invocation of an arm of a `co`.
    Call {
        arm: u32,
        call: &'a CoCall,
        quantifiers: &'a [Quantifier],
    },
}
