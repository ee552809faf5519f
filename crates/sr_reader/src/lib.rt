//! Reading lists of symbols from their front, as parsers are stated and proved.
//!
//! It has no code: `specs/` has the readers, and `proofs/` shows that what a reader does with the front of a list
//! depends on that front and on one symbol after it.
#![tactic(auto)]
