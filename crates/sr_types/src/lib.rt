//! The types of SR, when two of them are equal, which of them a place takes, and the rules that the constructs of
//! expressions put on the types of their operands.
//!
//! A type keeps just what equality looks at: an enumeration or a record type is its declaration, a
//! string type has no length and an array type no bounds, the type of an operation is the number of its
//! signature, and the names of formals are left out. Each signature of a program has one number. So two types
//! are equal where they are the same.
//!
//! A rule gets what the operands of a construct are, and gives what the whole is, or that the rule is
//! broken. An operand whose own rule was broken has no type: it may be of any type, and breaks no rule.
#![tactic(auto)]

mod aggregates;
mod conversions;
mod fitting;
mod hashing;
mod kinds;
pub mod laws;
mod operators;
mod parts;
mod predefined;
mod signature;
mod signatures;
mod spot;
mod storing;
mod ty;
mod typed;

pub use aggregates::{Repeated, bracketed};
pub use conversions::{char_conversion, int_conversion, string_conversion};
pub use fitting::fits;
pub use kinds::{may_be_bool, may_be_int, may_be_written, may_have_neighbours};
pub use operators::{binary, unary};
pub use parts::{field, index_one, index_two};
pub use predefined::{
    absolute, array_bound, end_of_file, high, least_or_greatest, low, neighbour, own_instance,
    own_machine, string_length,
};
pub use signature::{Forms, Mode, Param, Signature};
pub use signatures::Signatures;
pub use spot::Spot;
pub use storing::{may_store, takes_argument};
pub use ty::{Ty, same};
pub use typed::{Outcome, Static, Typed, refused};
