//! The values of SR, the places and names that go with them, and the collections that hold them.
//!
//! A [`Row`] is a `Vec`, a [`Boxed`] a `Box` and a [`Text`] a `Vec` of bytes which contracts see as what
//! they hold, so that a tree of them is plain data: two trees are equal where their contents are.
#![tactic(auto)]

mod boxed;
mod capability;
mod compare;
mod copies;
mod division;
mod evaluation;
mod fault;
mod fits;
mod index;
mod load;
mod memory;
mod operand;
mod operator;
mod part;
mod place;
mod predefined;
mod row;
mod shape;
mod shared;
mod store;
mod text;
mod unset;
mod value;
mod value_text;

pub use boxed::Boxed;
pub use capability::{Cap, Owner};
pub use compare::Compare;
pub use copies::Duplicate;
pub use division::{modulo, quotient, remainder};
pub use evaluation::{MOST_BYTES, arith, unary};
pub use fault::{Fault, ValueFail};
pub use fits::fitted;
pub use index::{byte_place, field_place, item_place};
pub use load::{loaded, part_of};
pub use memory::NoMemory;
pub use operator::Operator;
pub use part::step_at;
pub use place::{Place, Span};
pub use predefined::{
    Dimension, absolute, char_of, greatest, highest, int_of, least, length_of, lower_bound, lowest,
    parse_int, predecessor, string_of, successor, upper_bound,
};
pub use row::Row;
pub use shape::{Dims, Sel, Shape};
pub use shared::Shared;
pub use store::stored;
pub use text::Text;
pub use unset::{
    MOST_CELLS, default_of, has_bounds_in_range, has_few_cells, has_strings_in_range, indices,
    shape_fault,
};
pub use value::Value;
pub use value_text::{EnumNames, text_of};
