//! Values and shapes as text, and what functions over values give.
#![tactic(auto)]

mod nodes;
mod value_printer;
mod value_reader;
mod values;

pub use nodes::{Node, Words, nodes_of};
pub use value_printer::{print_cap, print_quoted, print_shape, print_value, print_values};
pub use value_reader::{next_value, values_of};
pub use values::tell_call;
