//! What a program declares outside of code, and the numbers of it: types, signatures, operations, variables, imports.
//!
//! A number is the place of a declaration in a list of declarations in the order of the text; `specs/Numbers.antt`
//! has these lists.
#![tactic(auto)]

mod globals;
mod heads;
mod imports;
mod laws;
mod operations;
mod outline;
mod shapes;
mod variables;
mod waits;
mod weights;

pub use heads::parameters_of;
pub use imports::{all_imports, imports_at, needs_of};
pub use operations::OperationTable;
pub use outline::{enumerations_of, tables_of};
pub use shapes::type_shape;
pub use variables::{
    formal_spots, initial_spots, name_spots, own_spots, quantifier_spots, receive_returned,
    receive_spots, returned_spot, signature_returned,
};
pub use waits::wait_operation;
