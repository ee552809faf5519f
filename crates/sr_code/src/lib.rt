//! The flat code of a program, and what running code asks.
//!
//! An address counts the instructions from there down to the end of the row: the instruction at address `n`
//! stands at index `n - 1`, and running goes from higher addresses to lower ones. Address 0 is the end of
//! every process.
#![tactic(auto)]

mod code;
mod fifo;
mod instruction;
pub mod laws;
mod numbers;
mod operands;
mod outs;
mod stack;

pub use code::{Code, Coded, Entry, Program};
pub use fifo::Fifo;
pub use instruction::Instruction;
pub use numbers::Numbers;
pub use operands::{Call, Completed, Operands, Reading};
pub use outs::Outs;
pub use stack::Stack;
