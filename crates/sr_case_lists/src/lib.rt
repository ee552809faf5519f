//! Lists of answers for the processes of a program, made from the numbers of the lists, and whether the code of a process
//! asks after each of their prefixes what its tree asks.
#![tactic(auto)]

mod answering;
mod changes;
mod comparing;
mod kept;
mod picks;
mod replies;
mod starts;
mod telling;
mod values;

pub use telling::tell_program;
