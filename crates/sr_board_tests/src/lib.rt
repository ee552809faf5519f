//! Parts with journals on a board, workers that act on one, two or three of them at a time, and tests with threads.
#![tactic(auto)]

#[cfg(test)]
mod acts;
#[cfg(test)]
mod gate;
#[cfg(test)]
mod hands;
#[cfg(test)]
mod judge;
mod parts;
mod slots;
#[cfg(test)]
mod teams;
#[cfg(test)]
mod tests;
#[cfg(test)]
mod work;

pub use parts::{Entry, Part};
pub use slots::{Place, Sheet, Sheets, Slot};
