//! Each call of the parts of a world once: lists in blocks, pending invocations, stores in place, shared variables,
//! instances and machines, calls.
#![tactic(auto)]

#[cfg(test)]
mod calls;
#[cfg(test)]
mod line;
#[cfg(test)]
mod numbers;
#[cfg(test)]
mod places;
#[cfg(test)]
mod queue;
#[cfg(test)]
mod variables;
