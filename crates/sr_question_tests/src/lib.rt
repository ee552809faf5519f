//! Tests of what is asked of the journal of a run, over files in memory.
#![tactic(auto)]

#[cfg(test)]
mod closure;
#[cfg(test)]
mod links;
#[cfg(test)]
mod races;
#[cfg(test)]
mod support;
#[cfg(test)]
mod traces;
