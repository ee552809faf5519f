//! Tests of races: which accesses conflict, and how many items and processes may be searched.
#![tactic(auto)]

#[cfg(test)]
mod conflicts;
#[cfg(test)]
mod limits;
