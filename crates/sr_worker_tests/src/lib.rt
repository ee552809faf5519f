//! Hands over a desk of the tests: turns, room, busy desks, and many threads.
#![tactic(auto)]

#[cfg(test)]
mod counting_gate;
#[cfg(test)]
mod fake_desk;
#[cfg(test)]
mod script;
#[cfg(test)]
mod tests;
