//! What each request touches of a world.
#![tactic(auto)]

#[cfg(test)]
mod program;
#[cfg(test)]
mod requests;
#[cfg(test)]
mod touching;
