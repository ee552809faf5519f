//! Choices of an `in` statement, the machine, and a whole run by the reference interpreter: each call once. What a process
//! asks about time, by its tree and by its code, of a core that no text gives.
#![tactic(auto)]

#[cfg(test)]
mod asking;
#[cfg(test)]
mod choices;
#[cfg(test)]
mod coded;
#[cfg(test)]
mod counted;
#[cfg(test)]
mod machine;
#[cfg(test)]
mod program;
#[cfg(test)]
mod runs;
#[cfg(test)]
mod tests;
#[cfg(test)]
mod world;
