//! What a process of an SR program asks, by a walk over the tree of its core.
#![tactic(auto)]

mod action;
mod endings;
mod inner;
mod process;
mod role;
mod sends;
mod statement;

pub use process::tree_ask;
