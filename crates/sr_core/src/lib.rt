//! The core of an SR program: its components with every abbreviation written out.
//!
//! A core has no process, procedure, receive, semaphore, `P` or `V`: they stand in it as operations, procs,
//! `in` statements and sends. Names are numbers. Components, operations, procs and `in` statements are
//! counted through the whole program, the shared variables of a component from 0, and the own variables
//! of a process from 0 in each proc, initial code and final code.
#![tactic(auto)]

mod applied;
mod brackets;
mod component;
mod expression;
mod formal;
mod formals;
mod operand;
mod owner;
mod piece;
mod site;
mod statement;

pub use applied::apply;
pub use brackets::array;
pub use component::{Body, Component, Core, Kind, Operation, Parameter, Proc};
pub use expression::{Argument, Expr, Function, Leaf, Part, PlaceExpr, Readable, Reading, Step};
pub use formal::{Formal, FormalShape, Mode, Returned};
pub use formals::{formal_shape, high_bound, sent_after, sent_to};
pub use operand::{capability, count, member, number, truth};
pub use owner::{Classes, Home, Me, OperationOwner, Root};
pub use piece::Piece;
pub use site::{Arm, Named, SharedRead, Site};
pub use statement::{
    Action, Bump, CoArm, CoCall, Declaration, DimsExpr, Direction, Guarded, ItemShape, Quantifier,
    Range, Scope, Setup, ShapeExpr, Statement,
};
