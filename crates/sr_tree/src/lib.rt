//! The tokens of a source text, the trees that they spell, and the grammar that ties both.
//!
//! There is one type for each rule of the grammar and one variant for each of its alternatives, with the parts in
//! order. A `span` is the span of the first token. What stands in parentheses or a separated list is a `Row`.
#![tactic(auto)]

mod component;
mod declaration;
mod expr;
mod name;
mod parts;
mod statement;
mod token;
mod types;

pub use component::{
    Component, File, FinalCode, Item, Proc, ProcItem, Procedure, Process, SpecItem,
};
pub use declaration::{
    ConstDecl, Import, OpDecl, OpItem, OpTypeDecl, SemDecl, Semaphore, TypeDecl, VarDecl,
};
pub use expr::{
    BasicType, BinaryOperator, Conversion, Create, Expr, Invocation, Literal, Part, UnaryOperator,
};
pub use name::{Name, QualifiedName};
pub use statement::{
    Arm, ArmCondition, BlockItem, Branch, CoArm, ConditionWord, Direction, Quantifier, Statement,
};
pub use token::{Sign, Token, TokenKind, Tokens, Word};
pub use types::{
    Decl, DimsTree, Formal, InvocationKind, PassMode, RangeTree, Returned, Signature, TypePlace,
    TypeTree,
};
